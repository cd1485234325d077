//! Commands: what the register is asked to do.
ghost use Rattle.std.specs.Prelude.{◌≡◌};
ghost use Rattle.clr_rules.specs.Command.{named_clearance, named_place};

use crate::clearance_id::ClearanceId;
use crate::items::Names;
use crate::moment::Moment;
use crate::tasks::Tasks;
use crate::text::Text;
use clr_net::Name;

/// A command: who gives it, when, and what it asks for. The caller is believed.
#[derive(Debug, Drop)]
pub struct Command {
    pub caller: Name,
    /// When it is given. `show` and `jumper` do not look at it.
    pub moment: Moment,
    pub kind: Kind,
}

/// What a command asks for.
///
/// A step is named by its number in the clearance's present round, counted from 1.
#[derive(Debug, Drop)]
pub enum Kind {
    /// One who may be in charge asks for a clearance on a section: 29 CFR 1910.269(m)(3)(i).
    Request {
        section: Name,
    },
    /// An operator writes the isolating steps of a clearance: (m)(3)(ii), (iii).
    Order {
        clearance: ClearanceId,
        /// The switching points that are to be held open.
        points: Names,
        steps: Tasks,
    },
    /// An operator gives a step out to the field.
    Instruct {
        clearance: ClearanceId,
        step: u16,
    },
    /// The field repeats an instructed step's text back: the project's own.
    Repeat {
        clearance: ClearanceId,
        step: u16,
        text: Text,
    },
    /// The reader of a step reports that it was done, or that it was not.
    Report {
        clearance: ClearanceId,
        step: u16,
        done: bool,
    },
    /// An operator gives the clearance: (m)(3)(vi).
    Grant {
        clearance: ClearanceId,
    },
    /// The holder has tested a section, and it was dead or it was not: (m)(3)(vi).
    Test {
        clearance: ClearanceId,
        section: Name,
        dead: bool,
    },
    /// The holder grounds a section: (m)(3)(vii), (n)(5).
    Ground {
        clearance: ClearanceId,
        section: Name,
    },
    /// The holder takes the ground and the test off a section.
    Unground {
        clearance: ClearanceId,
        section: Name,
    },
    /// The holder signs a crew on: (m)(2)(iv).
    SignOn {
        clearance: ClearanceId,
        crew: Name,
    },
    /// The holder signs a crew off.
    SignOff {
        clearance: ClearanceId,
        crew: Name,
    },
    /// The clearance goes to another holder; in an emergency the holder's supervisor may say so:
    /// (m)(3)(ix).
    Transfer {
        clearance: ClearanceId,
        to: Name,
        emergency: bool,
    },
    /// The holder gives the clearance back: (m)(3)(x), (xi).
    Release {
        clearance: ClearanceId,
        /// Whether all employees are notified.
        notified: bool,
        /// Whether all employees are clear.
        clear: bool,
    },
    /// The holder gives up a request, an order that is not granted, or a switch order.
    Cancel {
        clearance: ClearanceId,
    },
    /// An operator writes the restoring steps: (m)(3)(xii), (xiii).
    Restore {
        clearance: ClearanceId,
        steps: Tasks,
    },
    /// An operator turns a waiting Close of a restoring order into a Leave.
    Amend {
        clearance: ClearanceId,
        step: u16,
    },
    /// An operator makes a switch order.
    Switch {
        steps: Tasks,
    },
    /// Anyone of the staff asks for the state of a clearance.
    Show {
        clearance: ClearanceId,
    },
    /// An operator joins two sections by a switching point that is in no file: the project's own.
    Jumper {
        point: Name,
        from: Name,
        /// The other section, which is new where the network does not have it.
        to: Name,
        /// Whether its design permits that it is made inoperable.
        lockable: bool,
        /// Whether it is controlled automatically or from afar.
        remote: bool,
    },
}

impl Kind {
    /// The clearance that the command names. A request and a switch order make a new one and name
    /// none, and a jumper is about none.
    pub fn clearance(&self) -> Option<ClearanceId>
        ensures { result ≡ named_clearance self.now }
    {
        match self {
            Kind::Request { .. } | Kind::Switch { .. } | Kind::Jumper { .. } => None,
            Kind::Order { clearance, .. }
            | Kind::Instruct { clearance, .. }
            | Kind::Repeat { clearance, .. }
            | Kind::Report { clearance, .. }
            | Kind::Grant { clearance }
            | Kind::Test { clearance, .. }
            | Kind::Ground { clearance, .. }
            | Kind::Unground { clearance, .. }
            | Kind::SignOn { clearance, .. }
            | Kind::SignOff { clearance, .. }
            | Kind::Transfer { clearance, .. }
            | Kind::Release { clearance, .. }
            | Kind::Cancel { clearance }
            | Kind::Restore { clearance, .. }
            | Kind::Amend { clearance, .. }
            | Kind::Show { clearance } => Some(*clearance),
        }
    }

    /// The section or the crew that the command names.
    pub fn place(&self) -> Option<Name>
        ensures { result ≡ named_place self.now }
    {
        match self {
            Kind::Request { section }
            | Kind::Test { section, .. }
            | Kind::Ground { section, .. }
            | Kind::Unground { section, .. } => Some(*section),
            Kind::SignOn { crew, .. } | Kind::SignOff { crew, .. } => Some(*crew),
            _ => None,
        }
    }
}
