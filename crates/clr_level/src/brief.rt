//! A refused command is noted in brief.
ghost use Rattle.std.specs.Prelude.{◌≡◌, option_map};
ghost use Rattle.clr_answer.specs.Decision.{is_accepted};
ghost use Rattle.clr_journal.specs.Line.{brief_kind};
ghost use Rattle.clr_level.specs.Journaling.{brief_of, is_show};

use clr_rules::{Command, Kind, Names, Reply, Tasks, Text};
use std::alloc::Global;

/// A command without its lists and its text, if it is of a kind that has them.
pub(crate) fn brief(alloc: Global, command: &Command) -> Option<Command>
    ensures { result ≡ option_map (brief_of command.now) (brief_kind command.now.kind) }
{
    match brief_kind(alloc, &command.kind) {
        Some(kind) => Some(Command {
            caller: command.caller,
            moment: command.moment,
            kind,
        }),
        None => None,
    }
}

/// The same of a kind.
fn brief_kind(alloc: Global, kind: &Kind) -> Option<Kind>
    ensures { result ≡ brief_kind kind.now }
{
    match kind {
        Kind::Order { clearance, .. } => Some(Kind::Order {
            clearance: *clearance,
            points: Names::new(Vec::new(alloc)),
            steps: Tasks::new(Vec::new(alloc)),
        }),
        Kind::Restore { clearance, .. } => Some(Kind::Restore {
            clearance: *clearance,
            steps: Tasks::new(Vec::new(alloc)),
        }),
        Kind::Switch { .. } => Some(Kind::Switch {
            steps: Tasks::new(Vec::new(alloc)),
        }),
        Kind::Repeat {
            clearance,
            step,
            ..
        } => Some(Kind::Repeat {
            clearance: *clearance,
            step: *step,
            text: Text::new(String::new(alloc)),
        }),
        _ => None,
    }
}

/// Whether a command asks for the state of a clearance.
pub(crate) fn is_show(command: &Command) -> bool
    ensures { result ≡ is_show command.now.kind }
{
    match &command.kind {
        Kind::Show { .. } => true,
        _ => false,
    }
}

/// Whether a reply says that the command was carried out.
pub(crate) fn is_accepted(reply: &Reply) -> bool
    ensures { result ≡ is_accepted reply.now }
{
    match reply {
        Reply::Accepted(_) | Reply::Added(_) => true,
        Reply::Shown(_) | Reply::Refused(_) => false,
    }
}
