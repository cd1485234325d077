//! Values within their types: what every value of the program is, and what rows of the tables have
//! to be to be read back.
ghost use Rattle.std.specs.Prelude.{Bool, IsTrue, nat_le};
ghost use Rattle.std.specs.List.{list_all};
ghost use Rattle.clr_net.specs.Name.{is_name};
ghost use Rattle.clr_rules.specs.Id.{is_id};
ghost use Rattle.clr_rules.specs.Moment.{is_moment};
ghost use Rattle.clr_load.specs.TypedRows.{is_id_or_none, is_name_or_none, is_typed_command};
ghost use Rattle.clr_load.specs.TypedRows.{is_typed_employee, is_typed_hold, is_typed_kind};
ghost use Rattle.clr_load.specs.TypedRows.{is_typed_point, is_typed_record, is_typed_section};
ghost use Rattle.clr_load.specs.TypedRows.{is_typed_state, is_typed_step, is_typed_task};
ghost use Rattle.clr_desk.specs.Typed.{has_typed_point, is_typed_network, is_typed_staff};

use clr_net::{Name, Network, PointRow, SectionRow};
use clr_order::Step;
use clr_rules::{
    ClearanceId, Command, Hold, Kind, Moment, Names, PointState, Record, StepRow, Tasks,
};
use clr_staff::{Staff, StaffRow};

/// A value within its type: a name has 1 to 24 bytes of its alphabet, a moment is not past 2099,
/// and so on.
pub(crate) trait Typed {
    /// Whether a value, as contracts see it, is within the type.
    ghost is_typed: { Self → Bool };

    /// Each value is: a law, with nothing to do.
    fn typed(&self)
        ensures { IsTrue (is_typed self.now) };
}

/// Each of these values is within its type.
pub(crate) fn all_typed<T: Typed>(values: &[T])
    ensures { IsTrue (list_all T.is_typed values.now) }
{
    for value in values {
        value.typed();
    }
}

impl Typed for Name {
    ghost is_typed = { is_name };

    fn typed(&self) {
        let _text = self.as_str();
    }
}

impl Typed for Option<Name> {
    ghost is_typed = { is_name_or_none };

    fn typed(&self) {
        match self {
            Some(name) => name.typed(),
            None => {}
        }
    }
}

impl Typed for ClearanceId {
    ghost is_typed = { is_id };

    fn typed(&self) {
        let _number = self.number();
        self.requester().typed();
    }
}

impl Typed for Option<ClearanceId> {
    ghost is_typed = { is_id_or_none };

    fn typed(&self) {
        match self {
            Some(id) => id.typed(),
            None => {}
        }
    }
}

impl Typed for Moment {
    ghost is_typed = { is_moment };

    fn typed(&self) {
        let _seconds = self.seconds();
    }
}

impl Typed for SectionRow {
    ghost is_typed = { is_typed_section };

    fn typed(&self) {
        self.name.typed();
    }
}

impl Typed for PointRow {
    ghost is_typed = { is_typed_point };

    fn typed(&self) {
        self.name.typed();
        self.from_end.typed();
        self.to_end.typed();
    }
}

impl Typed for StaffRow {
    ghost is_typed = { is_typed_employee };

    fn typed(&self) {
        self.name.typed();
        self.supervisor.typed();
    }
}

impl Typed for PointState {
    ghost is_typed = { is_typed_state };

    fn typed(&self) {
        self.hand.typed();
    }
}

impl Typed for Record {
    ghost is_typed = { is_typed_record };

    fn typed(&self) {
        self.id.typed();
        self.holder.typed();
        self.work.typed();
        self.last.typed();
    }
}

impl Typed for Step {
    ghost is_typed = { has_typed_point };

    fn typed(&self) {
        self.point.typed();
    }
}

impl Typed for StepRow {
    ghost is_typed = { is_typed_step };

    fn typed(&self) {
        fits(self.round, self.ordinal);
        self.id.typed();
        self.step.point.typed();
        self.step.reader.typed();
    }
}

impl Typed for Hold {
    ghost is_typed = { is_typed_hold };

    fn typed(&self) {
        self.place.typed();
        self.id.typed();
    }
}

impl Typed for Network {
    ghost is_typed = { is_typed_network };

    fn typed(&self) {
        all_typed(self.sections());
        all_typed(self.points());
    }
}

impl Typed for Staff {
    ghost is_typed = { is_typed_staff };

    fn typed(&self) {
        all_typed(self.rows());
    }
}

impl Typed for Command {
    ghost is_typed = { is_typed_command };

    fn typed(&self) {
        self.caller.typed();
        self.moment.typed();
        self.kind.typed();
    }
}

impl Typed for Kind {
    ghost is_typed = { is_typed_kind };

    fn typed(&self) {
        self.clearance().typed();
        self.place().typed();
        match self {
            Kind::Order { points, steps, .. } => {
                names_are_typed(points);
                tasks_are_typed(steps);
            }
            Kind::Restore { steps, .. } | Kind::Switch { steps } => tasks_are_typed(steps),
            Kind::Transfer { to, .. } => to.typed(),
            Kind::Jumper {
                point,
                from,
                to,
                ..
            } => {
                point.typed();
                from.typed();
                to.typed();
            }
            // The others name no more than a clearance and a place.
            _ => {}
        }
    }
}

/// Numbers of these kinds have a greatest one.
fn fits(round: u8, ordinal: u16)
    ensures round { IsTrue (nat_le round 255) }
    ensures ordinal { IsTrue (nat_le ordinal 65535) }
{}

fn names_are_typed(names: &Names)
    ensures { IsTrue (list_all is_name names.now) }
{
    all_typed(names.as_slice());
}

fn tasks_are_typed(tasks: &Tasks)
    ensures { IsTrue (list_all is_typed_task tasks.now) }
{
    all_typed(tasks.as_slice());
}
