//! How commands begin: who asks, when, of which clearance, and in which phase.
ghost use Rattle.std.specs.Prelude.{◌≡◌, [], ◌∷◌};
ghost use Rattle.clr_rules.specs.Answer.{first_refusal};
ghost use Rattle.clr_rules.specs.Commands.{by_field, by_holder, by_operator, by_role};
ghost use Rattle.clr_answer.specs.Begins.{phase_fits, role_fits};

use crate::checks::callers::{RoleTest, unknown_caller, wrong_role};
use crate::checks::clearances::{
    PhaseTest, earlier_moment, not_holder, unknown_clearance, wrong_phase,
};
use crate::checks::first_of;
use crate::near::Near;
use clr_net::Name;
use clr_rules::{ClearanceId, Moment, Refusal};

/// Who asks, when, and of which clearance.
#[derive(Clone, Copy)]
pub(crate) struct Ask {
    pub(crate) by: Name,
    pub(crate) at: Moment,
    pub(crate) id: ClearanceId,
}

/// The first check that applies of a role, then of the command's own.
fn by_role(
    near: &Near,
    asked: &Ask,
    roles: RoleTest,
    phases: PhaseTest,
    own: Option<Refusal>,
) -> Option<Refusal>
    ensures { result ≡ first_refusal (by_role near.now.rows
        asked.now.by asked.now.at asked.now.id (role_fits roles) (phase_fits phases) (own ∷ [])) }
{
    first_of(&[
        unknown_caller(near, asked.by),
        wrong_role(near, asked.by, roles),
        unknown_clearance(near, asked.id),
        earlier_moment(near, asked.id, asked.at),
        wrong_phase(near, asked.id, phases),
        own,
    ])
}

/// The first check that applies to a command of an operator: how it begins, then its own.
pub(crate) fn by_operator(
    near: &Near,
    asked: &Ask,
    phases: PhaseTest,
    own: &[Option<Refusal>],
) -> Option<Refusal>
    ensures { result ≡ first_refusal (by_operator near.now.rows
        asked.now.by asked.now.at asked.now.id (phase_fits phases) own.now) }
{
    let last = first_of(own);
    by_role(near, asked, RoleTest::Operator, phases, last)
}

/// And of the field.
pub(crate) fn by_field(
    near: &Near,
    asked: &Ask,
    phases: PhaseTest,
    own: &[Option<Refusal>],
) -> Option<Refusal>
    ensures { result ≡ first_refusal (by_field near.now.rows
        asked.now.by asked.now.at asked.now.id (phase_fits phases) own.now) }
{
    let last = first_of(own);
    by_role(near, asked, RoleTest::Field, phases, last)
}

/// The first check that applies to a command of the holder, with one of its own after these.
fn by_the_holder(
    near: &Near,
    asked: &Ask,
    roles: RoleTest,
    phases: PhaseTest,
    own: Option<Refusal>,
) -> Option<Refusal>
    ensures { result ≡ first_refusal (by_holder near.now.rows
        asked.now.by asked.now.at asked.now.id (role_fits roles) (phase_fits phases) (own ∷ [])) }
{
    first_of(&[
        unknown_caller(near, asked.by),
        wrong_role(near, asked.by, roles),
        unknown_clearance(near, asked.id),
        not_holder(near, asked.id, asked.by),
        earlier_moment(near, asked.id, asked.at),
        wrong_phase(near, asked.id, phases),
        own,
    ])
}

/// And of the holder.
pub(crate) fn by_holder(
    near: &Near,
    asked: &Ask,
    roles: RoleTest,
    phases: PhaseTest,
    own: &[Option<Refusal>],
) -> Option<Refusal>
    ensures { result ≡ first_refusal (by_holder near.now.rows
        asked.now.by asked.now.at asked.now.id (role_fits roles) (phase_fits phases) own.now) }
{
    let last = first_of(own);
    by_the_holder(near, asked, roles, phases, last)
}
