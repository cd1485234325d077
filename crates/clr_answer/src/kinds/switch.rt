//! An operator makes a switch order: points are opened and closed, and nothing is held.
ghost use Rattle.std.specs.Prelude.{◌≡◌, ◌+◌, IfOk, None};
ghost use Rattle.clr_rules.specs.declared.command.Kind.TheVariants as kinds;
ghost use Rattle.clr_answer.specs.Decision.{near_edits, near_refusal};
ghost use Rattle.clr_answer.specs.Effect.{IsOf, edits_in};

use crate::checks::callers::{RoleTest, unknown_caller, wrong_role};
use crate::checks::clearances::too_many_clearances;
use crate::checks::first_of;
use crate::checks::orders::wrong_switching;
use crate::effect::Effect;
use crate::kinds::new_record::new_record;
use crate::kinds::new_steps::new_steps;
use crate::near::Near;
use clr_net::Name;
use clr_rules::{Moment, Phase, Refusal, Tasks};
use std::alloc::AllocError;

pub(crate) fn refusal_of(near: &Near, by: Name, at: Moment, tasks: &Tasks) -> Option<Refusal>
    ensures { result ≡ near_refusal near.now by at (kinds.Switch tasks.now) }
{
    let wrong = wrong_switching(near, tasks.as_slice());
    first_of(&[
        unknown_caller(near, by),
        wrong_role(near, by, RoleTest::Operator),
        too_many_clearances(near),
        wrong,
    ])
}

pub(crate) fn effect(near: &Near, by: Name, at: Moment, tasks: &Tasks) -> Result<Effect, AllocError>
    requires { near_refusal near.now by at (kinds.Switch tasks.now) ≡ None }
    ensures edits { IfOk result (λ effect. near_edits near.now by at (kinds.Switch tasks.now)
        ≡ edits_in effect) }
    ensures of { IfOk result
        (IsOf (record { requester = by; number = near.now.known.greatest + 1 })) }
{
    let clearance = new_record(near, by, at, None, Phase::Switching);
    let lead = Vec::new(near.alloc);
    let steps = new_steps(near.alloc, clearance.id, 1, tasks)?;
    Ok(Effect {
        lead,
        clearance,
        steps,
    })
}
