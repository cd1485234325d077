//! An operator writes the isolating steps of a clearance: 29 CFR 1910.269(m)(3)(ii), (iii).
ghost use Rattle.std.specs.Prelude.{◌≡◌, IfOk, None};
ghost use Rattle.clr_rules.specs.declared.command.Kind.TheVariants as kinds;
ghost use Rattle.clr_answer.specs.Begins.{asked_edits, asked_refusal};
ghost use Rattle.clr_answer.specs.Effect.{IsOf, edits_in};

use crate::checks::begins::{Ask, by_operator};
use crate::checks::clearances::{PhaseTest, record};
use crate::checks::orders::unsound_order;
use crate::effect::Effect;
use crate::kinds::new_steps::new_steps;
use crate::near::Near;
use clr_net::Name;
use clr_rules::{Phase, Record, Refusal, Tasks};
use std::alloc::AllocError;

pub(crate) fn refusal_of(
    near: &Near,
    asked: Ask,
    points: &[Name],
    tasks: &Tasks,
) -> Result<Option<Refusal>, AllocError>
    ensures { IfOk result (λ refusal. refusal
        ≡ asked_refusal near.now asked (kinds.Order asked.id points.now tasks.now)) }
{
    let unsound = unsound_order(near, points, tasks.as_slice())?;
    let own = [unsound];
    let refusal = by_operator(near, &asked, PhaseTest::Requested, &own);
    Ok(refusal)
}

pub(crate) fn effect(
    near: &Near,
    asked: Ask,
    points: &[Name],
    tasks: &Tasks,
) -> Result<Effect, AllocError>
    requires { asked_refusal near.now asked (kinds.Order asked.id points.now tasks.now) ≡ None }
    ensures edits { IfOk result
        (λ effect. asked_edits near.now asked (kinds.Order asked.id points.now tasks.now)
        ≡ edits_in effect) }
    ensures of { IfOk result (IsOf asked.id) }
{
    let Ask { at, id, .. } = asked;
    let Some(found) = record(near, id) else {
        unreachable!()
    };
    let clearance = Record {
        phase: Phase::Ordered,
        last: at,
        ..*found
    };
    let lead = Vec::new(near.alloc);
    let steps = new_steps(near.alloc, id, 1, tasks)?;
    Ok(Effect {
        lead,
        clearance,
        steps,
    })
}
