//! An operator writes the restoring steps: 29 CFR 1910.269(m)(3)(xii), (xiii).
ghost use Rattle.std.specs.Prelude.{◌≡◌, IfOk, None};
ghost use Rattle.clr_rules.specs.declared.command.Kind.TheVariants as kinds;
ghost use Rattle.clr_answer.specs.Begins.{asked_edits, asked_refusal};
ghost use Rattle.clr_answer.specs.Effect.{IsOf, edits_in};

use crate::checks::begins::{Ask, by_operator};
use crate::checks::clearances::{PhaseTest, record};
use crate::checks::orders::wrong_restoring;
use crate::effect::Effect;
use crate::kinds::new_steps::new_steps;
use crate::near::Near;
use clr_rules::{Phase, Record, Refusal, Tasks};
use std::alloc::AllocError;

pub(crate) fn refusal_of(
    near: &Near,
    asked: Ask,
    tasks: &Tasks,
) -> Result<Option<Refusal>, AllocError>
    ensures { IfOk result (λ refusal. refusal
        ≡ asked_refusal near.now asked (kinds.Restore asked.id tasks.now)) }
{
    let wrong = wrong_restoring(near, asked.id, tasks.as_slice())?;
    let own = [wrong];
    let refusal = by_operator(near, &asked, PhaseTest::Released, &own);
    Ok(refusal)
}

pub(crate) fn effect(near: &Near, asked: Ask, tasks: &Tasks) -> Result<Effect, AllocError>
    requires { asked_refusal near.now asked (kinds.Restore asked.id tasks.now) ≡ None }
    ensures edits { IfOk result
        (λ effect. asked_edits near.now asked (kinds.Restore asked.id tasks.now)
        ≡ edits_in effect) }
    ensures of { IfOk result (IsOf asked.id) }
{
    let Ask { at, id, .. } = asked;
    let Some(found) = record(near, id) else {
        unreachable!()
    };
    let clearance = Record {
        phase: Phase::Restoring,
        last: at,
        ..*found
    };
    let lead = Vec::new(near.alloc);
    let steps = new_steps(near.alloc, id, 2, tasks)?;
    Ok(Effect {
        lead,
        clearance,
        steps,
    })
}
