//! The field repeats the text of a step that was given out.
ghost use Rattle.std.specs.Prelude.{◌≡◌, IfOk, None};
ghost use Rattle.clr_rules.specs.declared.command.Kind.TheVariants as kinds;
ghost use Rattle.clr_answer.specs.Begins.{asked_edits, asked_refusal};
ghost use Rattle.clr_answer.specs.Effect.{IsOf, edits_in};

use crate::checks::begins::{Ask, by_field};
use crate::checks::clearances::{PhaseTest, record};
use crate::checks::steps::{StateTest, no_step, repeat_differs, step, wrong_state};
use crate::effect::Effect;
use crate::kinds::step_moves::step_moved;
use crate::near::Near;
use clr_order::StepState;
use clr_rules::{Record, Refusal, Text};
use std::alloc::AllocError;

pub(crate) fn refusal_of(
    near: &Near,
    asked: Ask,
    number: u16,
    text: &Text,
) -> Result<Option<Refusal>, AllocError>
    ensures { IfOk result (λ refusal. refusal
        ≡ asked_refusal near.now asked (kinds.Repeat asked.id number text.now)) }
{
    let differs = repeat_differs(near, asked.id, number, text)?;
    let own = [
        no_step(near, asked.id, number),
        wrong_state(near, asked.id, number, StateTest::Active),
        differs,
    ];
    let refusal = by_field(near, &asked, PhaseTest::Running, &own);
    Ok(refusal)
}

pub(crate) fn effect(
    near: &Near,
    asked: Ask,
    number: u16,
    text: &Text,
) -> Result<Effect, AllocError>
    requires { asked_refusal near.now asked (kinds.Repeat asked.id number text.now) ≡ None }
    ensures edits { IfOk result
        (λ effect. asked_edits near.now asked (kinds.Repeat asked.id number text.now)
        ≡ edits_in effect) }
    ensures of { IfOk result (IsOf asked.id) }
{
    let Ask { by, at, id } = asked;
    let Some(found) = record(near, id) else {
        unreachable!()
    };
    let Some(row) = step(near, id, number) else {
        unreachable!()
    };
    let repeated = step_moved(row, StepState::Repeated, Some(by));
    let clearance = Record { last: at, ..*found };
    let lead = Vec::new(near.alloc);
    let steps = vec![in near.alloc; repeated]?;
    Ok(Effect {
        lead,
        clearance,
        steps,
    })
}
