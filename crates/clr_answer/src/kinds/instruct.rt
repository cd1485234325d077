//! An operator gives a step out to the field.
ghost use Rattle.std.specs.Prelude.{◌≡◌, IfOk, None};
ghost use Rattle.clr_rules.specs.declared.command.Kind.TheVariants as kinds;
ghost use Rattle.clr_answer.specs.Begins.{asked_edits, asked_refusal};
ghost use Rattle.clr_answer.specs.Effect.{IsOf, edits_in};

use crate::checks::begins::{Ask, by_operator};
use crate::checks::clearances::{PhaseTest, record};
use crate::checks::steps::{
    StateTest, hold_hinders, in_hand, no_step, out_of_turn, step, wrong_state,
};
use crate::effect::Effect;
use crate::kinds::step_moves::step_moved;
use crate::near::Near;
use clr_order::StepState;
use clr_rules::{Edit, Record, Refusal};
use std::alloc::AllocError;

pub(crate) fn refusal_of(near: &Near, asked: Ask, number: u16) -> Option<Refusal>
    ensures { result ≡ asked_refusal near.now asked (kinds.Instruct asked.id number) }
{
    let own = [
        no_step(near, asked.id, number),
        out_of_turn(near, asked.id, number),
        wrong_state(near, asked.id, number, StateTest::Waiting),
        in_hand(near, asked.id, number),
        hold_hinders(near, asked.id, number),
    ];
    by_operator(near, &asked, PhaseTest::Running, &own)
}

pub(crate) fn effect(near: &Near, asked: Ask, number: u16) -> Result<Effect, AllocError>
    requires { asked_refusal near.now asked (kinds.Instruct asked.id number) ≡ None }
    ensures edits { IfOk result
        (λ effect. asked_edits near.now asked (kinds.Instruct asked.id number) ≡ edits_in effect) }
    ensures of { IfOk result (IsOf asked.id) }
{
    let Ask { at, id, .. } = asked;
    let Some(found) = record(near, id) else {
        unreachable!()
    };
    let Some(row) = step(near, id, number) else {
        unreachable!()
    };
    let taken = Edit::SetHand {
        point: row.step.point,
        hand: Some(id),
    };
    let instructed = step_moved(row, StepState::Instructed, row.step.reader);
    let clearance = Record { last: at, ..*found };
    let lead = vec![in near.alloc; taken]?;
    let steps = vec![in near.alloc; instructed]?;
    Ok(Effect {
        lead,
        clearance,
        steps,
    })
}
