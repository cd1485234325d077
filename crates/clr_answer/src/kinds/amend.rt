//! An operator turns a waiting Close of a restoring order into a Leave.
ghost use Rattle.std.specs.Prelude.{◌≡◌, IfOk, None};
ghost use Rattle.clr_rules.specs.declared.command.Kind.TheVariants as kinds;
ghost use Rattle.clr_answer.specs.Begins.{asked_edits, asked_refusal};
ghost use Rattle.clr_answer.specs.Effect.{IsOf, edits_in};

use crate::checks::begins::{Ask, by_operator};
use crate::checks::clearances::{PhaseTest, record};
use crate::checks::steps::{no_step, not_a_waiting_close, step};
use crate::effect::Effect;
use crate::near::Near;
use clr_order::{Action, Step};
use clr_rules::{Record, Refusal, StepRow};
use std::alloc::AllocError;

pub(crate) fn refusal_of(near: &Near, asked: Ask, number: u16) -> Option<Refusal>
    ensures { result ≡ asked_refusal near.now asked (kinds.Amend asked.id number) }
{
    let own = [
        no_step(near, asked.id, number),
        not_a_waiting_close(near, asked.id, number),
    ];
    by_operator(near, &asked, PhaseTest::Restoring, &own)
}

pub(crate) fn effect(near: &Near, asked: Ask, number: u16) -> Result<Effect, AllocError>
    requires { asked_refusal near.now asked (kinds.Amend asked.id number) ≡ None }
    ensures edits { IfOk result
        (λ effect. asked_edits near.now asked (kinds.Amend asked.id number) ≡ edits_in effect) }
    ensures of { IfOk result (IsOf asked.id) }
{
    let Ask { at, id, .. } = asked;
    let Some(found) = record(near, id) else {
        unreachable!()
    };
    let Some(row) = step(near, id, number) else {
        unreachable!()
    };
    let left = StepRow {
        step: Step {
            action: Action::Leave,
            ..row.step
        },
        ..*row
    };
    let clearance = Record { last: at, ..*found };
    let lead = Vec::new(near.alloc);
    let steps = vec![in near.alloc; left]?;
    Ok(Effect {
        lead,
        clearance,
        steps,
    })
}
