//! The holder gives up a request, an order that is not granted, or a switch order.
ghost use Rattle.std.specs.Prelude.{◌≡◌, None};
ghost use Rattle.clr_rules.specs.declared.command.Kind.TheVariants as kinds;
ghost use Rattle.clr_answer.specs.Begins.{asked_edits, asked_refusal};
ghost use Rattle.clr_answer.specs.Effect.{IsOf, edits_in};
ghost use Rattle.clr_rules.specs.Changes.{cancelled_phase};

use crate::checks::begins::{Ask, by_holder};
use crate::checks::callers::RoleTest;
use crate::checks::clearances::{PhaseTest, record};
use crate::checks::steps::step_given_out;
use crate::checks::work::has_any_hold;
use crate::effect::Effect;
use crate::near::Near;
use clr_rules::{Phase, Record, Refusal};

pub(crate) fn refusal_of(near: &Near, asked: Ask) -> Option<Refusal>
    ensures { result ≡ asked_refusal near.now asked (kinds.Cancel asked.id) }
{
    let own = [step_given_out(near, asked.id)];
    by_holder(
        near,
        &asked,
        RoleTest::ChargeOrOperator,
        PhaseTest::Cancellable,
        &own,
    )
}

/// An order whose steps have put holds goes to be restored; any other clearance is closed.
fn cancelled_phase(near: &Near, clearance: &Record) -> Phase
    ensures { result ≡ cancelled_phase near.now.rows clearance.now }
{
    let holds = has_any_hold(near, clearance.id);
    if clearance.phase.is_ordered() && holds {
        Phase::Released
    } else {
        Phase::Closed
    }
}

pub(crate) fn effect(near: &Near, asked: Ask) -> Effect
    requires { asked_refusal near.now asked (kinds.Cancel asked.id) ≡ None }
    ensures edits { asked_edits near.now asked (kinds.Cancel asked.id) ≡ edits_in result }
    ensures of { IsOf asked.id result }
{
    let Ask { at, id, .. } = asked;
    let Some(found) = record(near, id) else {
        unreachable!()
    };
    Effect {
        lead: Vec::new(near.alloc),
        clearance: Record {
            phase: cancelled_phase(near, found),
            last: at,
            ..*found
        },
        steps: Vec::new(near.alloc),
    }
}
