//! An operator gives a clearance: 29 CFR 1910.269(m)(3)(vi).
ghost use Rattle.std.specs.Prelude.{◌≡◌, None};
ghost use Rattle.clr_rules.specs.declared.command.Kind.TheVariants as kinds;
ghost use Rattle.clr_answer.specs.Begins.{asked_edits, asked_refusal};
ghost use Rattle.clr_answer.specs.Effect.{IsOf, edits_in};

use crate::checks::begins::{Ask, by_operator};
use crate::checks::clearances::{PhaseTest, record};
use crate::checks::steps::steps_left;
use crate::effect::Effect;
use crate::near::Near;
use clr_rules::{Phase, Record, Refusal};

pub(crate) fn refusal_of(near: &Near, asked: Ask) -> Option<Refusal>
    ensures { result ≡ asked_refusal near.now asked (kinds.Grant asked.id) }
{
    let own = [steps_left(near, asked.id)];
    by_operator(near, &asked, PhaseTest::Ordered, &own)
}

pub(crate) fn effect(near: &Near, asked: Ask) -> Effect
    requires { asked_refusal near.now asked (kinds.Grant asked.id) ≡ None }
    ensures edits { asked_edits near.now asked (kinds.Grant asked.id) ≡ edits_in result }
    ensures of { IsOf asked.id result }
{
    let Ask { at, id, .. } = asked;
    let Some(found) = record(near, id) else {
        unreachable!()
    };
    Effect {
        lead: Vec::new(near.alloc),
        clearance: Record {
            phase: Phase::Granted,
            last: at,
            ..*found
        },
        steps: Vec::new(near.alloc),
    }
}
