//! The clearance goes to another holder; in an emergency the holder's supervisor may say so: 29 CFR
//! 1910.269(m)(3)(ix).
ghost use Rattle.std.specs.Prelude.{◌≡◌, None};
ghost use Rattle.clr_rules.specs.declared.command.Kind.TheVariants as kinds;
ghost use Rattle.clr_answer.specs.Begins.{asked_edits, asked_refusal};
ghost use Rattle.clr_answer.specs.Effect.{IsOf, edits_in};

use crate::checks::begins::Ask;
use crate::checks::callers::unknown_caller;
use crate::checks::clearances::{
    PhaseTest, bad_transfer, earlier_moment, may_not_transfer, record, unknown_clearance,
    wrong_phase,
};
use crate::checks::first_of;
use crate::effect::Effect;
use crate::near::Near;
use clr_net::Name;
use clr_rules::{Record, Refusal};

pub(crate) fn refusal_of(near: &Near, asked: Ask, to: Name, emergency: bool) -> Option<Refusal>
    ensures { result ≡ asked_refusal near.now asked (kinds.Transfer asked.id to emergency) }
{
    first_of(&[
        unknown_caller(near, asked.by),
        unknown_clearance(near, asked.id),
        may_not_transfer(near, asked.id, asked.by, emergency),
        earlier_moment(near, asked.id, asked.at),
        wrong_phase(near, asked.id, PhaseTest::Transferable),
        bad_transfer(near, asked.id, to),
    ])
}

pub(crate) fn effect(near: &Near, asked: Ask, to: Name, emergency: bool) -> Effect
    requires { asked_refusal near.now asked (kinds.Transfer asked.id to emergency) ≡ None }
    ensures edits { asked_edits near.now asked (kinds.Transfer asked.id to emergency)
        ≡ edits_in result }
    ensures of { IsOf asked.id result }
{
    let Ask { at, id, .. } = asked;
    let Some(found) = record(near, id) else {
        unreachable!()
    };
    Effect {
        lead: Vec::new(near.alloc),
        clearance: Record {
            holder: to,
            last: at,
            ..*found
        },
        steps: Vec::new(near.alloc),
    }
}
