//! The holder grounds a section: 29 CFR 1910.269(m)(3)(vii), (n)(5).
ghost use Rattle.std.specs.Prelude.{◌≡◌, IfOk, None};
ghost use Rattle.clr_rules.specs.declared.command.Kind.TheVariants as kinds;
ghost use Rattle.clr_answer.specs.Begins.{asked_edits, asked_refusal};
ghost use Rattle.clr_answer.specs.Effect.{IsOf, edits_in};

use crate::checks::begins::{Ask, by_holder};
use crate::checks::callers::RoleTest;
use crate::checks::clearances::{PhaseTest, record};
use crate::checks::work::{has_ground, not_tested, outside_fence};
use crate::effect::Effect;
use crate::near::Near;
use clr_net::Name;
use clr_rules::{Edit, Hold, HoldKind, Record, Refusal};
use std::alloc::AllocError;

pub(crate) fn refusal_of(near: &Near, asked: Ask, section: Name) -> Option<Refusal>
    ensures { result ≡ asked_refusal near.now asked (kinds.Ground asked.id section) }
{
    let own = [
        outside_fence(near, section),
        not_tested(near, asked.id, section),
        has_ground(near, asked.id, section),
    ];
    by_holder(near, &asked, RoleTest::Charge, PhaseTest::Granted, &own)
}

pub(crate) fn effect(near: &Near, asked: Ask, section: Name) -> Result<Effect, AllocError>
    requires { asked_refusal near.now asked (kinds.Ground asked.id section) ≡ None }
    ensures edits { IfOk result
        (λ effect. asked_edits near.now asked (kinds.Ground asked.id section) ≡ edits_in effect) }
    ensures of { IfOk result (IsOf asked.id) }
{
    let Ask { at, id, .. } = asked;
    let Some(found) = record(near, id) else {
        unreachable!()
    };
    let clearance = Record { last: at, ..*found };
    let steps = Vec::new(near.alloc);
    let hold = Hold {
        kind: HoldKind::Ground,
        place: section,
        id,
    };
    let lead = vec![in near.alloc; Edit::PutHold(hold)]?;
    Ok(Effect {
        lead,
        clearance,
        steps,
    })
}
