//! The holder reports that a section was tested, and is dead or is not: 29 CFR 1910.269(m)(3)(vi).
ghost use Rattle.std.specs.Prelude.{◌≡◌, IfOk, None};
ghost use Rattle.clr_rules.specs.declared.command.Kind.TheVariants as kinds;
ghost use Rattle.clr_answer.specs.Begins.{asked_edits, asked_refusal};
ghost use Rattle.clr_answer.specs.Effect.{IsOf, edits_in};
ghost use Rattle.std.specs.Prelude.{if◌then◌else◌};
ghost use Rattle.clr_rules.specs.Holds.{hold_of};
ghost use Rattle.clr_rules.specs.declared.change.Edit.TheVariants.{PutHold, TakeHold};
ghost use Rattle.clr_rules.specs.declared.hold_kind.HoldKind.TheVariants.{Tested};

use crate::checks::begins::{Ask, by_holder};
use crate::checks::callers::RoleTest;
use crate::checks::clearances::{PhaseTest, record};
use crate::checks::work::outside_fence;
use crate::effect::Effect;
use crate::near::Near;
use clr_net::Name;
use clr_rules::{ClearanceId, Edit, Hold, HoldKind, Record, Refusal};
use std::alloc::AllocError;

pub(crate) fn refusal_of(near: &Near, asked: Ask, section: Name, dead: bool) -> Option<Refusal>
    ensures { result ≡ asked_refusal near.now asked (kinds.Test asked.id section dead) }
{
    let own = [outside_fence(near, section)];
    by_holder(near, &asked, RoleTest::Charge, PhaseTest::Granted, &own)
}

/// A dead section's test is put down, another's is taken.
fn tested(id: ClearanceId, section: Name, dead: bool) -> Edit
    ensures { result
        ≡ (if dead then PutHold (hold_of id Tested section)
        else TakeHold (hold_of id Tested section)) }
{
    let hold = Hold {
        kind: HoldKind::Tested,
        place: section,
        id,
    };
    if dead {
        Edit::PutHold(hold)
    } else {
        Edit::TakeHold(hold)
    }
}

pub(crate) fn effect(
    near: &Near,
    asked: Ask,
    section: Name,
    dead: bool,
) -> Result<Effect, AllocError>
    requires { asked_refusal near.now asked (kinds.Test asked.id section dead) ≡ None }
    ensures edits { IfOk result
        (λ effect. asked_edits near.now asked (kinds.Test asked.id section dead)
        ≡ edits_in effect) }
    ensures of { IfOk result (IsOf asked.id) }
{
    let Ask { at, id, .. } = asked;
    let Some(found) = record(near, id) else {
        unreachable!()
    };
    let clearance = Record { last: at, ..*found };
    let steps = Vec::new(near.alloc);
    let lead = vec![in near.alloc; tested(id, section, dead)]?;
    Ok(Effect {
        lead,
        clearance,
        steps,
    })
}
