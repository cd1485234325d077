//! The holder gives the clearance back: 29 CFR 1910.269(m)(3)(x), (xi).
ghost use Rattle.std.specs.Prelude.{◌≡◌, IfOk, None, map};
ghost use Rattle.clr_rules.specs.declared.command.Kind.TheVariants as kinds;
ghost use Rattle.clr_answer.specs.Begins.{asked_edits, asked_refusal};
ghost use Rattle.clr_answer.specs.Effect.{IsOf, edits_in};
ghost use Rattle.clr_rules.specs.Holds.{hold_of};
ghost use Rattle.clr_rules.specs.declared.change.Edit.TheVariants.{TakeHold};
ghost use Rattle.clr_rules.specs.declared.hold_kind.HoldKind.TheVariants.{Tested};

use crate::checks::begins::{Ask, by_holder};
use crate::checks::callers::RoleTest;
use crate::checks::clearances::{PhaseTest, record};
use crate::checks::work::{any_ground, crews_on, not_attested, places_of};
use crate::effect::Effect;
use crate::near::Near;
use clr_net::Name;
use clr_rules::{ClearanceId, Edit, Hold, HoldKind, Phase, Record, Refusal};
use std::alloc::{AllocError, Global};

pub(crate) fn refusal_of(near: &Near, asked: Ask, notified: bool, clear: bool) -> Option<Refusal>
    ensures { result ≡ asked_refusal near.now asked (kinds.Release asked.id notified clear) }
{
    let own = [
        crews_on(near, asked.id),
        any_ground(near, asked.id),
        not_attested(notified, clear),
    ];
    by_holder(near, &asked, RoleTest::Charge, PhaseTest::Granted, &own)
}

/// A test is taken.
fn test_taken(id: ClearanceId, section: Name) -> Edit
    ensures { result ≡ TakeHold (hold_of id Tested section) }
{
    Edit::TakeHold(Hold {
        kind: HoldKind::Tested,
        place: section,
        id,
    })
}

/// The tests of these sections are taken.
fn tests_taken(alloc: Global, id: ClearanceId, sections: &[Name]) -> Result<Vec<Edit>, AllocError>
    ensures { IfOk result (λ lead. lead.items
        ≡ map (λ place. TakeHold (hold_of id Tested place)) sections.now) }
{
    sections
        .iter()
        .map(|section| test_taken(id, *section))
        .collect(alloc)
}

pub(crate) fn effect(
    near: &Near,
    asked: Ask,
    notified: bool,
    clear: bool,
) -> Result<Effect, AllocError>
    requires { asked_refusal near.now asked (kinds.Release asked.id notified clear) ≡ None }
    ensures edits { IfOk result
        (λ effect. asked_edits near.now asked (kinds.Release asked.id notified clear)
        ≡ edits_in effect) }
    ensures of { IfOk result (IsOf asked.id) }
{
    let Ask { at, id, .. } = asked;
    let Some(found) = record(near, id) else {
        unreachable!()
    };
    let clearance = Record {
        phase: Phase::Released,
        last: at,
        ..*found
    };
    let steps = Vec::new(near.alloc);
    let sections = places_of(near, id, HoldKind::Tested)?;
    let lead = tests_taken(near.alloc, id, &sections)?;
    Ok(Effect {
        lead,
        clearance,
        steps,
    })
}
