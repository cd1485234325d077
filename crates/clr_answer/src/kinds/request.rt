//! One who may be in charge asks for a clearance on a section: 29 CFR 1910.269(m)(3)(i).
ghost use Rattle.std.specs.Prelude.{◌≡◌, ◌+◌, None};
ghost use Rattle.clr_rules.specs.declared.command.Kind.TheVariants as kinds;
ghost use Rattle.clr_answer.specs.Decision.{near_edits, near_refusal};
ghost use Rattle.clr_answer.specs.Effect.{IsOf, edits_in};

use crate::checks::callers::{RoleTest, unknown_caller, wrong_role};
use crate::checks::clearances::too_many_clearances;
use crate::checks::first_of;
use crate::checks::network::unknown_section;
use crate::effect::Effect;
use crate::kinds::new_record::new_record;
use crate::near::Near;
use clr_net::Name;
use clr_rules::{Moment, Phase, Refusal};

pub(crate) fn refusal_of(near: &Near, by: Name, at: Moment, section: Name) -> Option<Refusal>
    ensures { result ≡ near_refusal near.now by at (kinds.Request section) }
{
    first_of(&[
        unknown_caller(near, by),
        wrong_role(near, by, RoleTest::Charge),
        unknown_section(near, section),
        too_many_clearances(near),
    ])
}

pub(crate) fn effect(near: &Near, by: Name, at: Moment, section: Name) -> Effect
    requires { near_refusal near.now by at (kinds.Request section) ≡ None }
    ensures edits { near_edits near.now by at (kinds.Request section) ≡ edits_in result }
    ensures of { IsOf (record { requester = by; number = near.now.known.greatest + 1 }) result }
{
    Effect {
        lead: Vec::new(near.alloc),
        clearance: new_record(near, by, at, Some(section), Phase::Requested),
        steps: Vec::new(near.alloc),
    }
}
