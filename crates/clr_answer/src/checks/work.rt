//! Checks of tests, grounds and crews.
ghost use Rattle.std.specs.Prelude.{◌≡◌, IfOk};
ghost use Rattle.clr_rules.specs.Checks.{at_work, crew_is_off, crew_is_on, crews_on, crews_on_work};
ghost use Rattle.clr_rules.specs.Checks.{any_ground, has_ground, not_attested, no_ground};
ghost use Rattle.clr_rules.specs.Checks.{not_tested, outside_fence};
ghost use Rattle.clr_rules.specs.Holds.{has_any_hold, has_hold, has_some_hold, places_of};

use crate::checks::clearances::record;
use crate::checks::refuse;
use crate::checks::rows::find_row;
use crate::names::is_among;
use crate::near::Near;
use clr_net::Name;
use clr_rules::{ClearanceId, Hold, HoldKind, Refusal};
use std::alloc::AllocError;

/// Whether a clearance has a hold of this kind at this place.
pub(crate) fn has_hold(near: &Near, id: ClearanceId, kind: HoldKind, place: Name) -> bool
    ensures { result ≡ has_hold near.now.rows.holds id kind place }
{
    find_row(&near.holds, &Hold { kind, place, id }).is_some()
}

/// Whether a clearance has a hold of this kind anywhere.
#[tactic(auto, unfolding(clr_rules::specs::Holds::has_some_hold))]
fn has_some_hold(near: &Near, id: ClearanceId, kind: HoldKind) -> bool
    ensures { result ≡ has_some_hold near.now.rows.holds id kind }
{
    for hold in &near.holds {
        if id == hold.id && kind.compare_own(hold.kind).is_eq() {
            return true;
        }
    }
    false
}

/// Whether a clearance has any hold.
#[tactic(auto, unfolding(clr_rules::specs::Holds::has_any_hold))]
pub(crate) fn has_any_hold(near: &Near, id: ClearanceId) -> bool
    ensures { result ≡ has_any_hold near.now.rows.holds id }
{
    for hold in &near.holds {
        if id == hold.id {
            return true;
        }
    }
    false
}

/// The places where a clearance has holds of a kind, in the order of their names.
#[tactic(auto, unfolding(clr_rules::specs::Holds::places_of))]
pub(crate) fn places_of(
    near: &Near,
    id: ClearanceId,
    kind: HoldKind,
) -> Result<Vec<Name>, AllocError>
    ensures { IfOk result (λ names. names.items ≡ places_of near.now.rows.holds id kind) }
{
    let mut names = Vec::new(near.alloc);
    for hold in &near.holds {
        if id == hold.id && kind.compare_own(hold.kind).is_eq() {
            names.push(hold.place)?;
        }
    }
    Ok(names)
}

/// Whether a section lies outside the clearance's fence.
pub(crate) fn outside_fence(near: &Near, section: Name) -> Option<Refusal>
    ensures { result ≡ outside_fence near.now.known.fence section }
{
    let inside = is_among(&near.fence, section);
    refuse(!inside, Refusal::OutsideFence)
}

/// Whether the clearance has not tested a section dead.
pub(crate) fn not_tested(near: &Near, id: ClearanceId, section: Name) -> Option<Refusal>
    ensures { result ≡ not_tested near.now.rows id section }
{
    let tested = has_hold(near, id, HoldKind::Tested, section);
    refuse(!tested, Refusal::NotTested)
}

/// Whether the clearance has a ground at a section.
pub(crate) fn has_ground(near: &Near, id: ClearanceId, section: Name) -> Option<Refusal>
    ensures { result ≡ has_ground near.now.rows id section }
{
    let grounded = has_hold(near, id, HoldKind::Ground, section);
    refuse(grounded, Refusal::Grounded)
}

/// Whether the clearance has no ground at a section.
pub(crate) fn no_ground(near: &Near, id: ClearanceId, section: Name) -> Option<Refusal>
    ensures { result ≡ no_ground near.now.rows id section }
{
    let grounded = has_hold(near, id, HoldKind::Ground, section);
    refuse(!grounded, Refusal::NotGrounded)
}

/// Whether the clearance has a ground anywhere.
pub(crate) fn any_ground(near: &Near, id: ClearanceId) -> Option<Refusal>
    ensures { result ≡ any_ground near.now.rows id }
{
    let grounded = has_some_hold(near, id, HoldKind::Ground);
    refuse(grounded, Refusal::Grounded)
}

/// Whether the clearance has not tested its work section dead.
pub(crate) fn work_not_tested(near: &Near, id: ClearanceId) -> Option<Refusal>
    ensures { result ≡ at_work near.now.rows id (not_tested near.now.rows id) }
{
    let record = record(near, id)?;
    let work = record.work?;
    not_tested(near, id, work)
}

/// Whether the clearance has no ground at its work section.
pub(crate) fn work_not_grounded(near: &Near, id: ClearanceId) -> Option<Refusal>
    ensures { result ≡ at_work near.now.rows id (no_ground near.now.rows id) }
{
    let record = record(near, id)?;
    let work = record.work?;
    no_ground(near, id, work)
}

/// Whether a crew is signed on to the clearance.
pub(crate) fn crews_on(near: &Near, id: ClearanceId) -> Option<Refusal>
    ensures { result ≡ crews_on near.now.rows id }
{
    let crews = has_some_hold(near, id, HoldKind::Crew);
    refuse(crews, Refusal::CrewsOn)
}

/// Whether the section is the work section, and a crew is signed on.
pub(crate) fn crews_on_work(near: &Near, id: ClearanceId, section: Name) -> Option<Refusal>
    ensures { result ≡ crews_on_work near.now.rows id section }
{
    let record = record(near, id)?;
    let work = record.work?;
    let crews = has_some_hold(near, id, HoldKind::Crew);
    refuse(work == section && crews, Refusal::CrewsOn)
}

/// Whether this crew is signed on.
pub(crate) fn crew_is_on(near: &Near, id: ClearanceId, crew: Name) -> Option<Refusal>
    ensures { result ≡ crew_is_on near.now.rows id crew }
{
    let on = has_hold(near, id, HoldKind::Crew, crew);
    refuse(on, Refusal::CrewState)
}

/// Whether this crew is not signed on.
pub(crate) fn crew_is_off(near: &Near, id: ClearanceId, crew: Name) -> Option<Refusal>
    ensures { result ≡ crew_is_off near.now.rows id crew }
{
    let on = has_hold(near, id, HoldKind::Crew, crew);
    refuse(!on, Refusal::CrewState)
}

/// Whether the holder did not say that all employees are notified, and are clear.
pub(crate) fn not_attested(notified: bool, clear: bool) -> Option<Refusal>
    ensures { result ≡ not_attested notified clear }
{
    refuse(!(notified && clear), Refusal::NotAttested)
}
