//! The view of a clearance: its card, and all that is at its fence.
ghost use Rattle.std.specs.Prelude.{◌≡◌, ◌++◌, [], None, IfOk, filter, map};
ghost use Rattle.std.specs.List.Sorted.{IsStrictlySortedBy};
ghost use Rattle.clr_net.specs.Name.{name_cmp};
ghost use Rattle.clr_net.specs.Names.{has_name};
ghost use Rattle.clr_rules.specs.Answer.{card_of, view_of};
ghost use Rattle.clr_rules.specs.Fences.{touching_names};
ghost use Rattle.clr_net.specs.Fence.{touches};
ghost use Rattle.clr_rules.specs.Holds.{in_kind_order, is_near_hold, of_kinds, places_of};
ghost use Rattle.clr_rules.specs.Holds.{same_kind};
ghost use Rattle.clr_net.specs.Grid.{unplaced};
ghost use Rattle.clr_rules.specs.Steps.{present_steps, steps_in};
ghost use Rattle.clr_rules.specs.declared.hold_kind.HoldKind.TheVariants as hold_kinds;

use crate::card::{card_with, progress_with};
use crate::checks::steps::last_round;
use crate::checks::work::places_of;
use crate::fences::{is_near_hold, touches};
use crate::names::{in_order, is_among};
use crate::near::Near;
use clr_net::{Name, PointRow};
use clr_order::Step;
use clr_rules::{
    Card, ClearanceId, Hold, HoldKind, Holds, Names, PointState, PointStates, Record, Steps, View,
};
use std::alloc::{AllocError, Global};

/// The names of the fence's sections.
fn fence_names(near: &Near) -> Result<Vec<Name>, AllocError>
    ensures names { IfOk result (λ names. names.items ≡ near.now.known.fence) }
    ensures rising { IfOk result (λ names. IsStrictlySortedBy name_cmp names.items) }
{
    near.fence.iter().copied().collect(near.alloc)
}

/// The points with an end among these sections.
#[tactic(auto, unfolding(clr_rules::specs::Fences::touching_names))]
fn touching_names(near: &Near, fence: &[Name]) -> Result<Vec<Name>, AllocError>
    requires { IsStrictlySortedBy name_cmp fence.now }
    ensures { IfOk result (λ names. names.items
        ≡ touching_names near.now.rows.net (has_name fence.now)) }
{
    let mut names = Vec::new(near.alloc);
    for point in &near.points {
        if touches(fence, point) {
            names.push(point.name)?;
        }
    }
    Ok(names)
}

/// The states of the points that touch the fence.
fn touching_states(near: &Near, touching: &[Name]) -> Result<Vec<PointState>, AllocError>
    requires { IsStrictlySortedBy name_cmp touching.now }
    ensures { IfOk result (λ states. states.items
        ≡ filter (λ state. has_name touching.now state.point) near.now.rows.states) }
{
    let mut states = Vec::new(near.alloc);
    for state in &near.states {
        if is_among(touching, state.point) {
            states.push(**state)?;
        }
    }
    Ok(states)
}

/// The present steps of a clearance.
#[tactic(auto, unfolding(clr_rules::specs::Steps::steps_in))]
fn steps_in(near: &Near, id: ClearanceId, round: u8) -> Result<Vec<Step>, AllocError>
    ensures { IfOk result (λ steps. steps.items
        ≡ map (λ row. row.step) (steps_in near.now.rows.steps id round)) }
{
    let mut steps = Vec::new(near.alloc);
    for row in &near.steps {
        if row.is_of_round(id, round) {
            steps.push(row.step)?;
        }
    }
    Ok(steps)
}

/// The holds at these sections and points.
fn holds_at(near: &Near, fence: &[Name], touching: &[Name]) -> Result<Vec<Hold>, AllocError>
    requires sections { IsStrictlySortedBy name_cmp fence.now }
    requires points { IsStrictlySortedBy name_cmp touching.now }
    ensures { IfOk result (λ holds. holds.items
        ≡ filter (is_near_hold (has_name fence.now)
        (has_name touching.now) None) near.now.rows.holds) }
{
    let mut holds = Vec::new(near.alloc);
    for hold in &near.holds {
        if is_near_hold(fence, touching, &None, hold) {
            holds.push(**hold)?;
        }
    }
    Ok(holds)
}

/// These holds, and after them those of a kind.
fn with_kind(first: Vec<Hold>, kind: HoldKind, holds: &[Hold]) -> Result<Vec<Hold>, AllocError>
    ensures { IfOk result (λ all. all.items
        ≡ first.items ++ filter (λ h. same_kind kind h.kind) holds.now) }
{
    let mut all = first;
    for hold in holds {
        if kind.compare_own(hold.kind).is_eq() {
            all.push(*hold)?;
        }
    }
    Ok(all)
}

/// The holds of these kinds, kind by kind.
fn of_kinds(alloc: Global, kinds: &[HoldKind], holds: &[Hold]) -> Result<Vec<Hold>, AllocError>
    ensures { IfOk result (λ all. all.items ≡ of_kinds kinds.now holds.now) }
{
    let mut all = Vec::new(alloc);
    for kind in kinds {
        all = with_kind(all, *kind, holds)?;
    }
    Ok(all)
}

/// The holds by kind, in the kinds' own order.
fn in_kind_order(alloc: Global, holds: &[Hold]) -> Result<Vec<Hold>, AllocError>
    ensures { IfOk result (λ all. all.items ≡ in_kind_order holds.now) }
{
    let kinds = [
        HoldKind::HeldOpen,
        HoldKind::Block,
        HoldKind::Control,
        HoldKind::Tag,
        HoldKind::Tested,
        HoldKind::Ground,
        HoldKind::Crew,
    ];
    of_kinds(alloc, &kinds, holds)
}

/// The card of a record.
fn card(near: &Near, clearance: &Record) -> Card
    ensures { result ≡ card_of near.now.rows clearance.now }
{
    card_with(clearance, progress_with(near, &[], clearance.id))
}

/// The view of a record.
pub(crate) fn view_of(near: &Near, clearance: &Record) -> Result<View, AllocError>
    ensures { IfOk result (λ view. view ≡ view_of near.now.known near.now.rows clearance.now) }
{
    let fence = fence_names(near)?;
    let named = touching_names(near, &fence)?;
    let touching = in_order(named);
    let crews = places_of(near, clearance.id, HoldKind::Crew)?;
    let near_holds = holds_at(near, &fence, &touching)?;
    let holds = in_kind_order(near.alloc, &near_holds)?;
    let points = touching_states(near, &touching)?;
    let steps = steps_in(near, clearance.id, last_round(near, clearance.id))?;
    Ok(View {
        card: card(near, clearance),
        crews: Names::new(crews),
        fence: Names::new(fence),
        holds: Holds::new(holds),
        points: PointStates::new(points),
        steps: Steps::new(steps),
        work: clearance.work,
    })
}
