//! The checks of orders over what is given.
ghost use Rattle.std.specs.Prelude.{◌≡◌, IfOk, Some, filter, map};
ghost use Rattle.std.specs.List.Sorted.{IsStrictlySortedBy};
ghost use Rattle.clr_net.specs.Name.{name_cmp};
ghost use Rattle.clr_net.specs.Names.{has_name};
ghost use Rattle.clr_order.specs.Step.{task};
ghost use Rattle.clr_rules.specs.Checks.{unsound_order, wrong_restoring, wrong_switching};
ghost use Rattle.clr_rules.specs.Fences.{rows_of_fence};
ghost use Rattle.clr_net.specs.Fence.{touches};
ghost use Rattle.clr_rules.specs.Holds.{has_hold, held_at, first_of_each};
ghost use Rattle.clr_rules.specs.Refusals.{order_refusal};
ghost use Rattle.clr_rules.specs.Steps.{points_of, steps_in};
ghost use Rattle.clr_rules.specs.declared.hold_kind.HoldKind.TheVariants.{HeldOpen};
ghost use Rattle.clr_answer.specs.Orders.{refusal_of};

use crate::checks::work::has_hold;
use crate::fences::touching_points;
use crate::names::is_among_from;
use crate::near::Near;
use clr_net::{Fence, Name, SectionRow};
use clr_order::{Held, OrderFault, Step, check_isolating, check_restoring, check_switching};
use clr_rules::{ClearanceId, HoldKind, Refusal};
use std::alloc::{AllocError, Global};
use std::collections::BTreeSet;

/// Why an order with these points and steps does not isolate the sections of the fence that it
/// would make, if it does not.
pub(crate) fn unsound_order(
    near: &Near,
    points: &[Name],
    steps: &[Step],
) -> Result<Option<Refusal>, AllocError>
    ensures { IfOk result (λ refusal. refusal
        ≡ unsound_order near.now.rows near.now.known.fence points.now (map task steps.now)) }
{
    let sections = fence_sections(near.alloc, &near.sections, &near.fence)?;
    let touching = touching_points(near.alloc, &near.points, &near.fence)?;
    let fence = Fence::of_rows(sections, touching);
    Ok(refusal_of(check_isolating(&fence, points, steps)))
}

/// The rows of the sections of a fence.
fn fence_sections<'a>(
    alloc: Global,
    rows: &[&'a SectionRow],
    fence: &[Name],
) -> Result<Vec<&'a SectionRow>, AllocError>
    requires { IsStrictlySortedBy name_cmp fence.now }
    ensures { IfOk result (λ kept. map (λ row. row.now) kept.items
        ≡ filter (λ row. has_name fence.now row.name) (map (λ row. row.now) rows.now)) }
{
    let mut kept = Vec::new(alloc);
    let mut at = 0;
    for row in rows {
        if is_among_from(fence, &mut at, row.name) {
            kept.push(*row)?;
        }
    }
    Ok(kept)
}

/// Why an order with these steps does not undo what a clearance holds open, if it does not.
pub(crate) fn wrong_restoring(
    near: &Near,
    id: ClearanceId,
    steps: &[Step],
) -> Result<Option<Refusal>, AllocError>
    ensures { IfOk result (λ refusal. refusal
        ≡ wrong_restoring near.now.rows id (map task steps.now)) }
{
    let points = first_points(near, id)?;
    let places = each_once(near.alloc, &points)?;
    let held = held_among(near, id, &places)?;
    Ok(refusal_of(check_restoring(&held, steps)))
}

/// The points of the first round of a clearance, in the order of their steps.
#[tactic(auto, unfolding(clr_rules::specs::Steps::steps_in))]
fn first_points(near: &Near, id: ClearanceId) -> Result<Vec<Name>, AllocError>
    ensures { IfOk result (λ points. points.items ≡ points_of (steps_in near.now.rows.steps id 1)) }
{
    let mut points = Vec::new(near.alloc);
    for row in &near.steps {
        if row.is_of_round(id, 1) {
            points.push(row.step.point)?;
        }
    }
    Ok(points)
}

/// These names, each where it comes first.
#[tactic(auto, unfolding(clr_rules::specs::Holds::first_of_each))]
pub fn each_once(alloc: Global, names: &[Name]) -> Result<Vec<Name>, AllocError>
    ensures { IfOk result (λ kept. kept.items ≡ first_of_each names.now) }
{
    let mut met = BTreeSet::new(alloc);
    let mut kept = Vec::new(alloc);
    for name in names {
        if met.insert(*name)? {
            kept.push(*name)?;
        }
    }
    Ok(kept)
}

/// What a clearance has at those of the points that it holds open.
fn held_among(near: &Near, id: ClearanceId, points: &[Name]) -> Result<Vec<Held>, AllocError>
    ensures { IfOk result (λ held. held.items
        ≡ map (held_at near.now.rows.holds id)
        (filter (has_hold near.now.rows.holds id HeldOpen) points.now)) }
{
    let mut held = Vec::new(near.alloc);
    for point in points {
        if has_hold(near, id, HoldKind::HeldOpen, *point) {
            held.push(held_at(near, id, *point))?;
        }
    }
    Ok(held)
}

/// What a clearance has at a point that it holds open.
fn held_at(near: &Near, id: ClearanceId, point: Name) -> Held
    ensures { result ≡ held_at near.now.rows.holds id point }
{
    Held {
        point,
        block: has_hold(near, id, HoldKind::Block, point),
        control: has_hold(near, id, HoldKind::Control, point),
        tag: has_hold(near, id, HoldKind::Tag, point),
    }
}

/// Why an order with these steps does not only open and close known points, if it does not.
pub(crate) fn wrong_switching(near: &Near, steps: &[Step]) -> Option<Refusal>
    ensures { result ≡ wrong_switching near.now.rows (map task steps.now) }
{
    refusal_of(check_switching(&near.points, steps))
}

/// The refusal that the check of an order reported, if it reported one.
fn refusal_of(told: Result<(), OrderFault>) -> Option<Refusal>
    ensures { result ≡ refusal_of told }
{
    match told {
        Ok(()) => None,
        Err(fault) => order_refusal(fault),
    }
}

/// The refusal of a command whose order has this fault. Out of memory is not a refusal, and no
/// check of an order answers it.
fn order_refusal(fault: OrderFault) -> Option<Refusal>
    ensures { result ≡ order_refusal (Some fault) }
{
    match fault {
        OrderFault::EmptyOrder => Some(Refusal::EmptyOrder),
        OrderFault::LongOrder => Some(Refusal::LongOrder),
        OrderFault::PointTwice => Some(Refusal::PointTwice),
        OrderFault::SourceInside(section) => Some(Refusal::SourceInside(section)),
        OrderFault::NotOnFence(point) => Some(Refusal::NotOnFence(point)),
        OrderFault::StepsWrong(point) => Some(Refusal::StepsWrong(point)),
        OrderFault::UnknownPoint(point) => Some(Refusal::UnknownPoint(point)),
        OrderFault::NoMemory => None,
    }
}
