//! The check of an isolating order.
ghost use Rattle.std.specs.Prelude.{◌≡◌, ◌↔◌, IsOk, map};
ghost use Rattle.clr_order.specs.Isolating.{IsSoundWithin, has_repeat, isolating_fault};
ghost use Rattle.clr_order.specs.Isolating.{is_border_point, needed_at, off_border, source_inside};
ghost use Rattle.clr_order.specs.Isolating.{touching_row, wrong_point};
ghost use Rattle.clr_order.specs.OrderFault.{answer_of};
ghost use Rattle.clr_order.specs.Step.{actions_at, same_actions, stray_point, task};
ghost use Rattle.std.specs.Option.{option_copied};

use crate::needed::needed;
use crate::order_fault::OrderFault;
use crate::places;
use crate::step::{MAX_STEPS, Step, does_at};
use clr_net::{Fence, Name, PointRow, has_name, row_of};

/// The most points of an isolating order.
const MAX_ORDER_POINTS: usize = 64;

/// Checks an order that isolates the sections of a fence at these points.
///
/// The fence has to be that of the work section, cut at these points. Nothing outside it is looked
/// at, so that a point that is unknown, one elsewhere and one inside are refused alike.
pub fn check_isolating(fence: &Fence, points: &[Name], steps: &[Step]) -> Result<(), OrderFault>
    ensures sound { IsOk result ↔ IsSoundWithin fence.now points.now (map task steps.now) }
    ensures first { result ≡ answer_of (isolating_fault fence.now points.now (map task steps.now)) }
{
    match isolating_fault(fence, points, steps) {
        Some(fault) => Err(fault),
        None => Ok(()),
    }
}

/// The first refusal of the order.
fn isolating_fault(fence: &Fence, points: &[Name], steps: &[Step]) -> Option<OrderFault>
    ensures { result ≡ isolating_fault fence.now points.now (map task steps.now) }
{
    if points.is_empty() {
        return Some(OrderFault::EmptyOrder);
    }
    if points.len() > MAX_ORDER_POINTS || steps.len() > MAX_STEPS {
        return Some(OrderFault::LongOrder);
    }
    if has_repeat(points) {
        return Some(OrderFault::PointTwice);
    }
    if let Some(section) = source_inside(fence) {
        return Some(OrderFault::SourceInside(section));
    }
    if let Some(point) = off_border(fence, points) {
        return Some(OrderFault::NotOnFence(point));
    }
    if let Some(point) = wrong_point(fence, points, steps) {
        return Some(OrderFault::StepsWrong(point));
    }
    if let Some(point) = stray_point(points, steps) {
        return Some(OrderFault::StepsWrong(point));
    }
    None
}

/// Whether a point comes twice.
fn has_repeat(points: &[Name]) -> bool
    ensures { result ≡ has_repeat points.now }
{
    for (place, point) in points.iter().enumerate() {
        if has_name(&points[place + 1..], *point) {
            return true;
        }
    }
    false
}

/// The source inside the fence, the least by name.
fn source_inside(fence: &Fence) -> Option<Name>
    ensures { result ≡ source_inside fence.now }
{
    for section in fence.sections() {
        if section.source {
            return Some(section.name);
        }
    }
    None
}

/// The row of a point, where it touches the fence.
fn touching_row<'a>(fence: &Fence<'a>, point: Name) -> Option<&'a PointRow>
    ensures { option_copied result ≡ touching_row fence.now point }
{
    row_of(fence.touching(), point).copied()
}

/// Whether a point is on the border of the fence.
fn is_border_point(fence: &Fence, point: Name) -> bool
    ensures { result ≡ is_border_point fence.now point }
{
    match touching_row(fence, point) {
        Some(row) => fence.sides(row) == 1,
        None => false,
    }
}

/// The first of the points that is not on the border of the fence.
fn off_border(fence: &Fence, points: &[Name]) -> Option<Name>
    ensures { result ≡ off_border fence.now points.now }
{
    points
        .iter()
        .copied()
        .find(|point| !is_border_point(fence, *point))
}

/// Whether the steps at a point are those that it needs.
fn is_isolated(fence: &Fence, point: Name, steps: &[Step]) -> bool
    ensures { result ≡ same_actions (actions_at (map task steps.now) point)
        (needed_at fence.now point) }
{
    match touching_row(fence, point) {
        Some(row) => does_at(steps, point, needed(row)),
        None => does_at(steps, point, &[]),
    }
}

/// The first of the points whose steps are not the needed ones.
fn wrong_point(fence: &Fence, points: &[Name], steps: &[Step]) -> Option<Name>
    ensures { result ≡ wrong_point fence.now points.now (map task steps.now) }
{
    points
        .iter()
        .copied()
        .find(|point| !is_isolated(fence, *point, steps))
}

/// The point of the first step that is at none of the points.
fn stray_point(points: &[Name], steps: &[Step]) -> Option<Name>
    ensures { result ≡ stray_point points.now (map task steps.now) }
{
    places::stray_point(points, steps)
}
