//! The check of a switching order.
ghost use Rattle.std.specs.Prelude.{◌≡◌, ◌↔◌, IsOk, map};
ghost use Rattle.clr_net.specs.Grid.{point_names};
ghost use Rattle.clr_order.specs.Action.{is_switching};
ghost use Rattle.clr_order.specs.OrderFault.{answer_of};
ghost use Rattle.clr_order.specs.Step.{stray_point, task};
ghost use Rattle.clr_order.specs.Switching.{IsSwitching, switching_fault, unswitching_point};

use crate::action::Action;
use crate::order_fault::OrderFault;
use crate::places;
use crate::step::{MAX_STEPS, Step};
use clr_net::{Name, PointRow};

/// Checks an order that opens and closes points without holding them. `found` are the points of its
/// steps that the network has, in any order.
pub fn check_switching(found: &[&PointRow], steps: &[Step]) -> Result<(), OrderFault>
    ensures switching { IsOk result
        ↔ IsSwitching (point_names (map (λ row. row.now) found.now)) (map task steps.now) }
    ensures first { result ≡ answer_of
        (switching_fault (point_names (map (λ row. row.now) found.now)) (map task steps.now)) }
{
    match switching_fault(found, steps) {
        Some(fault) => Err(fault),
        None => Ok(()),
    }
}

/// The first refusal of the order.
fn switching_fault(found: &[&PointRow], steps: &[Step]) -> Option<OrderFault>
    ensures { result
        ≡ switching_fault (point_names (map (λ row. row.now) found.now)) (map task steps.now) }
{
    if steps.is_empty() {
        return Some(OrderFault::EmptyOrder);
    }
    if steps.len() > MAX_STEPS {
        return Some(OrderFault::LongOrder);
    }
    if let Some(point) = unswitching_point(steps) {
        return Some(OrderFault::StepsWrong(point));
    }
    if let Some(point) = unknown_point(found, steps) {
        return Some(OrderFault::UnknownPoint(point));
    }
    None
}

/// The point of the first step whose point was not found.
fn unknown_point(found: &[&PointRow], steps: &[Step]) -> Option<Name>
    ensures { result
        ≡ stray_point (point_names (map (λ row. row.now) found.now)) (map task steps.now) }
{
    places::stray_point(found, steps)
}

/// The point of the first step that neither opens nor closes.
fn unswitching_point(steps: &[Step]) -> Option<Name>
    ensures { result ≡ unswitching_point (map task steps.now) }
{
    for step in steps {
        if !is_switching(step.action) {
            return Some(step.point);
        }
    }
    None
}

/// Whether an action opens or closes a point and does no more.
fn is_switching(action: Action) -> bool
    ensures { result ≡ is_switching action }
{
    matches!(action, Action::Open | Action::Close)
}
