//! The check of a restoring order.
ghost use Rattle.std.specs.Prelude.{◌≡◌, ◌↔◌, IsOk, map};
ghost use Rattle.clr_order.specs.OrderFault.{answer_of};
ghost use Rattle.clr_order.specs.Restoring.{IsRestoring, is_undone, restoring_fault, wrong_held};
ghost use Rattle.clr_order.specs.Step.{task};

use crate::held::Held;
use crate::holds_left::HoldsLeft;
use crate::order_fault::OrderFault;
use crate::places::stray_point;
use crate::step::{MAX_STEPS, Step};
use clr_net::Name;

/// Checks an order that restores the points that a clearance holds open, in the order of their
/// first appearance.
pub fn check_restoring(held: &[Held], steps: &[Step]) -> Result<(), OrderFault>
    ensures restoring { IsOk result ↔ IsRestoring held.now (map task steps.now) }
    ensures first { result ≡ answer_of (restoring_fault held.now (map task steps.now)) }
{
    match restoring_fault(held, steps) {
        Some(fault) => Err(fault),
        None => Ok(()),
    }
}

/// The first refusal of the order.
fn restoring_fault(held: &[Held], steps: &[Step]) -> Option<OrderFault>
    ensures { result ≡ restoring_fault held.now (map task steps.now) }
{
    if steps.is_empty() {
        return Some(OrderFault::EmptyOrder);
    }
    if steps.len() > MAX_STEPS {
        return Some(OrderFault::LongOrder);
    }
    if let Some(point) = wrong_held(held, steps) {
        return Some(OrderFault::StepsWrong(point));
    }
    if let Some(point) = stray_point(held, steps) {
        return Some(OrderFault::StepsWrong(point));
    }
    None
}

/// The first held point whose steps are not the undoing ones.
fn wrong_held(held: &[Held], steps: &[Step]) -> Option<Name>
    ensures { result ≡ wrong_held held.now (map task steps.now) }
{
    for place in held {
        if !is_undone(place, steps) {
            return Some(place.point);
        }
    }
    None
}

/// Whether the steps at a held point undo its holds.
fn is_undone(held: &Held, steps: &[Step]) -> bool
    ensures { result ≡ is_undone (map task steps.now) held.now }
{
    let mut left = HoldsLeft {
        tag: held.tag,
        control: held.control,
        block: held.block,
        held: true,
    };
    for step in steps {
        if held.point == step.point {
            if !left.take(step.action) {
                return false;
            }
        }
    }
    left.is_empty()
}
