//! Rows that change inside a fence, and at steps.
ghost use Rattle.std.specs.Prelude.{◌≡◌, ◌++◌, IfOk, filter, map};
ghost use Rattle.clr_net.specs.Fence.{fence_has, touches};
ghost use Rattle.clr_net.specs.Grid.{point_names, section_names};
ghost use Rattle.clr_net.specs.Names.{has_name};
ghost use Rattle.clr_rules.specs.GoodByPhase.{of_round};
ghost use Rattle.clr_rules.specs.Steps.{points_of};
ghost use Rattle.clr_changes.specs.Touched.{first_of};

use clr_net::{Fence, Name, PointRow, SectionRow};
use clr_rules::StepRow;
use std::alloc::{AllocError, Global};

/// The first of these sections that lies inside a fence.
pub(crate) fn first_inside(sections: &[SectionRow], fence: &Fence) -> Option<Name>
    ensures { result ≡ first_of
        (section_names (filter (λ row. fence_has fence.now row.name) sections.now)) }
{
    for section in sections {
        if fence.has(&section.name) {
            return Some(section.name);
        }
    }
    None
}

/// The first of these points that has an end inside a fence.
fn first_touching(points: &[PointRow], fence: &Fence) -> Option<Name>
    ensures { result ≡ first_of
        (point_names (filter (touches (fence_has fence.now)) points.now)) }
{
    for point in points {
        if fence.has(&point.from_end) || fence.has(&point.to_end) {
            return Some(point.name);
        }
    }
    None
}

/// The first of points that go and of points that come which has an end inside a fence.
pub(crate) fn first_of_both(go: &[PointRow], come: &[PointRow], fence: &Fence) -> Option<Name>
    ensures { result ≡ first_of
        (point_names (filter (touches (fence_has fence.now)) (go.now ++ come.now))) }
{
    match first_touching(go, fence) {
        Some(name) => Some(name),
        None => first_touching(come, fence),
    }
}

/// The first of these points at which there is a step.
pub(crate) fn first_at_steps(points: &[PointRow], steps: &[&StepRow]) -> Option<Name>
    ensures { result ≡ first_of (point_names
        (filter (λ p. has_name (points_of (map (λ row. row.now) steps.now)) p.name) points.now)) }
{
    for point in points {
        if is_at_step(steps, point.name) {
            return Some(point.name);
        }
    }
    None
}

/// Whether one of these steps is at a point.
fn is_at_step(steps: &[&StepRow], point: Name) -> bool
    ensures { result ≡ has_name (points_of (map (λ row. row.now) steps.now)) point }
{
    for row in steps {
        if point == row.step.point {
            return true;
        }
    }
    false
}

/// The points of the first round of these steps.
#[tactic(auto, unfolding(clr_rules::specs::GoodByPhase::of_round))]
pub(crate) fn first_points(alloc: Global, steps: &[&StepRow]) -> Result<Vec<Name>, AllocError>
    ensures { IfOk result (λ points. points.items
        ≡ points_of (of_round (map (λ row. row.now) steps.now) 1)) }
{
    let mut points = Vec::with_capacity(alloc, steps.len())?;
    for row in steps {
        if row.round == 1 {
            points.push(row.step.point)?;
        }
    }
    Ok(points)
}
