//! What lies in a fence, and what touches it.
ghost use Rattle.std.specs.Prelude.{◌≡◌, ◌++◌, IfOk, filter, map};
ghost use Rattle.std.specs.List.Sorted.{IsStrictlySortedBy};
ghost use Rattle.clr_net.specs.Name.{name_cmp};
ghost use Rattle.clr_net.specs.Names.{has_name};
ghost use Rattle.clr_net.specs.Fence.{touches};
ghost use Rattle.clr_rules.specs.Holds.{is_near_hold, is_own};

use crate::names::{is_among, is_among_from};
use clr_net::{Name, PointRow};
use clr_rules::{ClearanceId, Hold, HoldKind};
use std::alloc::{AllocError, Global};

/// Whether a point has an end among these sections.
pub(crate) fn touches(fence: &[Name], point: &PointRow) -> bool
    requires { IsStrictlySortedBy name_cmp fence.now }
    ensures { result ≡ touches (has_name fence.now) point.now }
{
    is_among(fence, point.from_end) || is_among(fence, point.to_end)
}

/// Whether a clearance is the one that is meant, if one is.
pub(crate) fn is_own(own: Option<ClearanceId>, id: ClearanceId) -> bool
    ensures { result ≡ is_own own id }
{
    match own {
        Some(own) => own == id,
        None => false,
    }
}

/// Whether a hold is at one of these sections or points, or is a crew of the clearance that is
/// meant.
pub(crate) fn is_near_hold(
    fence: &[Name],
    points: &[Name],
    own: &Option<ClearanceId>,
    hold: &Hold,
) -> bool
    requires sections { IsStrictlySortedBy name_cmp fence.now }
    requires points { IsStrictlySortedBy name_cmp points.now }
    ensures { result ≡ is_near_hold (has_name fence.now) (has_name points.now) own.now hold.now }
{
    let at_point = hold.kind.stands_at_point() && is_among(points, hold.place);
    let at_section = hold.kind.stands_at_section() && is_among(fence, hold.place);
    let signed_on = matches!(hold.kind, HoldKind::Crew) && is_own(*own, hold.id);
    at_point || (at_section || signed_on)
}

/// Whether a point has an end among these sections, which is looked for at a place first.
fn touches_from(fence: &[Name], at: &mut usize, point: &PointRow) -> bool
    requires { IsStrictlySortedBy name_cmp fence.now }
    ensures { result ≡ touches (has_name fence.now) point.now }
{
    is_among_from(fence, at, point.from_end) || is_among_from(fence, at, point.to_end)
}

/// The points with an end in a fence.
pub(crate) fn touching_points<'a>(
    alloc: Global,
    rows: &[&'a PointRow],
    fence: &[Name],
) -> Result<Vec<&'a PointRow>, AllocError>
    requires { IsStrictlySortedBy name_cmp fence.now }
    ensures { IfOk result (λ kept. map (λ row. row.now) kept.items
        ≡ filter (touches (has_name fence.now)) (map (λ row. row.now) rows.now)) }
{
    let mut kept = Vec::new(alloc);
    let mut at = 0;
    for row in rows {
        if touches_from(fence, &mut at, row) {
            kept.push(*row)?;
        }
    }
    Ok(kept)
}
