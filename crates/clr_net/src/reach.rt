//! Which sections a walk over points that are not cut leads to: a search over the index. It looks
//! at the ways out of the sections that it finds, and at no others.
ghost use Rattle.std.specs.Prelude.{◌≡◌, ◌<◌, ◌++◌, ℕ, All, length, map, IfOk, OnOk};
ghost use Rattle.clr_net.specs.Index.{WaysFit, has_place};
ghost use Rattle.clr_net.specs.Ways.{HasStarts, IsIndexOf, around_of};
ghost use Rattle.clr_net.specs.Search.{Finds, Follows, ListsCut, ListsFence, points_around};
ghost use Rattle.std.specs.List.Sorted.{IsStrictlyIncreasing, IsStrictlySortedBy};
ghost use Rattle.clr_net.specs.Grid.{Grid, IsNetwork, point_names};
ghost use Rattle.clr_net.specs.Name.{name_cmp};

use crate::name::Name;
use crate::named::place_of;
use crate::point::PointRow;
use crate::section::SectionRow;
use crate::ways::{Out, Ways};
use std::alloc::{AllocError, Global};

/// The places of the sections in the fence of the work section, cut at these points.
pub(crate) fn fence_places(
    alloc: Global,
    sections: &[SectionRow],
    points: &[PointRow],
    ways: &Ways,
    work: Name,
    cut: &[Name],
) -> Result<Vec<usize>, AllocError>
    requires network { IsNetwork (record { sections = sections.now; points = points.now }) }
    requires index { IsIndexOf (record { sections = sections.now; points = points.now }) ways.now }
    ensures rising { IfOk result (λ found. IsStrictlyIncreasing found.items) }
    ensures inside { IfOk result (λ found. All (λ i. i < length sections.now) found.items) }
    ensures fence { IfOk result (λ found. ListsFence
        (record { sections = sections.now; points = points.now }) work cut.now found.items) }
{
    let Some(start) = place_of(sections, work) else {
        return Ok(Vec::new(alloc));
    };
    let cuts = cut_places(alloc, points, cut)?;
    let found = reach(alloc, ways, sections.len(), &cuts, start)?;
    Ok(in_order(found))
}

/// The places of the points with an end in one of these sections.
pub(crate) fn places_beside(
    alloc: Global,
    ways: &Ways,
    inside: &[usize],
) -> Result<Vec<usize>, AllocError>
    requires { (n : ℕ) × HasStarts n ways.now × All (λ i. i < n) inside.now }
    ensures rising { IfOk result (λ places. IsStrictlyIncreasing places.items) }
    ensures same { IfOk result (λ places. (k : ℕ)
        → has_place places.items k ≡ has_place (points_around (around_of ways.now) inside.now) k) }
{
    let mut points = Vec::with_capacity(alloc, inside.len())?;
    for place in inside {
        push_points(&mut points, ways.out_of(*place))?;
    }
    Ok(in_order(points))
}

/// The places of the points of these ways, after others.
fn push_points(points: &mut Vec<usize>, ways: &[Out]) -> Result<(), AllocError>
    ensures { OnOk result (points.new.items
        ≡ points.old.items ++ map (λ w. w.point) (map (λ o. o.way) ways.now)) }
{
    for out in ways {
        points.push(out.way.point)?;
    }
    Ok(())
}

/// The places of the points that are cut.
fn cut_places(alloc: Global, points: &[PointRow], cut: &[Name]) -> Result<Vec<usize>, AllocError>
    requires { IsStrictlySortedBy name_cmp (point_names points.now) }
    ensures rising { IfOk result (λ places. IsStrictlyIncreasing places.items) }
    ensures cut { IfOk result (λ places. ListsCut (point_names points.now) cut.now places.items) }
{
    let mut places = Vec::with_capacity(alloc, cut.len())?;
    for name in cut {
        if let Some(place) = place_of(points, *name) {
            places.push(place)?;
        }
    }
    Ok(in_order(places))
}

/// These places in their order, each once.
fn in_order(mut places: Vec<usize>) -> Vec<usize>
    ensures rising { IsStrictlyIncreasing result.items }
    ensures same { (i : ℕ) → has_place result.items i ≡ has_place places.items i }
{
    places.sort_unstable();
    places.dedup();
    places
}

/// Whether a place is among these, which is looked up by halves.
fn has_place(places: &[usize], place: usize) -> bool
    requires { IsStrictlyIncreasing places.now }
    ensures { result ≡ has_place places.now place }
{
    places.binary_search(&place).is_ok()
}

/// The places of the sections, of `count`, that a walk over points that are not cut leads to from
/// the section at `start`. The sections that were found are in a queue: the first one that came
/// is the first whose ways are followed.
fn reach(
    alloc: Global,
    ways: &Ways,
    count: usize,
    cuts: &[usize],
    start: usize,
) -> Result<Vec<usize>, AllocError>
    requires start { start < count }
    requires starts { HasStarts count ways.now }
    requires cuts { IsStrictlyIncreasing cuts.now }
    requires fit { (m : ℕ) × WaysFit (around_of ways.now) count m }
    ensures inside { IfOk result (λ found. All (λ i. i < count) found.items) }
    ensures finds { IfOk result (λ found.
        Finds (around_of ways.now) count cuts.now start found.items) }
{
    let mut marked = vec![in alloc; false; count]?;
    let mut queue = Vec::with_capacity(alloc, count)?;
    marked[start] = true;
    queue.push(start)?;
    let mut head = 0;
    while head < queue.len() {
        let place = queue[head];
        follow(ways.out_of(place), cuts, &mut marked, &mut queue)?;
        head += 1;
    }
    Ok(queue)
}

/// Marks the sections that ways over points that are not cut lead to, and puts those that were not
/// marked before at the end of the queue.
fn follow(
    ways: &[Out],
    cuts: &[usize],
    marked: &mut [bool],
    queue: &mut Vec<usize>,
) -> Result<(), AllocError>
    requires cuts { IsStrictlyIncreasing cuts.now }
    requires fit { All (λ o. o.way.to < length marked.old) ways.now }
    ensures { OnOk result (Follows (map (λ o. o.way) ways.now) cuts.now
        marked.old queue.old.items marked.new queue.new.items) }
{
    for out in ways {
        let way = out.way;
        if !has_place(cuts, way.point) && !marked[way.to] {
            marked[way.to] = true;
            queue.push(way.to)?;
        }
    }
    Ok(())
}
