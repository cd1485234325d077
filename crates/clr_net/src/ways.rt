//! The index of a network: the places of each point's ends, and the ways out of all sections in one
//! list, so that it is filled again within the memory that it has.
ghost use Rattle.std.specs.Prelude.{◌≡◌, ◌<◌, ◌≤◌, ◌+◌, ℕ, length, map, IfOk, IfSome, IsOk};
ghost use Rattle.std.specs.Prelude.{IsTrue, OnOk, is_some, vec_capacity};
ghost use Rattle.std.specs.List.{list_all};
ghost use Rattle.std.specs.List.Sorted.{IsNonDecreasingBy, IsStrictlySortedBy};
ghost use Rattle.clr_net.specs.Name.{name_cmp};
ghost use Rattle.clr_net.specs.Grid.{IsNetwork, section_names, has_ends};
ghost use Rattle.clr_net.specs.Ways.{HasRoom, HasStarts, IsIndexOf};
ghost use Rattle.clr_net.specs.Index.{ends_in, ways_in, out_at, AreStarts, IsAround};

use crate::named::place_of;
use crate::network::{MAX_POINTS, MAX_SECTIONS};
use crate::point::PointRow;
use crate::section::SectionRow;
use std::alloc::{AllocError, Global};

/// A way out of a section: over which point, and to which section, each by its place.
#[derive(Clone, Copy, Debug, PartialEq, Eq)]
pub(crate) struct Way {
    pub point: usize,
    pub to: usize,
}

/// A way, with the place of the section that it leads out of.
#[derive(Clone, Copy, Debug, PartialEq, Eq)]
pub(crate) struct Out {
    pub from: usize,
    pub way: Way,
}

/// The places of the sections at a point's ends.
#[derive(Clone, Copy, Debug, PartialEq, Eq)]
pub(crate) struct Ends {
    pub from: usize,
    pub to: usize,
}

/// The places of a point's ends among sections in the order of their names, where both are
/// sections.
fn ends_of(sections: &[SectionRow], point: &PointRow) -> Option<Ends>
    requires { IsStrictlySortedBy name_cmp (section_names sections.now) }
    ensures ends { IfSome result (λ ends. ends ≡ ends_in (section_names sections.now) point.now) }
    ensures known { is_some result ≡ has_ends (section_names sections.now) point.now }
{
    let Some(from) = place_of(sections, point.from_end) else {
        return None;
    };
    let Some(to) = place_of(sections, point.to_end) else {
        return None;
    };
    Some(Ends { from, to })
}

/// The index of a network.
#[derive(Debug, Drop)]
pub(crate) struct Ways {
    /// The ends of each point, by the point's place.
    pub ends: Vec<Ends>,
    /// The ways out of all sections, in the order of the sections' places.
    pub out: Vec<Out>,
    /// Where those out of each section begin, by the section's place, and the end of the last ones.
    pub starts: Vec<usize>,
}

impl Ways {
    /// An index of nothing, with room for that of any network.
    pub(crate) fn empty(alloc: Global) -> Result<Ways, AllocError>
        ensures { IfOk result HasRoom }
    {
        Ok(Ways {
            ends: Vec::with_capacity(alloc, MAX_POINTS)?,
            out: Vec::with_capacity(alloc, 2 * MAX_POINTS)?,
            starts: Vec::with_capacity(alloc, MAX_SECTIONS + 1)?,
        })
    }

    /// Fills the index again, where all ends of these points are among these sections, and returns
    /// whether they are. Sections and points are in the order of their names. Within the limits
    /// of a network this needs no memory.
    pub(crate) fn fill(
        &mut self,
        sections: &[SectionRow],
        points: &[PointRow],
    ) -> Result<bool, AllocError>
        requires { IsStrictlySortedBy name_cmp (section_names sections.now) }
        ensures known { IfOk result (λ known. known
            ≡ list_all (has_ends (section_names sections.now)) points.now) }
        ensures index { IfOk result (λ known. IsTrue known
            → IsIndexOf (record { sections = sections.now; points = points.now }) self.new) }
        ensures room { HasRoom self.old → HasRoom self.new }
        ensures succeeds { HasRoom self.old → length sections.now ≤ 5000
            → length points.now ≤ 10000 → IsOk result }
    {
        if !fill_ends(&mut self.ends, sections, points)? {
            return Ok(false);
        }
        fill_out(&mut self.out, &self.ends)?;
        fill_starts(&mut self.starts, &self.out, sections.len())?;
        Ok(true)
    }

    /// Fills the index again with that of a network, which needs no memory.
    pub(crate) fn refill(&mut self, sections: &[SectionRow], points: &[PointRow])
        requires network { IsNetwork (record { sections = sections.now; points = points.now }) }
        requires room { HasRoom self.old }
        ensures index { IsIndexOf
            (record { sections = sections.now; points = points.now }) self.new }
        ensures room { HasRoom self.new }
    {
        let Ok(_all_known) = self.fill(sections, points) else {
            unreachable!()
        };
    }

    /// The ways out of the section at a place.
    pub(crate) fn out_of(&self, place: usize) -> &[Out]
        requires { (n : ℕ) × HasStarts n self.now × (place < n) }
        ensures { result.now ≡ out_at self.now.out.items place }
    {
        let start = self.starts[place];
        let end = self.starts[place + 1];
        &self.out[start..end]
    }
}

/// The places of each point's ends, where all ends are sections, and whether they are.
fn fill_ends(
    ends: &mut Vec<Ends>,
    sections: &[SectionRow],
    points: &[PointRow],
) -> Result<bool, AllocError>
    requires { IsStrictlySortedBy name_cmp (section_names sections.now) }
    ensures known { IfOk result (λ known. known
        ≡ list_all (has_ends (section_names sections.now)) points.now) }
    ensures ends { IfOk result (λ known. IsTrue known
        → ends.new.items ≡ map (ends_in (section_names sections.now)) points.now) }
    ensures room { vec_capacity ends.old ≤ vec_capacity ends.new }
    ensures succeeds { length points.now ≤ vec_capacity ends.old → IsOk result }
{
    ends.clear();
    for point in points {
        match ends_of(sections, point) {
            Some(found) => ends.push(found)?,
            None => return Ok(false),
        }
    }
    Ok(true)
}

/// The ways over each point, in the order of the sections that they lead out of.
fn fill_out(out: &mut Vec<Out>, ends: &[Ends]) -> Result<(), AllocError>
    ensures around { OnOk result
        (IsAround ends.now (length ends.now) (ways_in out.new.items)) }
    ensures rising { OnOk result (IsNonDecreasingBy (λ o. o.from) out.new.items) }
    ensures room { vec_capacity out.old ≤ vec_capacity out.new }
    ensures succeeds { length ends.now + length ends.now ≤ vec_capacity out.old → IsOk result }
{
    out.clear();
    for (point, end) in ends.iter().enumerate() {
        out.push(way_out(point, end.from, end.to))?;
        out.push(way_out(point, end.to, end.from))?;
    }
    out.sort_unstable_by_key(|out| out.from);
    Ok(())
}

/// The way over a point from one section to another.
fn way_out(point: usize, from: usize, to: usize) -> Out
    ensures { result ≡ record { from = from; way = record { point = point; to = to } } }
{
    Out {
        from,
        way: Way { point, to },
    }
}

/// Where the ways out of each of `count` sections begin, and the end of the last ones.
fn fill_starts(starts: &mut Vec<usize>, out: &[Out], count: usize) -> Result<(), AllocError>
    requires { IsNonDecreasingBy (λ o. o.from) out.now }
    ensures starts { OnOk result (AreStarts count out.now starts.new.items) }
    ensures room { vec_capacity starts.old ≤ vec_capacity starts.new }
    ensures succeeds { count < vec_capacity starts.old → IsOk result }
{
    starts.clear();
    for place in 0..=count {
        let start = out.partition_point(|out| out.from < place);
        starts.push(start)?;
    }
    Ok(())
}
