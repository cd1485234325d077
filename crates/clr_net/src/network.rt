//! The network: its sections and switching points, checked and in the order of their names.
ghost use Rattle.std.specs.Prelude.{◌≡◌, ◌<◌, ◌≤◌, ℕ, List, false, find, length, not, position};
ghost use Rattle.std.specs.Prelude.{filter_map, slice_get};
ghost use Rattle.std.specs.Prelude.{IfOk, IsOk, OnOk, IsTrue, All};
ghost use Rattle.std.specs.Option.{option_copied};
ghost use Rattle.std.specs.List.{IsDistinct, list_all};
ghost use Rattle.std.specs.List.Sorted.{IsPermutation, IsStrictlySortedBy};
ghost use Rattle.clr_net.specs.Name.{name_cmp, same_name};
ghost use Rattle.clr_net.specs.Grid.{Grid, IsNetwork, section_names, has_ends, has_one_section};
ghost use Rattle.clr_net.specs.Grid.{point_names};
ghost use Rattle.clr_net.specs.Additions.{fits_addition, fits_point, fits_section};
ghost use Rattle.clr_net.specs.Additions.{with_addition, with_point, with_section};
ghost use Rattle.clr_net.specs.Network.{Builds, Passes, size_fault, twice_fault, end_fault};
ghost use Rattle.clr_net.specs.Names.{has_name};
ghost use Rattle.clr_net.specs.Fence.{FenceRows, IsFenceByWalks, fence_of};

use crate::addition::Addition;
use crate::fence::{Fence, RowPlaces, rows_at};
use crate::name::Name;
use crate::named::{in_order, insert_by_name, place_of, repeat_place_beside, row_of};
use crate::net_fault::NetFault;
use crate::point::PointRow;
use crate::reach::{fence_places, places_beside};
use crate::section::SectionRow;
use crate::ways::Ways;
use std::alloc::{AllocError, Global};
use std::marker::Model;

/// The most sections of a network.
pub const MAX_SECTIONS: usize = 5000;

/// The most switching points of a network.
pub const MAX_POINTS: usize = 10000;

/// An electric network: an undirected graph of sections, joined by switching points.
///
/// Whatever its size it has the memory of the greatest one.
#[derive(Debug, Drop)]
pub struct Network {
    sections: Vec<SectionRow>,
    points: Vec<PointRow>,
    ways: Ways,
}

impl Model for Network {
    ghost use Rattle.std.specs.Prelude.{◌≤◌, vec_capacity};
    ghost use Rattle.clr_net.specs.Grid.{Grid, IsNetwork};
    ghost use Rattle.clr_net.specs.Ways.{HasRoom, IsIndexOf};

    ghost Value = { Grid };

    ghost view = { λ n. record { sections = n.sections.items; points = n.points.items } };

    ghost invariant = { λ n.
        IsNetwork (record { sections = n.sections.items; points = n.points.items })
        × IsIndexOf (record { sections = n.sections.items; points = n.points.items }) n.ways
        × HasRoom n.ways
        × (5000 ≤ vec_capacity n.sections)
        × (10000 ≤ vec_capacity n.points) };
}

impl Network {
    /// The network of these rows, with the rows in the order of their names.
    pub fn build(
        alloc: Global,
        sections: Vec<SectionRow>,
        points: Vec<PointRow>,
    ) -> Result<Network, NetFault>
        ensures { Builds sections.items points.items result }
    {
        check_size(&sections, &points)?;
        let ordered = in_order(alloc, &sections, MAX_SECTIONS)?;
        let ordered_points = in_order(alloc, &points, MAX_POINTS)?;
        check_names(alloc, &sections, &ordered, &points, &ordered_points)?;
        let mut ways = Ways::empty(alloc)?;
        let all_known = ways.fill(&ordered, &ordered_points)?;
        check_ends(&ordered, &points, all_known)?;
        Ok(Network {
            sections: ordered,
            points: ordered_points,
            ways,
        })
    }

    /// A network is one within the limits: a law, with nothing to do.
    pub fn is_network(&self)
        ensures { IsNetwork self.now }
    {
        let _rows = &self.sections;
    }

    /// The section of this name.
    pub fn section(&self, name: &Name) -> Option<&SectionRow>
        ensures { option_copied result
            ≡ find (λ row. same_name name.now row.name) self.now.sections }
    {
        row_of(&self.sections, *name)
    }

    /// The switching point of this name.
    pub fn point(&self, name: &Name) -> Option<&PointRow>
        ensures { option_copied result ≡ find (λ row. same_name name.now row.name) self.now.points }
    {
        row_of(&self.points, *name)
    }

    /// All sections, in the order of their names.
    pub fn sections(&self) -> &[SectionRow]
        ensures rows { result.now ≡ self.now.sections }
        ensures network { IsNetwork self.now }
    {
        &self.sections
    }

    /// All switching points, in the order of their names, each with the position of its row.
    pub fn points(&self) -> &[PointRow]
        ensures rows { result.now ≡ self.now.points }
        ensures network { IsNetwork self.now }
    {
        &self.points
    }

    /// The fence of a section, cut at these points: what can be reached from it over the other
    /// points, whatever their positions. A name that is no point cuts nothing; a section that the
    /// network does not have has an empty fence.
    ///
    /// Locality: a network with the same rows at the fence has the same fence, whatever it has
    /// elsewhere (law `fences_are_local`).
    pub fn fence(&self, work: &Name, cut: &[Name]) -> Result<Fence<'_>, AllocError>
        ensures rows { IfOk result (λ fence. fence ≡ fence_of self.now work.now cut.now) }
        ensures walks { IfOk result (λ fence.
            IsFenceByWalks self.now work.now cut.now fence) }
    {
        let alloc = *self.sections.allocator();
        let places = self.fence_places(work, cut)?;
        let sections = rows_at(alloc, &self.sections, &places.sections)?;
        let touching = rows_at(alloc, &self.points, &places.touching)?;
        Ok(Fence::of_rows(sections, touching))
    }

    /// The places of a fence's rows, among the sections and among the points of the network.
    pub fn fence_places(&self, work: &Name, cut: &[Name]) -> Result<RowPlaces, AllocError>
        ensures sections { IfOk result (λ places.
            filter_map (slice_get self.now.sections) places.sections.items
            ≡ FenceRows.sections (fence_of self.now work.now cut.now)) }
        ensures touching { IfOk result (λ places.
            filter_map (slice_get self.now.points) places.touching.items
            ≡ FenceRows.touching (fence_of self.now work.now cut.now)) }
    {
        let alloc = *self.sections.allocator();
        let sections = fence_places(alloc, &self.sections, &self.points, &self.ways, *work, cut)?;
        let touching = places_beside(alloc, &self.ways, &sections)?;
        Ok(RowPlaces { sections, touching })
    }

    /// Makes sure that `add` can take this. A network has the memory of the greatest one since it
    /// was built, so there is nothing to do.
    pub fn reserve(&mut self, _addition: &Addition) -> Result<(), AllocError>
        ensures same { self.new ≡ self.old }
        ensures succeeds { IsOk result }
    {
        Ok(())
    }

    /// Adds a point, and before it a section, where there is one. It needs no memory.
    pub fn add(&mut self, addition: Addition)
        requires fits { IsTrue (fits_addition self.old addition) }
        ensures { self.new ≡ with_addition addition self.old }
    {
        let Addition { section, point } = addition;
        if let Some(section) = section {
            self.add_section(section);
        }
        self.add_point(point);
    }

    /// Adds a section of a new name; no point has an end there yet. It needs no memory.
    pub fn add_section(&mut self, section: SectionRow)
        requires fits { IsTrue (fits_section self.old section) }
        ensures { self.new ≡ with_section section self.old }
    {
        insert_by_name(&mut self.sections, section);
        self.ways.refill(&self.sections, &self.points);
    }

    /// Adds a point of a new name between two different sections of the network. It needs no
    /// memory. A fence that has both its ends, or none, stays (law `additions_keep_fences`).
    pub fn add_point(&mut self, point: PointRow)
        requires fits { IsTrue (fits_point self.old point) }
        ensures { self.new ≡ with_point point self.old }
    {
        insert_by_name(&mut self.points, point);
        self.ways.refill(&self.sections, &self.points);
    }
}

/// The number of rows, as a stage of the checks.
fn check_size(sections: &[SectionRow], points: &[PointRow]) -> Result<(), NetFault>
    ensures passes { Passes (size_fault sections.now points.now) result }
    ensures some { OnOk result (0 < length sections.now) }
    ensures sections_fit { OnOk result (length sections.now ≤ 5000) }
    ensures points_fit { OnOk result (length points.now ≤ 10000) }
{
    if sections.is_empty() {
        return Err(NetFault::NoSections);
    }
    if sections.len() > MAX_SECTIONS || points.len() > MAX_POINTS {
        return Err(NetFault::TooLarge);
    }
    Ok(())
}

/// The names that come twice, as a stage of the checks; the rows are given in the order of their
/// names too.
fn check_names(
    alloc: Global,
    sections: &[SectionRow],
    ordered_sections: &[SectionRow],
    points: &[PointRow],
    ordered_points: &[PointRow],
) -> Result<(), NetFault>
    requires sections { IsPermutation sections.now ordered_sections.now }
    requires points { IsPermutation points.now ordered_points.now }
    ensures passes { Passes (twice_fault sections.now points.now) result }
    ensures sections_once { OnOk result (IsDistinct same_name (section_names sections.now)) }
    ensures points_once { OnOk result (IsDistinct same_name (point_names points.now)) }
{
    if let Some(place) = repeat_place_beside(alloc, sections, ordered_sections)? {
        return Err(NetFault::SectionTwice(place + 1));
    }
    if let Some(place) = repeat_place_beside(alloc, points, ordered_points)? {
        return Err(NetFault::PointTwice(place + 1));
    }
    Ok(())
}

/// The ends of the points, as a stage of the checks; the sections are in the order of their
/// names, and it is known whether all ends are sections.
fn check_ends(sections: &[SectionRow], points: &[PointRow], all_known: bool) -> Result<(), NetFault>
    requires rising { IsStrictlySortedBy name_cmp (section_names sections.now) }
    requires all { all_known ≡ list_all (has_ends (section_names sections.now)) points.now }
    ensures passes { Passes (end_fault (section_names sections.now) points.now) result }
    ensures known { OnOk result
        (All (λ p. IsTrue (has_ends (section_names sections.now) p)) points.now) }
    ensures differ { OnOk result (All (λ p. has_one_section p ≡ false) points.now) }
{
    if let Some(place) = unknown_end(sections, points, all_known) {
        return Err(NetFault::UnknownEnd(place + 1));
    }
    if let Some(place) = same_ends(points) {
        return Err(NetFault::SameEnds(place + 1));
    }
    Ok(())
}

/// The first place of a point with an end that is no section; nothing is looked up where all ends
/// are known.
fn unknown_end(sections: &[SectionRow], points: &[PointRow], all_known: bool) -> Option<usize>
    requires rising { IsStrictlySortedBy name_cmp (section_names sections.now) }
    requires all { all_known ≡ list_all (has_ends (section_names sections.now)) points.now }
    ensures { result ≡ position (λ p. not (has_ends (section_names sections.now) p)) points.now }
{
    if all_known {
        return None;
    }
    points.iter().position(|point| !has_ends(sections, point))
}

/// Whether both ends of a point are sections.
fn has_ends(sections: &[SectionRow], point: &PointRow) -> bool
    requires { IsStrictlySortedBy name_cmp (section_names sections.now) }
    ensures { result ≡ has_ends (section_names sections.now) point.now }
{
    has_section(sections, point.from_end) && has_section(sections, point.to_end)
}

/// Whether there is a section of this name.
fn has_section(sections: &[SectionRow], name: Name) -> bool
    requires { IsStrictlySortedBy name_cmp (section_names sections.now) }
    ensures { result ≡ has_name (section_names sections.now) name }
{
    place_of(sections, name).is_some()
}

/// The first place of a point whose ends are one section.
fn same_ends(points: &[PointRow]) -> Option<usize>
    ensures { result ≡ position has_one_section points.now }
{
    points
        .iter()
        .position(|point| point.from_end == point.to_end)
}
