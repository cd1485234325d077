//! The fence of a section, and what touches it.
ghost use Rattle.std.specs.Prelude.{◌≡◌, ℕ, map, filter_map, slice_get, IfOk};
ghost use Rattle.std.specs.List.Sorted.{IsStrictlySortedBy};
ghost use Rattle.clr_net.specs.Name.{name_cmp};
ghost use Rattle.clr_net.specs.Fence.{FenceRows, fence_has, sides_of};
ghost use Rattle.clr_net.specs.Grid.{section_names, point_names};

use crate::name::Name;
use crate::named::place_of;
use crate::point::PointRow;
use crate::section::SectionRow;
use std::alloc::{AllocError, Global};
use std::marker::Model;

/// The fence of a section: every section that can be reached from it over points that are not cut,
/// whatever their positions, and the points with an end inside.
///
/// An open point that is not cut is a way in, since it may be closed. Its origin is 29 CFR
/// 1910.269(m)(3)(ii): all means through which known sources may supply the section.
#[derive(Debug, Drop)]
pub struct Fence<'a> {
    sections: Vec<&'a SectionRow>,
    touching: Vec<&'a PointRow>,
}

impl<'a> Model for Fence<'a> {
    ghost use Rattle.std.specs.Prelude.{map};
    ghost use Rattle.std.specs.List.Sorted.{IsStrictlySortedBy};
    ghost use Rattle.clr_net.specs.Name.{name_cmp};
    ghost use Rattle.clr_net.specs.Fence.{FenceRows};
    ghost use Rattle.clr_net.specs.Grid.{section_names, point_names};

    ghost Value = { FenceRows };

    ghost view = { λ f. record {
      sections = map (λ row. row.now) f.sections.items;
      touching = map (λ row. row.now) f.touching.items;
    } };

    ghost invariant = { λ f.
        IsStrictlySortedBy name_cmp (section_names (map (λ row. row.now) f.sections.items))
        × IsStrictlySortedBy name_cmp (point_names (map (λ row. row.now) f.touching.items)) };
}

impl<'a> Fence<'a> {
    /// The fence that has these rows, each list in the order of names: rows that were given apart
    /// from their network.
    pub fn of_rows(sections: Vec<&'a SectionRow>, touching: Vec<&'a PointRow>) -> Self
        requires sections_rise { IsStrictlySortedBy name_cmp
            (section_names (map (λ row. row.now) sections.items)) }
        requires points_rise { IsStrictlySortedBy name_cmp
            (point_names (map (λ row. row.now) touching.items)) }
        ensures { result ≡ record {
          sections = map (λ row. row.now) sections.entry.items;
          touching = map (λ row. row.now) touching.entry.items;
        } }
    {
        Fence { sections, touching }
    }

    /// The sections inside, in the order of their names.
    pub fn sections(&self) -> &[&'a SectionRow]
        ensures rows { map (λ row. row.now) result.now ≡ self.now.sections }
        ensures order { IsStrictlySortedBy name_cmp (section_names self.now.sections) }
    {
        &self.sections
    }

    /// The points with an end inside, in the order of their names.
    pub fn touching(&self) -> &[&'a PointRow]
        ensures rows { map (λ row. row.now) result.now ≡ self.now.touching }
        ensures order { IsStrictlySortedBy name_cmp (point_names self.now.touching) }
    {
        &self.touching
    }

    /// Whether a section of this name lies inside.
    pub fn has(&self, name: &Name) -> bool
        ensures { result ≡ fence_has self.now name.now }
    {
        place_of(&self.sections, *name).is_some()
    }

    /// How many ends of a point lie inside: 0, 1 or 2. A point with exactly one is on the
    /// border of the fence.
    pub fn sides(&self, point: &PointRow) -> u8
        ensures { result ≡ sides_of self.now point.now }
    {
        u8::from(self.has(&point.from_end)) + u8::from(self.has(&point.to_end))
    }
}

/// Where a fence is in its network: the places of the sections inside, and of the points with an
/// end inside, in the order of names.
#[derive(Debug, Drop)]
pub struct RowPlaces {
    pub sections: Vec<usize>,
    pub touching: Vec<usize>,
}

/// The rows at these places.
pub fn rows_at<'a, R>(
    alloc: Global,
    rows: &'a [R],
    places: &[usize],
) -> Result<Vec<&'a R>, AllocError>
    ensures { IfOk result (λ found.
        map (λ row. row.now) found.items ≡ filter_map (slice_get rows.now) places.now) }
{
    let mut found = Vec::new(alloc);
    for place in places {
        if let Some(row) = rows.get(*place) {
            found.push(row)?;
        }
    }
    Ok(found)
}
