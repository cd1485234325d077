//! A network to which rows are added, one after the other, up to the first that does not fit.
ghost use Rattle.std.specs.Prelude.{◌≡◌, ◌&&◌, IsTrue, map, not};
ghost use Rattle.clr_net.specs.Additions.{fits_point, fits_section};
ghost use Rattle.clr_net.specs.Grid.{has_ends, has_one_section, point_names, section_names};
ghost use Rattle.clr_net.specs.Names.{has_name};
ghost use Rattle.clr_rules.specs.Edits.{fit};
ghost use Rattle.clr_rules.specs.declared.change.Edit.TheVariants.{AddPoint, AddSection};
ghost use Rattle.clr_changes.specs.Growing.{grown};

use crate::rows::unplaced;
use clr_net::{MAX_POINTS, MAX_SECTIONS, Name, Network, PointRow, SectionRow};

/// Adds sections, if all of them fit.
pub(crate) fn add_sections(network: &mut Network, rows: &[SectionRow]) -> bool
    ensures fits { result ≡ fit network.old (map AddSection rows.now) }
    ensures grown { IsTrue result → network.new ≡ grown (map AddSection rows.now) network.old }
{
    for row in rows {
        if !fits_section(network, row) {
            return false;
        }
        network.add_section(*row);
    }
    true
}

/// Adds points, if all of them fit. An added point is open.
pub(crate) fn add_points(network: &mut Network, rows: &[PointRow]) -> bool
    ensures fits { result ≡ fit network.old (map AddPoint rows.now) }
    ensures grown { IsTrue result → network.new ≡ grown (map AddPoint rows.now) network.old }
{
    for row in rows {
        if !fits_point(network, row) {
            return false;
        }
        network.add_point(unplaced(row));
    }
    true
}

/// Whether a section can be added.
fn fits_section(network: &Network, row: &SectionRow) -> bool
    ensures { result ≡ fits_section network.now row.now }
{
    !has_section(network, row.name) && network.sections().len() < MAX_SECTIONS
}

/// Whether a point can be added.
fn fits_point(network: &Network, row: &PointRow) -> bool
    ensures { result ≡ fits_point network.now row.now }
{
    !has_point(network, row.name) && (network.points().len() < MAX_POINTS && joins(network, row))
}

/// Whether a point joins two different sections of a network.
fn joins(network: &Network, row: &PointRow) -> bool
    ensures { result ≡ (has_ends (section_names network.now.sections) row.now
        && not (has_one_section row.now)) }
{
    has_ends(network, row) && row.from_end != row.to_end
}

/// Whether both ends of a point are sections of a network.
fn has_ends(network: &Network, row: &PointRow) -> bool
    ensures { result ≡ has_ends (section_names network.now.sections) row.now }
{
    has_section(network, row.from_end) && has_section(network, row.to_end)
}

/// Whether a network has a point of this name.
pub(crate) fn has_point(network: &Network, name: Name) -> bool
    ensures { result ≡ has_name (point_names network.now.points) name }
{
    network.point(&name).is_some()
}

/// Whether a network has a section of this name.
pub(crate) fn has_section(network: &Network, name: Name) -> bool
    ensures { result ≡ has_name (section_names network.now.sections) name }
{
    network.section(&name).is_some()
}
