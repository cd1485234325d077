//! Checks of the network: what it has, and what may be added to it.
ghost use Rattle.std.specs.Prelude.{◌≡◌, length};
ghost use Rattle.clr_net.specs.Grid.{point_names, section_names};
ghost use Rattle.clr_net.specs.Names.{has_name};
ghost use Rattle.clr_rules.specs.Checks.{crosses_fence, has_room, network_full, point_exists};
ghost use Rattle.clr_rules.specs.Checks.{same_ends, unknown_section};

use crate::checks::refuse;
use crate::near::Near;
use clr_net::{MAX_POINTS, MAX_SECTIONS, Name};
use clr_rules::Refusal;

/// Whether the network has a section.
pub(crate) fn has_section(near: &Near, section: Name) -> bool
    ensures { result ≡ has_name (section_names near.now.rows.net.sections) section }
{
    for row in &near.sections {
        if section == row.name {
            return true;
        }
    }
    false
}

/// Whether the network lacks the section that is asked for.
pub(crate) fn unknown_section(near: &Near, section: Name) -> Option<Refusal>
    ensures { result ≡ unknown_section near.now.rows section }
{
    refuse(!has_section(near, section), Refusal::UnknownSection)
}

/// Whether the network has a point.
fn has_point(near: &Near, point: Name) -> bool
    ensures { result ≡ has_name (point_names near.now.rows.net.points) point }
{
    for row in &near.points {
        if point == row.name {
            return true;
        }
    }
    false
}

/// Whether the network has the point that is to be new.
pub(crate) fn point_exists(near: &Near, point: Name) -> Option<Refusal>
    ensures { result ≡ point_exists near.now.rows point }
{
    refuse(has_point(near, point), Refusal::PointExists)
}

/// Whether a new point would cross the fence of a clearance.
pub(crate) fn crosses_fence(near: &Near) -> Option<Refusal>
    ensures { result ≡ crosses_fence near.now.known.crossed }
{
    match near.crossed {
        Some(by) => Some(Refusal::CrossesFence(by)),
        None => None,
    }
}

/// How many sections the network has.
fn section_count(near: &Near) -> usize
    ensures { result ≡ length near.now.rows.net.sections }
{
    near.sections.len()
}

/// How many points the network has.
fn point_count(near: &Near) -> usize
    ensures { result ≡ length near.now.rows.net.points }
{
    near.points.len()
}

/// Whether there is room for a point, and for the section that it leads to where that is new.
fn has_room(near: &Near, to: Name) -> bool
    ensures { result ≡ has_room near.now.rows.net to }
{
    point_count(near) < MAX_POINTS && (has_section(near, to) || section_count(near) < MAX_SECTIONS)
}

/// Whether the network is too great for one more point.
pub(crate) fn network_full(near: &Near, to: Name) -> Option<Refusal>
    ensures { result ≡ network_full near.now.rows to }
{
    refuse(!has_room(near, to), Refusal::NetworkFull)
}

/// Whether both ends of a point are one section.
pub(crate) fn same_ends(from: Name, to: Name) -> Option<Refusal>
    ensures { result ≡ same_ends from to }
{
    refuse(from == to, Refusal::SameEnds)
}
