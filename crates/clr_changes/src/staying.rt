//! What stays of a network when it is updated, though no file names it.
ghost use Rattle.std.specs.Prelude.{◌≡◌, ◌||◌, ◌&&◌, not, IfOk, filter, map};
ghost use Rattle.std.specs.List.{list_any};
ghost use Rattle.clr_net.specs.Fence.{touches};
ghost use Rattle.clr_net.specs.Grid.{section_names, unplaced};
ghost use Rattle.clr_net.specs.Name.{same_name};
ghost use Rattle.clr_net.specs.Names.{has_name};
ghost use Rattle.clr_update.specs.Update.{is_filed};
ghost use Rattle.clr_changes.specs.Shown.{as_update};

use crate::rows::unplaced;
use crate::update::Update;
use clr_net::{Name, PointRow, SectionRow, has_name};
use std::alloc::{AllocError, Global};

/// The jumpers among points, without the positions of their rows.
pub(crate) fn jumpers(alloc: Global, points: &[PointRow]) -> Result<Vec<PointRow>, AllocError>
    ensures { IfOk result (λ found. found.items
        ≡ filter (λ p. p.jumper) (map unplaced points.now)) }
{
    let mut found = Vec::new(alloc);
    for point in points {
        if point.jumper {
            found.push(unplaced(point))?;
        }
    }
    Ok(found)
}

/// The jumpers that no file names and that are not taken out.
pub(crate) fn staying(
    alloc: Global,
    update: &Update,
    jumpers: &[PointRow],
) -> Result<Vec<PointRow>, AllocError>
    ensures { IfOk result (λ found. found.items
        ≡ filter (λ p. not (is_filed (as_update update.now) p.name
        || has_name update.now.without.items p.name)) jumpers.now) }
{
    let mut found = Vec::new(alloc);
    for point in jumpers {
        if stays(update, point.name) {
            found.push(*point)?;
        }
    }
    Ok(found)
}

/// Whether a jumper of this name stays.
fn stays(update: &Update, jumper: Name) -> bool
    ensures { result
        ≡ not (is_filed (as_update update.now) jumper || has_name update.now.without.items jumper) }
{
    !(update.is_filed(jumper) || has_name(&update.without, jumper))
}

/// The sections at the ends of the jumpers that stay, which no file names.
pub(crate) fn joined(
    alloc: Global,
    update: &Update,
    sections: &[SectionRow],
    staying: &[PointRow],
) -> Result<Vec<SectionRow>, AllocError>
    ensures { IfOk result (λ found. found.items
        ≡ filter (λ row. not (has_name (section_names update.now.network.sections) row.name)
        && list_any (touches (same_name row.name)) staying.now) sections.now) }
{
    let mut found = Vec::new(alloc);
    for section in sections {
        if is_joined(update, section.name, staying) {
            found.push(*section)?;
        }
    }
    Ok(found)
}

/// Whether no file names a section, and a jumper that stays has an end in it.
fn is_joined(update: &Update, section: Name, staying: &[PointRow]) -> bool
    ensures { result ≡ (not (has_name (section_names update.now.network.sections) section)
        && list_any (touches (same_name section)) staying.now) }
{
    !update.has_section(section) && touches(staying, section)
}

/// Whether one of the points has an end in a section.
fn touches(points: &[PointRow], section: Name) -> bool
    ensures { result ≡ list_any (touches (same_name section)) points.now }
{
    points.iter().any(|point| section == point.from_end || section == point.to_end)
}
