//! Names that are in the way of an update: of jumpers to take out, and of points of the files.
ghost use Rattle.std.specs.Prelude.{◌≡◌, ◌&&◌, ◌||◌, filter, map, not};
ghost use Rattle.std.specs.List.{list_any};
ghost use Rattle.clr_net.specs.Grid.{point_names};
ghost use Rattle.clr_net.specs.Name.{same_name};
ghost use Rattle.clr_net.specs.Names.{has_name};
ghost use Rattle.clr_net.specs.Walk.{joins};
ghost use Rattle.clr_update.specs.Update.{first_obstacle, is_filed, is_misnamed};
ghost use Rattle.clr_changes.specs.Parts.{name_obstacles};
ghost use Rattle.clr_changes.specs.Shown.{as_update};
ghost use Rattle.clr_changes.specs.Touched.{first_of};

use crate::update::Update;
use clr_net::{Name, PointRow};
use clr_update::Obstacle;

/// The first name of a jumper that is in the way.
pub(crate) fn name_obstacle(update: &Update, jumpers: &[PointRow]) -> Option<Obstacle>
    ensures { result ≡ first_obstacle (name_obstacles (as_update update.now) jumpers.now) }
{
    if let Some(name) = no_jumper(update, jumpers) {
        return Some(Obstacle::NoJumper(name));
    }
    let name = jumper_name(update, jumpers)?;
    Some(Obstacle::JumperName(name))
}

/// The first name that is to be taken out, and is no jumper or is in the files.
fn no_jumper(update: &Update, jumpers: &[PointRow]) -> Option<Name>
    ensures { result ≡ first_of (filter
        (λ p. is_filed (as_update update.now) p || not (has_name (point_names jumpers.now) p))
        update.now.without.items) }
{
    for name in &update.without {
        if update.is_filed(*name) || !has_point(jumpers, *name) {
            return Some(*name);
        }
    }
    None
}

/// Whether one of the points has this name.
fn has_point(points: &[PointRow], name: Name) -> bool
    ensures { result ≡ has_name (point_names points.now) name }
{
    for point in points {
        if name == point.name {
            return true;
        }
    }
    false
}

/// The first jumper whose name is that of a point of the files which does not join what it joins.
fn jumper_name(update: &Update, jumpers: &[PointRow]) -> Option<Name>
    ensures { result
        ≡ first_of (point_names (filter (is_misnamed (as_update update.now)) jumpers.now)) }
{
    for jumper in jumpers {
        if is_misnamed(update, jumper) {
            return Some(jumper.name);
        }
    }
    None
}

/// Whether a jumper's name is that of a point of the files which does not join what it joins.
fn is_misnamed(update: &Update, jumper: &PointRow) -> bool
    ensures { result ≡ is_misnamed (as_update update.now) jumper.now }
{
    update.network.points().iter().any(|point| point.name == jumper.name
        && !joins(point, jumper.from_end, jumper.to_end))
}

/// Whether a point joins two sections.
fn joins(point: &PointRow, from: Name, to: Name) -> bool
    ensures { result ≡ joins point.now from to }
{
    (point.from_end == from && point.to_end == to) || (point.to_end == from && point.from_end == to)
}
