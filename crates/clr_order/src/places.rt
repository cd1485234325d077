//! What is at a switching point, and the first step that is elsewhere.
ghost use Rattle.std.specs.Prelude.{◌≡◌, ℕ, List, map};
ghost use Rattle.clr_net.specs.Names.{has_name};
ghost use Rattle.clr_order.specs.Step.{stray_point, task};

use crate::held::Held;
use crate::step::Step;
use clr_net::{Name, PointRow};

/// What is at a switching point.
pub(crate) trait Placed {
    ghost point_of: { Self → List ℕ };

    fn point(&self) -> Name
        ensures { result ≡ point_of self.now };
}

impl Placed for Name {
    ghost point_of = { λ name. name };

    fn point(&self) -> Name {
        *self
    }
}

impl Placed for Held {
    ghost point_of = { λ held. held.point };

    fn point(&self) -> Name {
        self.point
    }
}

impl<'a> Placed for &'a PointRow {
    ghost point_of = { λ row. row.now.name };

    fn point(&self) -> Name {
        self.name
    }
}

/// Whether one of these is at a point.
pub(crate) fn has_point<P: Placed>(places: &[P], point: Name) -> bool
    ensures { result ≡ has_name (map P.point_of places.now) point }
{
    for place in places {
        if point == place.point() {
            return true;
        }
    }
    false
}

/// The point of the first step where none of these is.
pub(crate) fn stray_point<P: Placed>(places: &[P], steps: &[Step]) -> Option<Name>
    ensures { result ≡ stray_point (map P.point_of places.now) (map task steps.now) }
{
    for step in steps {
        if !has_point(places, step.point) {
            return Some(step.point);
        }
    }
    None
}
