//! Lists that a contract sees as lists, so that two with the same items are the same.
ghost use Rattle.std.specs.Prelude.{◌≡◌};
ghost use Rattle.std.specs.Cmp.Lexicographic.{lists_per, pointwise};

use crate::hold::Hold;
use crate::point_state::PointState;
use clr_net::Name;
use clr_order::Step;
use std::marker::Model;

/// A list. What a contract says of it speaks of the items alone, and not of where they are stored.
#[derive(Debug, Drop)]
pub struct Items<T> {
    items: Vec<T>,
}

impl<T> Model for Items<T> {
    ghost use Rattle.std.specs.Prelude.{List};

    ghost Value = { List T };

    ghost view = { λ list. list.items.items };
}

/// A list of names.
pub type Names = Items<Name>;

/// A list of holds.
pub type Holds = Items<Hold>;

/// A list of the states of switching points.
pub type PointStates = Items<PointState>;

/// A list of steps.
pub type Steps = Items<Step>;

impl<T> Items<T> {
    pub fn new(items: Vec<T>) -> Items<T>
        ensures { result ≡ items.items }
    {
        Items { items }
    }

    pub fn as_slice(&self) -> &[T]
        ensures { result.now ≡ self.now }
    {
        self.items.as_slice()
    }
}

impl<T: PartialEq> PartialEq for Items<T> {
    ghost eq = { pointwise T.eq };

    ghost laws = { lists_per T.laws };

    fn eq(&self, other: &Items<T>) -> bool {
        self.as_slice() == other.as_slice()
    }
}
