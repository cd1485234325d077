//! Moments: seconds since 1970, to the end of 2099.
ghost use Rattle.std.specs.Prelude.{◌≡◌, ◌≤◌};
ghost use Rattle.clr_rules.specs.Moment.{new_moment};

use std::marker::Model;

/// The last moment, 2099-12-31T23:59:59Z.
pub const MAX_MOMENT: u64 = 4102444799;

/// A moment, in whole seconds since 1970-01-01T00:00:00Z and up to the end of 2099. A command
/// states its own.
#[derive(Clone, Copy, Debug, PartialEq, Eq, PartialOrd, Ord)]
pub struct Moment {
    seconds: u64,
}

impl Model for Moment {
    ghost use Rattle.std.specs.Prelude.{ℕ, ◌≤◌};

    ghost Value = { ℕ };

    ghost view = { λ m. m.seconds };

    ghost invariant = { λ m. m.seconds ≤ 4102444799 };

    ghost inverse = { λ seconds. record { seconds = seconds } };
}

impl Moment {
    /// The moment of these seconds, for at most 4102444799.
    pub fn new(seconds: u64) -> Option<Moment>
        ensures { result ≡ new_moment seconds }
    {
        if seconds > MAX_MOMENT {
            return None;
        }
        Some(Moment { seconds })
    }

    /// The seconds since 1970-01-01T00:00:00Z.
    pub fn seconds(self) -> u64
        ensures value { result ≡ self }
        ensures range { result ≤ 4102444799 }
    {
        self.seconds
    }
}
