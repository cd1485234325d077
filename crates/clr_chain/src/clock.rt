//! The machine's clock.
ghost use Rattle.std.specs.Prelude.{ℕ};

/// A clock. No rule looks at what it shows.
pub trait Clock: Drop {
    /// That it showed this number of whole seconds since 1970. Only `seconds` says so.
    ghost shows: { Self → ℕ → Type 0 };

    /// The whole seconds since 1970.
    fn seconds(&self) -> u64
        ensures { shows self.now result };
}
