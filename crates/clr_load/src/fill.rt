//! What rows are read into.
ghost use Rattle.std.specs.Prelude.{◌≡◌, [], ◌∷◌, ◌++◌, OnOk, List};

use std::alloc::{AllocError, Global};

/// Takes rows, one after another. Want of memory is its only error.
pub trait Fill<R>: Drop {
    ghost use Rattle.std.specs.Prelude.{List};

    /// Whether these rows are those that it has taken, in their order.
    ghost has: { Self → List R → Type 0 };

    /// One that has taken none.
    fn empty(alloc: Global) -> Self
        ensures { has result [] };

    /// Takes a row.
    fn fill(&mut self, row: R) -> Result<(), AllocError>
        ensures { (rows : List R) → has self.old rows
            → OnOk result (has self.new (rows ++ row ∷ [])) };
}

/// A list takes rows at its end.
impl<R: Drop> Fill<R> for Vec<R> {
    ghost has = { λ list rows. list.items ≡ rows };

    fn empty(alloc: Global) -> Self {
        Vec::new(alloc)
    }

    fn fill(&mut self, row: R) -> Result<(), AllocError> {
        self.push(row)?;
        Ok(())
    }
}
