//! Shelves whose rows are within their types.
ghost use Rattle.std.specs.Prelude.{◌≡◌};
ghost use Rattle.std.specs.List.{list_all};
ghost use Rattle.clr_desk.specs.Shelving.{shelved};

use crate::typed::Typed;
use clr_load::Fill;
use clr_shelf::{Row, Shelf};
use std::alloc::{AllocError, Global};
use std::marker::{Model, PhantomData};

/// A shelf that takes rows, each of which is within its type: that is seen as it is put, so that no
/// row is looked at again.
#[derive(Drop)]
pub(crate) struct TypedShelf<R: Row + Typed, S: Shelf<R>> {
    shelf: S,
    of: PhantomData<R>,
}

impl<R: Row + Typed, S: Shelf<R>> Model for TypedShelf<R, S> {
    ghost use Rattle.std.specs.Prelude.{List, IsTrue};
    ghost use Rattle.std.specs.List.{list_all};

    ghost Value = { List R };

    ghost view = { λ it. S.rows it.shelf };

    ghost invariant = { λ it. IsTrue (list_all R.is_typed (S.rows it.shelf)) };
}

impl<R: Row + Typed, S: Shelf<R>> TypedShelf<R, S> {
    /// The shelf.
    pub(crate) fn into_shelf(self) -> S
        ensures { S.rows result ≡ self }
    {
        self.shelf
    }
}

impl<R: Row + Typed, S: Shelf<R>> Typed for TypedShelf<R, S> {
    ghost is_typed = { list_all R.is_typed };

    fn typed(&self) {
        let _shelf = &self.shelf;
    }
}

impl<R: Row + Typed, S: Shelf<R>> Fill<R> for TypedShelf<R, S> {
    ghost has = { λ it rows. it ≡ shelved R.key_cmp R.key_of rows };

    fn empty(alloc: Global) -> Self {
        TypedShelf {
            shelf: S::empty(alloc),
            of: PhantomData,
        }
    }

    fn fill(&mut self, row: R) -> Result<(), AllocError> {
        row.typed();
        self.shelf.reserve(1)?;
        self.shelf.put(row);
        Ok(())
    }
}
