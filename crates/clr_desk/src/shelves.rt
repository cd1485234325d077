//! The shelves of records, steps and holds of a book: copied, and taken in by another.
ghost use Rattle.std.specs.Prelude.{◌≡◌, IfOk};
ghost use Rattle.clr_rules.specs.Hold.{hold_cmp};
ghost use Rattle.clr_rules.specs.Holds.{hold_key};
ghost use Rattle.clr_rules.specs.Id.{id_cmp};
ghost use Rattle.clr_rules.specs.Records.{record_key};
ghost use Rattle.clr_rules.specs.StepKey.{step_key, step_key_cmp};
ghost use Rattle.clr_load.specs.TypedRows.{IsTyped};
ghost use Rattle.clr_desk.specs.Shelving.{shelved};

use crate::book::DeskBook;
use crate::copy::same_shelf;
use crate::typed::Typed;
use crate::typed_shelf::TypedShelf;
use clr_book::Book;
use clr_rules::{Hold, PointState, Record, StepRow};
use clr_shelf::{Shelf, SortedShelf};
use std::alloc::{AllocError, Global};

/// Shelves of records, steps and holds.
#[derive(Drop)]
pub(crate) struct Shelves {
    pub(crate) records: TypedShelf<Record, SortedShelf<Record>>,
    pub(crate) steps: TypedShelf<StepRow, SortedShelf<StepRow>>,
    pub(crate) holds: TypedShelf<Hold, SortedShelf<Hold>>,
}

/// Copies of the shelves of a desk's book.
pub(crate) fn shelves_in(alloc: Global, book: &DeskBook) -> Result<Shelves, AllocError>
    ensures records { IfOk result (λ it. it.records ≡ book.now.register.records) }
    ensures steps { IfOk result (λ it. it.steps ≡ book.now.register.steps) }
    ensures holds { IfOk result (λ it. it.holds ≡ book.now.register.holds) }
    ensures put_records { IfOk result
        (λ it. it.records ≡ shelved id_cmp record_key book.now.register.records) }
    ensures put_steps { IfOk result
        (λ it. it.steps ≡ shelved step_key_cmp step_key book.now.register.steps) }
    ensures put_holds { IfOk result
        (λ it. it.holds ≡ shelved hold_cmp hold_key book.now.register.holds) }
{
    shelves_of(alloc, book)
}

/// Copies of the shelves of a book.
fn shelves_of<P, C, T, H>(alloc: Global, book: &Book<P, C, T, H>) -> Result<Shelves, AllocError>
where
    P: Shelf<PointState>,
    C: Shelf<Record>,
    T: Shelf<StepRow>,
    H: Shelf<Hold>,
    ensures records { IfOk result (λ it. it.records ≡ book.now.register.records) }
    ensures steps { IfOk result (λ it. it.steps ≡ book.now.register.steps) }
    ensures holds { IfOk result (λ it. it.holds ≡ book.now.register.holds) }
    ensures put_records { IfOk result
        (λ it. it.records ≡ shelved id_cmp record_key book.now.register.records) }
    ensures put_steps { IfOk result
        (λ it. it.steps ≡ shelved step_key_cmp step_key book.now.register.steps) }
    ensures put_holds { IfOk result
        (λ it. it.holds ≡ shelved hold_cmp hold_key book.now.register.holds) }
{
    let (_, records, steps, holds) = book.shelves();
    let records = same_shelf(alloc, records)?;
    let steps = same_shelf(alloc, steps)?;
    let holds = same_shelf(alloc, holds)?;
    Ok(Shelves {
        records,
        steps,
        holds,
    })
}

/// A desk's book with these shelves in place of its own.
pub(crate) fn refilled(book: DeskBook, shelves: Shelves) -> Result<DeskBook, AllocError>
    ensures register { IfOk result (λ filled. filled.register ≡ record book.register {
      records = shelves.records;
      steps = shelves.steps;
      holds = shelves.holds;
    }) }
    ensures network { IfOk result (λ filled. filled.network ≡ book.network) }
    ensures typed { IsTyped book.register → IfOk result (λ filled. IsTyped filled.register) }
{
    let Shelves {
        records,
        steps,
        holds,
    } = shelves;
    with_rows(book, records, steps, holds)
}

/// A book with these shelves in place of its own.
fn with_rows<P, C, T, H>(
    book: Book<P, C, T, H>,
    records: TypedShelf<Record, C>,
    steps: TypedShelf<StepRow, T>,
    holds: TypedShelf<Hold, H>,
) -> Result<Book<P, C, T, H>, AllocError>
where
    P: Shelf<PointState>,
    C: Shelf<Record>,
    T: Shelf<StepRow>,
    H: Shelf<Hold>,
    ensures register { IfOk result (λ filled. filled.register ≡ record book.register {
      records = records;
      steps = steps;
      holds = holds;
    }) }
    ensures network { IfOk result (λ filled. filled.network ≡ book.network) }
    ensures typed { IsTyped book.register → IfOk result (λ filled. IsTyped filled.register) }
{
    records.typed();
    steps.typed();
    holds.typed();
    book.with_shelves(records.into_shelf(), steps.into_shelf(), holds.into_shelf())
}
