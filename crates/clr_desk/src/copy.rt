//! A copy of a book, in which commands can be tried.
ghost use Rattle.std.specs.Prelude.{◌≡◌, IfOk, map};
ghost use Rattle.clr_desk.specs.Shelving.{shelved};
ghost use Rattle.clr_net.specs.Grid.{unplaced};
ghost use Rattle.clr_rules.specs.Good.{IsGood};
ghost use Rattle.clr_load.specs.RowsRead.{with_its_position};
ghost use Rattle.clr_load.specs.TypedRows.{IsTyped};

use crate::book::DeskBook;
use crate::opening::bare_book;
use crate::shelves::{refilled, shelves_in};
use crate::typed::Typed;
use crate::typed_shelf::TypedShelf;
use clr_book::{Book, all_rows};
use clr_load::Fill;
use clr_net::{PointRow, Position, SectionRow};
use clr_rules::{Hold, PointState, Record, StepRow};
use clr_shelf::{Row, Shelf};
use clr_staff::StaffRow;
use std::alloc::{AllocError, Global};

/// Sections, points, states and staff.
type Lists = (
    Vec<SectionRow>,
    Vec<PointRow>,
    Vec<PointState>,
    Vec<StaffRow>,
);

/// Another book with the register of a book, which is good in every register that is reached.
pub fn copy_of(alloc: Global, book: &DeskBook) -> Result<DeskBook, AllocError>
    ensures { IsGood book.now.register
        → IfOk result (λ copy. copy.register ≡ book.now.register) }
{
    typed_copy(alloc, book)
}

/// The same, and that its values are within their types.
pub(crate) fn typed_copy(alloc: Global, book: &DeskBook) -> Result<DeskBook, AllocError>
    ensures register { IsGood book.now.register
        → IfOk result (λ copy. copy.register ≡ book.now.register) }
    ensures typed { IfOk result (λ copy. IsTyped copy.register) }
{
    let shelves = shelves_in(alloc, book)?;
    let lists = lists_of(alloc, book)?;
    match bare_book(lists.0, lists.1, lists.3, &lists.2) {
        Ok(bare) => refilled(bare, shelves),
        Err(_) => Err(AllocError),
    }
}

/// The sections, the points in their present positions, the states and the staff of a book.
fn lists_of<P, C, T, H>(alloc: Global, book: &Book<P, C, T, H>) -> Result<Lists, AllocError>
where
    P: Shelf<PointState>,
    C: Shelf<Record>,
    T: Shelf<StepRow>,
    H: Shelf<Hold>,
    ensures sections { IfOk result (λ it. it.0.items ≡ book.now.register.net.sections) }
    ensures points { IfOk result (λ it. it.1.items
        ≡ map (with_its_position book.now.register.states) book.now.register.net.points) }
    ensures states { IfOk result (λ it. it.2.items ≡ book.now.register.states) }
    ensures staff { IfOk result (λ it. it.3.items ≡ book.now.register.staff) }
{
    let (states, _, _, _) = book.shelves();
    let network = book.network();
    let sections = Vec::from_slice(alloc, network.sections())?;
    let points = points_now(alloc, book, network.points())?;
    let states = copied(alloc, states)?;
    let staff = Vec::from_slice(alloc, book.staff().rows())?;
    Ok((sections, points, states, staff))
}

/// Copies of the rows of a shelf, in key order.
pub fn copied<R: Row + Copy, S: Shelf<R>>(alloc: Global, shelf: &S) -> Result<Vec<R>, AllocError>
    ensures { IfOk result (λ rows. rows.items ≡ S.rows shelf.now) }
{
    let rows = all_rows(alloc, shelf)?;
    filled(alloc, &rows)
}

/// A shelf with copies of the rows of a shelf, put one after another.
pub(crate) fn same_shelf<R: Row + Typed + Copy, S: Shelf<R>, T: Shelf<R>>(
    alloc: Global,
    shelf: &S,
) -> Result<TypedShelf<R, T>, AllocError>
    ensures put { IfOk result (λ copy. copy ≡ shelved R.key_cmp R.key_of (S.rows shelf.now)) }
    ensures rows { IfOk result (λ copy. copy ≡ S.rows shelf.now) }
{
    let rows = all_rows(alloc, shelf)?;
    filled(alloc, &rows)
}

/// Copies of rows, in what takes them one after another.
fn filled<R: Row + Copy, F: Fill<R>>(alloc: Global, rows: &[&R]) -> Result<F, AllocError>
    ensures { IfOk result (λ found. F.has found (map (λ row. row.now) rows.now)) }
{
    let mut found = F::empty(alloc);
    for row in rows {
        found.fill(**row)?;
    }
    Ok(found)
}

/// Switching points of a book, each in its present position.
pub fn points_now<P, C, T, H>(
    alloc: Global,
    book: &Book<P, C, T, H>,
    points: &[PointRow],
) -> Result<Vec<PointRow>, AllocError>
where
    P: Shelf<PointState>,
    C: Shelf<Record>,
    T: Shelf<StepRow>,
    H: Shelf<Hold>,
    ensures { IfOk result (λ placed. placed.items
        ≡ map (λ p. with_its_position book.now.register.states (unplaced p)) points.now) }
{
    points
        .iter()
        .map(|point| point_now(book, point))
        .collect(alloc)
}

/// A switching point of a book in its present position.
fn point_now<P, C, T, H>(book: &Book<P, C, T, H>, point: &PointRow) -> PointRow
where
    P: Shelf<PointState>,
    C: Shelf<Record>,
    T: Shelf<StepRow>,
    H: Shelf<Hold>,
    ensures { result ≡ with_its_position book.now.register.states (unplaced point.now) }
{
    let position = match book.state(&point.name) {
        Some(state) => state.position,
        None => Position::Opened,
    };
    PointRow { position, ..*point }
}
