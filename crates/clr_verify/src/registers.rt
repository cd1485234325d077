//! Where the tables of two registers differ.
ghost use Rattle.std.specs.Prelude.{◌≡◌, IfNone, IfOk, IfSome, map};
ghost use Rattle.clr_net.specs.Grid.{unplaced};
ghost use Rattle.clr_net.specs.Name.{name_cmp};
ghost use Rattle.clr_rules.specs.Hold.{hold_cmp};
ghost use Rattle.clr_rules.specs.Id.{id_cmp};
ghost use Rattle.clr_rules.specs.StepKey.{step_key, step_key_cmp};
ghost use Rattle.clr_load.specs.Tables.{state_at};
ghost use Rattle.clr_verify.specs.Differences.{Differ};
ghost use Rattle.clr_verify.specs.Registers.{IsFirstDifference, point_key, points_now};

use crate::difference::first_difference;
use crate::table_row::{PointNow, TableRow};
use clr_book::{Book, all_rows};
use clr_net::{Name, Network, PointRow, Position};
use clr_rules::{ClearanceId, Hold, PointState, Record, StepKey, StepRow};
use clr_shelf::{Row, Shelf};
use clr_staff::Staff;
use std::alloc::{AllocError, Global};

/// The table in which two registers differ, and the key of the first row that does.
#[derive(Clone, Copy, Debug, PartialEq, Eq)]
pub enum Difference {
    Section(Name),
    Point(Name),
    Staff(Name),
    Clearance(ClearanceId),
    Step(StepKey),
    Hold(Hold),
}

/// The first row in which the tables of two books differ, in the order of the tables; none where
/// all rows of all tables are the same.
pub fn compare<P, C, T, H>(
    alloc: Global,
    left: &Book<P, C, T, H>,
    right: &Book<P, C, T, H>,
) -> Result<Option<Difference>, AllocError>
where
    P: Shelf<PointState>,
    C: Shelf<Record>,
    T: Shelf<StepRow>,
    H: Shelf<Hold>,
    ensures { IfOk result (IsFirstDifference left.now.register right.now.register) }
{
    if let Some(section) = section_apart(alloc, left.network(), right.network())? {
        return Ok(Some(Difference::Section(section)));
    }
    if let Some(point) = point_apart(alloc, left, right)? {
        return Ok(Some(Difference::Point(point)));
    }
    if let Some(employee) = employee_apart(alloc, left.staff(), right.staff())? {
        return Ok(Some(Difference::Staff(employee)));
    }
    let (_, records, steps, holds) = left.shelves();
    let (_, other_records, other_steps, other_holds) = right.shelves();
    if let Some(clearance) = row_apart(alloc, records, other_records)? {
        return Ok(Some(Difference::Clearance(clearance)));
    }
    if let Some(step) = row_apart(alloc, steps, other_steps)? {
        return Ok(Some(Difference::Step(step)));
    }
    if let Some(hold) = row_apart(alloc, holds, other_holds)? {
        return Ok(Some(Difference::Hold(hold)));
    }
    Ok(None)
}

/// Where the rows on two shelves differ.
fn row_apart<R: Row + TableRow, S: Shelf<R>>(
    alloc: Global,
    left: &S,
    right: &S,
) -> Result<Option<<R as TableRow>::Key>, AllocError>
    ensures { IfOk result
        (Differ R.TableRow.key_of R.TableRow.key_cmp (S.rows left.now) (S.rows right.now)) }
{
    let rows = all_rows(alloc, left)?;
    let others = all_rows(alloc, right)?;
    Ok(first_difference(&rows, &others))
}

/// Where the sections of two networks differ.
fn section_apart(alloc: Global, left: &Network, right: &Network) -> Result<Option<Name>, AllocError>
    ensures { IfOk result (Differ (λ row. row.name) name_cmp left.now.sections right.now.sections) }
{
    let rows = references(alloc, left.sections())?;
    let others = references(alloc, right.sections())?;
    Ok(first_difference(&rows, &others))
}

/// Where the staffs of two registers differ.
fn employee_apart(alloc: Global, left: &Staff, right: &Staff) -> Result<Option<Name>, AllocError>
    ensures { IfOk result (Differ (λ row. row.name) name_cmp left.now right.now) }
{
    let rows = references(alloc, left.rows())?;
    let others = references(alloc, right.rows())?;
    Ok(first_difference(&rows, &others))
}

/// Where the points of two books differ, as they are now.
fn point_apart<P, C, T, H>(
    alloc: Global,
    left: &Book<P, C, T, H>,
    right: &Book<P, C, T, H>,
) -> Result<Option<Name>, AllocError>
where
    P: Shelf<PointState>,
    C: Shelf<Record>,
    T: Shelf<StepRow>,
    H: Shelf<Hold>,
    ensures { IfOk result (Differ point_key name_cmp
        (points_now left.now.register) (points_now right.now.register)) }
{
    let points = points_now(alloc, left)?;
    let others = points_now(alloc, right)?;
    let rows = references(alloc, &points)?;
    let other_rows = references(alloc, &others)?;
    Ok(first_difference(&rows, &other_rows))
}

/// The points of a book, as they are now.
fn points_now<P, C, T, H>(
    alloc: Global,
    book: &Book<P, C, T, H>,
) -> Result<Vec<PointNow>, AllocError>
where
    P: Shelf<PointState>,
    C: Shelf<Record>,
    T: Shelf<StepRow>,
    H: Shelf<Hold>,
    ensures { IfOk result (λ points. points.items ≡ points_now book.now.register) }
{
    let mut points = Vec::new(alloc);
    for point in book.network().points() {
        let row = unplaced(*point);
        let state = state_at(book, &row);
        points.push(PointNow { row, state })?;
    }
    Ok(points)
}

/// A point without its position, which is in its state.
fn unplaced(point: PointRow) -> PointRow
    ensures { result ≡ unplaced point }
{
    PointRow {
        position: Position::Opened,
        ..point
    }
}

/// The state of a point; one without a state is as before the first command.
fn state_at<P, C, T, H>(book: &Book<P, C, T, H>, row: &PointRow) -> PointState
where
    P: Shelf<PointState>,
    C: Shelf<Record>,
    T: Shelf<StepRow>,
    H: Shelf<Hold>,
    ensures { result ≡ state_at book.now.register.states row.now }
{
    match book.state(&row.name) {
        Some(state) => *state,
        None => PointState {
            point: row.name,
            position: row.position,
            hand: None,
        },
    }
}

/// A reference to each row.
fn references<T>(alloc: Global, rows: &[T]) -> Result<Vec<&T>, AllocError>
    ensures { IfOk result (λ found. map (λ row. row.now) found.items ≡ rows.now) }
{
    let mut found = Vec::new(alloc);
    for row in rows {
        found.push(row)?;
    }
    Ok(found)
}
