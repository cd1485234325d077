//! Rows that others lack: those that are none of these, column by column.
ghost use Rattle.std.specs.Prelude.{◌≡◌, Bool, true, IfOk, map};
ghost use Rattle.std.specs.List.{list_any};
ghost use Rattle.std.specs.List.Sorted.{IsStrictlySortedBy};
ghost use Rattle.clr_net.specs.Grid.{point_names, unplaced};
ghost use Rattle.clr_net.specs.Name.{name_cmp, same_name};
ghost use Rattle.clr_update.specs.Changes.{lacking};
ghost use Rattle.clr_update.specs.Rows.{same_employee, same_point, same_role, same_section};
ghost use Rattle.clr_changes.specs.Names.{employees_named, points_named, sections_named};

use clr_net::{Name, Named, PointRow, Position, SectionRow, row_of};
use clr_staff::{Role, StaffRow};
use std::alloc::{AllocError, Global};

/// A row that goes by a name and is compared column by column.
pub(crate) trait Compared: Named {
    ghost same: { Self → Self → Bool };

    fn is_same(&self, other: &Self) -> bool
        ensures { result ≡ same self.now other.now };

    // Rows that are the same have one name.
    ghost one_name: { (a b : Self) → same a b ≡ true
        → same_name (Self.name_of a) (Self.name_of b) ≡ true };
}

impl Compared for SectionRow {
    ghost same = { same_section };

    fn is_same(&self, other: &SectionRow) -> bool {
        self.name == other.name && self.source == other.source
    }

    ghost one_name = { sections_named };
}

impl Compared for PointRow {
    ghost same = { same_point };

    fn is_same(&self, other: &PointRow) -> bool {
        let ends = self.from_end == other.from_end && self.to_end == other.to_end;
        let kind = self.lockable == other.lockable && self.remote == other.remote;
        let placed = self.position == other.position && self.jumper == other.jumper;
        self.name == other.name && ends && kind && placed
    }

    ghost one_name = { points_named };
}

impl Compared for StaffRow {
    ghost same = { same_employee };

    fn is_same(&self, other: &StaffRow) -> bool {
        self.name == other.name && self.role == other.role && self.supervisor == other.supervisor
    }

    ghost one_name = { employees_named };
}

/// The rows that are none of the others, which are in the order of their names.
pub(crate) fn lacking<R: Compared + Copy>(
    alloc: Global,
    others: &[R],
    rows: &[R],
) -> Result<Vec<R>, AllocError>
    requires { IsStrictlySortedBy name_cmp (map R.name_of others.now) }
    ensures { IfOk result (λ found. found.items ≡ lacking R.same others.now rows.now) }
{
    let mut found = Vec::new(alloc);
    for row in rows {
        if !is_among(others, row) {
            found.push(*row)?;
        }
    }
    Ok(found)
}

/// Whether a row is one of these, which are in the order of their names. It is looked up.
fn is_among<R: Compared>(rows: &[R], row: &R) -> bool
    requires { IsStrictlySortedBy name_cmp (map R.name_of rows.now) }
    ensures { result ≡ list_any (R.same row.now) rows.now }
{
    match row_of(rows, row.name()) {
        Some(other) => row.is_same(other),
        None => false,
    }
}

/// Points without the positions of their rows.
pub(crate) fn unplaced_rows(alloc: Global, points: &[PointRow]) -> Result<Vec<PointRow>, AllocError>
    requires { IsStrictlySortedBy name_cmp (point_names points.now) }
    ensures rows { IfOk result (λ found. found.items ≡ map unplaced points.now) }
    ensures rising { IfOk result (λ found.
        IsStrictlySortedBy name_cmp (point_names found.items)) }
{
    let found = each_unplaced(alloc, points)?;
    Ok(found)
}

fn each_unplaced(alloc: Global, points: &[PointRow]) -> Result<Vec<PointRow>, AllocError>
    ensures { IfOk result (λ found. found.items ≡ map unplaced points.now) }
{
    points.iter().map(unplaced).collect(alloc)
}

/// A point without the position of its row.
pub(crate) fn unplaced(point: &PointRow) -> PointRow
    ensures { result ≡ unplaced point.now }
{
    PointRow {
        position: Position::Opened,
        ..*point
    }
}
