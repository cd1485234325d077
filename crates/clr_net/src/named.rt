//! Rows that go by a name: their order, the place of a name, and a name that comes twice.
ghost use Rattle.std.specs.Prelude.{◌≡◌, ◌<◌, ◌≤◌, ℕ, List, find, length, map, position, IfOk};
ghost use Rattle.std.specs.Prelude.{IfSome, IfNone, IsTrue, false, vec_capacity};
ghost use Rattle.std.specs.List.{IsDistinct};
ghost use Rattle.std.specs.Option.{option_copied};
ghost use Rattle.std.specs.List.Sorted.{IsPermutation, IsStrictlySortedBy, IsSortedByKey};
ghost use Rattle.clr_net.specs.Name.{same_name, name_cmp};
ghost use Rattle.clr_net.specs.Names.{has_name, repeat_place};
ghost use Rattle.clr_net.specs.Additions.{with_named};

use crate::name::Name;
use std::alloc::{AllocError, Global};
use std::collections::BTreeSet;

/// A row that goes by a name.
pub trait Named {
    ghost name_of: { Self → List ℕ };

    fn name(&self) -> Name
        ensures { result ≡ name_of self.now };
}

/// Puts rows into the order of their names.
pub fn sort_by_name<R: Named>(rows: &mut Vec<R>)
    ensures permutation { IsPermutation rows.old.items rows.new.items }
    ensures sorted { IsSortedByKey R.name_of name_cmp rows.new.items }
    ensures rising { IsDistinct same_name (map R.name_of rows.old.items)
        → IsStrictlySortedBy name_cmp (map R.name_of rows.new.items) }
    ensures capacity { vec_capacity rows.new ≡ vec_capacity rows.old }
{
    rows.sort_unstable_by_key(|row| row.name());
}

/// The same rows, in the order of their names, in a list with room for this many.
pub(crate) fn in_order<R: Named + Copy>(
    alloc: Global,
    rows: &[R],
    room: usize,
) -> Result<Vec<R>, AllocError>
    ensures permutation { IfOk result (λ ordered. IsPermutation rows.now ordered.items) }
    ensures rising { IfOk result (λ ordered. IsDistinct same_name (map R.name_of rows.now)
        → IsStrictlySortedBy name_cmp (map R.name_of ordered.items)) }
    ensures room { IfOk result (λ ordered. room ≤ vec_capacity ordered) }
{
    let mut ordered = Vec::with_capacity(alloc, room)?;
    ordered.extend_from_slice(rows)?;
    sort_by_name(&mut ordered);
    Ok(ordered)
}

/// Puts a row of a new name among rows in the order of their names, for which there is room.
pub(crate) fn insert_by_name<R: Named + Copy>(rows: &mut Vec<R>, row: R)
    requires rising { IsStrictlySortedBy name_cmp (map R.name_of rows.old.items) }
    requires new { has_name (map R.name_of rows.old.items) (R.name_of row) ≡ false }
    requires room { length rows.old.items < vec_capacity rows.old }
    ensures rows { rows.new.items ≡ with_named R.name_of row rows.old.items }
    ensures room { vec_capacity rows.old ≤ vec_capacity rows.new }
{
    let name = row.name();
    let place = rows.partition_point(|other| other.name().cmp(&name).is_lt());
    let Ok(()) = rows.insert(place, row) else {
        unreachable!()
    };
}

/// Whether the name of each row comes before that of the next.
fn rises<R: Named>(rows: &[R]) -> bool
    ensures { IsTrue result → IsStrictlySortedBy name_cmp (map R.name_of rows.now) }
{
    rows.is_sorted_by(|row, next| row.name().cmp(&next.name()).is_lt())
}

/// The place of the row with this name, among rows in the order of their names.
pub fn place_of<R: Named>(rows: &[R], name: Name) -> Option<usize>
    requires { IsStrictlySortedBy name_cmp (map R.name_of rows.now) }
    ensures { result ≡ position (same_name name) (map R.name_of rows.now) }
{
    rows.binary_search_by(|row| row.name().cmp(&name)).ok()
}

/// The row with this name, among rows in the order of their names.
pub fn row_of<R: Named>(rows: &[R], name: Name) -> Option<&R>
    requires { IsStrictlySortedBy name_cmp (map R.name_of rows.now) }
    ensures { option_copied result ≡ find (λ row. same_name name (R.name_of row)) rows.now }
{
    match place_of(rows, name) {
        Some(place) => rows.get(place),
        None => None,
    }
}

/// The first place of a row whose name an earlier row has too.
pub fn repeat_place<R: Named>(alloc: Global, rows: &[R]) -> Result<Option<usize>, AllocError>
    ensures place { IfOk result (λ place. place ≡ repeat_place (map R.name_of rows.now)) }
    ensures inside { IfOk result (λ place. IfSome place (λ i. i < length rows.now)) }
    ensures once { IfOk result (λ place.
        IfNone place (IsDistinct same_name (map R.name_of rows.now))) }
{
    let mut seen = BTreeSet::new(alloc);
    for (place, row) in rows.iter().enumerate() {
        if !seen.insert(row.name())? {
            return Ok(Some(place));
        }
    }
    Ok(None)
}

/// The same of rows that are given in the order of their names too: where these rise, no name
/// comes twice.
pub(crate) fn repeat_place_beside<R: Named>(
    alloc: Global,
    rows: &[R],
    ordered: &[R],
) -> Result<Option<usize>, AllocError>
    requires { IsPermutation rows.now ordered.now }
    ensures place { IfOk result (λ place. place ≡ repeat_place (map R.name_of rows.now)) }
    ensures inside { IfOk result (λ place. IfSome place (λ i. i < length rows.now)) }
    ensures once { IfOk result (λ place.
        IfNone place (IsDistinct same_name (map R.name_of rows.now))) }
{
    if rises(ordered) {
        return Ok(None);
    }
    repeat_place(alloc, rows)
}

impl<'a, R: Named> Named for &'a R {
    ghost name_of = { λ row. R.name_of row.now };

    fn name(&self) -> Name {
        (**self).name()
    }
}
