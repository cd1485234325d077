//! Where two lists of rows differ.
ghost use Rattle.std.specs.Prelude.{◌≡◌, IfNone, IfSome, map, option_map};
ghost use Rattle.clr_verify.specs.Differences.{AreApart, Differ, lesser};

use crate::table_row::TableRow;

/// The key of the first row in which two lists differ, the lesser one where their rows have two.
pub fn first_difference<R: TableRow>(left: &[&R], right: &[&R]) -> Option<R::Key>
    ensures { Differ R.key_of R.key_cmp
        (map (λ row. row.now) left.now) (map (λ row. row.now) right.now) result }
{
    for place in 0..left.len().max(right.len()) {
        if let Some(key) = row_difference(left.get(place).copied(), right.get(place).copied()) {
            return Some(key);
        }
    }
    None
}

/// The key of the rows of two lists at one place, where they differ.
fn row_difference<R: TableRow>(left: Option<&R>, right: Option<&R>) -> Option<R::Key>
    ensures same { IfNone result
        (option_map (λ row. row.now) left.entry ≡ option_map (λ row. row.now) right.entry) }
    ensures apart { IfSome result (AreApart R.key_of R.key_cmp
        (option_map (λ row. row.now) left.entry) (option_map (λ row. row.now) right.entry)) }
{
    match (left, right) {
        (Some(row), Some(other)) => {
            if row.is_same(other) {
                None
            } else {
                Some(lesser(row, other))
            }
        }
        (Some(row), None) => Some(row.key()),
        (None, Some(other)) => Some(other.key()),
        (None, None) => None,
    }
}

/// The lesser of the keys of two rows.
fn lesser<R: TableRow>(row: &R, other: &R) -> R::Key
    ensures { result ≡ lesser R.key_cmp (R.key_of row.now) (R.key_of other.now) }
{
    if other.is_before(row) {
        other.key()
    } else {
        row.key()
    }
}
