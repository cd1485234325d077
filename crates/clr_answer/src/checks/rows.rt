//! Finds a row among the rows that are given.
ghost use Rattle.std.specs.Prelude.{◌≡◌, true, map, option_copied};
ghost use Rattle.clr_shelf.specs.Rows.{in_key_order, row_of};

use clr_shelf::Row;

/// The row of a key among rows in key order. It is looked up by halves.
pub(crate) fn find_row<'a, R: Row>(rows: &[&'a R], key: &R::Key) -> Option<&'a R>
    requires { in_key_order R.key_cmp R.key_of (map (λ row. row.now) rows.now) ≡ true }
    ensures { option_copied result
        ≡ row_of R.key_cmp R.key_of key.now (map (λ row. row.now) rows.now) }
{
    match rows.binary_search_by(|row| row.compare_key(key)) {
        Ok(place) => Some(rows[place]),
        Err(_) => None,
    }
}
