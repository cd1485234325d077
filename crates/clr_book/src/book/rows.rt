//! Reads whole shelves, and fills them.
ghost use Rattle.std.specs.Prelude.{◌≡◌, IfOk, map, true};
ghost use Rattle.clr_shelf.specs.Rows.{in_key_order};

use clr_shelf::{Row, Shelf};
use std::alloc::{AllocError, Global};

/// All rows of a shelf, in key order.
pub fn all_rows<R: Row, S: Shelf<R>>(alloc: Global, shelf: &S) -> Result<Vec<&R>, AllocError>
    ensures { IfOk result (λ found. map (λ row. row.now) found.items ≡ S.rows shelf.now) }
{
    let mut found = Vec::new(alloc);
    for place in 0..shelf.len() {
        let Some(row) = shelf.at(place) else {
            unreachable!()
        };
        found.push(row)?;
    }
    found.sort_unstable_by(|a, b| a.compare_key(&b.key()));
    Ok(found)
}

/// A shelf with copies of rows that are in the order of their keys.
pub fn filled<R: Row + Copy, S: Shelf<R>>(alloc: Global, rows: &[&R]) -> Result<S, AllocError>
    requires { in_key_order R.key_cmp R.key_of (map (λ row. row.now) rows.now) ≡ true }
    ensures { IfOk result (λ shelf. S.rows shelf ≡ map (λ row. row.now) rows.now) }
{
    let mut shelf = S::empty(alloc);
    for row in rows {
        shelf.reserve(1)?;
        shelf.put(**row);
    }
    Ok(shelf)
}
