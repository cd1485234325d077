//! The rows of several groups of a shelf.
ghost use Rattle.std.specs.Prelude.{◌≡◌, IfOk, map, filter};
ghost use Rattle.std.specs.List.{list_any};
ghost use Rattle.std.specs.List.Sorted.{IsStrictlySortedBy};

use clr_shelf::{Row, Shelf};
use std::alloc::{AllocError, Global};

/// The rows of these groups, in key order.
pub fn rows_in<'a, R: Row, S: Shelf<R>>(
    alloc: Global,
    shelf: &'a S,
    groups: &[R::Group],
) -> Result<Vec<&'a R>, AllocError>
    requires { IsStrictlySortedBy R.group_cmp groups.now }
    ensures { IfOk result (λ found. map (λ row. row.now) found.items
        ≡ filter (λ row. list_any (λ group. R.is_in group row) groups.now) (S.rows shelf.now)) }
{
    let mut found = Vec::with_capacity(alloc, groups.len())?;
    shelf.push_groups(groups, &mut found)?;
    found.sort_unstable_by(|a, b| a.compare_key(&b.key()));
    Ok(found)
}
