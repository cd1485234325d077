//! The rows of some names.
ghost use Rattle.std.specs.Prelude.{◌≡◌, IfOk, filter, map};
ghost use Rattle.std.specs.List.Sorted.{IsStrictlySortedBy};
ghost use Rattle.clr_net.specs.Name.{name_cmp};
ghost use Rattle.clr_net.specs.Names.{has_name};

use clr_net::{Name, Named, row_of, sort_by_name};
use std::alloc::{AllocError, Global};

/// The rows of these names, in the order of names. Each is looked up.
pub(crate) fn rows_named<'a, R: Named>(
    alloc: Global,
    rows: &'a [R],
    names: &[Name],
) -> Result<Vec<&'a R>, AllocError>
    requires rows { IsStrictlySortedBy name_cmp (map R.name_of rows.now) }
    requires names { IsStrictlySortedBy name_cmp names.now }
    ensures { IfOk result (λ found. map (λ row. row.now) found.items
        ≡ filter (λ row. has_name names.now (R.name_of row)) rows.now) }
{
    let mut found = Vec::new(alloc);
    for name in names {
        if let Some(row) = row_of(rows, *name) {
            found.push(row)?;
        }
    }
    sort_by_name(&mut found);
    Ok(found)
}
