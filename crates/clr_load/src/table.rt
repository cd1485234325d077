//! A table, read row by row.
ghost use Rattle.std.specs.Prelude.{◌≡◌};
ghost use Rattle.clr_load.specs.RowsRead.{all_read};
ghost use Rattle.clr_load.specs.Layout.{has_rows};
ghost use Rattle.clr_load.specs.Loads.{Loads};
ghost use Rattle.clr_load.specs.Stored.{rows_in};

use crate::TableName;
use crate::fault::StoreFault;
use crate::fill::Fill;
use crate::listing::select_sql;
use crate::table_row::TableRow;
use sqlite::{Alter, Connection};
use std::alloc::Global;

/// Reads a table in the order of its key, up to the first row that does not read. Some rows at a
/// time are in memory, and what they are read into.
pub(crate) fn read_table<S: Alter, T: TableRow, F: Fill<T>>(
    conn: &mut Connection<S>,
    alloc: Global,
    table: TableName,
) -> Result<F, StoreFault>
    ensures { Loads S.Store conn.old conn.new (λ l. has_rows l table)
        (λ l t. all_read T.TableRow.values (rows_in l table t)) F.has result }
{
    let mut into = F::empty(alloc);
    let mut rows = conn.query(select_sql(table), &[])?;
    'rows: for _ in 0..u64::MAX {
        let Some(row) = rows.next()? else {
            return Ok(into);
        };
        let item = T::read(row)?;
        into.fill(item)?;
    }
    Err(StoreFault::NoMemory)
}
