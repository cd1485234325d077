//! The points of version 1, read before the tables are moved to version 2.
ghost use Rattle.std.specs.Prelude.{◌≡◌, ◌⊎◌, IfErr, IsErrAnd, IsTrue, is_ok, true};
ghost use Rattle.sqlite.specs.Held.{state};
ghost use Rattle.sqlite.specs.State.{HasCleanDisk};
ghost use Rattle.clr_load.specs.Tables.{Tables};
ghost use Rattle.clr_load.specs.Contract.{RefusesPoints, old_points};
ghost use Rattle.clr_load.specs.Fault.{IsOfDatabase, IsOfPoints};
ghost use Rattle.clr_load.specs.Found.{Lists};
ghost use Rattle.clr_load.specs.Layout.{is_one};
ghost use Rattle.clr_load.specs.Stored.{HasOldTables};

use crate::TableName;
use crate::fault::StoreFault;
use crate::listing::list_rows;
use crate::table_row::{OldPoint, all_read};
use sqlite::{Alter, Transaction};

/// Reads all rows of `point`, the table of version 1, and changes nothing.
///
/// `BadRow` of `point` where a row reads no value of its type, `Sql` where the database refuses or
/// fails, `NoMemory` where memory runs out.
pub fn check_old_points<S: Alter>(tx: &mut Transaction<'_, S>) -> Result<(), StoreFault>
    ensures lists { Lists S.Store tx.old tx.new IsOfPoints is_one (λ l t. is_ok (old_points t))
        (λ _. true) result }
    ensures was_open { HasCleanDisk (state S.Store tx.new.conn.now)
        → IsTrue (state S.Store tx.old.conn.now).in_transaction
        → IsTrue (state S.Store tx.old.conn.now).is_open ⊎ IsErrAnd result IsOfDatabase }
    ensures refused { HasCleanDisk (state S.Store tx.new.conn.now)
        → IsTrue (state S.Store tx.old.conn.now).in_transaction → (t : Tables)
        → HasOldTables (state S.Store tx.old.conn.now).now t
        → IfErr result (RefusesPoints (old_points t)) }
{
    let rows = list_rows(tx, TableName::Point)?;
    let alloc = *rows.allocator();
    let _points = all_read::<OldPoint>(alloc, &rows)?;
    Ok(())
}
