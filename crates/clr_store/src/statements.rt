//! One statement each, inside a transaction.
ghost use Rattle.std.specs.Prelude.{◌≡◌, [], ◌∷◌, take, true};
ghost use Rattle.sqlite.specs.Values.{bound};
ghost use Rattle.clr_load.specs.TableEdits.{without_table_row};
ghost use Rattle.clr_store.specs.Change.{Does, Inserts, Replaces, with_rows};
ghost use Rattle.clr_store.specs.Transaction.{Concludes};
ghost use Rattle.clr_load.specs.Layout.{has_table};
ghost use Rattle.clr_load.specs.declared.layout.Layout.TheVariants.{AsMade};
ghost use Rattle.clr_load.specs.Schema.{columns_in, keys_in};
ghost use Rattle.clr_load.specs.Stored.{fits_columns, has_key};

use crate::sql::{clear_sql, delete_sql, insert_sql, replace_sql};
use clr_load::{StoreFault, TableName};
use sqlite::types::ValueRef;
use sqlite::{Alter, Error, ErrorCode, Transaction};

/// Inserts a row whose key is not there.
pub(crate) fn insert_row<S: Alter>(
    tx: &mut Transaction<'_, S>,
    table: TableName,
    row: &[ValueRef<'_>],
) -> Result<(), StoreFault>
    requires there { has_table AsMade table ≡ true }
    requires fits { fits_columns (columns_in table) (bound row.now) ≡ true }
    ensures { Does S.Store tx.old tx.new (with_rows table (λ rows. bound row.now ∷ rows)) result }
{
    tx.execute(insert_sql(table), row)?;
    Ok(())
}

/// Inserts a row if none of its key is there, and says whether it did.
pub(crate) fn insert_new<S: Alter>(
    tx: &mut Transaction<'_, S>,
    table: TableName,
    row: &[ValueRef<'_>],
) -> Result<bool, StoreFault>
    requires there { has_table AsMade table ≡ true }
    requires fits { fits_columns (columns_in table) (bound row.now) ≡ true }
    requires keyed { has_key (keys_in table) (take (keys_in table) (bound row.now)) ≡ true }
    ensures { Inserts S.Store tx.old tx.new table (bound row.now) result }
{
    match tx.execute(insert_sql(table), row) {
        Ok(_) => Ok(true),
        Err(Error::SqliteFailure(ErrorCode::ConstraintViolation(_))) => Ok(false),
        Err(error) => Err(StoreFault::from(error)),
    }
}

/// Deletes the row of a key, if it is there.
pub(crate) fn delete_row<S: Alter>(
    tx: &mut Transaction<'_, S>,
    table: TableName,
    key: &[ValueRef<'_>],
) -> Result<(), StoreFault>
    requires there { has_table AsMade table ≡ true }
    requires keyed { has_key (keys_in table) (bound key.now) ≡ true }
    ensures { Does S.Store tx.old tx.new
        (with_rows table (without_table_row (keys_in table) (bound key.now))) result }
{
    tx.execute(delete_sql(table), key)?;
    Ok(())
}

/// Deletes all rows.
pub(crate) fn clear_table<S: Alter>(
    tx: &mut Transaction<'_, S>,
    table: TableName,
) -> Result<(), StoreFault>
    requires { has_table AsMade table ≡ true }
    ensures { Does S.Store tx.old tx.new (with_rows table (λ _. [])) result }
{
    tx.execute(clear_sql(table), &[])?;
    Ok(())
}

/// Replaces the row that has the key of a row by that row, and says how many there were: one or
/// none. A table in memory finds it by its key, where it would delete it by a walk over all rows.
pub(crate) fn replace_row<S: Alter>(
    tx: &mut Transaction<'_, S>,
    table: TableName,
    row: &[ValueRef<'_>],
) -> Result<usize, StoreFault>
    requires there { has_table AsMade table ≡ true }
    requires fits { fits_columns (columns_in table) (bound row.now) ≡ true }
    requires keyed { has_key (keys_in table) (take (keys_in table) (bound row.now)) ≡ true }
    ensures { Replaces S.Store tx.old tx.new table (bound row.now) result }
{
    Ok(tx.execute(replace_sql(table), row)?)
}

/// Ends a transaction: commits what calls inside it have done, or rolls it back where one failed.
pub(crate) fn conclude<S: Alter>(
    tx: Transaction<'_, S>,
    done: Result<(), StoreFault>,
) -> Result<(), StoreFault>
    ensures { Concludes S.Store tx.entry.conn.now tx.exit.0.now done result }
{
    done?;
    tx.commit()?;
    Ok(())
}
