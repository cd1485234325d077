//! The version that the tables say they are of.
ghost use Rattle.std.specs.Prelude.{◌≡◌, ◌↔◌, false, find, Err, List, IsTrue, IfErr, None, OnOk};
ghost use Rattle.std.specs.Option.{option_copied};
ghost use Rattle.sqlite.specs.Held.{state};
ghost use Rattle.sqlite.specs.Order.{Row, column};
ghost use Rattle.sqlite.specs.State.{HasCleanDisk, Survives};
ghost use Rattle.sqlite_schema.specs.Names.{table_named};
ghost use Rattle.clr_load.specs.TableText.{table_text};
ghost use Rattle.clr_load.specs.RowsRead.{integer_of, is_version_name, read_version};
ghost use Rattle.clr_load.specs.Cause.{SqlHasCause};
ghost use Rattle.clr_load.specs.Contract.{Tells};
ghost use Rattle.clr_load.specs.Fault.{IsOfVersion};
ghost use Rattle.clr_load.specs.Stored.{HasMeta, LacksMeta};
ghost use Rattle.clr_load.specs.declared.fault.StoreFault.TheVariants.{Sql};

use crate::TableName;
use crate::fault::StoreFault;
use crate::listing::list_rows;
use sqlite::types::ValueRef;
use sqlite::{Alter, Connection, Row};
use sqlite_schema::schema::Schema;

/// Whether a row is that of the version.
fn is_version(row: &Row) -> bool
    ensures { result ≡ is_version_name (column row.now 0) }
{
    match row.get_ref(0) {
        Ok(ValueRef::Text(name)) => name == b"version".as_slice(),
        _ => false,
    }
}

/// The number in a row.
fn integer_in(row: &Row) -> Result<i64, TableName>
    ensures { result ≡ integer_of (column row.now 1) }
{
    match row.get_ref(1) {
        Ok(ValueRef::Int(number)) => Ok(number),
        _ => Err(TableName::Meta),
    }
}

/// The row of the version.
fn version_row(rows: &[Row]) -> Option<&Row>
    ensures { option_copied result ≡ find (λ row. is_version_name (column row 0)) rows.now }
{
    rows.iter().find(|row| is_version(row))
}

/// The version that the rows of `meta` have.
pub(crate) fn version_in(rows: &[Row]) -> Result<i64, TableName>
    ensures { result ≡ read_version rows.now }
{
    match version_row(rows) {
        Some(row) => integer_in(row),
        None => Err(TableName::Meta),
    }
}

/// Whether there is a table that could have the version.
fn has_meta(schema: &Schema) -> bool
    ensures { IsTrue result ↔ ((table_named schema.now (table_text TableName.Meta) ≡ None) → ⊥) }
{
    schema.table_named(b"meta").is_some()
}

/// Reads the version, in a transaction that changes nothing.
///
/// `Sql` where a transaction is open, there is no table `meta`, or the database fails; `NoMemory`
/// where memory runs out; `BadRow` of `meta` where that table has no version.
pub fn read_version<S: Alter>(conn: &mut Connection<S>) -> Result<i64, StoreFault>
    ensures mode { conn.new.in_transaction ≡ conn.old.in_transaction }
    ensures version { HasCleanDisk (state S.Store conn.new) → (meta : List Row)
        → HasMeta (state S.Store conn.old).now meta → Tells (read_version meta) result }
    ensures bare { LacksMeta (state S.Store conn.old).now → result ≡ Err Sql }
    ensures fault { IfErr result IsOfVersion }
    ensures cause { conn.old.in_transaction ≡ false → HasCleanDisk (state S.Store conn.new)
        → (meta : List Row) → HasMeta (state S.Store conn.old).now meta
        → IfErr result (SqlHasCause (state S.Store conn.old) (state S.Store conn.new)) }
    ensures was_open { HasCleanDisk (state S.Store conn.new)
        → OnOk result (IsTrue (state S.Store conn.old).is_open) }
    ensures same { HasCleanDisk (state S.Store conn.new) → IsTrue (state S.Store conn.new).is_open
        → (state S.Store conn.new).now ≡ (state S.Store conn.old).now }
    ensures committed { HasCleanDisk (state S.Store conn.new)
        → IsTrue (state S.Store conn.new).is_open
        → (state S.Store conn.new).committed ≡ (state S.Store conn.old).committed }
    ensures survives { Survives (state S.Store conn.old) (state S.Store conn.new) (λ _. ⊥) }
{
    if !conn.is_autocommit() {
        return Err(StoreFault::Sql);
    }
    if !has_meta(conn.schema()) {
        return Err(StoreFault::Sql);
    }
    let mut tx = conn.transaction();
    let rows = list_rows(&mut tx, TableName::Meta)?;
    let version = version_in(&rows)?;
    Ok(version)
}
