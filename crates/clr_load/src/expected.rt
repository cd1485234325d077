//! Whether a database has the tables of a register, and no others.
ghost use Rattle.std.specs.Prelude.{◌≡◌, ◌≤◌, ◌↔◌, ◌⊎◌, [], ℕ, false, true, length, pos, Err};
ghost use Rattle.std.specs.Prelude.{IfErr, IfNone, IfOk, IfSome, IsErrAnd, List};
ghost use Rattle.std.specs.Prelude.{IsTrue, MatchResult, Ok, OnOk};
ghost use Rattle.sqlite.specs.Held.{state};
ghost use Rattle.sqlite.specs.Order.{Row as SqlRow};
ghost use Rattle.sqlite.specs.State.{HasCleanDisk, IsLive, IsUnchanged, Shown, Survives};
ghost use Rattle.clr_load.specs.RowsRead.{read_version};
ghost use Rattle.clr_load.specs.declared.table_name.TableName.TheVariants.{Journal, Point};
ghost use Rattle.clr_load.specs.Cause.{SqlHasCause};
ghost use Rattle.clr_load.specs.Contract.{TellsVersion};
ghost use Rattle.clr_load.specs.Fault.{IsOfDatabase, IsOfExpected, IsOfTables};
ghost use Rattle.clr_load.specs.Layout.{Layout as AnyLayout, has_table, is_moved, tree_in};
ghost use Rattle.clr_load.specs.Layout.{version_of};
ghost use Rattle.clr_load.specs.Loads.{Stays};
ghost use Rattle.clr_load.specs.Schema.{schema_in};
ghost use Rattle.clr_load.specs.Sql.{select_sql};
ghost use Rattle.clr_load.specs.Stored.{HasMeta, HasVersion, IsLaidOut, IsPlaced, LacksMeta};
ghost use Rattle.clr_load.specs.declared.fault.StoreFault.TheVariants.{OtherTables, Sql};

use crate::TableName;
use crate::fault::StoreFault;
use crate::layout::Layout;
use crate::listing::select_sql;
use crate::looks::layout_in;
use crate::version::{read_version, version_in};
use sqlite::{Alter, Connection, Row};

/// All rows of a table, in the order of its key, outside a transaction.
pub(crate) fn list_table<S: Alter>(
    conn: &mut Connection<S>,
    table: TableName,
) -> Result<Vec<Row>, StoreFault>
    ensures mode { conn.old.in_transaction ≡ false → conn.new.in_transaction ≡ false }
    ensures survives { Survives (state S.Store conn.old) (state S.Store conn.new) (λ _. ⊥) }
    ensures unchanged { HasCleanDisk (state S.Store conn.new) → MatchResult result
        (λ _. IsUnchanged (state S.Store conn.old) (state S.Store conn.new))
        (λ _. Stays (state S.Store conn.old) (state S.Store conn.new)) }
    ensures shown { HasCleanDisk (state S.Store conn.new) → IfOk result (λ rows.
        Shown (select_sql table) [] (state S.Store conn.old) (state S.Store conn.new)
        rows.items) }
    ensures fault { IfErr result IsOfDatabase }
    ensures cause { HasCleanDisk (state S.Store conn.new) → (l : AnyLayout)
        → has_table l table ≡ true → (state S.Store conn.old).now.schema ≡ schema_in l
        → IfErr result (SqlHasCause (state S.Store conn.old) (state S.Store conn.new)) }
{
    let rows = conn.query_all(select_sql(table), &[])?;
    Ok(rows)
}

/// Whether the rows of `meta` are one, which has the version.
fn is_alone(rows: &[Row], version: u8) -> bool
    ensures { IsTrue result ↔ ((length rows.now ≡ 1)
        × (read_version rows.now ≡ Ok (pos version))) }
{
    if rows.len() != 1 {
        return false;
    }
    version_in(rows) == Ok(i64::from(version))
}

/// Refuses rows that are not those of a layout: another row in `meta`, or one in the `point` that a
/// move has emptied.
fn expect_rows<S: Alter>(conn: &mut Connection<S>, layout: Layout) -> Result<(), StoreFault>
    ensures mode { conn.old.in_transaction ≡ false → conn.new.in_transaction ≡ false }
    ensures survives { Survives (state S.Store conn.old) (state S.Store conn.new) (λ _. ⊥) }
    ensures stays { HasCleanDisk (state S.Store conn.new)
        → Stays (state S.Store conn.old) (state S.Store conn.new) }
    ensures was_open { HasCleanDisk (state S.Store conn.new)
        → IsTrue (state S.Store conn.old).is_open ⊎ IsErrAnd result IsOfDatabase }
    ensures still_open { HasCleanDisk (state S.Store conn.new)
        → OnOk result (IsTrue (state S.Store conn.new).is_open) }
    ensures fault { IfErr result IsOfTables }
    ensures other { HasCleanDisk (state S.Store conn.new)
        → (state S.Store conn.old).now.schema ≡ schema_in layout
        → IfErr result (λ fault. fault ≡ OtherTables
        → HasVersion (version_of layout) (state S.Store conn.old).now → ⊥) }
    ensures alone { HasCleanDisk (state S.Store conn.new) → (meta : List SqlRow)
        → HasMeta (state S.Store conn.old).now meta → OnOk result (length meta ≡ 1) }
    ensures same { HasCleanDisk (state S.Store conn.new) → IsTrue (state S.Store conn.new).is_open
        → (state S.Store conn.new).now ≡ (state S.Store conn.old).now }
    ensures committed { HasCleanDisk (state S.Store conn.new)
        → IsTrue (state S.Store conn.new).is_open
        → (state S.Store conn.new).committed ≡ (state S.Store conn.old).committed }
    ensures emptied { HasCleanDisk (state S.Store conn.new)
        → (state S.Store conn.old).now.schema ≡ schema_in layout
        → OnOk result (is_moved layout ≡ true
        → (state S.Store conn.old).now.trees (tree_in layout Point) ≡ []) }
    ensures cause { conn.old.in_transaction ≡ false → HasCleanDisk (state S.Store conn.new)
        → (state S.Store conn.old).now.schema ≡ schema_in layout
        → IfErr result (SqlHasCause (state S.Store conn.old) (state S.Store conn.new)) }
{
    if !conn.is_autocommit() {
        return Err(StoreFault::Sql);
    }
    let meta = list_table(conn, TableName::Meta)?;
    if !is_alone(&meta, layout.version()) {
        return Err(StoreFault::OtherTables);
    }
    if !layout.is_moved() {
        return Ok(());
    }
    let points = list_table(conn, TableName::Point)?;
    if !points.is_empty() {
        return Err(StoreFault::OtherTables);
    }
    Ok(())
}

/// Whether there is one row.
fn is_one(rows: &[Row]) -> bool
    ensures { IsTrue result ↔ (length rows.now ≡ 1) }
{
    rows.len() == 1
}

/// Refuses a table of the journal, where there is one, that has not one row.
fn expect_place<S: Alter>(conn: &mut Connection<S>, layout: Layout) -> Result<(), StoreFault>
    ensures mode { conn.old.in_transaction ≡ false → conn.new.in_transaction ≡ false }
    ensures survives { Survives (state S.Store conn.old) (state S.Store conn.new) (λ _. ⊥) }
    ensures stays { HasCleanDisk (state S.Store conn.new)
        → Stays (state S.Store conn.old) (state S.Store conn.new) }
    ensures fault { IfErr result IsOfTables }
    ensures other { HasCleanDisk (state S.Store conn.new)
        → (state S.Store conn.old).now.schema ≡ schema_in layout
        → IfErr result (λ fault. fault ≡ OtherTables
        → IsPlaced layout (state S.Store conn.old).now.trees → ⊥) }
    ensures same { HasCleanDisk (state S.Store conn.new) → IsTrue (state S.Store conn.new).is_open
        → (state S.Store conn.new).now ≡ (state S.Store conn.old).now }
    ensures committed { HasCleanDisk (state S.Store conn.new)
        → IsTrue (state S.Store conn.new).is_open
        → (state S.Store conn.new).committed ≡ (state S.Store conn.old).committed }
    ensures one { HasCleanDisk (state S.Store conn.new)
        → (state S.Store conn.old).now.schema ≡ schema_in layout
        → OnOk result (has_table layout Journal ≡ true
        → length ((state S.Store conn.old).now.trees (tree_in layout Journal)) ≡ 1) }
    ensures cause { conn.old.in_transaction ≡ false → HasCleanDisk (state S.Store conn.new)
        → (state S.Store conn.old).now.schema ≡ schema_in layout
        → IfErr result (SqlHasCause (state S.Store conn.old) (state S.Store conn.new)) }
{
    if !conn.is_autocommit() {
        return Err(StoreFault::Sql);
    }
    if !layout.is_logged() {
        return Ok(());
    }
    let places = list_table(conn, TableName::Journal)?;
    if !is_one(&places) {
        return Err(StoreFault::OtherTables);
    }
    Ok(())
}

/// A version that has layouts.
#[tactic(auto, using(crate::proofs::Versions::between))]
fn known(version: i64) -> Option<u8>
    ensures some { IfSome result (λ n. (version ≡ pos n) × (1 ≤ n) × (n ≤ 2)) }
    ensures none { IfNone result ((n : ℕ) → version ≡ pos n → 1 ≤ n → n ≤ 2 → ⊥) }
{
    match version {
        1 => Some(1),
        2 => Some(2),
        _ => None,
    }
}

/// Reads the version, and refuses tables that are not those of a register of it, and changes
/// nothing. Of a version below the oldest, and of one that is not known, the tables are not looked
/// at.
///
/// `Sql` where a transaction is open, there is no table `meta`, or the database fails; `NoMemory`
/// where memory runs out; `BadRow` of `meta` where that has no version. `OtherTables` where there
/// is another table, index, view or trigger, where one is missing or of another form, where `meta`
/// has another row, where a `point` that a move has emptied has one, and where the table of the
/// journal has not one row.
pub fn expect_version<S: Alter>(conn: &mut Connection<S>, oldest: u8) -> Result<i64, StoreFault>
    ensures mode { conn.old.in_transaction ≡ false → conn.new.in_transaction ≡ false }
    ensures version { HasCleanDisk (state S.Store conn.new) → (meta : List SqlRow)
        → HasMeta (state S.Store conn.old).now meta
        → TellsVersion oldest (read_version meta) result }
    ensures laid_out { HasCleanDisk (state S.Store conn.new) → IfOk result (λ version. (n : ℕ)
        → version ≡ pos n → 1 ≤ n → oldest ≤ n → n ≤ 2 → IsLaidOut n (state S.Store conn.old).now) }
    ensures alone { HasCleanDisk (state S.Store conn.new) → IfOk result (λ version. (n : ℕ)
        → version ≡ pos n → 1 ≤ n → oldest ≤ n → n ≤ 2 → (meta : List SqlRow)
        → HasMeta (state S.Store conn.old).now meta → length meta ≡ 1) }
    ensures live { IsLive (state S.Store conn.old) }
    ensures bare { LacksMeta (state S.Store conn.old).now → result ≡ Err Sql }
    ensures fault { IfErr result IsOfExpected }
    ensures other { HasCleanDisk (state S.Store conn.new) → IfErr result (λ fault.
        fault ≡ OtherTables → (n : ℕ) → HasVersion n (state S.Store conn.old).now → ⊥) }
    ensures cause { conn.old.in_transaction ≡ false → HasCleanDisk (state S.Store conn.new)
        → (meta : List SqlRow) → HasMeta (state S.Store conn.old).now meta
        → IfErr result (SqlHasCause (state S.Store conn.old) (state S.Store conn.new)) }
    ensures was_open { HasCleanDisk (state S.Store conn.new)
        → OnOk result (IsTrue (state S.Store conn.old).is_open) }
    ensures same { HasCleanDisk (state S.Store conn.new) → IsTrue (state S.Store conn.new).is_open
        → (state S.Store conn.new).now ≡ (state S.Store conn.old).now }
    ensures committed { HasCleanDisk (state S.Store conn.new)
        → IsTrue (state S.Store conn.new).is_open
        → (state S.Store conn.new).committed ≡ (state S.Store conn.old).committed }
    ensures survives { Survives (state S.Store conn.old) (state S.Store conn.new) (λ _. ⊥) }
{
    let found = layout_in(conn.schema());
    let version = read_version(conn)?;
    let Some(number) = known(version) else {
        return Ok(version);
    };
    if number < oldest {
        return Ok(version);
    }
    let Some(layout) = found else {
        return Err(StoreFault::OtherTables);
    };
    if layout.version() != number {
        return Err(StoreFault::OtherTables);
    }
    expect_rows(conn, layout)?;
    expect_place(conn, layout)?;
    Ok(version)
}
