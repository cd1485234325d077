//! Tables of version 1 with the register of JONES/1 after its first step, made by the statements of
//! that version.
ghost use Rattle.std.specs.Prelude.{◌≡◌, ◌<◌, ◌^◌, [], ◌∷◌, ◌++◌, false, true, IsTrue, OnOk};
ghost use Rattle.sqlite.specs.Held.{state};
ghost use Rattle.sqlite.specs.State.{HasCleanDisk};
ghost use Rattle.sqlite.specs.Values.{bound};
ghost use Rattle.sqlite_value.specs.Value.{owned};
ghost use Rattle.clr_load.specs.Tables.{number_value};
ghost use Rattle.clr_load.specs.Layout.{has_table, names_before, names_in};
ghost use Rattle.clr_load.specs.Schema.{columns_in, no_schema};
ghost use Rattle.clr_load.specs.Sql.{create_sql, insert_sql};
ghost use Rattle.clr_load.specs.Stored.{fits_columns};
ghost use Rattle.clr_load.specs.declared.layout.Layout.TheVariants.{OfOne};
ghost use Rattle.clr_store.specs.Change.{HasEmpty, Reaches};
ghost use Rattle.clr_known.specs.OldTables.{FillsBy, HasOldJones, done_in_one, employee_in_one};
ghost use Rattle.clr_known.specs.OldTables.{first_step_tables, jones_in_one, point_in_one};
ghost use Rattle.clr_known.specs.OldTables.{section_in_one, waiting_in_one, with_all, with_one};
ghost use Rattle.clr_known.specs.OldTables.{with_tables};

use clr_load::{StoreFault, TableName};
use sqlite::types::ValueRef;
use sqlite::{Alter, Connection, Transaction};
use sqlite_schema::schema::Schema;

/// Makes those tables in a database that has nothing.
pub(crate) fn make_old<S: Alter>(conn: &mut Connection<S>) -> Result<(), StoreFault>
    ensures mode { conn.old.in_transaction ≡ false → conn.new.in_transaction ≡ false }
    ensures made { HasCleanDisk (state S.Store conn.new) → OnOk result
        (HasOldJones (state S.Store conn.new).now) }
{
    if !conn.is_autocommit() || !is_bare(conn.schema()) {
        return Err(StoreFault::Sql);
    }
    let mut tx = conn.transaction();
    make_tables(&mut tx)?;
    fill(&mut tx)?;
    tx.commit()?;
    Ok(())
}

/// Whether nothing is in the database.
fn is_bare(schema: &Schema) -> bool
    ensures { IsTrue result → schema.now ≡ no_schema }
{
    schema.tables.as_slice().is_empty()
        && schema.indexes.as_slice().is_empty()
        && schema.views.as_slice().is_empty()
}

/// Makes a table, by its statement.
fn make_table<S: Alter>(
    tx: &mut Transaction<'_, S>,
    table: TableName,
    sql: &str,
) -> Result<(), StoreFault>
    requires there { has_table OfOne table ≡ true }
    requires text { sql.now ≡ create_sql table }
    ensures { Reaches S.Store tx.old tx.new (HasEmpty OfOne (names_before OfOne table))
        (HasEmpty OfOne (names_before OfOne table ++ table ∷ [])) result }
{
    tx.execute(sql, &[])?;
    Ok(())
}

fn make_first_tables<S: Alter>(tx: &mut Transaction<'_, S>) -> Result<(), StoreFault>
    ensures { Reaches S.Store tx.old tx.new (HasEmpty OfOne [])
        (HasEmpty OfOne (names_before OfOne TableName.Staff)) result }
{
    make_table(
        tx,
        TableName::Meta,
        "CREATE TABLE meta (name TEXT NOT NULL, value INTEGER NOT NULL, PRIMARY KEY (name)) STRICT",
    )?;
    make_table(
        tx,
        TableName::Section,
        "CREATE TABLE section (name TEXT NOT NULL, source INTEGER NOT NULL, PRIMARY KEY (name)) \
         STRICT",
    )?;
    make_table(
        tx,
        TableName::Point,
        "CREATE TABLE point (name TEXT NOT NULL, from_end TEXT NOT NULL, to_end TEXT NOT NULL, \
         lockable INTEGER NOT NULL, remote INTEGER NOT NULL, position INTEGER NOT NULL, \
         hand_requester TEXT, hand_number INTEGER, PRIMARY KEY (name)) STRICT",
    )
}

fn make_next_tables<S: Alter>(tx: &mut Transaction<'_, S>) -> Result<(), StoreFault>
    ensures { Reaches S.Store tx.old tx.new (HasEmpty OfOne (names_before OfOne TableName.Staff))
        (HasEmpty OfOne (names_before OfOne TableName.Hold)) result }
{
    make_table(
        tx,
        TableName::Staff,
        "CREATE TABLE staff (name TEXT NOT NULL, role TEXT NOT NULL, supervisor TEXT, \
         PRIMARY KEY (name)) STRICT",
    )?;
    make_table(
        tx,
        TableName::Clearance,
        "CREATE TABLE clearance (requester TEXT NOT NULL, number INTEGER NOT NULL, \
         holder TEXT NOT NULL, work TEXT, phase TEXT NOT NULL, last_at INTEGER NOT NULL, \
         PRIMARY KEY (requester, number)) STRICT",
    )?;
    make_table(
        tx,
        TableName::Step,
        "CREATE TABLE step (requester TEXT NOT NULL, number INTEGER NOT NULL, \
         round INTEGER NOT NULL, ordinal INTEGER NOT NULL, action TEXT NOT NULL, \
         point TEXT NOT NULL, state TEXT NOT NULL, reader TEXT, \
         PRIMARY KEY (requester, number, round, ordinal)) STRICT",
    )
}

/// Makes the seven tables, without a row.
fn make_tables<S: Alter>(tx: &mut Transaction<'_, S>) -> Result<(), StoreFault>
    ensures { Reaches S.Store tx.old tx.new (HasEmpty OfOne [])
        (HasEmpty OfOne (names_in OfOne)) result }
{
    make_first_tables(tx)?;
    make_next_tables(tx)?;
    make_table(
        tx,
        TableName::Hold,
        "CREATE TABLE hold (kind TEXT NOT NULL, place TEXT NOT NULL, requester TEXT NOT NULL, \
         number INTEGER NOT NULL, PRIMARY KEY (kind, place, requester, number)) STRICT",
    )
}

/// Puts a row into a table, by its statement.
fn put<S: Alter>(
    tx: &mut Transaction<'_, S>,
    table: TableName,
    sql: &str,
    row: &[ValueRef<'_>],
) -> Result<(), StoreFault>
    requires there { has_table OfOne table ≡ true }
    requires text { sql.now ≡ insert_sql table }
    requires fits { fits_columns (columns_in table) (bound row.now) ≡ true }
    ensures { FillsBy S.Store tx.old tx.new (with_one table (bound row.now)) result }
{
    tx.execute(sql, row)?;
    Ok(())
}

fn put_version<S: Alter>(tx: &mut Transaction<'_, S>) -> Result<(), StoreFault>
    ensures { FillsBy S.Store tx.old tx.new
        (with_all TableName.Meta first_step_tables.meta) result }
{
    let row = [ValueRef::Text(b"version"), ValueRef::Int(1)];
    put(
        tx,
        TableName::Meta,
        "INSERT INTO meta VALUES (?1, ?2)",
        &row,
    )
}

/// A number.
fn number_value(number: u64) -> ValueRef<'static>
    requires { number < 2 ^ 63 }
    ensures { owned result ≡ number_value number }
{
    ValueRef::Int(number as i64)
}

fn put_section<S: Alter>(
    tx: &mut Transaction<'_, S>,
    name: &[u8],
    source: u64,
) -> Result<(), StoreFault>
    requires { source < 2 ^ 63 }
    ensures { FillsBy S.Store tx.old tx.new (with_one TableName.Section
        (section_in_one name.now source)) result }
{
    let row = [ValueRef::Text(name), number_value(source)];
    put(
        tx,
        TableName::Section,
        "INSERT INTO section VALUES (?1, ?2)",
        &row,
    )
}

fn put_sections<S: Alter>(tx: &mut Transaction<'_, S>) -> Result<(), StoreFault>
    ensures { FillsBy S.Store tx.old tx.new
        (with_all TableName.Section first_step_tables.sections) result }
{
    put_section(tx, b"G", 1)?;
    put_section(tx, b"H", 1)?;
    put_section(tx, b"L1", 0)?;
    put_section(tx, b"L2", 0)?;
    put_section(tx, b"L3", 0)
}

/// Puts a point that is in nobody's hand.
fn put_point<'x, S: Alter>(
    tx: &mut Transaction<'_, S>,
    name: &'x [u8],
    from_end: &'x [u8],
    to_end: &'x [u8],
    lockable: u64,
    remote: u64,
    closed: u64,
) -> Result<(), StoreFault>
    requires lockable { lockable < 2 ^ 63 }
    requires remote { remote < 2 ^ 63 }
    requires closed { closed < 2 ^ 63 }
    ensures { FillsBy S.Store tx.old tx.new (with_one TableName.Point
        (point_in_one name.now from_end.now to_end.now lockable remote closed)) result }
{
    let row = [
        ValueRef::Text(name),
        ValueRef::Text(from_end),
        ValueRef::Text(to_end),
        number_value(lockable),
        number_value(remote),
        number_value(closed),
        ValueRef::Null,
        ValueRef::Null,
    ];
    let sql = "INSERT INTO point VALUES (?1, ?2, ?3, ?4, ?5, ?6, ?7, ?8)";
    put(tx, TableName::Point, sql, &row)
}

fn put_points<S: Alter>(tx: &mut Transaction<'_, S>) -> Result<(), StoreFault>
    ensures { FillsBy S.Store tx.old tx.new
        (with_all TableName.Point first_step_tables.points) result }
{
    put_point(tx, b"S1", b"G", b"L1", 1, 0, 1)?;
    put_point(tx, b"S2", b"L1", b"L2", 1, 0, 0)?;
    put_point(tx, b"S3", b"L2", b"L3", 1, 0, 1)?;
    put_point(tx, b"S4", b"L3", b"H", 1, 1, 1)?;
    put_point(tx, b"T1", b"L1", b"L3", 0, 0, 0)
}

/// Puts an employee who has no supervisor.
fn put_employee<'x, S: Alter>(
    tx: &mut Transaction<'_, S>,
    name: &'x [u8],
    role: &'x [u8],
) -> Result<(), StoreFault>
    ensures { FillsBy S.Store tx.old tx.new (with_one TableName.Staff
        (employee_in_one name.now role.now)) result }
{
    let row = [ValueRef::Text(name), ValueRef::Text(role), ValueRef::Null];
    put(
        tx,
        TableName::Staff,
        "INSERT INTO staff VALUES (?1, ?2, ?3)",
        &row,
    )
}

/// JONES has one.
fn put_jones<S: Alter>(tx: &mut Transaction<'_, S>) -> Result<(), StoreFault>
    ensures { FillsBy S.Store tx.old tx.new (with_one TableName.Staff jones_in_one) result }
{
    let row = [
        ValueRef::Text(b"JONES"),
        ValueRef::Text(b"charge"),
        ValueRef::Text(b"BOSS"),
    ];
    put(
        tx,
        TableName::Staff,
        "INSERT INTO staff VALUES (?1, ?2, ?3)",
        &row,
    )
}

fn put_staff<S: Alter>(tx: &mut Transaction<'_, S>) -> Result<(), StoreFault>
    ensures { FillsBy S.Store tx.old tx.new
        (with_all TableName.Staff first_step_tables.staff) result }
{
    put_employee(tx, b"BOSS", b"charge")?;
    put_employee(tx, b"DALE", b"field")?;
    put_jones(tx)?;
    put_employee(tx, b"KIM", b"charge")?;
    put_employee(tx, b"OPS", b"operator")?;
    put_employee(tx, b"REED", b"field")
}

fn put_clearances<S: Alter>(tx: &mut Transaction<'_, S>) -> Result<(), StoreFault>
    ensures { FillsBy S.Store tx.old tx.new
        (with_all TableName.Clearance first_step_tables.clearances) result }
{
    let row = [
        ValueRef::Text(b"JONES"),
        ValueRef::Int(1),
        ValueRef::Text(b"JONES"),
        ValueRef::Text(b"L2"),
        ValueRef::Text(b"Ordered"),
        ValueRef::Int(104),
    ];
    let sql = "INSERT INTO clearance VALUES (?1, ?2, ?3, ?4, ?5, ?6)";
    put(tx, TableName::Clearance, sql, &row)
}

/// Puts the step of JONES/1 that is done.
fn put_done<S: Alter>(tx: &mut Transaction<'_, S>) -> Result<(), StoreFault>
    ensures { FillsBy S.Store tx.old tx.new (with_one TableName.Step done_in_one) result }
{
    let row = [
        ValueRef::Text(b"JONES"),
        ValueRef::Int(1),
        ValueRef::Int(1),
        ValueRef::Int(1),
        ValueRef::Text(b"Open"),
        ValueRef::Text(b"S2"),
        ValueRef::Text(b"Done"),
        ValueRef::Text(b"REED"),
    ];
    let sql = "INSERT INTO step VALUES (?1, ?2, ?3, ?4, ?5, ?6, ?7, ?8)";
    put(tx, TableName::Step, sql, &row)
}

/// Puts one of its steps that waits.
fn put_waiting<'x, S: Alter>(
    tx: &mut Transaction<'_, S>,
    ordinal: u64,
    action: &'x [u8],
    point: &'x [u8],
) -> Result<(), StoreFault>
    requires { ordinal < 2 ^ 63 }
    ensures { FillsBy S.Store tx.old tx.new (with_one TableName.Step
        (waiting_in_one ordinal action.now point.now)) result }
{
    let row = [
        ValueRef::Text(b"JONES"),
        ValueRef::Int(1),
        ValueRef::Int(1),
        number_value(ordinal),
        ValueRef::Text(action),
        ValueRef::Text(point),
        ValueRef::Text(b"Waiting"),
        ValueRef::Null,
    ];
    let sql = "INSERT INTO step VALUES (?1, ?2, ?3, ?4, ?5, ?6, ?7, ?8)";
    put(tx, TableName::Step, sql, &row)
}

fn put_steps<S: Alter>(tx: &mut Transaction<'_, S>) -> Result<(), StoreFault>
    ensures { FillsBy S.Store tx.old tx.new
        (with_all TableName.Step first_step_tables.steps) result }
{
    put_done(tx)?;
    put_waiting(tx, 2, b"Open", b"S3")?;
    put_waiting(tx, 3, b"Block", b"S2")?;
    put_waiting(tx, 4, b"Block", b"S3")?;
    put_waiting(tx, 5, b"Tag", b"S2")?;
    put_waiting(tx, 6, b"Tag", b"S3")
}

fn put_holds<S: Alter>(tx: &mut Transaction<'_, S>) -> Result<(), StoreFault>
    ensures { FillsBy S.Store tx.old tx.new
        (with_all TableName.Hold first_step_tables.holds) result }
{
    let row = [
        ValueRef::Text(b"HeldOpen"),
        ValueRef::Text(b"S2"),
        ValueRef::Text(b"JONES"),
        ValueRef::Int(1),
    ];
    put(
        tx,
        TableName::Hold,
        "INSERT INTO hold VALUES (?1, ?2, ?3, ?4)",
        &row,
    )
}

/// Puts what the tables have of the network and the staff.
fn put_network<S: Alter>(tx: &mut Transaction<'_, S>) -> Result<(), StoreFault>
    ensures { FillsBy S.Store tx.old tx.new (λ had.
        with_all TableName.Staff first_step_tables.staff
        (with_all TableName.Point first_step_tables.points
        (with_all TableName.Section first_step_tables.sections had))) result }
{
    put_sections(tx)?;
    put_points(tx)?;
    put_staff(tx)
}

/// Puts what they have of JONES/1.
fn put_order<S: Alter>(tx: &mut Transaction<'_, S>) -> Result<(), StoreFault>
    ensures { FillsBy S.Store tx.old tx.new (λ had.
        with_all TableName.Hold first_step_tables.holds
        (with_all TableName.Step first_step_tables.steps
        (with_all TableName.Clearance first_step_tables.clearances had))) result }
{
    put_clearances(tx)?;
    put_steps(tx)?;
    put_holds(tx)
}

/// Puts all rows.
fn fill<S: Alter>(tx: &mut Transaction<'_, S>) -> Result<(), StoreFault>
    ensures { FillsBy S.Store tx.old tx.new (with_tables first_step_tables) result }
{
    put_version(tx)?;
    put_network(tx)?;
    put_order(tx)
}
