//! The rows of a register, read back from the tables.
ghost use Rattle.std.specs.Prelude.{◌≡◌, ◌⊎◌, false, map, IsTrue, IfErr, IfOk, IsErrAnd, Ok};
ghost use Rattle.sqlite.specs.Held.{state};
ghost use Rattle.sqlite.specs.State.{HasCleanDisk, Survives};
ghost use Rattle.clr_load.specs.RowsRead.{all_read, rows_read};
ghost use Rattle.clr_load.specs.Tables.{Tables};
ghost use Rattle.clr_load.specs.declared.table_name.TableName.TheVariants.{Meta};
ghost use Rattle.clr_load.specs.Cause.{SqlHasCause};
ghost use Rattle.clr_load.specs.Contract.{GivesRows, IsSaved};
ghost use Rattle.clr_load.specs.Fault.{IsOfDatabase};
ghost use Rattle.clr_load.specs.Filling.{GivesInto, IsLoaded};
ghost use Rattle.clr_load.specs.Layout.{has_rows, is_two};
ghost use Rattle.clr_load.specs.Loads.{Loads, both_fit, both_read};
ghost use Rattle.clr_load.specs.Stored.{HasTables, rows_in};

use crate::TableName;
use crate::fault::StoreFault;
use crate::fill::Fill;
use crate::listing::select_sql;
use crate::rows::{Loaded, Rows};
use crate::table::read_table;
use crate::table_row::{PointRead, TableRow};
use crate::version::version_in;
use clr_net::{PointRow, SectionRow};
use clr_rules::{Hold, PointState, Record, StepRow};
use clr_staff::StaffRow;
use sqlite::{Alter, Connection, Row};
use std::alloc::{AllocError, Global};

/// The rows that have the version.
fn read_meta<S: Alter>(conn: &mut Connection<S>) -> Result<Vec<Row>, StoreFault>
    ensures { Loads S.Store conn.old conn.new (λ l. has_rows l Meta) (λ l t. Ok t.meta)
        (λ rows meta. rows.items ≡ meta) result }
{
    let rows = conn.query_all(select_sql(TableName::Meta), &[])?;
    Ok(rows)
}

/// Reads two tables, one after the other.
fn read_both<S: Alter, T: TableRow, F: Fill<T>, U: TableRow, G: Fill<U>>(
    conn: &mut Connection<S>,
    alloc: Global,
    one: TableName,
    other: TableName,
) -> Result<(F, G), StoreFault>
    ensures { Loads S.Store conn.old conn.new (both_fit one other)
        (λ l t. both_read (all_read T.TableRow.values (rows_in l one t))
        (all_read U.TableRow.values (rows_in l other t)))
        (λ both read. F.has both.0 read.0 × G.has both.1 read.1) result }
{
    let first = read_table::<S, T, F>(conn, alloc, one)?;
    let second = read_table::<S, U, G>(conn, alloc, other)?;
    Ok((first, second))
}

/// The switching points of what was read.
fn points_of(alloc: Global, read: &[PointRead]) -> Result<Vec<PointRow>, AllocError>
    ensures { IfOk result (λ points. points.items ≡ map (λ (p : PointRead). p.point) read.now) }
{
    read.iter().map(|both| both.point).collect(alloc)
}

/// The states of what was read.
fn states_of(alloc: Global, read: &[PointRead]) -> Result<Vec<PointState>, AllocError>
    ensures { IfOk result (λ states. states.items ≡ map (λ (p : PointRead). p.state) read.now) }
{
    read.iter().map(|both| both.state).collect(alloc)
}

/// Reads the rows of all tables, up to the first that does not read.
fn read_tables<S: Alter, C: Fill<Record>, T: Fill<StepRow>, H: Fill<Hold>>(
    conn: &mut Connection<S>,
) -> Result<Loaded<C, T, H>, StoreFault>
    ensures { Loads S.Store conn.old conn.new is_two (λ l t. rows_read t)
        (IsLoaded C.has T.has H.has) result }
{
    let meta = read_meta(conn)?;
    let alloc = *meta.allocator();
    let version = version_in(&meta)?;
    let (sections, read) = read_both::<S, SectionRow, Vec<SectionRow>, PointRead, Vec<PointRead>>(
        conn,
        alloc,
        TableName::Section,
        TableName::NetworkPoint,
    )?;
    let (staff, records) = read_both::<S, StaffRow, Vec<StaffRow>, Record, C>(
        conn,
        alloc,
        TableName::Staff,
        TableName::Clearance,
    )?;
    let (steps, holds) = read_both::<S, StepRow, T, Hold, H>(
        conn,
        alloc,
        TableName::Step,
        TableName::Hold,
    )?;
    let points = points_of(alloc, &read)?;
    let states = states_of(alloc, &read)?;
    Ok(Loaded {
        version,
        sections,
        points,
        states,
        staff,
        records,
        steps,
        holds,
    })
}

/// Reads the rows of all tables, and changes nothing. Clearances, steps and holds are read into
/// what the caller keeps them in.
pub fn load_into<S: Alter, C: Fill<Record>, T: Fill<StepRow>, H: Fill<Hold>>(
    conn: &mut Connection<S>,
) -> Result<Loaded<C, T, H>, StoreFault>
    ensures mode { conn.old.in_transaction ≡ false → conn.new.in_transaction ≡ false }
    ensures rows { HasCleanDisk (state S.Store conn.new) → (t : Tables)
        → HasTables (state S.Store conn.old).now t
        → GivesInto (IsLoaded C.has T.has H.has) (rows_read t) result }
    ensures cause { conn.old.in_transaction ≡ false → HasCleanDisk (state S.Store conn.new)
        → (t : Tables) → HasTables (state S.Store conn.old).now t
        → IfErr result (SqlHasCause (state S.Store conn.old) (state S.Store conn.new)) }
    ensures was_open { HasCleanDisk (state S.Store conn.new)
        → IsTrue (state S.Store conn.old).is_open ⊎ IsErrAnd result IsOfDatabase }
    ensures saved { conn.old.in_transaction ≡ false → HasCleanDisk (state S.Store conn.new)
        → IsTrue (state S.Store conn.new).is_open → IsSaved (state S.Store conn.new) }
    ensures same { HasCleanDisk (state S.Store conn.new) → IsTrue (state S.Store conn.new).is_open
        → (state S.Store conn.new).now ≡ (state S.Store conn.old).now }
    ensures survives { Survives (state S.Store conn.old) (state S.Store conn.new) (λ _. ⊥) }
{
    if !conn.is_autocommit() {
        return Err(StoreFault::Sql);
    }
    let loaded = read_tables(conn)?;
    Ok(loaded)
}

/// Reads the rows of all tables, and changes nothing.
pub fn load_rows<S: Alter>(conn: &mut Connection<S>) -> Result<Rows, StoreFault>
    ensures mode { conn.old.in_transaction ≡ false → conn.new.in_transaction ≡ false }
    ensures rows { HasCleanDisk (state S.Store conn.new) → (t : Tables)
        → HasTables (state S.Store conn.old).now t → GivesRows (rows_read t) result }
    ensures cause { conn.old.in_transaction ≡ false → HasCleanDisk (state S.Store conn.new)
        → (t : Tables) → HasTables (state S.Store conn.old).now t
        → IfErr result (SqlHasCause (state S.Store conn.old) (state S.Store conn.new)) }
    ensures was_open { HasCleanDisk (state S.Store conn.new)
        → IsTrue (state S.Store conn.old).is_open ⊎ IsErrAnd result IsOfDatabase }
    ensures saved { conn.old.in_transaction ≡ false → HasCleanDisk (state S.Store conn.new)
        → IsTrue (state S.Store conn.new).is_open → IsSaved (state S.Store conn.new) }
    ensures same { HasCleanDisk (state S.Store conn.new) → IsTrue (state S.Store conn.new).is_open
        → (state S.Store conn.new).now ≡ (state S.Store conn.old).now }
    ensures survives { Survives (state S.Store conn.old) (state S.Store conn.new) (λ _. ⊥) }
{
    let loaded = load_into::<S, Vec<Record>, Vec<StepRow>, Vec<Hold>>(conn)?;
    Ok(Rows {
        version: loaded.version,
        sections: loaded.sections,
        points: loaded.points,
        states: loaded.states,
        staff: loaded.staff,
        records: loaded.records,
        steps: loaded.steps,
        holds: loaded.holds,
    })
}
