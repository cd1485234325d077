//! The tables are made, with the rows of an opening register, in one transaction.
ghost use Rattle.std.specs.Prelude.{IfErr, ◌≡◌, [], ◌∷◌, ◌++◌, false, true, IsTrue, OnErr, OnOk};
ghost use Rattle.std.specs.Prelude.{Some, map};
ghost use Rattle.sqlite.specs.Held.{state};
ghost use Rattle.sqlite.specs.State.{HasCleanDisk, Survives};
ghost use Rattle.clr_rules.specs.Register.{first_state, opening};
ghost use Rattle.clr_load.specs.Tables.{jumper_row, place_row, section_row, staff_row};
ghost use Rattle.clr_load.specs.Tables.{tables_of, version_row};
ghost use Rattle.clr_store.specs.Change.{Does, HasEmpty, Reaches, added, opening_points, filled};
ghost use Rattle.clr_store.specs.Change.{with_rows};
ghost use Rattle.clr_load.specs.Fault.{IsOfDatabase};
ghost use Rattle.clr_load.specs.Contract.{IsSaved};
ghost use Rattle.clr_load.specs.Layout.{has_table, names_before, names_in};
ghost use Rattle.clr_load.specs.declared.layout.Layout.TheVariants.{AsMade, AsMadeLogged};
ghost use Rattle.clr_load.specs.Schema.{no_schema};
ghost use Rattle.clr_load.specs.Stored.{ArePlaced, AreTables, HasTables};
ghost use Rattle.clr_store.specs.Contract.{AreTablesAt};

use crate::place::{add_place, fits, make_journal};
use crate::sql::create_sql;
use crate::statements::insert_row;
use crate::values::{flag_value, name_or_null, name_value, number_value, point_values, text_value};
use clr_load::{StoreFault, TableName, role_word};
use clr_net::{Network, PointRow, SectionRow};
use clr_rules::Place;
use clr_staff::{Staff, StaffRow};
use sqlite::{Alter, Connection, Transaction};
use sqlite_schema::schema::Schema;

fn make_table<S: Alter>(tx: &mut Transaction<'_, S>, table: TableName) -> Result<(), StoreFault>
    requires { has_table AsMade table ≡ true }
    ensures { Reaches S.Store tx.old tx.new (HasEmpty AsMade (names_before AsMade table))
        (HasEmpty AsMade (names_before AsMade table ++ table ∷ [])) result }
{
    tx.execute(create_sql(table), &[])?;
    Ok(())
}

fn make_first_tables<S: Alter>(tx: &mut Transaction<'_, S>) -> Result<(), StoreFault>
    ensures { Reaches S.Store tx.old tx.new (HasEmpty AsMade [])
        (HasEmpty AsMade (names_before AsMade TableName.Staff)) result }
{
    make_table(tx, TableName::Meta)?;
    make_table(tx, TableName::Section)?;
    make_table(tx, TableName::NetworkPoint)
}

fn make_next_tables<S: Alter>(tx: &mut Transaction<'_, S>) -> Result<(), StoreFault>
    ensures { Reaches S.Store tx.old tx.new (HasEmpty AsMade (names_before AsMade TableName.Staff))
        (HasEmpty AsMade (names_before AsMade TableName.Hold)) result }
{
    make_table(tx, TableName::Staff)?;
    make_table(tx, TableName::Clearance)?;
    make_table(tx, TableName::Step)
}

/// Makes the seven tables, without a row.
fn make_tables<S: Alter>(tx: &mut Transaction<'_, S>) -> Result<(), StoreFault>
    ensures { Reaches S.Store tx.old tx.new (HasEmpty AsMade [])
        (HasEmpty AsMade (names_in AsMade)) result }
{
    make_first_tables(tx)?;
    make_next_tables(tx)?;
    make_table(tx, TableName::Hold)
}

fn add_version<S: Alter>(tx: &mut Transaction<'_, S>) -> Result<(), StoreFault>
    ensures { Does S.Store tx.old tx.new (with_rows TableName.Meta (λ rows. version_row 2 ∷ rows))
        result }
{
    let row = [text_value("version"), number_value(2)];
    insert_row(tx, TableName::Meta, &row)
}

fn add_section<S: Alter>(
    tx: &mut Transaction<'_, S>,
    section: &SectionRow,
) -> Result<(), StoreFault>
    ensures { Does S.Store tx.old tx.new
        (with_rows TableName.Section (λ rows. section_row section.now ∷ rows)) result }
{
    let row = [name_value(&section.name), flag_value(section.source)];
    insert_row(tx, TableName::Section, &row)
}

pub(crate) fn add_sections<S: Alter>(
    tx: &mut Transaction<'_, S>,
    sections: &[SectionRow],
) -> Result<(), StoreFault>
    ensures { Does S.Store tx.old tx.new
        (with_rows TableName.Section (added (map section_row sections.now))) result }
{
    for section in sections {
        add_section(tx, section)?;
    }
    Ok(())
}

/// Adds a point in the position of its row, in nobody's hand.
fn add_point<S: Alter>(tx: &mut Transaction<'_, S>, point: &PointRow) -> Result<(), StoreFault>
    ensures { Does S.Store tx.old tx.new
        (with_rows TableName.NetworkPoint
        (λ rows. jumper_row point.now (first_state point.now) ∷ rows)) result }
{
    let row = point_values(point, point.position);
    insert_row(tx, TableName::NetworkPoint, &row)
}

fn add_points<S: Alter>(tx: &mut Transaction<'_, S>, points: &[PointRow]) -> Result<(), StoreFault>
    ensures { Does S.Store tx.old tx.new
        (with_rows TableName.NetworkPoint (added (opening_points points.now))) result }
{
    for point in points {
        add_point(tx, point)?;
    }
    Ok(())
}

fn add_employee<S: Alter>(
    tx: &mut Transaction<'_, S>,
    employee: &StaffRow,
) -> Result<(), StoreFault>
    ensures { Does S.Store tx.old tx.new
        (with_rows TableName.Staff (λ rows. staff_row employee.now ∷ rows)) result }
{
    let row = [
        name_value(&employee.name),
        text_value(role_word(employee.role)),
        name_or_null(&employee.supervisor),
    ];
    insert_row(tx, TableName::Staff, &row)
}

pub(crate) fn add_staff<S: Alter>(
    tx: &mut Transaction<'_, S>,
    staff: &[StaffRow],
) -> Result<(), StoreFault>
    ensures { Does S.Store tx.old tx.new
        (with_rows TableName.Staff (added (map staff_row staff.now))) result }
{
    for employee in staff {
        add_employee(tx, employee)?;
    }
    Ok(())
}

/// Adds the sections and points of a network.
fn add_network<S: Alter>(
    tx: &mut Transaction<'_, S>,
    sections: &[SectionRow],
    points: &[PointRow],
) -> Result<(), StoreFault>
    ensures { Does S.Store tx.old tx.new
        (λ t. with_rows TableName.NetworkPoint (added (opening_points points.now))
        (with_rows TableName.Section (added (map section_row sections.now)) t)) result }
{
    add_sections(tx, sections)?;
    add_points(tx, points)
}

/// Adds the rows of an opening register.
fn fill<S: Alter>(
    tx: &mut Transaction<'_, S>,
    sections: &[SectionRow],
    points: &[PointRow],
    staff: &[StaffRow],
) -> Result<(), StoreFault>
    ensures { Does S.Store tx.old tx.new (filled sections.now points.now staff.now) result }
{
    add_version(tx)?;
    add_network(tx, sections, points)?;
    add_staff(tx, staff)
}

/// Whether nothing is in the database.
fn is_bare(schema: &Schema) -> bool
    ensures { IsTrue result → schema.now ≡ no_schema }
{
    schema.tables.as_slice().is_empty()
        && schema.indexes.as_slice().is_empty()
        && schema.views.as_slice().is_empty()
}

/// Makes the tables with the rows of an opening register, or leaves the database as it is.
pub(crate) fn make_register<S: Alter>(
    conn: &mut Connection<S>,
    network: &Network,
    staff: &Staff,
) -> Result<(), StoreFault>
    ensures mode { conn.old.in_transaction ≡ false → conn.new.in_transaction ≡ false }
    ensures made { HasCleanDisk (state S.Store conn.new) → OnOk result
        (HasTables (state S.Store conn.new).now (tables_of (opening network.now staff.now))) }
    ensures saved { HasCleanDisk (state S.Store conn.new) → OnOk result
        (IsSaved (state S.Store conn.new)) }
    ensures bare { OnOk result ((state S.Store conn.old).now.schema ≡ no_schema) }
    ensures fault { IfErr result IsOfDatabase }
    ensures none { HasCleanDisk (state S.Store conn.new) → IsTrue (state S.Store conn.new).is_open
        → OnErr result ((state S.Store conn.new).now ≡ (state S.Store conn.old).now) }
    ensures committed { HasCleanDisk (state S.Store conn.new)
        → IsTrue (state S.Store conn.new).is_open → OnErr result
        ((state S.Store conn.new).committed ≡ (state S.Store conn.old).committed) }
    ensures crash { Survives (state S.Store conn.old) (state S.Store conn.new)
        (λ trees. AreTables trees (tables_of (opening network.now staff.now))) }
{
    if !conn.is_autocommit() || !is_bare(conn.schema()) {
        return Err(StoreFault::Sql);
    }
    let sections = network.sections();
    let employees = staff.rows();
    let mut tx = conn.transaction();
    make_tables(&mut tx)?;
    fill(&mut tx, sections, network.points(), employees)?;
    tx.commit()?;
    Ok(())
}

/// Makes the eight tables, without a row.
fn make_logged_tables<S: Alter>(tx: &mut Transaction<'_, S>) -> Result<(), StoreFault>
    ensures { Reaches S.Store tx.old tx.new (HasEmpty AsMade [])
        (HasEmpty AsMadeLogged (names_in AsMadeLogged)) result }
{
    make_tables(tx)?;
    make_journal(tx)
}

/// Makes the tables with the rows of an opening register and its place in a journal, or leaves the
/// database as it is.
pub(crate) fn make_logged_register<S: Alter>(
    conn: &mut Connection<S>,
    network: &Network,
    staff: &Staff,
    place: &Place,
) -> Result<(), StoreFault>
    ensures mode { conn.old.in_transaction ≡ false → conn.new.in_transaction ≡ false }
    ensures made { HasCleanDisk (state S.Store conn.new) → OnOk result
        (HasTables (state S.Store conn.new).now (tables_of (opening network.now staff.now))
        × ArePlaced (state S.Store conn.new).now.trees (Some (place_row place.now))) }
    ensures saved { HasCleanDisk (state S.Store conn.new) → OnOk result
        (IsSaved (state S.Store conn.new)) }
    ensures bare { OnOk result ((state S.Store conn.old).now.schema ≡ no_schema) }
    ensures fault { IfErr result IsOfDatabase }
    ensures none { HasCleanDisk (state S.Store conn.new) → IsTrue (state S.Store conn.new).is_open
        → OnErr result ((state S.Store conn.new).now ≡ (state S.Store conn.old).now) }
    ensures committed { HasCleanDisk (state S.Store conn.new)
        → IsTrue (state S.Store conn.new).is_open → OnErr result
        ((state S.Store conn.new).committed ≡ (state S.Store conn.old).committed) }
    ensures crash { Survives (state S.Store conn.old) (state S.Store conn.new)
        (AreTablesAt (tables_of (opening network.now staff.now)) (place_row place.now)) }
{
    if !conn.is_autocommit() || !is_bare(conn.schema()) || !fits(place) {
        return Err(StoreFault::Sql);
    }
    let sections = network.sections();
    let employees = staff.rows();
    let mut tx = conn.transaction();
    make_logged_tables(&mut tx)?;
    fill(&mut tx, sections, network.points(), employees)?;
    add_place(&mut tx, place)?;
    tx.commit()?;
    Ok(())
}
