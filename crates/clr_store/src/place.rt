//! The place of a register in its journal, in its own table, inside a transaction.
ghost use Rattle.std.specs.Prelude.{◌≡◌, ◌<◌, ◌^◌, ◌↔◌, [], ◌∷◌, false, true, IsTrue, None, Some};
ghost use Rattle.std.specs.Prelude.{IfSome, OnOk, option_copied, option_map};
ghost use Rattle.sqlite.specs.Held.{state};
ghost use Rattle.sqlite.specs.State.{HasCleanDisk, Survives};
ghost use Rattle.sqlite.specs.Values.{bound};
ghost use Rattle.sqlite_schema.specs.Names.{table_named};
ghost use Rattle.clr_load.specs.TableEdits.{tables_edited};
ghost use Rattle.clr_load.specs.TableText.{table_text};
ghost use Rattle.clr_load.specs.Tables.{place_row};
ghost use Rattle.clr_load.specs.declared.table_name.TableName.TheVariants.{Journal};
ghost use Rattle.clr_load.specs.Fault.{IsOfDatabase};
ghost use Rattle.clr_load.specs.Layout.{names_in};
ghost use Rattle.clr_load.specs.Schema.{columns_in};
ghost use Rattle.clr_load.specs.Stored.{fits_columns};
ghost use Rattle.clr_load.specs.declared.layout.Layout.TheVariants.{AsMade, AsMadeLogged};
ghost use Rattle.clr_load.specs.declared.fault.StoreFault.TheVariants.{NoMemory};
ghost use Rattle.clr_store.specs.Change.{CanSet, HasEmpty, PutsJournal, PutsPlace, Reaches};
ghost use Rattle.clr_store.specs.Change.{SetsIfGiven, SetsRows};
ghost use Rattle.clr_store.specs.Transaction.{FailsAs, PlacesAs, Settles, StaysSaved};
ghost use Rattle.clr_store.specs.Transaction.{Transacts};

use crate::sql::{create_sql, insert_sql};
use crate::statements::conclude;
use crate::values::place_values;
use clr_load::{StoreFault, TableName};
use clr_rules::Place;
use sqlite::types::ValueRef;
use sqlite::{Alter, Connection, Transaction};
use sqlite_schema::schema::Schema;

/// Whether there is a table that could have the place.
fn has_journal(schema: &Schema) -> bool
    ensures { IsTrue result ↔ ((table_named schema.now (table_text Journal) ≡ None) → ⊥) }
{
    schema.table_named(b"journal").is_some()
}

/// Whether a column can hold the number of a place.
pub(crate) fn fits(place: &Place) -> bool
    ensures { IsTrue result → place.now.number < 2 ^ 63 }
{
    place.number <= 0x7fff_ffff_ffff_ffff
}

/// Makes the table of the journal beside the others, without a row.
pub(crate) fn make_journal<S: Alter>(tx: &mut Transaction<'_, S>) -> Result<(), StoreFault>
    ensures empty { Reaches S.Store tx.old tx.new (HasEmpty AsMade (names_in AsMade))
        (HasEmpty AsMadeLogged (names_in AsMadeLogged)) result }
    ensures beside { PutsJournal S.Store tx.old tx.new [] result }
{
    tx.execute(create_sql(TableName::Journal), &[])?;
    Ok(())
}

/// Inserts the row of a place.
fn insert_place<S: Alter>(
    tx: &mut Transaction<'_, S>,
    row: &[ValueRef<'_>],
) -> Result<(), StoreFault>
    requires fits { fits_columns (columns_in Journal) (bound row.now) ≡ true }
    ensures { PutsPlace S.Store tx.old tx.new (λ rows. bound row.now ∷ rows) result }
{
    tx.execute(insert_sql(TableName::Journal), row)?;
    Ok(())
}

/// Puts a place where there is none.
pub(crate) fn add_place<S: Alter>(
    tx: &mut Transaction<'_, S>,
    place: &Place,
) -> Result<(), StoreFault>
    requires { place.now.number < 2 ^ 63 }
    ensures { PutsPlace S.Store tx.old tx.new (λ rows. place_row place.now ∷ rows) result }
{
    let row = place_values(place);
    insert_place(tx, &row)
}

/// Makes each row this one, and says how many there were.
fn set_rows<S: Alter>(
    tx: &mut Transaction<'_, S>,
    row: &[ValueRef<'_>],
) -> Result<usize, StoreFault>
    requires fits { fits_columns (columns_in Journal) (bound row.now) ≡ true }
    ensures { SetsRows S.Store tx.old tx.new (bound row.now) result }
{
    Ok(tx.execute("UPDATE journal SET id = ?1, number = ?2, sum = ?3", row)?)
}

/// Puts a row in place of the one that is there. Where there is one, it takes one statement, which
/// writes no page of the index while the id stays. A journal's table with more rows is not opened,
/// so here they are a fault.
fn put_one<S: Alter>(tx: &mut Transaction<'_, S>, row: &[ValueRef<'_>]) -> Result<(), StoreFault>
    requires fits { fits_columns (columns_in Journal) (bound row.now) ≡ true }
    ensures { PutsPlace S.Store tx.old tx.new (λ _. bound row.now ∷ []) result }
{
    match set_rows(tx, row)? {
        0 => insert_place(tx, row),
        1 => Ok(()),
        _ => Err(StoreFault::Sql),
    }
}

/// Puts a place in place of the one that is there.
fn set_place<S: Alter>(tx: &mut Transaction<'_, S>, place: &Place) -> Result<(), StoreFault>
    requires { place.now.number < 2 ^ 63 }
    ensures { PutsPlace S.Store tx.old tx.new (λ _. place_row place.now ∷ []) result }
{
    let row = place_values(place);
    put_one(tx, &row)
}

/// Whether a register can have this place, if one is given.
pub(crate) fn can_set(schema: &Schema, place: Option<&Place>) -> bool
    ensures { IsTrue result → CanSet schema.now (option_copied place.entry) }
{
    match place {
        Some(place) => fits(place) && has_journal(schema),
        None => true,
    }
}

/// Sets the place, if one is given.
pub(crate) fn set_if_given<S: Alter>(
    tx: &mut Transaction<'_, S>,
    place: Option<&Place>,
) -> Result<(), StoreFault>
    requires { IfSome (option_copied place) (λ place. place.number < 2 ^ 63) }
    ensures { SetsIfGiven S.Store tx.old tx.new
        (option_map place_row (option_copied place.entry)) result }
{
    match place {
        Some(place) => set_place(tx, place),
        None => Ok(()),
    }
}

/// Want of memory, where the connection is open. Otherwise the database failed too.
pub(crate) fn want_of_memory<S: Alter>(conn: &mut Connection<S>) -> StoreFault
    ensures mode { conn.old.in_transaction ≡ false → conn.new.in_transaction ≡ false }
    ensures open { HasCleanDisk (state S.Store conn.new) → result ≡ NoMemory
        → IsTrue (state S.Store conn.new).is_open }
    ensures stays { HasCleanDisk (state S.Store conn.new)
        → StaysSaved (state S.Store conn.old) (state S.Store conn.new) }
    ensures fault { IsOfDatabase result }
    ensures crash { Survives (state S.Store conn.old) (state S.Store conn.new) (λ _. ⊥) }
{
    match conn.prepare("SELECT 1") {
        Ok(_) => StoreFault::NoMemory,
        Err(_) => StoreFault::Sql,
    }
}

/// Reports want of memory only while the connection is open, where a place was to be set. Any other
/// end of a transaction is reported as it is.
pub(crate) fn settle<S: Alter>(
    conn: &mut Connection<S>,
    done: Result<(), StoreFault>,
    place: Option<&Place>,
) -> Result<(), StoreFault>
    ensures mode { conn.old.in_transaction ≡ false → conn.new.in_transaction ≡ false }
    ensures settles { Settles S.Store (option_copied place.entry) conn.old done conn.new result }
{
    let Some(_) = place else {
        return done;
    };
    match done {
        Err(StoreFault::NoMemory) => Err(want_of_memory(conn)),
        reported => reported,
    }
}

/// Makes the table of the journal in a register that has none, with this place.
fn add_journal<S: Alter>(tx: &mut Transaction<'_, S>, place: &Place) -> Result<(), StoreFault>
    requires { place.now.number < 2 ^ 63 }
    ensures { PutsJournal S.Store tx.old tx.new (place_row place.now ∷ []) result }
{
    make_journal(tx)?;
    add_place(tx, place)
}

/// Gives a register that has no place one, in one transaction, or leaves the database as it is.
pub(crate) fn begin_at<S: Alter>(conn: &mut Connection<S>, place: &Place) -> Result<(), StoreFault>
    requires idle { conn.old.in_transaction ≡ false }
    ensures idle { conn.new.in_transaction ≡ false }
    ensures transacts { Transacts (PlacesAs (Some place.now)) (FailsAs None)
        (state S.Store conn.old) (state S.Store conn.new) (tables_edited []) result }
    ensures unplaced { OnOk result ((table_named (state S.Store conn.old).now.schema
        (table_text Journal)) ≡ None) }
{
    if !conn.is_autocommit() || has_journal(conn.schema()) || !fits(place) {
        return Err(StoreFault::Sql);
    }
    let mut tx = conn.transaction();
    let done = add_journal(&mut tx, place);
    conclude(tx, done)
}
