//! Tables of version 1 moved to version 2, in one transaction.
ghost use Rattle.std.specs.Prelude.{◌≡◌, ◌⊎◌, [], false, is_ok, IfErr, IsErrAnd, IsTrue, OnErr};
ghost use Rattle.std.specs.Prelude.{OnOk};
ghost use Rattle.sqlite.specs.Held.{state};
ghost use Rattle.sqlite.specs.State.{HasCleanDisk, Survives};
ghost use Rattle.clr_load.specs.TableEdits.{tables_moved, with_table_row};
ghost use Rattle.clr_load.specs.Tables.{Tables, version_row};
ghost use Rattle.clr_store.specs.Change.{Does, with_rows};
ghost use Rattle.clr_store.specs.Moving.{AreMoved, IsMoving, Moves, MovesTables, moved_points};
ghost use Rattle.clr_load.specs.Cause.{SqlHasCause};
ghost use Rattle.clr_load.specs.Contract.{IsSaved, RefusesPoints, old_points};
ghost use Rattle.clr_load.specs.Fault.{IsOfDatabase, IsOfPoints};
ghost use Rattle.clr_load.specs.declared.layout.Layout.TheVariants.{OfOne};
ghost use Rattle.clr_load.specs.Stored.{HasOldTables, HasTables, Holds};

use crate::edits::put_row;
use crate::sql::create_sql;
use crate::values::{number_value, text_value};
use clr_load::{StoreFault, TableName, check_old_points};
use sqlite::{Alter, Connection, Transaction};

/// Makes the table of points of version 2, without a row.
fn make_points<S: Alter>(tx: &mut Transaction<'_, S>) -> Result<(), StoreFault>
    ensures { Moves S.Store tx.old tx.new IsOfDatabase (λ t db. Holds OfOne db t)
        (λ t. IsMoving t.points [] t) result }
{
    tx.execute(create_sql(TableName::NetworkPoint), &[])?;
    Ok(())
}

/// Copies each point of version 1, as no jumper.
fn copy_points<S: Alter>(tx: &mut Transaction<'_, S>) -> Result<(), StoreFault>
    ensures { Moves S.Store tx.old tx.new IsOfDatabase (λ t. IsMoving t.points [] t)
        (λ t. IsMoving t.points (moved_points t.points) t) result }
{
    tx.execute(
        "INSERT INTO network_point SELECT name, from_end, to_end, lockable, remote, position, \
         hand_requester, hand_number, 0 FROM point",
        &[],
    )?;
    Ok(())
}

/// Takes all points of version 1 away.
fn empty_points<S: Alter>(tx: &mut Transaction<'_, S>) -> Result<(), StoreFault>
    ensures { Moves S.Store tx.old tx.new IsOfDatabase
        (λ t. IsMoving t.points (moved_points t.points) t)
        (λ t. IsMoving [] (moved_points t.points) t) result }
{
    tx.execute("DELETE FROM point", &[])?;
    Ok(())
}

/// Sets the version again.
fn set_version<S: Alter>(tx: &mut Transaction<'_, S>) -> Result<(), StoreFault>
    ensures { Does S.Store tx.old tx.new
        (with_rows TableName.Meta (with_table_row 1 (version_row 2))) result }
{
    let row = [text_value("version"), number_value(2)];
    put_row(tx, TableName::Meta, &row)
}

/// Moves the points of version 1, where each of them reads.
fn move_points<S: Alter>(tx: &mut Transaction<'_, S>) -> Result<(), StoreFault>
    ensures moves { Moves S.Store tx.old tx.new IsOfPoints (λ t db. HasOldTables db t)
        (λ t. IsMoving [] (moved_points t.points) t) result }
    ensures read { HasCleanDisk (state S.Store tx.new.conn.now)
        → IsTrue (state S.Store tx.old.conn.now).in_transaction → (t : Tables)
        → HasOldTables (state S.Store tx.old.conn.now).now t
        → OnOk result (IsTrue (is_ok (old_points t))) }
    ensures cause { HasCleanDisk (state S.Store tx.new.conn.now)
        → IsTrue (state S.Store tx.old.conn.now).in_transaction → (t : Tables)
        → HasOldTables (state S.Store tx.old.conn.now).now t → is_ok (old_points t) ≡ false
        → IfErr result (SqlHasCause (state S.Store tx.old.conn.now)
        (state S.Store tx.new.conn.now)) }
    ensures was_open { HasCleanDisk (state S.Store tx.new.conn.now)
        → IsTrue (state S.Store tx.old.conn.now).in_transaction
        → IsTrue (state S.Store tx.old.conn.now).is_open ⊎ IsErrAnd result IsOfDatabase }
    ensures refused { HasCleanDisk (state S.Store tx.new.conn.now)
        → IsTrue (state S.Store tx.old.conn.now).in_transaction → (t : Tables)
        → HasOldTables (state S.Store tx.old.conn.now).now t
        → IfErr result (RefusesPoints (old_points t)) }
{
    check_old_points(tx)?;
    make_points(tx)?;
    copy_points(tx)?;
    empty_points(tx)
}

/// Moves the tables of version 1 in one transaction, or leaves the database as it is.
pub(crate) fn move_tables<S: Alter>(conn: &mut Connection<S>) -> Result<(), StoreFault>
    ensures mode { conn.old.in_transaction ≡ false → conn.new.in_transaction ≡ false }
    ensures moved { HasCleanDisk (state S.Store conn.new) → OnOk result
        (MovesTables (state S.Store conn.old).now (state S.Store conn.new).now) }
    ensures saved { HasCleanDisk (state S.Store conn.new) → OnOk result
        (IsSaved (state S.Store conn.new)) }
    ensures fault { IfErr result IsOfPoints }
    ensures cause { conn.old.in_transaction ≡ false → HasCleanDisk (state S.Store conn.new)
        → (t : Tables) → HasOldTables (state S.Store conn.old).now t
        → is_ok (old_points t) ≡ false
        → IfErr result (SqlHasCause (state S.Store conn.old) (state S.Store conn.new)) }
    ensures was_open { HasCleanDisk (state S.Store conn.new)
        → IsTrue (state S.Store conn.old).is_open ⊎ IsErrAnd result IsOfDatabase }
    ensures open_before { HasCleanDisk (state S.Store conn.new)
        → IsTrue (state S.Store conn.new).is_open → IsTrue (state S.Store conn.old).is_open }
    ensures refused { HasCleanDisk (state S.Store conn.new) → (t : Tables)
        → HasOldTables (state S.Store conn.old).now t
        → IfErr result (RefusesPoints (old_points t)) }
    ensures none { HasCleanDisk (state S.Store conn.new) → IsTrue (state S.Store conn.new).is_open
        → OnErr result ((state S.Store conn.new).now ≡ (state S.Store conn.old).now) }
    ensures committed { HasCleanDisk (state S.Store conn.new)
        → IsTrue (state S.Store conn.new).is_open → OnErr result
        ((state S.Store conn.new).committed ≡ (state S.Store conn.old).committed) }
    ensures crash { Survives (state S.Store conn.old) (state S.Store conn.new)
        (λ trees. IsTrue (state S.Store conn.old).is_open
        × AreMoved (state S.Store conn.old).now trees) }
{
    if !conn.is_autocommit() {
        return Err(StoreFault::Sql);
    }
    let mut tx = conn.transaction();
    move_points(&mut tx)?;
    set_version(&mut tx)?;
    tx.commit()?;
    Ok(())
}
