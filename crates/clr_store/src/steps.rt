//! Steps taken out of the tables, in one transaction.
ghost use Rattle.std.specs.Prelude.{◌<◌, ◌≡◌, ◌^◌, IfSome, false, option_copied, option_map};
ghost use Rattle.sqlite.specs.Held.{state};
ghost use Rattle.clr_load.specs.Tables.{place_row};
ghost use Rattle.clr_store.specs.Change.{Does, DoesWith};
ghost use Rattle.clr_store.specs.Transaction.{FailsAs, PlacesAs, Transacts};
ghost use Rattle.clr_store.specs.StepsTaken.{without_step, without_steps};

use crate::place::{can_set, set_if_given, settle};
use crate::statements::{conclude, delete_row};
use crate::values::{name_value, number_value};
use clr_load::{StoreFault, TableName};
use clr_rules::{Place, StepKey};
use sqlite::{Alter, Connection, Transaction};

/// Takes the steps of these keys, and sets the place, if one is given, in one transaction, or
/// leaves all as it is.
pub(crate) fn take_steps<S: Alter>(
    conn: &mut Connection<S>,
    keys: &[StepKey],
    place: Option<&Place>,
) -> Result<(), StoreFault>
    requires idle { conn.old.in_transaction ≡ false }
    ensures idle { conn.new.in_transaction ≡ false }
    ensures transacts { Transacts (PlacesAs (option_copied place.entry))
        (FailsAs (option_copied place.entry)) (state S.Store conn.old) (state S.Store conn.new)
        (without_steps keys.now) result }
{
    if !conn.is_autocommit() || !can_set(conn.schema(), place) {
        return Err(StoreFault::Sql);
    }
    let mut tx = conn.transaction();
    let done = take_all(&mut tx, keys, place);
    let ended = conclude(tx, done);
    settle(conn, ended, place)
}

/// Takes the steps, and sets the place, if one is given.
fn take_all<S: Alter>(
    tx: &mut Transaction<'_, S>,
    keys: &[StepKey],
    place: Option<&Place>,
) -> Result<(), StoreFault>
    requires { IfSome (option_copied place) (λ place. place.number < 2 ^ 63) }
    ensures { DoesWith S.Store tx.old tx.new (without_steps keys.now)
        (option_map place_row (option_copied place.entry)) result }
{
    take_each(tx, keys)?;
    set_if_given(tx, place)
}

/// Takes the steps, one after the other.
fn take_each<S: Alter>(tx: &mut Transaction<'_, S>, keys: &[StepKey]) -> Result<(), StoreFault>
    ensures { Does S.Store tx.old tx.new (without_steps keys.now) result }
{
    for key in keys {
        take_step(tx, key)?;
    }
    Ok(())
}

/// Takes the step of a key, if it is there.
fn take_step<S: Alter>(tx: &mut Transaction<'_, S>, key: &StepKey) -> Result<(), StoreFault>
    ensures { Does S.Store tx.old tx.new (without_step key.now) result }
{
    let requester = key.id.requester();
    let values = [
        name_value(&requester),
        number_value(u64::from(key.id.number())),
        number_value(u64::from(key.round)),
        number_value(u64::from(key.ordinal)),
    ];
    delete_row(tx, TableName::Step, &values)
}
