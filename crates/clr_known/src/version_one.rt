//! A machine whose database has the register of JONES/1 in tables of version 1, and their move.
ghost use Rattle.std.specs.Prelude.{◌≡◌, codes, false, IfErr, IfOk, IfSome, None};
ghost use Rattle.sqlite.specs.Held.{state};
ghost use Rattle.sqlite.specs.State.{HasCleanDisk};
ghost use Rattle.clr_known.specs.Known.{IsAlwaysClean, IsVersionTwo};
ghost use Rattle.clr_known.specs.OldTables.{HasOldJones, KnowsOldJones, MovesJones};

use crate::blank::Blank;
use crate::old_tables::make_old;
use clr_args::asked::MigrateArgs;
use clr_commands::migrate::migrate;
use clr_edge::database::Databases;
use clr_edge::fault::{DatabaseFault, Fault};
use clr_edge::journals::Journals;
use clr_load::StoreFault;
use sqlite::{Alter, Connection};
use std::alloc::Global;

/// A machine whose database is of version 1.
#[derive(Drop)]
pub struct OldKnown<B: Blank + Drop> {
    pub alloc: Global,
    pub blank: B,
}

/// None keeps what is written to it.
impl<B: Blank + Drop> Databases for OldKnown<B> {
    ghost use Rattle.std.specs.Prelude.{◌≡◌};
    ghost use Rattle.sqlite.specs.Held.{state};
    ghost use Rattle.clr_known.specs.OldTables.{HasOldJones};

    type Tables = B::Tables;

    ghost opens = { λ old _ connection new.
        (new ≡ old) × HasOldJones (state B.Tables.Store connection).now };

    ghost shuts = { λ old _ _ new. new ≡ old };

    ghost ends = { λ old _ _ new. new ≡ old };

    fn stored(&mut self, path: &str) -> Result<Connection<B::Tables>, DatabaseFault>
        ensures opens { IfOk result (λ connection.
            (self.new ≡ self.old) × HasOldJones (state B.Tables.Store connection).now) }
        ensures mode { IfOk result (λ connection. connection.in_transaction ≡ false) }
        ensures shuts { IfErr result (λ _. self.new ≡ self.old) }
    {
        if path == "old.db" {
            old_database(self.alloc, &self.blank)
        } else {
            Err(DatabaseFault::Sql)
        }
    }

    fn end(&mut self, place: &mut Option<Connection<B::Tables>>) -> Result<(), DatabaseFault>
        ensures ends { IfSome place.old (λ _. self.new ≡ self.old) }
        ensures none { place.old ≡ None → self.new ≡ self.old }
        ensures taken { place.new ≡ None }
    {
        self.blank.close(place)
    }
}

/// A machine whose databases have the register of JONES/1 in tables of version 1, and whose disks
/// are clean.
pub trait OldMachine: Databases + Journals {
    ghost knows: { KnowsOldJones Self.Tables.Store Self.opens };

    ghost clean: { IsAlwaysClean Self.Tables.Store };
}

impl<B: Blank + Drop> OldMachine for OldKnown<B> {
    ghost knows = { λ old new path connection opened. opened.1 };

    ghost clean = { λ connection. B.clean connection };
}

/// The move of its tables.
fn move_of_old<R: OldMachine>(alloc: Global, machine: &mut R) -> Result<String, Fault>
    ensures moved { MovesJones R.Tables.Store R.opens R.ends (codes "old.db") result machine.old
        machine.new }
    ensures printed { IsVersionTwo result }
{
    let args = MigrateArgs {
        database: "old.db",
        journal: None,
        after: None,
    };
    migrate(alloc, machine, &args)
}

/// The same of such a machine.
pub fn known_move<B: Blank + Drop>(machine: &mut OldKnown<B>) -> Result<String, Fault>
    ensures { IsVersionTwo result }
{
    move_of_old(machine.alloc, machine)
}

/// A database of version 1 that has the register.
fn old_database<B: Blank>(alloc: Global, blank: &B) -> Result<Connection<B::Tables>, DatabaseFault>
    ensures tables { IfOk result (λ connection.
        HasOldJones (state B.Tables.Store connection).now) }
    ensures mode { IfOk result (λ connection. connection.in_transaction ≡ false) }
{
    let connection = blank.empty(alloc)?;
    match old_made(connection) {
        Ok(connection) => Ok(connection),
        Err(fault) => Err(DatabaseFault::of_store(fault)),
    }
}

/// An empty database, once it has those tables.
fn old_made<S: Alter + Drop>(connection: Connection<S>) -> Result<Connection<S>, StoreFault>
    ensures tables { IfOk result (λ made. HasCleanDisk (state S.Store made)
        → HasOldJones (state S.Store made).now) }
    ensures mode { connection.in_transaction ≡ false
        → IfOk result (λ made. made.in_transaction ≡ false) }
{
    let mut made = connection;
    match make_old(&mut made) {
        Ok(()) => Ok(made),
        Err(fault) => Err(fault),
    }
}
