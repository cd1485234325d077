//! The store: the register of a database, over a connection to it.
ghost use Rattle.std.specs.Prelude.{ℕ, ◌≡◌, ◌≢◌, ◌⊎◌, false, true, is_ok, pos, List, IsTrue, IfErr};
ghost use Rattle.std.specs.Prelude.{IfOk, IsErrAnd, MatchResult, None, Ok, OnOk, Option, Some};
ghost use Rattle.std.specs.Prelude.{[], length, option_copied};
ghost use Rattle.sqlite.specs.Held.{state};
ghost use Rattle.sqlite.specs.Order.{Row};
ghost use Rattle.sqlite.specs.State.{HasCleanDisk, Survives};
ghost use Rattle.sqlite_schema.specs.Names.{table_named};
ghost use Rattle.clr_rules.specs.Good.{IsGood};
ghost use Rattle.clr_rules.specs.Register.{Register, opening};
ghost use Rattle.clr_load.specs.RowsRead.{place_read, read_version, rows_read};
ghost use Rattle.clr_load.specs.TableEdits.{tables_edited, tables_moved};
ghost use Rattle.clr_load.specs.TableLaws.{HasNoJumper};
ghost use Rattle.clr_load.specs.TableText.{table_text};
ghost use Rattle.clr_load.specs.Tables.{Tables, place_row, tables_by, tables_of, version_one};
ghost use Rattle.clr_load.specs.declared.table_name.TableName.TheVariants.{Journal};
ghost use Rattle.clr_load.specs.TypedRows.{IsTyped};
ghost use Rattle.clr_load.specs.Schema.{no_schema};
ghost use Rattle.clr_load.specs.Stored.{ArePlaced, AreTables, HasMeta, HasOldTables, HasTables};
ghost use Rattle.clr_load.specs.Stored.{HasVersion, HasWholeRows, IsLaidOut, LacksMeta};
ghost use Rattle.clr_load.specs.Cause.{SqlHasCause};
ghost use Rattle.clr_load.specs.Fault.{IsOfDatabase};
ghost use Rattle.clr_load.specs.Filling.{GivesInto, IsLoaded};
ghost use Rattle.clr_load.specs.Contract.{Gives, GivesBack, GivesRows, IsSaved, old_points};
ghost use Rattle.clr_load.specs.declared.fault.StoreFault.TheVariants.{OtherTables, Sql};
ghost use Rattle.clr_store.specs.Contract.{AreTablesAt, IsOfOpening, RefusesOpening};
ghost use Rattle.clr_store.specs.Contract.{RefusesVersion};
ghost use Rattle.clr_store.specs.Moving.{IsOfMove, LeavesMoved, RefusesMove, RefusesToMove};
ghost use Rattle.clr_store.specs.Renewed.{AreStatesOf, tables_renewed};
ghost use Rattle.clr_store.specs.StepsTaken.{without_steps};
ghost use Rattle.clr_store.specs.Transaction.{FailsAs, PlacesAs, Transacts};

use crate::create::{make_logged_register, make_register};
use crate::edits::make_with;
use crate::migrate::move_tables;
use crate::place::{begin_at, can_set, settle};
use crate::renew::renew;
use crate::statements::conclude;
use crate::steps::take_steps;
use clr_load::{Fill, Loaded, Rows, StoreFault, expect_version, load_into, load_rows, read_place};
use clr_net::Network;
use clr_rules::{Change, Hold, Place, PointState, Record, StepKey, StepRow};
use clr_staff::Staff;
use sqlite::{Alter, Connection};
use std::marker::Model;

/// The register of a database. Between calls no transaction is open.
///
/// A store makes the tables or opens them, reads them back and writes changes into them.
#[derive(Drop)]
pub struct Store<S: Alter + Drop> {
    connection: Connection<S>,
}

impl<S: Alter + Drop> Model for Store<S> {
    ghost use Rattle.std.specs.Prelude.{◌≡◌, false};
    ghost use Rattle.sqlite.specs.Held.{Held, held_code};

    ghost Value = { Held S };

    ghost coded = { held_code S.code };

    ghost view = { λ store. store.connection };

    ghost invariant = { λ store. store.connection.in_transaction ≡ false };
}

/// A fault, with the connection on which it came.
#[derive(Drop)]
pub struct Back<S: Alter + Drop> {
    pub fault: StoreFault,
    pub connection: Connection<S>,
}

impl<S: Alter + Drop> Store<S> {
    /// Makes the tables of an opening register in a database that is empty, in one transaction.
    ///
    /// `Sql` where anything is in the database already, a transaction is open, or the database
    /// fails; `NoMemory` where memory runs out. A fault hands the connection back, with the
    /// database as it was.
    pub fn create(
        mut connection: Connection<S>,
        network: &Network,
        staff: &Staff,
    ) -> Result<Store<S>, Back<S>>
        ensures made { IfOk result (λ store. HasCleanDisk (state S.Store store)
            → IsSaved (state S.Store store) × HasTables (state S.Store store).now
            (tables_of (opening network.now staff.now))) }
        ensures bare { IfOk result (λ _. (state S.Store connection).now.schema ≡ no_schema) }
        ensures inside { connection.in_transaction ≡ true → IsErrAnd result
            (λ back. back.fault ≡ Sql) }
        ensures mode { MatchResult result
            (λ store. store.in_transaction ≡ connection.in_transaction)
            (λ back. back.connection.in_transaction ≡ connection.in_transaction) }
        ensures fault { IfErr result (λ back. IsOfDatabase back.fault) }
        ensures none { IfErr result (λ back. HasCleanDisk (state S.Store back.connection)
            → IsTrue (state S.Store back.connection).is_open
            → (state S.Store back.connection).now ≡ (state S.Store connection).now) }
        ensures committed { IfErr result (λ back. HasCleanDisk (state S.Store back.connection)
            → IsTrue (state S.Store back.connection).is_open
            → (state S.Store back.connection).committed ≡ (state S.Store connection).committed) }
        ensures crash_made { IfOk result (λ store. Survives (state S.Store connection)
            (state S.Store store) (λ trees. AreTables trees (tables_of
            (opening network.now staff.now)))) }
        ensures crash_none { IfErr result (λ back. Survives (state S.Store connection)
            (state S.Store back.connection) (λ trees. AreTables trees
            (tables_of (opening network.now staff.now)))) }
    {
        if !connection.is_autocommit() {
            let fault = StoreFault::Sql;
            return Err(Back { fault, connection });
        }
        match make_register(&mut connection, network, staff) {
            Ok(()) => Ok(Store { connection }),
            Err(fault) => Err(Back { fault, connection }),
        }
    }

    /// Opens the store of a database that has the tables, and changes nothing.
    ///
    /// In this order: `Sql` where a transaction is open or there is no table `meta`; `BadRow` of
    /// `meta` where that has no version; `WrongVersion` where the version is not the one that is
    /// read; `OtherTables` where the tables are not those of a register, as where there is another
    /// table, index, view or trigger, or `meta` has another row. The other rows are not looked at.
    /// A fault hands the connection back.
    pub fn open(mut connection: Connection<S>) -> Result<Store<S>, Back<S>>
        ensures opened { IfOk result (λ store. HasCleanDisk (state S.Store store)
            → IsTrue (state S.Store store).is_open → (state S.Store store).now
            ≡ (state S.Store connection).now) }
        ensures kept { IfOk result (λ store. HasCleanDisk (state S.Store store)
            → IsTrue (state S.Store store).is_open → (state S.Store store).committed
            ≡ (state S.Store connection).committed) }
        ensures version { IfOk result (λ store. HasCleanDisk (state S.Store store)
            → (meta : List Row) → HasMeta (state S.Store connection).now meta
            → read_version meta ≡ Ok (pos 2)) }
        ensures was_open { IfOk result (λ store. HasCleanDisk (state S.Store store)
            → IsTrue (state S.Store connection).is_open) }
        ensures inside { connection.in_transaction ≡ true → IsErrAnd result
            (λ back. back.fault ≡ Sql) }
        ensures mode { MatchResult result
            (λ store. store.in_transaction ≡ connection.in_transaction)
            (λ back. back.connection.in_transaction ≡ connection.in_transaction) }
        ensures fault { IfErr result (λ back. IsOfOpening back.fault) }
        ensures laid_out { IfOk result (λ store. HasCleanDisk (state S.Store store)
            → IsLaidOut 2 (state S.Store connection).now) }
        ensures alone { IfOk result (λ store. HasCleanDisk (state S.Store store)
            → (meta : List Row) → HasMeta (state S.Store connection).now meta
            → length meta ≡ 1) }
        ensures there { IfOk result (λ store. HasCleanDisk (state S.Store store)
            → HasWholeRows (state S.Store connection).now
            → HasVersion 2 (state S.Store connection).now) }
        ensures bare { LacksMeta (state S.Store connection).now → IsErrAnd result
            (λ back. back.fault ≡ Sql) }
        ensures other { IfErr result (λ back. HasCleanDisk (state S.Store back.connection)
            → back.fault ≡ OtherTables → HasVersion 2 (state S.Store connection).now → ⊥) }
        ensures none { IfErr result (λ back. HasCleanDisk (state S.Store back.connection)
            → IsTrue (state S.Store back.connection).is_open
            → (state S.Store back.connection).now ≡ (state S.Store connection).now) }
        ensures committed { IfErr result (λ back. HasCleanDisk (state S.Store back.connection)
            → IsTrue (state S.Store back.connection).is_open
            → (state S.Store back.connection).committed ≡ (state S.Store connection).committed) }
        ensures cause { IfErr result (λ back. HasCleanDisk (state S.Store back.connection)
            → connection.in_transaction ≡ false → (meta : List Row)
            → HasMeta (state S.Store connection).now meta → SqlHasCause (state S.Store connection)
            (state S.Store back.connection) back.fault) }
        ensures unread { IfErr result (λ back. HasCleanDisk (state S.Store back.connection)
            → (meta : List Row) → HasMeta (state S.Store connection).now meta
            → RefusesVersion (read_version meta) back.fault) }
        ensures refused { IfErr result (λ back. HasCleanDisk (state S.Store back.connection)
            → (t : Tables) → HasTables (state S.Store connection).now t
            → RefusesOpening t back.fault) }
        ensures crash_opened { IfOk result (λ store. Survives (state S.Store connection)
            (state S.Store store) (λ _. ⊥)) }
        ensures crash_none { IfErr result (λ back. Survives (state S.Store connection)
            (state S.Store back.connection) (λ _. ⊥)) }
    {
        if !connection.is_autocommit() {
            let fault = StoreFault::Sql;
            return Err(Back { fault, connection });
        }
        match expect_version(&mut connection, 2) {
            Ok(2) => Ok(Store { connection }),
            Ok(other) => {
                let fault = StoreFault::WrongVersion(other);
                Err(Back { fault, connection })
            }
            Err(fault) => Err(Back { fault, connection }),
        }
    }

    /// Opens the store of a database, and moves tables of version 1 to version 2 first.
    ///
    /// Tables of version 2 are opened as they are. Of version 1 each point is copied, with its
    /// position and its hand, into the table that version 2 reads, in one transaction; the table
    /// of version 1 stays, empty. `Sql` where there is no table `meta`, a transaction is open, or
    /// the database fails; `NoMemory` where memory runs out; `WrongVersion` where the version is
    /// another; `OtherTables` where the tables are not those of a register of the version, as for
    /// `open`; `BadRow` of `meta` where that has no version, of `point` where the version is 1
    /// and a point does not read. No other row is looked at. A fault hands the connection back,
    /// with the database as it was.
    pub fn migrate(mut connection: Connection<S>) -> Result<Store<S>, Back<S>>
        ensures opened { IfOk result (λ store. HasCleanDisk (state S.Store store)
            → IsTrue (state S.Store store).is_open → (meta : List Row)
            → HasMeta (state S.Store connection).now meta → read_version meta ≡ Ok (pos 2)
            → (state S.Store store).now ≡ (state S.Store connection).now) }
        ensures kept { IfOk result (λ store. HasCleanDisk (state S.Store store)
            → IsTrue (state S.Store store).is_open → (meta : List Row)
            → HasMeta (state S.Store connection).now meta → read_version meta ≡ Ok (pos 2)
            → (state S.Store store).committed ≡ (state S.Store connection).committed) }
        ensures moved { IfOk result (λ store. HasCleanDisk (state S.Store store) → (t : Tables)
            → HasOldTables (state S.Store connection).now t → read_version t.meta ≡ Ok (pos 1)
            → IsTrue (is_ok (old_points t)) × IsSaved (state S.Store store)
            × HasTables (state S.Store store).now (tables_moved t)) }
        ensures register { IfOk result (λ store. HasCleanDisk (state S.Store store)
            → (R : Register) → HasNoJumper R
            → HasOldTables (state S.Store connection).now (tables_by version_one R)
            → HasTables (state S.Store store).now (tables_of R)) }
        ensures version { IfOk result (λ store. HasCleanDisk (state S.Store store)
            → (meta : List Row) → HasMeta (state S.Store connection).now meta
            → (read_version meta ≡ Ok (pos 1)) ⊎ (read_version meta ≡ Ok (pos 2))) }
        ensures was_open { IfOk result (λ store. HasCleanDisk (state S.Store store)
            → IsTrue (state S.Store connection).is_open) }
        ensures inside { connection.in_transaction ≡ true → IsErrAnd result
            (λ back. back.fault ≡ Sql) }
        ensures mode { MatchResult result
            (λ store. store.in_transaction ≡ connection.in_transaction)
            (λ back. back.connection.in_transaction ≡ connection.in_transaction) }
        ensures fault { IfErr result (λ back. IsOfMove back.fault) }
        ensures laid_out { IfOk result (λ store. HasCleanDisk (state S.Store store)
            → IsLaidOut 1 (state S.Store connection).now
            ⊎ IsLaidOut 2 (state S.Store connection).now) }
        ensures alone { IfOk result (λ store. HasCleanDisk (state S.Store store)
            → (meta : List Row) → HasMeta (state S.Store connection).now meta
            → length meta ≡ 1) }
        ensures there { IfOk result (λ store. HasCleanDisk (state S.Store store)
            → HasWholeRows (state S.Store connection).now
            → HasVersion 1 (state S.Store connection).now
            ⊎ HasVersion 2 (state S.Store connection).now) }
        ensures bare { LacksMeta (state S.Store connection).now → IsErrAnd result
            (λ back. back.fault ≡ Sql) }
        ensures other { IfErr result (λ back. HasCleanDisk (state S.Store back.connection)
            → back.fault ≡ OtherTables → (n : ℕ)
            → HasVersion n (state S.Store connection).now → ⊥) }
        ensures none { IfErr result (λ back. HasCleanDisk (state S.Store back.connection)
            → IsTrue (state S.Store back.connection).is_open
            → (state S.Store back.connection).now ≡ (state S.Store connection).now) }
        ensures committed { IfErr result (λ back. HasCleanDisk (state S.Store back.connection)
            → IsTrue (state S.Store back.connection).is_open
            → (state S.Store back.connection).committed ≡ (state S.Store connection).committed) }
        ensures cause { IfErr result (λ back. HasCleanDisk (state S.Store back.connection)
            → connection.in_transaction ≡ false → (meta : List Row)
            → HasMeta (state S.Store connection).now meta → read_version meta ≢ Ok (pos 1)
            → SqlHasCause (state S.Store connection) (state S.Store back.connection) back.fault) }
        ensures points_cause { IfErr result (λ back.
            HasCleanDisk (state S.Store back.connection) → connection.in_transaction ≡ false
            → (t : Tables) → HasOldTables (state S.Store connection).now t
            → is_ok (old_points t) ≡ false → SqlHasCause (state S.Store connection)
            (state S.Store back.connection) back.fault) }
        ensures unread { IfErr result (λ back. HasCleanDisk (state S.Store back.connection)
            → (meta : List Row) → HasMeta (state S.Store connection).now meta
            → RefusesToMove (read_version meta) back.fault) }
        ensures refused { IfErr result (λ back. HasCleanDisk (state S.Store back.connection)
            → (t : Tables) → HasOldTables (state S.Store connection).now t
            → RefusesMove t back.fault) }
        ensures crash_moved { IfOk result (λ store. Survives (state S.Store connection)
            (state S.Store store) (LeavesMoved (state S.Store connection).now)) }
        ensures crash_none { IfErr result (λ back. Survives (state S.Store connection)
            (state S.Store back.connection) (LeavesMoved (state S.Store connection).now)) }
    {
        if !connection.is_autocommit() {
            let fault = StoreFault::Sql;
            return Err(Back { fault, connection });
        }
        let version = match expect_version(&mut connection, 1) {
            Ok(version) => version,
            Err(fault) => return Err(Back { fault, connection }),
        };
        match version {
            1 => match move_tables(&mut connection) {
                Ok(()) => Ok(Store { connection }),
                Err(fault) => Err(Back { fault, connection }),
            },
            2 => Ok(Store { connection }),
            _ => {
                let fault = StoreFault::WrongVersion(version);
                Err(Back { fault, connection })
            }
        }
    }

    /// Gives the connection back.
    pub fn end(self) -> Connection<S>
        ensures connection { result ≡ self }
        ensures ended { result.in_transaction ≡ false }
    {
        self.connection
    }

    /// Reads all rows of the tables, and changes nothing.
    ///
    /// `BadRow` names the first table, of meta, section, network_point, staff, clearance, step
    /// and hold, with a row that reads no value of its type. `Sql` where the database refuses or
    /// fails, `NoMemory` where memory runs out. `WrongVersion` never comes: `open` has asked for
    /// the version, and the rows have it.
    pub fn load(&mut self) -> Result<Rows, StoreFault>
        ensures rows { HasCleanDisk (state S.Store self.new) → (t : Tables)
            → HasTables (state S.Store self.old).now t → GivesRows (rows_read t) result }
        ensures register { HasCleanDisk (state S.Store self.new) → (R : Register) → IsGood R
            → IsTyped R → HasTables (state S.Store self.old).now (tables_of R)
            → GivesBack R result }
        ensures cause { HasCleanDisk (state S.Store self.new) → (t : Tables)
            → HasTables (state S.Store self.old).now t
            → IfErr result (SqlHasCause (state S.Store self.old) (state S.Store self.new)) }
        ensures was_open { HasCleanDisk (state S.Store self.new)
            → IsTrue (state S.Store self.old).is_open ⊎ IsErrAnd result IsOfDatabase }
        ensures saved { HasCleanDisk (state S.Store self.new)
            → IsTrue (state S.Store self.new).is_open → IsSaved (state S.Store self.new) }
        ensures same { HasCleanDisk (state S.Store self.new)
            → IsTrue (state S.Store self.new).is_open
            → (state S.Store self.new).now ≡ (state S.Store self.old).now }
        ensures crash { Survives (state S.Store self.old) (state S.Store self.new) (λ _. ⊥) }
    {
        load_rows(&mut self.connection)
    }

    /// Reads all rows of the tables as `load` does, with the same faults; clearances, steps and
    /// holds go into what the caller keeps them in, one after another.
    pub fn load_into<C: Fill<Record>, T: Fill<StepRow>, H: Fill<Hold>>(
        &mut self,
    ) -> Result<Loaded<C, T, H>, StoreFault>
        ensures rows { HasCleanDisk (state S.Store self.new) → (t : Tables)
            → HasTables (state S.Store self.old).now t
            → GivesInto (IsLoaded C.has T.has H.has) (rows_read t) result }
        ensures cause { HasCleanDisk (state S.Store self.new) → (t : Tables)
            → HasTables (state S.Store self.old).now t
            → IfErr result (SqlHasCause (state S.Store self.old) (state S.Store self.new)) }
        ensures was_open { HasCleanDisk (state S.Store self.new)
            → IsTrue (state S.Store self.old).is_open ⊎ IsErrAnd result IsOfDatabase }
        ensures saved { HasCleanDisk (state S.Store self.new)
            → IsTrue (state S.Store self.new).is_open → IsSaved (state S.Store self.new) }
        ensures same { HasCleanDisk (state S.Store self.new)
            → IsTrue (state S.Store self.new).is_open
            → (state S.Store self.new).now ≡ (state S.Store self.old).now }
        ensures crash { Survives (state S.Store self.old) (state S.Store self.new) (λ _. ⊥) }
    {
        load_into(&mut self.connection)
    }
}

impl<S: Alter + Drop> Store<S> {
    /// Makes the tables of an opening register that has a journal, and its first place there, as
    /// `create` does, with the same faults; and `Sql` where the place's number is 2^63 or more.
    pub fn create_with_place(
        mut connection: Connection<S>,
        network: &Network,
        staff: &Staff,
        place: &Place,
    ) -> Result<Store<S>, Back<S>>
        ensures made { IfOk result (λ store. HasCleanDisk (state S.Store store)
            → IsSaved (state S.Store store) × HasTables (state S.Store store).now
            (tables_of (opening network.now staff.now))
            × ArePlaced (state S.Store store).now.trees (Some (place_row place.now))) }
        ensures bare { IfOk result (λ _. (state S.Store connection).now.schema ≡ no_schema) }
        ensures inside { connection.in_transaction ≡ true → IsErrAnd result
            (λ back. back.fault ≡ Sql) }
        ensures mode { MatchResult result
            (λ store. store.in_transaction ≡ connection.in_transaction)
            (λ back. back.connection.in_transaction ≡ connection.in_transaction) }
        ensures fault { IfErr result (λ back. IsOfDatabase back.fault) }
        ensures none { IfErr result (λ back. HasCleanDisk (state S.Store back.connection)
            → IsTrue (state S.Store back.connection).is_open
            → (state S.Store back.connection).now ≡ (state S.Store connection).now) }
        ensures committed { IfErr result (λ back. HasCleanDisk (state S.Store back.connection)
            → IsTrue (state S.Store back.connection).is_open
            → (state S.Store back.connection).committed ≡ (state S.Store connection).committed) }
        ensures crash_made { IfOk result (λ store. Survives (state S.Store connection)
            (state S.Store store) (AreTablesAt (tables_of (opening network.now staff.now))
            (place_row place.now))) }
        ensures crash_none { IfErr result (λ back. Survives (state S.Store connection)
            (state S.Store back.connection) (AreTablesAt (tables_of (opening network.now staff.now))
            (place_row place.now))) }
    {
        if !connection.is_autocommit() {
            let fault = StoreFault::Sql;
            return Err(Back { fault, connection });
        }
        match make_logged_register(&mut connection, network, staff, place) {
            Ok(()) => Ok(Store { connection }),
            Err(fault) => Err(Back { fault, connection }),
        }
    }

    /// The place of the register in its journal; None where it has no journal. Nothing is changed.
    ///
    /// `BadRow` of `journal` where the place does not read; `Sql` where the database refuses or
    /// fails, `NoMemory` where memory runs out.
    pub fn place(&mut self) -> Result<Option<Place>, StoreFault>
        ensures place { HasCleanDisk (state S.Store self.new) → (t : Tables)
            → HasTables (state S.Store self.old).now t → (row : Option Row)
            → ArePlaced (state S.Store self.old).now.trees row
            → Gives (λ place. place) (place_read row) result }
        ensures cause { HasCleanDisk (state S.Store self.new) → (t : Tables)
            → HasTables (state S.Store self.old).now t
            → IfErr result (SqlHasCause (state S.Store self.old) (state S.Store self.new)) }
        ensures was_saved { HasCleanDisk (state S.Store self.new)
            → IsTrue (state S.Store self.new).is_open → IsSaved (state S.Store self.old) }
        ensures saved { HasCleanDisk (state S.Store self.new)
            → IsTrue (state S.Store self.new).is_open → IsSaved (state S.Store self.new) }
        ensures same { HasCleanDisk (state S.Store self.new)
            → IsTrue (state S.Store self.new).is_open
            → (state S.Store self.new).now ≡ (state S.Store self.old).now }
        ensures crash { Survives (state S.Store self.old) (state S.Store self.new) (λ _. ⊥) }
    {
        read_place(&mut self.connection)
    }

    /// Gives a register that has no journal this place in one. Its tables stay as they are.
    ///
    /// `Sql` where the register has a place already, where the number is 2^63 or more, and where
    /// the database refuses or fails; `NoMemory` where memory runs out. On a fault nothing is done.
    pub fn begin_at(&mut self, place: &Place) -> Result<(), StoreFault>
        ensures transacts { Transacts (PlacesAs (Some place.now)) (FailsAs None)
            (state S.Store self.old) (state S.Store self.new) (tables_edited []) result }
        ensures unplaced { OnOk result ((table_named (state S.Store self.old).now.schema
            (table_text Journal)) ≡ None) }
    {
        begin_at(&mut self.connection, place)
    }
}

/// Makes the edits, and sets the place, if one is given, in one transaction, or leaves all as it
/// is.
fn commit_change<S: Alter>(
    conn: &mut Connection<S>,
    change: &Change,
    place: Option<&Place>,
) -> Result<(), StoreFault>
    requires idle { conn.old.in_transaction ≡ false }
    ensures idle { conn.new.in_transaction ≡ false }
    ensures transacts { Transacts (PlacesAs (option_copied place.entry))
        (FailsAs (option_copied place.entry)) (state S.Store conn.old) (state S.Store conn.new)
        (tables_edited change.now.edits.items) result }
{
    if !conn.is_autocommit() || !can_set(conn.schema(), place) {
        return Err(StoreFault::Sql);
    }
    let mut tx = conn.transaction();
    let done = make_with(&mut tx, change.edits.as_slice(), place);
    let ended = conclude(tx, done);
    settle(conn, ended, place)
}

/// Changes of the tables, each in one transaction, which sets the place of the register in its
/// journal, if one is given; otherwise a place stays as it is.
///
/// `Sql` where a place is given and the register has no journal, or the number is 2^63 or more; and
/// where the database refuses or fails. `NoMemory` where memory runs out; if a place was given, the
/// connection is open then. On a fault none of the change is made.
impl<S: Alter + Drop> Store<S> {
    /// Makes the edits of a change.
    pub fn commit(&mut self, change: &Change, place: Option<&Place>) -> Result<(), StoreFault>
        ensures { Transacts (PlacesAs (option_copied place.entry))
            (FailsAs (option_copied place.entry)) (state S.Store self.old)
            (state S.Store self.new) (tables_edited change.now.edits.items) result }
    {
        commit_change(&mut self.connection, change, place)
    }

    /// Takes the steps of these keys out of the tables.
    pub fn take_steps(&mut self, keys: &[StepKey], place: Option<&Place>) -> Result<(), StoreFault>
        ensures { Transacts (PlacesAs (option_copied place.entry))
            (FailsAs (option_copied place.entry)) (state S.Store self.old)
            (state S.Store self.new) (without_steps keys.now) result }
    {
        take_steps(&mut self.connection, keys, place)
    }

    /// Puts a network, a staff and the states of the network's points in place of those that the
    /// tables have. Clearances, steps and holds stay.
    pub fn update(
        &mut self,
        network: &Network,
        staff: &Staff,
        states: &[PointState],
        place: Option<&Place>,
    ) -> Result<(), StoreFault>
        requires { AreStatesOf network.now.points states.now }
        ensures { Transacts (PlacesAs (option_copied place.entry))
            (FailsAs (option_copied place.entry)) (state S.Store self.old)
            (state S.Store self.new) (tables_renewed network.now staff.now states.now) result }
    {
        renew(&mut self.connection, network, staff, states, place)
    }
}
