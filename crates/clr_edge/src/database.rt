//! The databases that registers are stored in, each opened when its turn comes, and closed.
ghost use Rattle.std.specs.Prelude.{◌≡◌, ◌⊎◌, ◌<◌, ℕ, false, List, IfErr, IfOk, IfSome, IsTrue};
ghost use Rattle.std.specs.Prelude.{None, OnErr, OnOk};
ghost use Rattle.std.specs.IoError.{error_kind};
ghost use Rattle.sqlite.specs.Held.{Held, state};
ghost use Rattle.sqlite.specs.State.{HasCleanDisk, Survives};
ghost use Rattle.clr_disk.specs.Opened.{AreLetGo, HasBytes, IsOpenedAt, IsShutAt};
ghost use Rattle.clr_load.specs.Cause.{fault_of};
ghost use Rattle.clr_rules.specs.Good.{IsGood};
ghost use Rattle.clr_rules.specs.Staffed.{IsStaffed};
ghost use Rattle.clr_rules.specs.Register.{Register, opening};
ghost use Rattle.clr_edge.specs.Database.{HasNoBytes, HasRegister, IsDatabaseFault, IsMade};
ghost use Rattle.clr_edge.specs.Database.{IsMoved, IsOfStore, IsOfUnfit, IsOnlyRead, IsRefused};
ghost use Rattle.clr_edge.specs.Database.{IsShutBy, IsUnmade, IsUnmoved, ReadsAs, size_fault};
ghost use Rattle.clr_edge.specs.Fault.{database_fault};
ghost use Rattle.clr_edge.specs.Visit.{Alone, Closed, Comes, GivesBack, IsLeft, MakesRegister};
ghost use Rattle.clr_edge.specs.Visit.{MovesRegister, first_fault, reported};
ghost use Rattle.clr_edge.specs.declared.fault.DatabaseFault.{DatabaseFault as AnyFault};

use crate::at_fault::table_in;
use crate::fault::{DatabaseFault, Fault};
use crate::machine::Machine;
use clr_desk::{Desk, DeskFault};
use clr_disk::{Database, Event, System, let_go, open_database};
use clr_load::StoreFault;
use clr_net::Network;
use clr_staff::Staff;
use clr_store::{Back, Store};
use sqlite::{Alter, Connection, Error, FileStore};
use sqlite_disk::{Disk, Files};
use std::alloc::Global;
use std::io;

/// What opens the databases that are there, and closes them. Each step leads from one state of it
/// to the next, so a clause that names the steps names all that was opened.
pub trait Databases {
    /// What the tables of a database are kept in.
    type Tables: Alter + Drop;

    /// That the database at a path was opened, and how the connection began. Only `stored` says so.
    ghost opens: { Self → List ℕ → Held Self.Tables → Self → Type 0 };

    /// That the database at a path could not be opened. Only `stored` and `database` say so.
    ghost shuts: { Self → List ℕ → AnyFault → Self → Type 0 };

    /// That a connection was closed as it was then, with this outcome, and its files came back.
    /// Only `end` says so.
    ghost ends: { Self → Held Self.Tables → Closed → Self → Type 0 };

    /// Opens the database in a file. A file that is not there, or is empty, is refused, and no file
    /// is made or changed.
    fn stored(&mut self, path: &str) -> Result<Connection<Self::Tables>, DatabaseFault>
        ensures opens { IfOk result (λ connection. opens self.old path.now connection self.new) }
        ensures mode { IfOk result (λ connection. connection.in_transaction ≡ false) }
        ensures shuts { IfErr result (λ fault. shuts self.old path.now fault self.new) };

    /// Takes the connection out of a place, and closes it as `close` says. A method that took one
    /// by value would get no proof where it is called through the trait.
    fn end(&mut self, place: &mut Option<Connection<Self::Tables>>) -> Result<(), DatabaseFault>
        ensures ends { IfSome place.old (λ connection.
            ends self.old connection result self.new) }
        ensures none { place.old ≡ None → self.new ≡ self.old }
        ensures taken { place.new ≡ None };
}

/// What makes databases too, for the one subcommand that may.
pub trait Makes: Databases {
    /// That the database at a path was opened, or made. Only `database` says so.
    ghost makes: { Self → List ℕ → Held Self.Tables → Self → Type 0 };

    /// Opens the database in a file. A file that is not there is made, and its database is empty.
    fn database(&mut self, path: &str) -> Result<Connection<Self::Tables>, DatabaseFault>
        ensures makes { IfOk result (λ connection. makes self.old path.now connection self.new) }
        ensures mode { IfOk result (λ connection. connection.in_transaction ≡ false) }
        ensures shuts { IfErr result (λ fault. Self.shuts self.old path.now fault self.new) };
}

/// A database that is opened lies in the files at that path, and what is found is what they held.
/// `stored` looks first whether a file is there that is not empty. No other file is opened.
impl<Y: System> Databases for Machine<Y> {
    type Tables = FileStore<Y::Medium>;

    ghost opens = { λ old path connection new. HasBytes Y.has_size path
        × IsOpenedAt Y.has_files Y.Medium.Disk old.system path connection new.system };

    ghost shuts = { λ old path fault new.
        ((new.system ≡ old.system) × HasNoBytes Y.has_size Y.lacks_size path fault)
        ⊎ IsShutBy (λ error. IsShutAt Y.has_files Y.lacks_files Y.lets_go Y.lacks_seed Y.Medium.Disk
        old.system path error new.system) fault };

    ghost ends = { λ old connection closed new. GivesBack (λ before files after.
        AreLetGo Y.lets_go before files.log files.db after)
        old.system connection closed new.system };

    fn stored(&mut self, path: &str) -> Result<Database<Y::Medium>, DatabaseFault>
        ensures opens { IfOk result (λ connection. HasBytes Y.has_size path.now
            × IsOpenedAt Y.has_files Y.Medium.Disk self.old.system path.now
            connection self.new.system) }
        ensures mode { IfOk result (λ connection. connection.in_transaction ≡ false) }
        ensures shuts { IfErr result (λ fault.
            ((self.new.system ≡ self.old.system)
            × HasNoBytes Y.has_size Y.lacks_size path.now fault)
            ⊎ IsShutBy (λ error. IsShutAt Y.has_files Y.lacks_files Y.lets_go Y.lacks_seed
            Y.Medium.Disk self.old.system path.now error self.new.system) fault) }
    {
        let size = expect_bytes(&self.system, path)?;
        self.system.show(Event::Begins(size));
        self.opened(path)
    }

    fn end(&mut self, place: &mut Option<Database<Y::Medium>>) -> Result<(), DatabaseFault>
        ensures ends { IfSome place.old (λ connection. GivesBack (λ before files after.
            AreLetGo Y.lets_go before files.log files.db after)
            self.old.system connection result self.new.system) }
        ensures none { place.old ≡ None → self.new ≡ self.old }
        ensures taken { place.new ≡ None }
    {
        let Some(connection) = place.take() else {
            return Ok(());
        };
        let (closed, files) = close_over(connection);
        let_go(&mut self.system, files);
        closed
    }
}

impl<Y: System> Makes for Machine<Y> {
    ghost makes = { λ old path connection new.
        IsOpenedAt Y.has_files Y.Medium.Disk old.system path connection new.system };

    fn database(&mut self, path: &str) -> Result<Database<Y::Medium>, DatabaseFault>
        ensures makes { IfOk result (λ connection.
            IsOpenedAt Y.has_files Y.Medium.Disk self.old.system path.now
            connection self.new.system) }
        ensures mode { IfOk result (λ connection. connection.in_transaction ≡ false) }
        ensures shuts { IfErr result (λ fault.
            ((self.new.system ≡ self.old.system)
            × HasNoBytes Y.has_size Y.lacks_size path.now fault)
            ⊎ IsShutBy (λ error. IsShutAt Y.has_files Y.lacks_files Y.lets_go Y.lacks_seed
            Y.Medium.Disk self.old.system path.now error self.new.system) fault) }
    {
        self.opened(path)
    }
}

impl<Y: System> Machine<Y> {
    /// The database at a path, which is made if it is not there.
    fn opened(&mut self, path: &str) -> Result<Database<Y::Medium>, DatabaseFault>
        ensures opened { IfOk result (λ connection.
            IsOpenedAt Y.has_files Y.Medium.Disk self.old.system path.now
            connection self.new.system) }
        ensures mode { IfOk result (λ connection. connection.in_transaction ≡ false) }
        ensures refused { IfErr result (λ fault. IsShutBy (λ error. IsShutAt Y.has_files
            Y.lacks_files Y.lets_go Y.lacks_seed Y.Medium.Disk
            self.old.system path.now error self.new.system) fault) }
    {
        match open_database(self.alloc, &mut self.system, path) {
            Ok(connection) => Ok(connection),
            Err(error) => Err(fault_of(error)),
        }
    }
}

/// The fault of an error of a database.
fn fault_of(error: Error) -> DatabaseFault
    ensures { result ≡ database_fault (fault_of error) }
{
    DatabaseFault::of_store(StoreFault::from(error))
}

/// How many bytes the file at a path has. Refuses one that is not there, cannot be looked at or is
/// empty: it has no database.
fn expect_bytes<Y: System>(system: &Y, path: &str) -> Result<u64, DatabaseFault>
    ensures size { IfOk result (λ size. Y.has_size path.now size × (0 < size)) }
    ensures none { IfErr result (HasNoBytes Y.has_size Y.lacks_size path.now) }
{
    match system.size(path) {
        Ok(size) if size > 0 => Ok(size),
        Ok(_) => Err(DatabaseFault::Sql),
        Err(error) => Err(size_fault(&error)),
    }
}

/// What is reported where the size of a file could not be read.
fn size_fault(error: &io::Error) -> DatabaseFault
    ensures { result ≡ size_fault (error_kind error.now) }
{
    match error.kind() {
        io::ErrorKind::OutOfMemory => DatabaseFault::NoMemory,
        _ => DatabaseFault::Sql,
    }
}

/// Closes a database, and gives its files back, also where it cannot be closed. Once it is closed,
/// everything is in its file, and nothing in the log.
pub fn close<R: Databases>(
    rt: &mut R,
    connection: Connection<R::Tables>,
) -> Result<(), DatabaseFault>
    ensures { R.ends rt.old connection result rt.new }
{
    let mut place = Some(connection);
    rt.end(&mut place)
}

/// Closes a database over files, which are given back.
fn close_over<D: Disk + Drop>(
    connection: Connection<FileStore<D>>,
) -> (Result<(), DatabaseFault>, Files<D>)
    ensures { IsLeft connection result.1 result.0 }
{
    match connection.close_files() {
        Ok(files) => (Ok(()), files),
        Err((error, store)) => (Err(fault_of(error)), store.close()),
    }
}

/// What comes of the work before a database is closed, or the first of two faults.
pub fn first_fault<T: Drop>(
    done: Result<T, Fault>,
    closed: Result<(), DatabaseFault>,
) -> Result<T, Fault>
    ensures { result ≡ first_fault done closed }
{
    match done {
        Ok(value) => match closed {
            Ok(()) => Ok(value),
            Err(cause) => Err(Fault::from(cause)),
        },
        Err(fault) => Err(fault),
    }
}

/// Makes the tables of an opening register in the database at a path, which has to be empty, and
/// closes it. A file that is not there is made.
pub fn store_register<R: Makes>(
    alloc: Global,
    rt: &mut R,
    path: &str,
    network: Network,
    staff: Staff,
) -> Result<(), DatabaseFault>
    ensures { Comes R.makes R.shuts R.ends path.now
        (Alone (MakesRegister R.Tables.Store (opening network staff))) (reported result)
        rt.old rt.new }
{
    let connection = rt.database(path)?;
    let (made, connection) = register_made(alloc, connection, network, staff);
    let closed = close(rt, connection);
    made.and(closed)
}

/// Makes the tables of an opening register in a database, which has to be empty.
fn register_made<S: Alter + Drop>(
    alloc: Global,
    connection: Connection<S>,
    network: Network,
    staff: Staff,
) -> (Result<(), DatabaseFault>, Connection<S>)
    ensures made { OnOk result.0 (IsMade S.Store connection (opening network staff) result.1) }
    ensures unmade { OnErr result.0
        (IsUnmade S.Store connection (opening network staff) result.1) }
{
    settled(&connection);
    match Desk::create(alloc, connection, network, staff) {
        Ok(desk) => (Ok(()), desk.end().end()),
        Err((fault, connection)) => {
            settled(&connection);
            (Err(of_command(fault)), connection)
        }
    }
}

/// Any fault of a desk but want of memory is the database's own.
fn of_command(fault: DeskFault) -> DatabaseFault {
    match fault {
        DeskFault::NoMemory => DatabaseFault::NoMemory,
        _ => DatabaseFault::Sql,
    }
}

/// Outside a transaction a connection shows what is committed: a law, with nothing to do.
pub fn settled<S: Alter>(connection: &Connection<S>)
    ensures { connection.now.in_transaction ≡ false → IsTrue (state S.Store connection.now).is_open
        → (state S.Store connection.now).now ≡ (state S.Store connection.now).committed }
{
    let _is_autocommit = connection.is_autocommit();
}

/// Brings the tables of the register in the database at a path to the version that is read, and
/// closes it. Tables of that version stay as they are.
///
/// Of the rows only the points are looked at. Whether they are those of a good register is asked
/// at each opening of a desk (`desk_over`).
pub fn move_register<R: Databases>(rt: &mut R, path: &str) -> Result<(), Fault>
    ensures visit { Comes R.opens R.shuts R.ends path.now
        (Alone (MovesRegister R.Tables.Store)) result rt.old rt.new }
    ensures fault { IfErr result IsOfStore }
{
    let connection = rt.stored(path)?;
    let (moved, connection) = register_moved(connection);
    let closed = close(rt, connection);
    first_fault(moved, closed)
}

/// Brings the tables of a register to the version that is read.
fn register_moved<S: Alter + Drop>(connection: Connection<S>) -> (Result<(), Fault>, Connection<S>)
    ensures moved { OnOk result.0 (IsMoved S.Store connection result.1) }
    ensures unmoved { IfErr result.0 (λ fault.
        IsUnmoved S.Store connection fault result.1) }
    ensures known { (R : Register) → HasRegister S.Store R connection
        → HasCleanDisk (state S.Store result.1) → IfErr result.0 IsDatabaseFault }
{
    settled(&connection);
    match Store::migrate(connection) {
        Ok(store) => {
            let connection = store.end();
            settled(&connection);
            (Ok(()), connection)
        }
        Err(Back { fault, connection }) => {
            settled(&connection);
            (Err(Fault::from(fault)), connection)
        }
    }
}

/// Opens a desk over the register that a database has, which is only read. A fault gives the
/// database back.
///
/// `Store(BadRow)` also where the rows give a register that is not good and staffed: it names the
/// first table whose rows do not fit the others or the staff.
pub fn desk_over<S: Alter + Drop>(
    alloc: Global,
    connection: Connection<S>,
) -> Result<Desk<Store<S>>, (Fault, Connection<S>)>
    ensures good { IfOk result (λ desk. IsGood desk.book.register) }
    ensures staffed { IfOk result (λ desk. IsStaffed desk.book.register) }
    ensures faults { IfOk result (λ desk. desk.faults ≡ 0) }
    ensures register { (R : Register) → HasRegister S.Store R connection → IfOk result (λ desk.
        HasCleanDisk (state S.Store desk.store) → desk.book.register ≡ R) }
    ensures reads { IfOk result (λ desk.
        ReadsAs S.Store connection desk.store desk.book.register) }
    ensures read { IfOk result (λ desk. IsOnlyRead S.Store connection desk.store) }
    ensures fault { (R : Register) → HasRegister S.Store R connection → IfErr result (λ back.
        HasCleanDisk (state S.Store back.1) → IsDatabaseFault back.0) }
    ensures told { IfErr result (λ back. IsRefused S.Store connection back.0 back.1) }
    ensures unread { IfErr result (λ back. Survives (state S.Store connection)
        (state S.Store back.1) (λ _. ⊥)) }
{
    settled(&connection);
    let store = match Store::open(connection) {
        Ok(store) => store,
        Err(Back { fault, connection }) => return Err((Fault::from(fault), connection)),
    };
    let desk = match Desk::open(store) {
        Ok(desk) => desk,
        Err((fault, store)) => return Err((Fault::from(fault), store.end())),
    };
    match expect_good(alloc, &desk) {
        Ok(()) => Ok(desk),
        Err(cause) => Err((Fault::from(cause), desk.end().end())),
    }
}

/// Refuses a register that is not good and staffed.
fn expect_good<S: Alter + Drop>(alloc: Global, desk: &Desk<Store<S>>) -> Result<(), StoreFault>
    ensures good { OnOk result (IsGood desk.now.book.register) }
    ensures staffed { OnOk result (IsStaffed desk.now.book.register) }
    ensures fault { IfErr result (λ cause. (cause ≡ StoreFault.NoMemory)
        ⊎ IsOfUnfit desk.now.book.register cause) }
{
    let found = table_in(alloc, desk.book())?;
    match found {
        Some(table) => Err(StoreFault::BadRow(table)),
        None => Ok(()),
    }
}
