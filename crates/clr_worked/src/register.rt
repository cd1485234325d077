//! The worked register: its tables made in memory or in two files, and a desk over them.
use crate::files::{network, staff};
use crate::stopping::{Behind, Held, Part, Work, over_files};
use clr_desk::{Desk, DeskFault, Run};
use clr_load::{Rows, StoreFault};
use clr_net::Network;
use clr_rules::Command;
use clr_staff::Staff;
use clr_store::Store;
use sqlite::{Alter, Connection, MemStore};
use std::alloc::{AllocError, Global};
use std::test::Fail;

/// A desk over new tables of a network and the worked staff.
pub fn new_desk(alloc: Global, network: Network) -> Result<Desk<Store<MemStore>>, Fail> {
    let staff = staff(alloc)?;
    let connection = Connection::open_in_memory(alloc)?;
    match Desk::create(alloc, connection, network, staff) {
        Ok(desk) => Ok(desk),
        Err((fault, _connection)) => Err(fault.into()),
    }
}

/// The desk over a database, or the connection and why there is none.
pub fn opened<S: Alter + Drop>(
    connection: Connection<S>,
) -> Result<Desk<Store<S>>, (DeskFault, Connection<S>)> {
    match Store::open(connection) {
        Ok(store) => match Desk::open(store) {
            Ok(desk) => Ok(desk),
            Err((fault, store)) => Err((fault, store.end())),
        },
        Err(back) => Err((back.fault.into(), back.connection)),
    }
}

/// The tables of a network and its staff are made.
#[derive(Drop)]
struct Making {
    network: Network,
    staff: Staff,
}

impl Work for Making {
    type Outcome = Option<StoreFault>;

    fn go<S: Alter + Drop>(self, connection: Connection<S>) -> (Option<StoreFault>, Connection<S>) {
        match Store::create(connection, &self.network, &self.staff) {
            Ok(store) => (None, store.end()),
            Err(back) => (Some(back.fault), back.connection),
        }
    }
}

/// Commands are carried out.
#[derive(Drop)]
struct Running {
    commands: Vec<Command>,
}

impl Work for Running {
    type Outcome = Result<Run, DeskFault>;

    fn go<S: Alter + Drop>(
        self,
        connection: Connection<S>,
    ) -> (Result<Run, DeskFault>, Connection<S>) {
        match opened(connection) {
            Ok(mut desk) => {
                let run = desk.run(self.commands);
                (Ok(run), desk.end().end())
            }
            Err((fault, connection)) => (Err(fault), connection),
        }
    }
}

/// The rows of the tables are read.
#[derive(Drop)]
struct Reading;

impl Work for Reading {
    type Outcome = Result<Rows, StoreFault>;

    fn go<S: Alter + Drop>(
        self,
        connection: Connection<S>,
    ) -> (Result<Rows, StoreFault>, Connection<S>) {
        match Store::open(connection) {
            Ok(mut store) => {
                let rows = store.load();
                (rows, store.end())
            }
            Err(back) => (Err(back.fault), back.connection),
        }
    }
}

/// Makes the tables of the worked register in two files, of which one stops after n calls,
/// or says why they were not made.
pub fn make_over(
    alloc: Global,
    held: &Held,
    part: Part,
    calls: u64,
) -> Result<(Option<StoreFault>, Behind), Fail> {
    let network = network(alloc)?;
    let making = Making {
        network,
        staff: staff(alloc)?,
    };
    let (outcome, behind) = over_files(alloc, held, part, calls, making)?;
    match outcome {
        Ok(fault) => Ok((fault, behind)),
        Err(fault) => Ok((Some(fault), behind)),
    }
}

/// Carries out commands over two files, of which one stops after n calls, where a desk can be
/// opened.
pub fn run_over(
    alloc: Global,
    held: &Held,
    part: Part,
    calls: u64,
    commands: Vec<Command>,
) -> Result<(Result<Run, DeskFault>, Behind), Fail> {
    let (outcome, behind) = over_files(alloc, held, part, calls, Running { commands })?;
    match outcome {
        Ok(run) => Ok((run, behind)),
        Err(fault) => Ok((Err(fault.into()), behind)),
    }
}

/// The rows of the database that two files hold, or why they are not read.
pub fn read_over(alloc: Global, held: &Held) -> Result<Result<Rows, StoreFault>, Fail> {
    let (outcome, _behind) = over_files(alloc, held, Part::Log, u64::MAX, Reading)?;
    Ok(outcome?)
}

/// The rows of the database that two files hold, or none where it is refused as `Sql`, as one
/// without tables is.
pub fn rows_over(alloc: Global, held: &Held) -> Result<Option<Rows>, Fail> {
    match read_over(alloc, held)? {
        Ok(rows) => Ok(Some(rows)),
        Err(StoreFault::Sql) => Ok(None),
        Err(fault) => Err(fault.into()),
    }
}

/// The two files of the worked register before its first command. It can be made, so that any fault
/// comes of refused memory.
pub fn new_register(alloc: Global) -> Result<Held, Fail> {
    let nothing = Held::nothing(alloc);
    let (fault, behind) = make_over(alloc, &nothing, Part::Log, u64::MAX)?;
    match fault {
        None => Ok(behind.synced()),
        Some(_fault) => Err(AllocError.into()),
    }
}
