//! Tables that a database has and that are not opened.
use crate::at_desk::{AtDesk, at_new_desk};
use clr_desk::{Desk, DeskFault};
use clr_load::{StoreFault, TableName};
use clr_store::Store;
use clr_worked::network;
use sqlite::{Alter, Connection};
use std::alloc::Global;
use std::process::Abort;
use std::test::Fail;

/// A statement that changes the tables of a desk, and why they are not opened then.
#[derive(Drop)]
struct Change<'a> {
    statement: &'a str,
    fault: StoreFault,
}

impl<'a> AtDesk for Change<'a> {
    fn go<R: Abort, S: Alter + Drop>(
        &self,
        rt: &R,
        _alloc: Global,
        desk: Desk<Store<S>>,
    ) -> Result<(), Fail> {
        let mut connection = desk.end().end();
        connection.execute(self.statement, &[])?;
        let (mut fault, connection) = not_opened(connection)?;
        if fault == DeskFault::NoMemory {
            fault = not_opened(connection)?.0;
        }
        assert_eq!(rt; fault, DeskFault::Store(self.fault), "{}", self.statement);
        Ok(())
    }
}

/// Why no desk is opened, and the connection that is handed back.
fn not_opened<S: Alter + Drop>(
    connection: Connection<S>,
) -> Result<(DeskFault, Connection<S>), Fail> {
    match Store::open(connection) {
        Ok(store) => match Desk::open(store) {
            Ok(_desk) => Err("no fault".into()),
            Err((fault, store)) => Ok((fault, store.end())),
        },
        Err(back) => Ok((DeskFault::from(back.fault), back.connection)),
    }
}

/// After each of these statements opening has this fault.
fn expect_faults<R: Abort>(
    rt: &R,
    alloc: Global,
    cases: &[(&str, StoreFault)],
) -> Result<(), Fail> {
    for (statement, fault) in cases {
        let change = Change {
            statement,
            fault: *fault,
        };
        at_new_desk(rt, alloc, network(alloc)?, &change)?;
    }
    Ok(())
}

#[test]
fn versions_that_are_not_opened(rt: HostRuntime) -> Result<(), Fail> {
    let cases = [
        ("UPDATE meta SET value = 9", StoreFault::WrongVersion(9)),
        ("DELETE FROM meta", StoreFault::BadRow(TableName::Meta)),
    ];
    expect_faults(&rt, rt.alloc(), &cases)
}

#[test]
fn tables_that_are_others(rt: HostRuntime) -> Result<(), Fail> {
    let cases = [
        (
            "CREATE TABLE more (name TEXT PRIMARY KEY) STRICT",
            StoreFault::OtherTables,
        ),
        ("CREATE INDEX held ON hold (place)", StoreFault::OtherTables),
        (
            "CREATE VIEW held AS SELECT place FROM hold",
            StoreFault::OtherTables,
        ),
        ("DROP TABLE hold", StoreFault::OtherTables),
        (
            "INSERT INTO meta VALUES ('mark', 1)",
            StoreFault::OtherTables,
        ),
        ("DROP TABLE meta", StoreFault::Sql),
    ];
    expect_faults(&rt, rt.alloc(), &cases)
}

#[test]
fn rows_that_do_not_read(rt: HostRuntime) -> Result<(), Fail> {
    let cases = [
        (
            "UPDATE network_point SET hand_requester = 'JONES' WHERE name = 'S3'",
            StoreFault::BadRow(TableName::NetworkPoint),
        ),
        (
            "UPDATE section SET source = 2 WHERE name = 'L2'",
            StoreFault::BadRow(TableName::Section),
        ),
        (
            "UPDATE staff SET role = 'chief' WHERE name = 'KIM'",
            StoreFault::BadRow(TableName::Staff),
        ),
        (
            "INSERT INTO clearance VALUES ('JONES', 1, 'JONES', 'L2', 'Open', 100)",
            StoreFault::BadRow(TableName::Clearance),
        ),
        (
            "INSERT INTO step VALUES ('JONES', 1, 256, 1, 'Open', 'S2', 'Waiting', NULL)",
            StoreFault::BadRow(TableName::Step),
        ),
        (
            "INSERT INTO hold VALUES ('Tag', 'S2', 'JONES', 0)",
            StoreFault::BadRow(TableName::Hold),
        ),
    ];
    expect_faults(&rt, rt.alloc(), &cases)
}
