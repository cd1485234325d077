//! The worked register in tables of version 1, made by their statements, and its move to version 2.
use crate::stopping::{Behind, Held, Part, Work, over_files};
use clr_load::StoreFault;
use clr_store::Store;
use sqlite::{Alter, Connection};
use std::alloc::{AllocError, Global};
use std::test::Fail;

/// The tables of version 1, without a row.
const TABLES: &str = "
CREATE TABLE meta (name TEXT NOT NULL, value INTEGER NOT NULL, PRIMARY KEY (name)) STRICT;
CREATE TABLE section (name TEXT NOT NULL, source INTEGER NOT NULL, PRIMARY KEY (name)) STRICT;
CREATE TABLE point (name TEXT NOT NULL, from_end TEXT NOT NULL, to_end TEXT NOT NULL,
    lockable INTEGER NOT NULL, remote INTEGER NOT NULL, position INTEGER NOT NULL,
    hand_requester TEXT, hand_number INTEGER, PRIMARY KEY (name)) STRICT;
CREATE TABLE staff (name TEXT NOT NULL, role TEXT NOT NULL, supervisor TEXT,
    PRIMARY KEY (name)) STRICT;
CREATE TABLE clearance (requester TEXT NOT NULL, number INTEGER NOT NULL, holder TEXT NOT NULL,
    work TEXT, phase TEXT NOT NULL, last_at INTEGER NOT NULL,
    PRIMARY KEY (requester, number)) STRICT;
CREATE TABLE step (requester TEXT NOT NULL, number INTEGER NOT NULL, round INTEGER NOT NULL,
    ordinal INTEGER NOT NULL, action TEXT NOT NULL, point TEXT NOT NULL, state TEXT NOT NULL,
    reader TEXT, PRIMARY KEY (requester, number, round, ordinal)) STRICT;
CREATE TABLE hold (kind TEXT NOT NULL, place TEXT NOT NULL, requester TEXT NOT NULL,
    number INTEGER NOT NULL, PRIMARY KEY (kind, place, requester, number)) STRICT";

/// The rows of the worked register after the first step of JONES/1.
const ROWS: &str = "
INSERT INTO meta VALUES ('version', 1);
INSERT INTO section VALUES ('G', 1), ('H', 1), ('L1', 0), ('L2', 0), ('L3', 0);
INSERT INTO point VALUES
    ('S1', 'G', 'L1', 1, 0, 1, NULL, NULL), ('S2', 'L1', 'L2', 1, 0, 0, NULL, NULL),
    ('S3', 'L2', 'L3', 1, 0, 1, NULL, NULL), ('S4', 'L3', 'H', 1, 1, 1, NULL, NULL),
    ('T1', 'L1', 'L3', 0, 0, 0, NULL, NULL);
INSERT INTO staff VALUES
    ('BOSS', 'charge', NULL), ('DALE', 'field', NULL), ('JONES', 'charge', 'BOSS'),
    ('KIM', 'charge', NULL), ('OPS', 'operator', NULL), ('REED', 'field', NULL);
INSERT INTO clearance VALUES ('JONES', 1, 'JONES', 'L2', 'Ordered', 104);
INSERT INTO step VALUES
    ('JONES', 1, 1, 1, 'Open', 'S2', 'Done', 'REED'),
    ('JONES', 1, 1, 2, 'Open', 'S3', 'Waiting', NULL),
    ('JONES', 1, 1, 3, 'Block', 'S2', 'Waiting', NULL),
    ('JONES', 1, 1, 4, 'Block', 'S3', 'Waiting', NULL),
    ('JONES', 1, 1, 5, 'Tag', 'S2', 'Waiting', NULL),
    ('JONES', 1, 1, 6, 'Tag', 'S3', 'Waiting', NULL);
INSERT INTO hold VALUES ('HeldOpen', 'S2', 'JONES', 1)";

/// Statements are carried out.
#[derive(Drop)]
struct Writing<'a> {
    statements: &'a str,
}

impl<'a> Work for Writing<'a> {
    type Outcome = Option<StoreFault>;

    fn go<S: Alter + Drop>(
        self,
        mut connection: Connection<S>,
    ) -> (Option<StoreFault>, Connection<S>) {
        match connection.execute_batch(self.statements) {
            Ok(()) => (None, connection),
            Err(error) => (Some(error.into()), connection),
        }
    }
}

/// The tables are moved to version 2.
#[derive(Drop)]
struct Moving;

impl Work for Moving {
    type Outcome = Option<StoreFault>;

    fn go<S: Alter + Drop>(self, connection: Connection<S>) -> (Option<StoreFault>, Connection<S>) {
        match Store::migrate(connection) {
            Ok(store) => (None, store.end()),
            Err(back) => (Some(back.fault), back.connection),
        }
    }
}

/// What two files hold once somebody else has carried out these statements over them. The
/// statements are right, so that any fault comes of refused memory.
fn written(alloc: Global, held: &Held, statements: &str) -> Result<Held, Fail> {
    let writing = Writing { statements };
    let (outcome, behind) = over_files(alloc, held, Part::Log, u64::MAX, writing)?;
    match outcome {
        Ok(None) => Ok(behind.synced()),
        _ => Err(AllocError.into()),
    }
}

/// The two files of the worked register in tables of version 1, after the first step of JONES/1.
pub fn old_register(alloc: Global) -> Result<Held, Fail> {
    let tables = written(alloc, &Held::nothing(alloc), TABLES)?;
    written(alloc, &tables, ROWS)
}

/// Moves the tables in two files to version 2, of which one stops after n calls, or says why
/// they were not moved.
pub fn move_over(
    alloc: Global,
    held: &Held,
    part: Part,
    calls: u64,
) -> Result<(Option<StoreFault>, Behind), Fail> {
    let (outcome, behind) = over_files(alloc, held, part, calls, Moving)?;
    match outcome {
        Ok(fault) => Ok((fault, behind)),
        Err(fault) => Ok((Some(fault), behind)),
    }
}
