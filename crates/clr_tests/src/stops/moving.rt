//! A stop while tables of version 1 are moved to version 2.
use crate::stops::trial::{Stop, Trial, stops};
use clr_load::{Rows, StoreFault};
use clr_worked::{Held, Part, are_same, move_over, old_register, read_over};
use std::alloc::Global;
use std::process::Abort;
use std::test::Fail;

/// What is there after files were moved, none of whose calls fails.
fn moved(alloc: Global, held: &Held) -> Result<Rows, Fail> {
    let (fault, behind) = move_over(alloc, held, Part::Log, u64::MAX)?;
    match fault {
        None => Ok(read_over(alloc, &behind.seen())??),
        Some(fault) => Err(fault.into()),
    }
}

/// The tables are moved: one step.
#[derive(Drop)]
struct Moving {
    rows: Rows,
}

impl Trial for Moving {
    fn steps(&self) -> usize {
        1
    }

    fn act(&self, alloc: Global, before: &Held, part: Part, calls: u64) -> Result<Stop, Fail> {
        let (fault, behind) = move_over(alloc, before, part, calls)?;
        let answered = usize::from(fault.is_none());
        Ok(Stop { answered, behind })
    }

    /// The tables are of version 2 with all rows, or of version 1, and are moved with all rows.
    fn is_sound(&self, alloc: Global, held: &Held, answered: usize) -> Result<bool, Fail> {
        match read_over(alloc, held)? {
            Ok(rows) => Ok(are_same(&rows, &self.rows)),
            Err(StoreFault::WrongVersion(1)) => {
                Ok(answered == 0 && are_same(&moved(alloc, held)?, &self.rows))
            }
            Err(fault) => Err(fault.into()),
        }
    }
}

/// Stops a file while the tables are moved.
fn stops_of_moving<R: Abort>(rt: &R, alloc: Global, part: Part) -> Result<u64, Fail> {
    let old = old_register(alloc)?;
    let moving = Moving {
        rows: moved(alloc, &old)?,
    };
    stops(rt, alloc, &moving, &old, part)
}

#[test]
fn log_stops_while_tables_are_moved(rt: HostRuntime) -> Result<(), Fail> {
    assert_eq!(rt; stops_of_moving(&rt, rt.alloc(), Part::Log)?, 48);
    Ok(())
}

#[test]
fn database_stops_while_tables_are_moved(rt: HostRuntime) -> Result<(), Fail> {
    assert_eq!(rt; stops_of_moving(&rt, rt.alloc(), Part::Db)?, 61);
    Ok(())
}
