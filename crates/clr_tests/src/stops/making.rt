//! A stop while the tables of a register are made.
use crate::stops::trial::{Stop, Trial, stops};
use clr_load::Rows;
use clr_worked::{Held, Part, are_same, make_over, new_register, rows_over};
use std::alloc::Global;
use std::process::Abort;
use std::test::Fail;

/// The tables are made in a database that has none: one step.
#[derive(Drop)]
struct Making {
    opening: Rows,
}

impl Making {
    /// Whether files hold the opening register.
    fn is_in(&self, alloc: Global, held: &Held) -> Result<bool, Fail> {
        match rows_over(alloc, held)? {
            Some(rows) => Ok(are_same(&rows, &self.opening)),
            None => Ok(false),
        }
    }

    /// Whether no table is there: only then can the tables be made.
    fn is_to_come(&self, alloc: Global, held: &Held) -> Result<bool, Fail> {
        if rows_over(alloc, held)?.is_some() {
            return Ok(false);
        }
        let (fault, behind) = make_over(alloc, held, Part::Log, u64::MAX)?;
        match fault {
            None => self.is_in(alloc, &behind.seen()),
            Some(fault) => Err(fault.into()),
        }
    }
}

impl Trial for Making {
    fn steps(&self) -> usize {
        1
    }

    fn act(&self, alloc: Global, before: &Held, part: Part, calls: u64) -> Result<Stop, Fail> {
        let (fault, behind) = make_over(alloc, before, part, calls)?;
        let answered = usize::from(fault.is_none());
        Ok(Stop { answered, behind })
    }

    fn is_sound(&self, alloc: Global, held: &Held, answered: usize) -> Result<bool, Fail> {
        if self.is_in(alloc, held)? {
            return Ok(true);
        }
        Ok(answered == 0 && self.is_to_come(alloc, held)?)
    }
}

/// Stops a file while the tables are made.
fn stops_of_making<R: Abort>(rt: &R, alloc: Global, part: Part) -> Result<u64, Fail> {
    let opening = rows_over(alloc, &new_register(alloc)?)?.ok_or("tables")?;
    stops(rt, alloc, &Making { opening }, &Held::nothing(alloc), part)
}

#[test]
fn log_stops_while_tables_are_made(rt: HostRuntime) -> Result<(), Fail> {
    assert_eq!(rt; stops_of_making(&rt, rt.alloc(), Part::Log)?, 61);
    Ok(())
}

#[test]
fn database_stops_while_tables_are_made(rt: HostRuntime) -> Result<(), Fail> {
    assert_eq!(rt; stops_of_making(&rt, rt.alloc(), Part::Db)?, 31);
    Ok(())
}
