//! A stop while commands are carried out.
use crate::stops::trial::{Stop, Trial, stops};
use clr_load::Rows;
use clr_rules::Reply;
use clr_worked::{
    FIRST_STEP, Held, Part, are_same, new_register, rows_over, run_over, some_commands,
};
use std::alloc::Global;
use std::process::Abort;
use std::test::Fail;

/// What commands come to where no call fails: the replies, and the tables then.
#[derive(Drop)]
struct Outcome {
    replies: Vec<Reply>,
    rows: Rows,
}

/// Carries out n of the commands, after the first few, over what files hold.
fn carried_out(alloc: Global, held: &Held, first: usize, count: usize) -> Result<Outcome, Fail> {
    let commands = some_commands(alloc, first, count)?;
    let (run, behind) = run_over(alloc, held, Part::Log, u64::MAX, commands)?;
    let run = run?;
    if let Some(fault) = run.fault {
        return Err(fault.into());
    }
    let rows = rows_over(alloc, &behind.seen())?.ok_or("tables")?;
    Ok(Outcome {
        replies: run.replies,
        rows,
    })
}

/// Commands are carried out over an opening register, each a step.
#[derive(Drop)]
struct Running {
    replies: Vec<Reply>,
    /// The tables before the first command and after each.
    tables: Vec<Rows>,
}

impl Running {
    /// The run without a stop.
    fn whole(alloc: Global, register: &Held) -> Result<Running, Fail> {
        let mut tables = Vec::new(alloc);
        let mut replies = Vec::new(alloc);
        for count in 0..=FIRST_STEP.len() {
            let outcome = carried_out(alloc, register, 0, count)?;
            tables.push(outcome.rows)?;
            replies = outcome.replies;
        }
        Ok(Running { replies, tables })
    }

    /// How many steps have led to these rows.
    fn steps_to(&self, rows: &Rows) -> Option<usize> {
        self.tables.iter().position(|tables| are_same(tables, rows))
    }

    /// Whether the run goes on after n steps as if nothing had stopped.
    fn goes_on(&self, alloc: Global, held: &Held, steps: usize) -> Result<bool, Fail> {
        let Outcome { replies, rows } = carried_out(alloc, held, steps, FIRST_STEP.len())?;
        let is_rest = replies.iter().eq(self.replies.iter().skip(steps));
        Ok(is_rest && self.steps_to(&rows) == Some(FIRST_STEP.len()))
    }
}

impl Trial for Running {
    fn steps(&self) -> usize {
        FIRST_STEP.len()
    }

    fn act(&self, alloc: Global, before: &Held, part: Part, calls: u64) -> Result<Stop, Fail> {
        let commands = some_commands(alloc, 0, FIRST_STEP.len())?;
        let (run, behind) = run_over(alloc, before, part, calls, commands)?;
        let answered = match run {
            Ok(run) => run.replies.len(),
            Err(_fault) => 0,
        };
        Ok(Stop { answered, behind })
    }

    fn is_sound(&self, alloc: Global, held: &Held, answered: usize) -> Result<bool, Fail> {
        let rows = rows_over(alloc, held)?.ok_or("tables")?;
        match self.steps_to(&rows) {
            Some(steps) if steps == answered || steps.checked_sub(1) == Some(answered) => {
                self.goes_on(alloc, held, steps)
            }
            _ => Ok(false),
        }
    }
}

/// Stops a file while the commands are carried out.
fn stops_of_running<R: Abort>(rt: &R, alloc: Global, part: Part) -> Result<u64, Fail> {
    let register = new_register(alloc)?;
    let running = Running::whole(alloc, &register)?;
    for reply in &running.replies {
        assert!(rt; matches!(reply, Reply::Accepted(_)));
    }
    stops(rt, alloc, &running, &register, part)
}

#[test]
fn log_stops_while_commands_run(rt: HostRuntime) -> Result<(), Fail> {
    assert_eq!(rt; stops_of_running(&rt, rt.alloc(), Part::Log)?, 72);
    Ok(())
}

#[test]
fn database_stops_while_commands_run(rt: HostRuntime) -> Result<(), Fail> {
    assert_eq!(rt; stops_of_running(&rt, rt.alloc(), Part::Db)?, 62);
    Ok(())
}
