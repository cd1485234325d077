//! The subcommand `run`: the commands of standard input, run as one list over a register in memory
//! or over a stored one.
ghost use Rattle.std.specs.Prelude.{◌≡◌, ◌≢◌, Err, IfErr, IfOk, IsErrOf, Ok, OnErr, OnOk};
ghost use Rattle.clr_stream.specs.Failures.{Rose};
ghost use Rattle.clr_rules.specs.Run.{IsReached};
ghost use Rattle.clr_desk.specs.Given.{LeadsTo};
ghost use Rattle.clr_commands.specs.Faults.{FailsAsSubcommand, IsOfSubcommand};
ghost use Rattle.clr_commands.specs.Import.{lists_of};
ghost use Rattle.clr_edge.specs.Paths.{at_paths};
ghost use Rattle.clr_commands.specs.Run.{IsInput, IsOfInput, IsOpeningOf, ReadsInput, RunsAsked};
ghost use Rattle.clr_commands.specs.Run.{RunsAt, RunsDesk, RunsKept, RunsOnDesk};
ghost use Rattle.clr_commands.specs.Run.{ended_by, printed_after, rows_fault};
ghost use Rattle.clr_keeping.specs.Keeping.{IsDoneOver, StaysLevelOver};
ghost use Rattle.clr_keeping.specs.TakenUp.{logs};

use crate::import::{Rows, rows_at};
use crate::replies::{Printed, print, read_lines};
use clr_args::asked::{Files, RunArgs, StoredArgs};
use clr_chain::Clock;
use clr_desk::{Commit, CommitAt, Desk, Unkept};
use clr_edge::database::Databases;
use clr_edge::fault::{DatabaseFault, Fault, InputFault};
use clr_edge::journals::Journals;
use clr_edge::paths::Opens;
use clr_journal::Journal;
use clr_keeping::taking_up::{Opened, let_go, take_up};
use clr_level::Keeper;
use clr_level::laws::{level_is_kept, restarts_keep_level};
use clr_net::Network;
use clr_staff::Staff;
use clr_stream::{CountedRead, read_whole};
use std::alloc::Global;

/// The most bytes of standard input.
pub const MAX_INPUT_BYTES: usize = 16_777_216;

/// What `run [--db FILE [--journal FILE]] [FILES]...` prints. The input is read last.
pub fn run<'a, R: Databases + Journals, O: Opens<'a>, I: CountedRead>(
    alloc: Global,
    rt: &mut R,
    paths: &O,
    args: &RunArgs<'a>,
    input: &mut I,
) -> Result<Printed, Fault>
    ensures visit { RunsAsked
        (at_paths O.File.remaining O.File.failure_count (O.bytes_at paths.now))
        (RunsKept (logs R.Journals R.Log.Journal R.Time.shows) R.Tables.Store R.opens R.shuts R.ends
        (I.remaining input.old)) args.now (I.remaining input.old) result rt.old rt.new }
    ensures input { ReadsInput (I.remaining input.old) (I.failure_count input.old)
        (I.failure_count input.new) input.old input.new result }
    ensures faults { FailsAsSubcommand result }
{
    match args {
        RunArgs::Files(files) => run_of_files(alloc, paths, files, input),
        RunArgs::Stored(args) => run_stored(alloc, rt, args, input),
    }
}

/// The replies to the commands of the input, over the register that a database has. With a journal
/// each command has its line there before it is carried out, and register and journal stay level.
/// Both are opened before the input is read.
pub fn run_stored<R: Databases + Journals, I: CountedRead>(
    alloc: Global,
    rt: &mut R,
    args: &StoredArgs<'_>,
    input: &mut I,
) -> Result<Printed, Fault>
    ensures visit { RunsKept (logs R.Journals R.Log.Journal R.Time.shows)
        R.Tables.Store R.opens R.shuts R.ends
        (I.remaining input.old) args.now result rt.old rt.new }
    ensures input { ReadsInput (I.remaining input.old) (I.failure_count input.old)
        (I.failure_count input.new) input.old input.new result }
    ensures faults { FailsAsSubcommand result }
{
    let mut opened = take_up(alloc, rt, args.database, args.journal)?;
    let printed = run_opened(alloc, &mut opened, input);
    let closed = let_go(rt, opened);
    printed_after(printed, closed)
}

/// The replies to the commands of the input, over a register that was taken up.
fn run_opened<K: CommitAt, J: Journal + Drop, C: Clock, I: CountedRead>(
    alloc: Global,
    opened: &mut Opened<K, J, C>,
    input: &mut I,
) -> Result<Printed, Fault>
    ensures ran { IsDoneOver (RunsDesk K.Commit (I.remaining input.old) result)
        (RunsDesk ⟦<Keeper<K, J, C> as Commit>⟧ (I.remaining input.old) result)
        opened.old opened.new }
    ensures level { StaysLevelOver K.kept K.has_place J.Journal opened.old opened.new }
    ensures input { ReadsInput (I.remaining input.old) (I.failure_count input.old)
        (I.failure_count input.new) input.old input.new result }
    ensures faults { FailsAsSubcommand result }
{
    level_is_kept::<K, J, C>();
    restarts_keep_level::<K, J, C>();
    match opened {
        Opened::Plain(desk) => run_taken_up(alloc, desk, input),
        Opened::Logged(desk) => run_taken_up(alloc, desk, input),
    }
}

/// The same over a desk.
fn run_taken_up<K: Commit, I: CountedRead>(
    alloc: Global,
    desk: &mut Desk<K>,
    input: &mut I,
) -> Result<Printed, Fault>
    ensures ran { RunsDesk K.Commit (I.remaining input.old) result desk.old desk.new }
    ensures input { ReadsInput (I.remaining input.old) (I.failure_count input.old)
        (I.failure_count input.new) input.old input.new result }
    ensures faults { FailsAsSubcommand result }
{
    run_over(alloc, desk, input)
}

/// What was printed, with the fault of closing its database, if there was no other.
fn printed_after(
    printed: Result<Printed, Fault>,
    closed: Result<(), DatabaseFault>,
) -> Result<Printed, Fault>
    ensures { result ≡ printed_after printed closed }
{
    match printed {
        Ok(Printed { text, fault }) => Ok(Printed {
            text,
            fault: ended_by(fault, closed),
        }),
        Err(fault) => Err(fault),
    }
}

/// The fault that ended a run, or that of closing its database.
fn ended_by(fault: Option<Fault>, closed: Result<(), DatabaseFault>) -> Option<Fault>
    ensures { result ≡ ended_by fault closed }
{
    match (fault, closed) {
        (Some(fault), _) => Some(fault),
        (None, Err(cause)) => Some(Fault::from(cause)),
        (None, Ok(())) => None,
    }
}

/// The replies to the commands of the input, over the register of a desk. They are run as one list,
/// and a line is printed for each line of the input that is not empty: the reply to its command, or
/// why it is no command. The printing ends before the first command that has no reply, with the
/// fault of the desk, or where memory runs out.
///
/// A fault is of the input, or memory ran out before the first command. Then the desk is as before.
pub fn run_over<K: Commit, I: CountedRead>(
    alloc: Global,
    desk: &mut Desk<K>,
    input: &mut I,
) -> Result<Printed, Fault>
    ensures answer { RunsOnDesk K.fails K.kept K.takes desk.old desk.new (I.remaining input.old)
        result }
    ensures none { OnErr result (desk.new ≡ desk.old) }
    ensures led { LeadsTo K.kept K.takes desk.old desk.new }
    ensures cause { IsErrOf result (Fault.Input InputFault.ReadFailed)
        → Rose (I.failure_count input.old) (I.failure_count input.new) }
{
    let bytes = input_bytes(alloc, input)?;
    let asked = read_lines(alloc, bytes.as_slice())?;
    let run = desk.run(asked.commands);
    Ok(print(alloc, asked.readings.as_slice(), run))
}

/// The replies to the commands of the input, over the register that the files at three paths begin,
/// whose changes are kept nowhere. The input is read after the files.
fn run_of_files<'a, O: Opens<'a>, I: CountedRead>(
    alloc: Global,
    paths: &O,
    files: &Files<'a>,
    input: &mut I,
) -> Result<Printed, Fault>
    ensures answer { RunsAt
        (at_paths O.File.remaining O.File.failure_count (O.bytes_at paths.now))
        files.now (I.remaining input.old) result }
    ensures input { ReadsInput (I.remaining input.old) (I.failure_count input.old)
        (I.failure_count input.new) input.old input.new result }
    ensures faults { FailsAsSubcommand result }
{
    let rows = rows_at(alloc, paths, files)?;
    let mut desk = desk_of_rows(alloc, rows)?;
    run_over(alloc, &mut desk, input)
}

/// A desk that keeps its changes nowhere, with the register of these rows before the first command,
/// if they are a network and a staff.
pub fn desk_of_rows(alloc: Global, rows: Rows) -> Result<Desk<Unkept>, Fault>
    ensures opens { IfOk result (λ desk. IsOpeningOf (lists_of rows) desk.book.register) }
    ensures reached { IfOk result (λ desk. IsReached desk.book.register) }
    ensures faultless { OnOk result (rows_fault (lists_of rows) ≡ Ok tt) }
    ensures fault { IfErr result (λ fault. fault ≢ Fault.Memory
        → rows_fault (lists_of rows) ≡ Err fault) }
    ensures faults { IfErr result IsOfSubcommand }
{
    let network = Network::build(alloc, rows.sections, rows.points)?;
    let staff = Staff::build(alloc, rows.staff)?;
    let desk = Desk::unkept(alloc, network, staff)?;
    Ok(desk)
}

/// The bytes of the input.
fn input_bytes<I: CountedRead>(alloc: Global, input: &mut I) -> Result<Vec<u8>, Fault>
    ensures bytes { IfOk result (λ read. IsInput (I.remaining input.old) read.items) }
    ensures cause { IsErrOf result (Fault.Input InputFault.ReadFailed)
        → Rose (I.failure_count input.old) (I.failure_count input.new) }
    ensures fault { IfErr result (IsOfInput (I.remaining input.old)) }
{
    match read_whole(alloc, input, MAX_INPUT_BYTES) {
        Ok(bytes) => Ok(bytes),
        Err(cause) => Err(Fault::of_input(cause)),
    }
}
