//! The switching order and clearance register of a system operator: the program.
#![tactic(auto)]

ghost use Rattle.std.specs.Prelude.{◌≡◌, ◌≤◌, [], IfErr, IfOk, None, map, true};
ghost use Rattle.std.specs.IoError.{error_kind};
ghost use Rattle.std.specs.Process.{exit_status};
ghost use Rattle.clr_disk.specs.Place.{IsOther, IsOwn};
ghost use Rattle.clr_keeping.specs.TakenUp.{logs};
ghost use Rattle.clr_commands.specs.Connections.{seen};
ghost use Rattle.clr_edge.specs.Paths.{at_paths};
ghost use Rattle.clr_command_line.specs.Around.{around, steps};
ghost use Rattle.clr_command_line.specs.CommandLine.{AnswersNone, AnswersWords, moment};
ghost use Rattle.clr_command_line.specs.Report.{IsReported};

mod copies;
mod either;
mod input;
mod line;

use crate::copies::WithCopy;
use crate::input::StandardInput;
use crate::line::{Answers, CommandLine};
use clr_chain::Clock as JournalClock;
use clr_disk::{Behind, System, Timed, Watch, Watching};
use clr_edge::database::{Databases, Makes};
use clr_edge::journals::{Journals, Seconds};
use clr_edge::loopback::Loopback;
use clr_edge::machine::{DatabaseStart, JournalStart, Machine};
use clr_edge::paths::{AtPath, Paths};
use clr_journal::{Journal, OnDisk};
use clr_stream::{Counted, CountedFlush, CountedRead, CountedWrite};
use sqlite::FileStore;
use sqlite_disk::Start;
use sqlite_trees::store::Store;
use std::convert::AsStr;
use std::io::Read;
use std::net::TcpStream;
use std::os::fd::AsFd;
use std::process::ExitCode;
use std::{env, io};

/// One of the two handles of a connection.
type Handle<K> = Counted<Timed<TcpStream, K>>;

/// The files of a copy of the program's database, of which nothing is supposed together with the
/// database. A torn write leaves each of their bytes old or new, as there.
///
/// Its ghosts have to be some bytes, and are none. So a clause at this type speaks of files that
/// were empty alone: what holds of any is stated over any system.
#[derive(Drop)]
pub struct CopyStart;

impl Start for CopyStart {
    ghost log = { [] };

    ghost db = { [] };

    ghost is_mixing = { true };

    fn mixes() -> bool {
        true
    }
}

/// The same of the file of the next part of its journal, of which nothing is supposed together with
/// the part that ends.
#[derive(Drop)]
pub struct NextStart;

impl Start for NextStart {
    ghost log = { [] };

    ghost db = { [] };

    ghost is_mixing = { true };

    fn mixes() -> bool {
        true
    }
}

fn main(rt: HostRuntime) -> ExitCode {
    program(&rt)
}

/// Runs the program on the words of its process, and returns its status. Whether standard input is
/// open is seen before a file is opened, by a second descriptor of it.
fn program(rt: &HostRuntime) -> ExitCode
    ensures { exit_status result ≤ 2 }
{
    let stdin = rt.stdin();
    let second = stdin.as_fd().try_clone_to_owned();
    let stdin = StandardInput::new(stdin, &second);
    drop(second);
    let watch = Watch::new(*rt, rt.stderr());
    let words = match env::args(rt) {
        Ok(words) => words.collect(rt.alloc()).map_err(io::Error::from),
        Err(fault) => Err(fault),
    };
    let files: WithCopy<DatabaseStart, CopyStart, JournalStart, NextStart> = WithCopy::of_files(rt);
    let files = Watching::new(files, &watch);
    let mut line = CommandLine {
        words: &words,
        paths: Paths::new(&files),
        input: Behind::new(Counted::new(stdin), &watch),
        output: Behind::new(Counted::new(rt.stdout()), &watch),
        errors: Behind::new(Counted::new(rt.stderr()), &watch),
    };
    let system = WithCopy::new(rt, DatabaseStart, CopyStart, JournalStart, NextStart);
    let mut machine = Machine::new(rt.alloc(), Watching::new(system, &watch));
    let status = answer_line(&mut machine, &mut line);
    exit_code(status)
}

/// Answers the words of a process on a machine, whose system opens databases and listens, with the
/// files that another value of that system opens. What is asked of the streams is said here, and
/// what is asked of a machine in `answer`: at the host both together take too much memory.
fn answer_line<'a, Y, I, W, E>(
    machine: &mut Machine<Y>,
    line: &mut CommandLine<'a, Paths<'a, Y>, I, W, E>,
) -> u8
where
    Y: System,
    I: CountedRead + Drop,
    W: CountedFlush + Drop,
    E: CountedFlush + Drop,
    ensures status { result ≤ 2 }
    ensures answer { IfOk line.old.words.now (λ given. AnswersWords
        (steps (logs ⟦<Machine<Y> as Journals>⟧ ⟦<OnDisk<Y::JournalMedium> as Journal>⟧
        ⟦<Seconds<Y::Clock> as JournalClock>⟧.shows)
        ⟦<FileStore<Y::Medium> as Store>⟧ ⟦<Machine<Y> as Makes>⟧.makes
        ⟦<Machine<Y> as Databases>⟧.opens ⟦<Machine<Y> as Databases>⟧.shuts
        ⟦<Machine<Y> as Databases>⟧.ends ⟦<Machine<Y> as Loopback>⟧
        (seen ⟦<Handle<Y::Clock> as Read>⟧.remaining
        ⟦<Handle<Y::Clock> as CountedRead>⟧.failure_count
        ⟦<Handle<Y::Clock> as CountedWrite>⟧.stream))
        (around (at_paths ⟦<AtPath<'a, Y> as Read>⟧.remaining
        ⟦<AtPath<'a, Y> as CountedRead>⟧.failure_count (λ _. None))
        (IsOwn Y.is_place) (IsOther Y.is_place Y.lacks_place) I.remaining I.failure_count)
        (map ⟦<String as AsStr>⟧.text given.items) result
        (moment machine.old line.old.input (W.stream line.old.output) (E.stream line.old.errors))
        (moment machine.new line.new.input (W.stream line.new.output)
        (E.stream line.new.errors))) }
    ensures no_words { IfErr line.old.words.now (λ cause. AnswersNone (error_kind cause) result
        (moment machine.old line.old.input (W.stream line.old.output) (E.stream line.old.errors))
        (moment machine.new line.new.input (W.stream line.new.output)
        (E.stream line.new.errors))) }
    ensures reported { IsReported result (W.stream line.old.output) (W.stream line.new.output)
        (E.stream line.old.errors) (E.stream line.new.errors) }
{
    answer(machine, line)
}

/// Answers words on such a machine.
fn answer<Y: System, L: Answers>(machine: &mut Machine<Y>, line: &mut L) -> u8
    ensures status { result ≤ 2 }
    ensures answer { IfOk (L.words line.old) (λ given. AnswersWords
        (steps (logs ⟦<Machine<Y> as Journals>⟧ ⟦<OnDisk<Y::JournalMedium> as Journal>⟧
        ⟦<Seconds<Y::Clock> as JournalClock>⟧.shows)
        ⟦<FileStore<Y::Medium> as Store>⟧ ⟦<Machine<Y> as Makes>⟧.makes
        ⟦<Machine<Y> as Databases>⟧.opens ⟦<Machine<Y> as Databases>⟧.shuts
        ⟦<Machine<Y> as Databases>⟧.ends ⟦<Machine<Y> as Loopback>⟧
        (seen ⟦<Handle<Y::Clock> as Read>⟧.remaining
        ⟦<Handle<Y::Clock> as CountedRead>⟧.failure_count
        ⟦<Handle<Y::Clock> as CountedWrite>⟧.stream))
        (L.shows line.old) (map ⟦<String as AsStr>⟧.text given.items) result
        (moment machine.old (L.input line.old) (L.output line.old) (L.errors line.old))
        (moment machine.new (L.input line.new) (L.output line.new) (L.errors line.new))) }
    ensures no_words { IfErr (L.words line.old) (λ cause. AnswersNone (error_kind cause) result
        (moment machine.old (L.input line.old) (L.output line.old) (L.errors line.old))
        (moment machine.new (L.input line.new) (L.output line.new) (L.errors line.new))) }
    ensures reported { IsReported result (L.output line.old) (L.output line.new)
        (L.errors line.old) (L.errors line.new) }
{
    line.answer_on(machine)
}

/// The status as the system has it.
fn exit_code(status: u8) -> ExitCode
    ensures { exit_status result ≡ status }
{
    ExitCode::from(status)
}
