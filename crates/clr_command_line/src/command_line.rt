//! Whole command lines: from the words to the exit status.
ghost use Rattle.std.specs.Prelude.{◌≡◌, IfErr, IfOk, map};
ghost use Rattle.std.specs.IoError.{error_kind};
ghost use Rattle.clr_args.specs.Parsed.{MayAnswer};
ghost use Rattle.clr_keeping.specs.TakenUp.{logs};
ghost use Rattle.clr_commands.specs.Connections.{seen};
ghost use Rattle.clr_edge.specs.Paths.{at_paths};
ghost use Rattle.clr_command_line.specs.Around.{around, steps};
ghost use Rattle.clr_command_line.specs.CommandLine.{AnswersNone, AnswersWords, CarriesOut};
ghost use Rattle.clr_command_line.specs.CommandLine.{DoesParsed, ReportsNoWords, moment};
ghost use Rattle.clr_command_line.specs.Report.{IsReported};

use crate::own_files::expect_others;
use crate::report::{report, report_fault, report_run, report_served, report_text};
use clr_args::asked::Asked;
use clr_args::parsing::{Parsed, parse};
use clr_commands::archive::archive;
use clr_commands::board::board;
use clr_commands::check::check;
use clr_commands::fence::fence;
use clr_commands::init::init;
use clr_commands::migrate::migrate;
use clr_commands::next_part::next_part;
use clr_commands::order::order;
use clr_commands::run::run;
use clr_commands::serve::serve;
use clr_commands::update::update;
use clr_commands::verify::{verify, verify_from};
use clr_commands::wayback::wayback;
use clr_edge::database::Makes;
use clr_edge::fault::Fault;
use clr_edge::journals::Journals;
use clr_edge::loopback::Loopback;
use clr_edge::output::write_out;
use clr_edge::paths::Opens;
use clr_keeping::journal::journal;
use clr_stream::{CountedFlush, CountedRead};
use std::alloc::AllocError;
use std::convert::AsStr;
use std::io;

/// Does what the words ask, of which the first is the program's name, on a machine and the files at
/// paths. The answer, and help that is asked for, go to `output`; a fault, why words do not parse,
/// and why there are none, to `errors`. Returns the exit status: 0; 1 after a fault; 2 for words
/// that do not parse.
pub fn command_line<'a, R, O, S, I, W, E>(
    rt: &mut R,
    paths: &O,
    words: &'a io::Result<Vec<S>>,
    input: &mut I,
    output: &mut W,
    errors: &mut E,
) -> u8
where
    R: Makes + Journals + Loopback + AllocGlobal,
    O: Opens<'a>,
    S: AsStr,
    I: CountedRead,
    W: CountedFlush,
    E: CountedFlush,
    ensures answer { IfOk words.now (λ given. AnswersWords
        (steps (logs R.Journals R.Log.Journal R.Time.shows)
        R.Tables.Store R.makes R.opens R.shuts R.ends R.Loopback
        (seen R.Reader.remaining R.Reader.failure_count R.Writer.stream))
        (around (at_paths O.File.remaining O.File.failure_count (O.bytes_at paths.now))
        (O.owns paths.now) (O.spares paths.now) I.remaining I.failure_count)
        (map S.text given.items) result
        (moment rt.old input.old (W.stream output.old) (E.stream errors.old))
        (moment rt.new input.new (W.stream output.new) (E.stream errors.new))) }
    ensures no_words { IfErr words.now (λ cause. AnswersNone (error_kind cause) result
        (moment rt.old input.old (W.stream output.old) (E.stream errors.old))
        (moment rt.new input.new (W.stream output.new) (E.stream errors.new))) }
    ensures reported { IsReported result
        (W.stream output.old) (W.stream output.new) (E.stream errors.old) (E.stream errors.new) }
    ensures words { IfOk words.now (λ given.
        result ≡ 0 → MayAnswer (map S.text given.items)) }
{
    match words {
        Ok(words) => command_line_over(rt, paths, words.as_slice(), input, output, errors),
        Err(cause) => no_words(cause, errors),
    }
}

/// The same of words that there are.
fn command_line_over<'a, R, O, S, I, W, E>(
    rt: &mut R,
    paths: &O,
    words: &'a [S],
    input: &mut I,
    output: &mut W,
    errors: &mut E,
) -> u8
where
    R: Makes + Journals + Loopback + AllocGlobal,
    O: Opens<'a>,
    S: AsStr,
    I: CountedRead,
    W: CountedFlush,
    E: CountedFlush,
    ensures answer { AnswersWords
        (steps (logs R.Journals R.Log.Journal R.Time.shows)
        R.Tables.Store R.makes R.opens R.shuts R.ends R.Loopback
        (seen R.Reader.remaining R.Reader.failure_count R.Writer.stream))
        (around (at_paths O.File.remaining O.File.failure_count (O.bytes_at paths.now))
        (O.owns paths.now) (O.spares paths.now) I.remaining I.failure_count)
        (map S.text words.now) result
        (moment rt.old input.old (W.stream output.old) (E.stream errors.old))
        (moment rt.new input.new (W.stream output.new) (E.stream errors.new)) }
    ensures reported { IsReported result
        (W.stream output.old) (W.stream output.new) (E.stream errors.old) (E.stream errors.new) }
    ensures words { result ≡ 0 → MayAnswer (map S.text words.now) }
{
    match parse(rt.alloc(), words) {
        Ok(parsed) => answer(rt, paths, &parsed, input, output, errors),
        Err(AllocError) => report_fault(Fault::Memory, errors),
    }
}

/// Does what words come to: help goes to the output, and why they do not parse to the errors.
fn answer<'a, R, O, I, W, E>(
    rt: &mut R,
    paths: &O,
    parsed: &Parsed<'a>,
    input: &mut I,
    output: &mut W,
    errors: &mut E,
) -> u8
where
    R: Makes + Journals + Loopback + AllocGlobal,
    O: Opens<'a>,
    I: CountedRead,
    W: CountedFlush,
    E: CountedFlush,
    ensures { DoesParsed
        (steps (logs R.Journals R.Log.Journal R.Time.shows)
        R.Tables.Store R.makes R.opens R.shuts R.ends R.Loopback
        (seen R.Reader.remaining R.Reader.failure_count R.Writer.stream))
        (around (at_paths O.File.remaining O.File.failure_count (O.bytes_at paths.now))
        (O.owns paths.now) (O.spares paths.now) I.remaining I.failure_count) parsed.now result
        (moment rt.old input.old (W.stream output.old) (E.stream errors.old))
        (moment rt.new input.new (W.stream output.new) (E.stream errors.new)) }
{
    match parsed {
        Parsed::Asked(asked) => match expect_others(rt.alloc(), paths, asked) {
            Ok(()) => carry_out(rt, paths, asked, input, output, errors),
            Err(fault) => report_fault(fault, errors),
        },
        Parsed::Help(text) => report_text(text.as_str(), None, output, errors),
        Parsed::Unread(text) => {
            let _ = write_out(text.as_str(), errors);
            2
        }
    }
}

/// Carries out what is asked, and reports what came of it.
fn carry_out<'a, R, O, I, W, E>(
    rt: &mut R,
    paths: &O,
    asked: &Asked<'a>,
    input: &mut I,
    output: &mut W,
    errors: &mut E,
) -> u8
where
    R: Makes + Journals + Loopback + AllocGlobal,
    O: Opens<'a>,
    I: CountedRead,
    W: CountedFlush,
    E: CountedFlush,
    ensures { CarriesOut
        (steps (logs R.Journals R.Log.Journal R.Time.shows)
        R.Tables.Store R.makes R.opens R.shuts R.ends R.Loopback
        (seen R.Reader.remaining R.Reader.failure_count R.Writer.stream))
        (around (at_paths O.File.remaining O.File.failure_count (O.bytes_at paths.now))
        (O.owns paths.now) (O.spares paths.now) I.remaining I.failure_count) asked.now result
        (moment rt.old input.old (W.stream output.old) (E.stream errors.old))
        (moment rt.new input.new (W.stream output.new) (E.stream errors.new)) }
{
    let alloc = rt.alloc();
    match asked {
        Asked::Fence(args) => report(fence(alloc, paths, args), output, errors),
        Asked::Check(files) => report(check(alloc, paths, files), output, errors),
        Asked::Init(args) => report(init(alloc, rt, paths, args), output, errors),
        Asked::Run(args) => report_run(run(alloc, rt, paths, args, input), output, errors),
        Asked::Order(args) => report(order(alloc, rt, args), output, errors),
        Asked::Board(args) => report(board(alloc, rt, args), output, errors),
        Asked::WayBack(args) => report(wayback(alloc, rt, args), output, errors),
        Asked::Serve(args) => {
            let served = serve(alloc, rt, paths, args, output, errors);
            report_served(served, errors)
        }
        Asked::Journal(args) => report_served(journal(alloc, paths, args, output), errors),
        Asked::NextPart(args) => report(next_part(alloc, rt, args), output, errors),
        Asked::Verify(args) => report(verify(alloc, rt, paths, args), output, errors),
        Asked::VerifyFrom(args) => report(verify_from(alloc, rt, paths, args), output, errors),
        Asked::Update(args) => report(update(alloc, rt, paths, args), output, errors),
        Asked::Archive(args) => report_served(archive(alloc, rt, args, output), errors),
        Asked::Migrate(args) => report(migrate(alloc, rt, args), output, errors),
    }
}

/// Reports why the arguments of the program could not be read: one is no text, or memory ran out.
fn no_words<E: CountedFlush>(cause: &io::Error, errors: &mut E) -> u8
    ensures { ReportsNoWords (error_kind cause.now) result
        (E.stream errors.old) (E.stream errors.new) }
{
    match cause.kind() {
        io::ErrorKind::OutOfMemory => report_fault(Fault::Memory, errors),
        _ => {
            let _ = write_out("error: an argument is not UTF-8 text\n", errors);
            2
        }
    }
}
