//! What words are answered with, but for the machine.
ghost use Rattle.std.specs.Prelude.{◌≤◌, IfErr, IfOk, Result, String, Vec, map};
ghost use Rattle.std.specs.IoError.{error_kind};
ghost use Rattle.std.specs.declared.alloc.Global.{Global};
ghost use Rattle.std.specs.declared.io.Error.{Error};
ghost use Rattle.clr_stream.specs.Streams.{Stream};
ghost use Rattle.clr_keeping.specs.TakenUp.{logs};
ghost use Rattle.clr_commands.specs.Connections.{seen};
ghost use Rattle.clr_edge.specs.Paths.{at_paths};
ghost use Rattle.clr_command_line.specs.Around.{Around, around, steps};
ghost use Rattle.clr_command_line.specs.CommandLine.{AnswersNone, AnswersWords, moment};
ghost use Rattle.clr_command_line.specs.Report.{IsReported};

use clr_command_line::command_line::command_line;
use clr_edge::database::Makes;
use clr_edge::journals::Journals;
use clr_edge::loopback::Loopback;
use clr_edge::paths::Opens;
use clr_stream::{CountedFlush, CountedRead};
use std::convert::AsStr;
use std::io;

/// What is answered on a machine: words, with the files that they name and three streams. It is a
/// trait, so that a machine meets what is asked of one without the streams. At both together the
/// prover runs out of steps, and also where this trait has a lifetime.
pub trait Answers {
    /// What is read as standard input.
    type Input;

    /// The words, or why there are none.
    ghost words: { Self → Result (Vec (String Global) Global) Error };

    /// What is seen of the files at paths and of the input.
    ghost shows: { Self → Around Self.Input };

    /// The input.
    ghost input: { Self → Self.Input };

    /// What the output has.
    ghost output: { Self → Stream };

    /// What the error stream has.
    ghost errors: { Self → Stream };

    /// Answers the words on any machine, and returns the status.
    fn answer_on<R>(&mut self, machine: &mut R) -> u8
    where
        R: Makes + Journals + Loopback + AllocGlobal,
        ensures status { result ≤ 2 }
        ensures answer { IfOk (words self.old) (λ given. AnswersWords
            (steps (logs R.Journals R.Log.Journal R.Time.shows)
            R.Tables.Store R.makes R.opens R.shuts R.ends R.Loopback
            (seen R.Reader.remaining R.Reader.failure_count R.Writer.stream))
            (shows self.old) (map ⟦<String as AsStr>⟧.text given.items) result
            (moment machine.old (input self.old) (output self.old) (errors self.old))
            (moment machine.new (input self.new) (output self.new) (errors self.new))) }
        ensures no_words { IfErr (words self.old) (λ cause. AnswersNone (error_kind cause) result
            (moment machine.old (input self.old) (output self.old) (errors self.old))
            (moment machine.new (input self.new) (output self.new) (errors self.new))) }
        ensures reported { IsReported result (output self.old) (output self.new)
            (errors self.old) (errors self.new) };
}

/// The words of a process, the files that they name, and its streams.
#[derive(Drop)]
pub struct CommandLine<'a, O: Drop, I: Drop, W: Drop, E: Drop> {
    pub words: &'a io::Result<Vec<String>>,
    pub paths: O,
    pub input: I,
    pub output: W,
    pub errors: E,
}

impl<'a, O, I, W, E> Answers for CommandLine<'a, O, I, W, E>
where
    O: Opens<'a> + Drop,
    I: CountedRead + Drop,
    W: CountedFlush + Drop,
    E: CountedFlush + Drop,
{
    type Input = I;

    ghost words = { λ line. line.words.now };

    ghost shows = { λ line. around
        (at_paths O.File.remaining O.File.failure_count (O.bytes_at line.paths))
        (O.owns line.paths) (O.spares line.paths) I.remaining I.failure_count };

    ghost input = { λ line. line.input };

    ghost output = { λ line. W.stream line.output };

    ghost errors = { λ line. E.stream line.errors };

    fn answer_on<R>(&mut self, machine: &mut R) -> u8
    where
        R: Makes + Journals + Loopback + AllocGlobal,
    {
        command_line(
            machine,
            &self.paths,
            self.words,
            &mut self.input,
            &mut self.output,
            &mut self.errors,
        )
    }
}
