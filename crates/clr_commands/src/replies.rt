//! The replies of a run: one line for each line of its input that is not empty.
ghost use Rattle.std.specs.Prelude.{◌≡◌, ◌++◌, ◌∷◌, [], ◌<◌, ℕ, IfOk, OnErr, OnOk};
ghost use Rattle.std.specs.Prelude.{filter, length, map, option_map, string_bytes, take};
ghost use Rattle.clr_edge.specs.Fault.{of_desk};
ghost use Rattle.clr_text.specs.Lines.{commands_in};
ghost use Rattle.clr_commands.specs.Replies.{PrintsAnswers, answers, as_lines};
ghost use Rattle.clr_commands.specs.Replies.{asked_commands, asked_lines, command_in, input_lines};
ghost use Rattle.clr_commands.specs.Replies.{is_asked, reading_in, readings_of};

use clr_desk::{DeskFault, Run};
use clr_edge::fault::Fault;
use clr_rules::{Command, Reply};
use clr_text::{TextFault, command_over, fault_text, reply_text};
use json::Scratch;
use std::alloc::{AllocError, Global};

/// What a run prints, and the fault that ended it before its last line, if one did.
#[derive(Debug, Drop)]
pub struct Printed {
    pub text: String,
    pub fault: Option<Fault>,
}

/// What a line of the input reads as.
#[derive(Clone, Copy, Debug)]
pub(crate) enum Reading {
    /// A command.
    Command,
    /// No command, for this reason.
    NoCommand(TextFault),
}

/// The lines of an input that are not empty, in their order, and the commands among them.
#[derive(Drop)]
pub(crate) struct Asked {
    pub(crate) readings: Vec<Reading>,
    pub(crate) commands: Vec<Command>,
}

/// Reads the lines of an input that are not empty.
pub(crate) fn read_lines(alloc: Global, input: &[u8]) -> Result<Asked, AllocError>
    ensures readings { IfOk result (λ asked.
        asked.readings.items ≡ readings_of (asked_lines input.now)) }
    ensures commands { IfOk result (λ asked.
        asked.commands.items ≡ asked_commands input.now) }
{
    let lines = lines_of(alloc, input)?;
    read_all(alloc, lines.as_slice())
}

/// The lines of an input, what follows the last line feed among them.
fn lines_of(alloc: Global, input: &[u8]) -> Result<Vec<&[u8]>, AllocError>
    ensures { IfOk result (λ lines. map (λ line. line.now) lines.items ≡ input_lines input.now) }
{
    input.split(|b| *b == b'\n').collect(alloc)
}

/// Reads those of the lines that are not empty, all in the same working memory.
fn read_all(alloc: Global, lines: &[&[u8]]) -> Result<Asked, AllocError>
    ensures readings { IfOk result (λ asked. asked.readings.items
        ≡ readings_of (filter is_asked (map (λ line. line.now) lines.now))) }
    ensures commands { IfOk result (λ asked. asked.commands.items
        ≡ commands_in (filter is_asked (map (λ line. line.now) lines.now))) }
{
    let mut asked = Asked {
        readings: Vec::new(alloc),
        commands: Vec::new(alloc),
    };
    let mut scratch = Scratch::new(alloc);
    for line in lines {
        read_line(alloc, line, &mut scratch, &mut asked)?;
    }
    Ok(asked)
}

/// Reads a line, if it is not empty.
fn read_line(
    alloc: Global,
    line: &[u8],
    scratch: &mut Scratch,
    asked: &mut Asked,
) -> Result<(), AllocError>
    ensures readings { OnOk result (asked.new.readings.items
        ≡ asked.old.readings.items ++ reading_in line.now) }
    ensures commands { OnOk result (asked.new.commands.items
        ≡ asked.old.commands.items ++ command_in line.now) }
{
    if line.is_empty() {
        return Ok(());
    }
    match command_over(alloc, line, scratch) {
        Ok(command) => {
            asked.commands.push(command)?;
            asked.readings.push(Reading::Command)?;
        }
        Err(TextFault::NoMemory) => return Err(AllocError),
        Err(fault) => asked.readings.push(Reading::NoCommand(fault))?,
    }
    Ok(())
}

/// Prints the answers to lines, with the fault of their run: a line for each, up to the first
/// command that has no reply, or to where memory runs out.
pub(crate) fn print(alloc: Global, readings: &[Reading], run: Run) -> Printed
    ensures { PrintsAnswers (answers readings.now run.replies.items) run.fault result }
{
    let mut text = String::new(alloc);
    match add_answers(alloc, readings, run.replies.as_slice(), &mut text) {
        Ok(()) => Printed {
            text,
            fault: fault_told(run.fault),
        },
        Err(AllocError) => Printed {
            text,
            fault: Some(Fault::Memory),
        },
    }
}

/// The fault of a desk, as the program reports it.
fn fault_told(fault: Option<DeskFault>) -> Option<Fault>
    ensures { result ≡ option_map of_desk fault }
{
    match fault {
        Some(fault) => Some(Fault::from(fault)),
        None => None,
    }
}

/// Adds the answers to lines, each on a line, up to the first command that has no reply, or to the
/// one for which memory runs out.
fn add_answers(
    alloc: Global,
    readings: &[Reading],
    replies: &[Reply],
    text: &mut String,
) -> Result<(), AllocError>
    ensures whole { OnOk result (string_bytes text.new
        ≡ string_bytes text.old ++ as_lines (answers readings.now replies.now)) }
    ensures cut { OnErr result ((n : ℕ) × (n < length (answers readings.now replies.now))
        × (string_bytes text.new
        ≡ string_bytes text.old ++ as_lines (take n (answers readings.now replies.now)))) }
{
    let mut left = replies;
    for reading in readings {
        match *reading {
            Reading::Command => {
                let Some((reply, later)) = left.split_first() else {
                    return Ok(());
                };
                left = later;
                add_line(text, reply_text(alloc, reply)?)?;
            }
            Reading::NoCommand(fault) => add_line(text, fault_text(alloc, &fault)?)?,
        }
    }
    Ok(())
}

/// Adds an answer and a line feed, or nothing.
fn add_line(text: &mut String, mut answer: String) -> Result<(), AllocError>
    ensures added { OnOk result (string_bytes text.new
        ≡ string_bytes text.old ++ (string_bytes answer ++ 10 ∷ [])) }
    ensures none { OnErr result (string_bytes text.new ≡ string_bytes text.old) }
{
    answer.push_str("\n")?;
    text.push_str(answer.as_str())
}
