//! What a command says, in words.
ghost use Rattle.std.specs.Prelude.{◌≡◌, ◌++◌, OnOk, map, reverse, string_bytes};
ghost use Rattle.clr_journal.specs.Line.{entry_of};
ghost use Rattle.clr_log.specs.Words.{either, flags_said, names_said, numbered, place_words};
ghost use Rattle.clr_log.specs.Words.{steps_said, verb, words};

use crate::steps::step_known;
use crate::texts::{push_name, push_numbered, push_points, push_quoted, push_steps};
use clr_journal::Line;
use clr_net::Name;
use clr_rules::{ClearanceId, Kind};
use clr_text::command_word;
use std::alloc::{AllocError, Global};

/// Writes what a command says, which comes after these lines.
pub(crate) fn push_words(
    alloc: Global,
    out: &mut String,
    before: &[Line],
    kind: &Kind,
) -> Result<(), AllocError>
    ensures { OnOk result (string_bytes out.new ≡ string_bytes out.old
        ++ words (reverse (map entry_of before.now)) kind.now) }
{
    out.push_str(verb(kind))?;
    push_steps_said(alloc, out, before, kind)?;
    push_names(alloc, out, kind)?;
    push_flags(out, kind)
}

/// What a command is called: as its word is written, where it has no other words.
fn verb(kind: &Kind) -> &'static str
    ensures { result.now ≡ verb kind.now }
{
    match kind {
        Kind::SignOn { .. } => "sign on",
        Kind::SignOff { .. } => "sign off",
        Kind::Transfer { emergency, .. } => either(
            *emergency,
            "emergency transfer to",
            "transfer to",
        ),
        _ => command_word(kind),
    }
}

/// Writes the steps of an order, or the one that is named.
fn push_steps_said(
    alloc: Global,
    out: &mut String,
    before: &[Line],
    kind: &Kind,
) -> Result<(), AllocError>
    ensures { OnOk result (string_bytes out.new ≡ string_bytes out.old
        ++ steps_said (reverse (map entry_of before.now)) kind.now) }
{
    match kind {
        Kind::Order { points, steps, .. } => {
            push_points(out, points)?;
            push_steps(alloc, out, steps)
        }
        Kind::Restore { steps, .. } | Kind::Switch { steps } => push_steps(alloc, out, steps),
        Kind::Instruct { clearance, step }
        | Kind::Repeat {
            clearance,
            step,
            ..
        }
        | Kind::Report {
            clearance,
            step,
            ..
        }
        | Kind::Amend { clearance, step } => push_known(alloc, out, before, *clearance, *step),
        _ => Ok(()),
    }
}

/// Writes the text that was spoken, or names: the section or the crew, where it has no others.
fn push_names(alloc: Global, out: &mut String, kind: &Kind) -> Result<(), AllocError>
    ensures { OnOk result
        (string_bytes out.new ≡ string_bytes out.old ++ names_said kind.now) }
{
    match kind {
        Kind::Repeat { text, .. } => {
            out.push(' ')?;
            push_quoted(alloc, out, text.as_str())
        }
        Kind::Transfer { to, .. } => push_name(out, to),
        Kind::Jumper {
            point,
            from,
            to,
            ..
        } => {
            push_name(out, point)?;
            push_all(out, " from ", from.as_str(), " to ")?;
            out.push_str(to.as_str())
        }
        _ => push_place(out, kind.place()),
    }
}

/// Writes a name after a blank, if there is one.
fn push_place(out: &mut String, place: Option<Name>) -> Result<(), AllocError>
    ensures { OnOk result
        (string_bytes out.new ≡ string_bytes out.old ++ place_words place) }
{
    match place {
        Some(place) => push_name(out, &place),
        None => Ok(()),
    }
}

/// Writes what is, or is not.
fn push_flags(out: &mut String, kind: &Kind) -> Result<(), AllocError>
    ensures { OnOk result
        (string_bytes out.new ≡ string_bytes out.old ++ flags_said kind.now) }
{
    match kind {
        Kind::Report { done, .. } => out.push_str(either(*done, " done", " not done")),
        Kind::Test { dead, .. } => out.push_str(either(*dead, " dead", " not dead")),
        Kind::Release {
            notified,
            clear,
            ..
        } => {
            out.push_str(either(*notified, ", notified", ", not notified"))?;
            out.push_str(either(*clear, ", clear", ", not clear"))
        }
        Kind::Jumper {
            lockable,
            remote,
            ..
        } => {
            out.push_str(either(*lockable, ", lockable", ""))?;
            out.push_str(either(*remote, ", remote", ""))
        }
        _ => Ok(()),
    }
}

/// Writes the number of a step, after a blank, and what it is, if one of the lines before says it.
fn push_known(
    alloc: Global,
    out: &mut String,
    before: &[Line],
    clearance: ClearanceId,
    number: u16,
) -> Result<(), AllocError>
    ensures { OnOk result (string_bytes out.new ≡ string_bytes out.old
        ++ numbered (reverse (map entry_of before.now)) clearance number) }
{
    let step = step_known(before, clearance, number);
    out.push(' ')?;
    push_numbered(alloc, out, number, step)
}

/// Writes three texts.
fn push_all(out: &mut String, first: &str, second: &str, third: &str) -> Result<(), AllocError>
    ensures { OnOk result (string_bytes out.new
        ≡ string_bytes out.old ++ first.now ++ second.now ++ third.now) }
{
    out.push_str(first)?;
    out.push_str(second)?;
    out.push_str(third)
}

/// One of two texts.
fn either(is: bool, one: &'static str, other: &'static str) -> &'static str
    ensures { result.now ≡ either is one.entry.now other.entry.now }
{
    if is { one } else { other }
}
