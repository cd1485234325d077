//! A line of the log.
ghost use Rattle.std.specs.Prelude.{◌≡◌, ◌++◌, IfOk, OnOk, map, reverse, Some};
ghost use Rattle.std.specs.Prelude.{string_bytes};
ghost use Rattle.serde_json.specs.View.{view};
ghost use Rattle.clr_changes.specs.Deeds.{deed_of};
ghost use Rattle.clr_journal.specs.Line.{carried, entry_of};
ghost use Rattle.clr_log.specs.Log.{archived_line, carried_line, entry_line, given_columns};
ghost use Rattle.clr_log.specs.Log.{login_words, received_columns, received_text, reply_words};
ghost use Rattle.clr_log.specs.Log.{said_columns};
ghost use Rattle.clr_rules.specs.Moment.{new_moment};
ghost use Rattle.clr_log.specs.Log.{updated_lines, when, who, withdrawn_line};
ghost use Rattle.clr_update.specs.Shown.{as_changes};

use crate::about::{clearance_of, last_clearance};
use crate::texts::{push_id, push_number, push_plain};
use crate::words::push_words;
use clr_changes::print_changes;
use clr_journal::{Carried, Changes, Deed, Line, Receipt, is_accepted};
use clr_net::Name;
use clr_print::{ClockOffset, moment_text};
use clr_rules::{Command, Kind, Moment};
use serde_json::Value;
use std::alloc::{AllocError, Global};

/// Writes a line of the log, which comes after these lines.
pub(crate) fn push_line(
    alloc: Global,
    out: &mut String,
    before: &[Line],
    line: &Line,
    clock: ClockOffset,
) -> Result<(), AllocError>
    ensures { OnOk result (string_bytes out.new ≡ string_bytes out.old
        ++ entry_line clock (reverse (map entry_of before.now)) (entry_of line.now)) }
{
    match line {
        Line::Carried(carried) => push_deed(alloc, out, before, carried, clock),
        Line::Withdrawn(number) => push_withdrawn(alloc, out, before, *number),
    }
}

/// Writes the line of a deed and its reply.
fn push_deed(
    alloc: Global,
    out: &mut String,
    before: &[Line],
    one: &Carried,
    clock: ClockOffset,
) -> Result<(), AllocError>
    ensures { OnOk result (string_bytes out.new ≡ string_bytes out.old
        ++ entry_line clock (reverse (map entry_of before.now))
        (carried one.now.receipt (deed_of one.now.deed) (view one.now.reply))) }
{
    match &one.deed {
        Deed::Command(command) => push_carried(alloc, out, before, one, command, clock),
        Deed::Update(changes) => push_updated(alloc, out, &one.receipt, changes, clock),
        Deed::Archive(moment) => push_archived(alloc, out, &one.receipt, *moment, clock),
    }
}

/// Writes the line of a command and its reply.
fn push_carried(
    alloc: Global,
    out: &mut String,
    before: &[Line],
    one: &Carried,
    command: &Command,
    clock: ClockOffset,
) -> Result<(), AllocError>
    ensures { OnOk result (string_bytes out.new ≡ string_bytes out.old
        ++ carried_line clock (reverse (map entry_of before.now))
        one.now.receipt command.now (view one.now.reply)) }
{
    let given = given_columns(alloc, one, command, clock)?;
    out.push_str(given.as_str())?;
    let said = said_columns(alloc, before, command, &one.reply)?;
    out.push_str(said.as_str())
}

/// Writes the lines of an update.
fn push_updated(
    alloc: Global,
    out: &mut String,
    receipt: &Receipt,
    changes: &Changes,
    clock: ClockOffset,
) -> Result<(), AllocError>
    ensures { OnOk result (string_bytes out.new ≡ string_bytes out.old
        ++ updated_lines clock receipt.now (as_changes changes.now)) }
{
    let lines = updated_lines(alloc, receipt, changes, clock)?;
    out.push_str(lines.as_str())
}

/// The lines of an update: its own, and one for each thing that changes.
#[tactic(auto, unfolding(crate::specs::Log::updated_lines))]
fn updated_lines(
    alloc: Global,
    receipt: &Receipt,
    changes: &Changes,
    clock: ClockOffset,
) -> Result<String, AllocError>
    ensures { IfOk result (λ text. string_bytes text
        ≡ updated_lines clock receipt.now (as_changes changes.now)) }
{
    let lines = print_changes(alloc, changes)?;
    let mut text = received_columns(alloc, receipt, clock)?;
    text.push_str("update  accepted\n")?;
    text.push_str(lines.as_str())?;
    Ok(text)
}

/// Writes the line of an archive.
fn push_archived(
    alloc: Global,
    out: &mut String,
    receipt: &Receipt,
    before: Moment,
    clock: ClockOffset,
) -> Result<(), AllocError>
    ensures { OnOk result (string_bytes out.new ≡ string_bytes out.old
        ++ archived_line clock receipt.now before) }
{
    let line = archived_line(alloc, receipt, before, clock)?;
    out.push_str(line.as_str())
}

/// The line of an archive.
#[tactic(auto, unfolding(crate::specs::Log::archived_line))]
fn archived_line(
    alloc: Global,
    receipt: &Receipt,
    before: Moment,
    clock: ClockOffset,
) -> Result<String, AllocError>
    ensures { IfOk result (λ text. string_bytes text
        ≡ archived_line clock receipt.now before) }
{
    let moment = moment_text(alloc, before, clock)?;
    let mut text = received_columns(alloc, receipt, clock)?;
    text.push_str("archive before ")?;
    text.push_str(moment.as_str())?;
    text.push_str("  accepted\n")?;
    Ok(text)
}

/// The first four columns of a line that has no caller.
#[tactic(auto, unfolding(crate::specs::Log::received_columns))]
fn received_columns(
    alloc: Global,
    receipt: &Receipt,
    clock: ClockOffset,
) -> Result<String, AllocError>
    ensures { IfOk result (λ text. string_bytes text ≡ received_columns clock receipt.now) }
{
    let mut text = String::new(alloc);
    push_number(alloc, &mut text, receipt.number)?;
    text.push_str("  ")?;
    let moment = received_text(alloc, receipt.received, clock)?;
    text.push_str(moment.as_str())?;
    text.push_str("  -  -  ")?;
    Ok(text)
}

/// The first four columns of a line.
#[tactic(auto, unfolding(crate::specs::Log::given_columns))]
fn given_columns(
    alloc: Global,
    one: &Carried,
    command: &Command,
    clock: ClockOffset,
) -> Result<String, AllocError>
    ensures { IfOk result (λ text. string_bytes text ≡ given_columns clock
        one.now.receipt command.now (view one.now.reply)) }
{
    let moment = when_text(alloc, command, clock)?;
    let mut text = String::new(alloc);
    push_number(alloc, &mut text, one.receipt.number)?;
    text.push_str("  ")?;
    text.push_str(moment.as_str())?;
    text.push_str("  ")?;
    push_id(alloc, &mut text, clearance_of(command, &one.reply))?;
    text.push_str("  ")?;
    push_who(&mut text, command, &one.receipt)?;
    text.push_str("  ")?;
    Ok(text)
}

/// The others.
#[tactic(auto, unfolding(crate::specs::Log::said_columns))]
fn said_columns(
    alloc: Global,
    before: &[Line],
    command: &Command,
    reply: &Value,
) -> Result<String, AllocError>
    ensures { IfOk result (λ text. string_bytes text
        ≡ said_columns (reverse (map entry_of before.now)) command.now (view reply.now)) }
{
    let mut text = String::new(alloc);
    push_words(alloc, &mut text, before, &command.kind)?;
    text.push_str("  ")?;
    push_reply(&mut text, reply)?;
    text.push('\n')?;
    Ok(text)
}

/// When a line was received.
fn received_text(alloc: Global, received: u64, clock: ClockOffset) -> Result<String, AllocError>
    ensures { IfOk result (λ text. string_bytes text
        ≡ received_text clock (new_moment received)) }
{
    match Moment::new(received) {
        Some(moment) => moment_text(alloc, moment, clock),
        None => String::from_str(alloc, "-"),
    }
}

/// Writes the line that withdraws the deed before it.
fn push_withdrawn(
    alloc: Global,
    out: &mut String,
    before: &[Line],
    number: u64,
) -> Result<(), AllocError>
    ensures { OnOk result (string_bytes out.new ≡ string_bytes out.old
        ++ withdrawn_line (reverse (map entry_of before.now)) number) }
{
    let line = withdrawn_line(alloc, before, number)?;
    out.push_str(line.as_str())
}

#[tactic(auto, unfolding(crate::specs::Log::withdrawn_line))]
fn withdrawn_line(alloc: Global, before: &[Line], number: u64) -> Result<String, AllocError>
    ensures { IfOk result (λ text. string_bytes text
        ≡ withdrawn_line (reverse (map entry_of before.now)) number) }
{
    let mut text = String::new(alloc);
    push_number(alloc, &mut text, number)?;
    text.push_str("  -  ")?;
    push_id(alloc, &mut text, last_clearance(before))?;
    text.push_str("  -  -  withdrawn\n")?;
    Ok(text)
}

/// The moment of a command.
fn when_text(alloc: Global, command: &Command, clock: ClockOffset) -> Result<String, AllocError>
    ensures { IfOk result (λ text. string_bytes text
        ≡ when command.now.kind command.now.moment clock) }
{
    match command.kind {
        Kind::Show { .. } | Kind::Jumper { .. } => String::from_str(alloc, "-"),
        _ => moment_text(alloc, command.moment, clock),
    }
}

/// Writes who gave a command.
fn push_who(out: &mut String, command: &Command, receipt: &Receipt) -> Result<(), AllocError>
    ensures { OnOk result
        (string_bytes out.new ≡ string_bytes out.old ++ who command.now receipt.now) }
{
    out.push_str(command.caller.as_str())?;
    match &receipt.login {
        Some(login) => push_login(out, &command.caller, login.as_str()),
        None => Ok(()),
    }
}

/// Writes a login in parentheses, where it is not the caller's name.
fn push_login(out: &mut String, caller: &Name, login: &str) -> Result<(), AllocError>
    ensures { OnOk result (string_bytes out.new
        ≡ string_bytes out.old ++ login_words caller.now (Some login.now)) }
{
    if login == caller.as_str() {
        return Ok(());
    }
    out.push_str(" (")?;
    push_plain(out, login)?;
    out.push(')')
}

/// Writes a reply in words.
fn push_reply(out: &mut String, reply: &Value) -> Result<(), AllocError>
    ensures { OnOk result
        (string_bytes out.new ≡ string_bytes out.old ++ reply_words (view reply.now)) }
{
    if is_accepted(reply) {
        return out.push_str("accepted");
    }
    out.push_str("refused ")?;
    match reply.get("refusal").and_then(Value::as_str) {
        Some(name) => push_plain(out, name),
        None => out.push('-'),
    }
}
