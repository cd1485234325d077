//! From a text to a line.
ghost use Rattle.std.specs.Prelude.{◌≡◌, IfOk, codes, option_map};
ghost use Rattle.serde_json.specs.Find.{get};
ghost use Rattle.serde_json.specs.View.{view};
ghost use Rattle.clr_text.specs.Reading.{value_of};
ghost use Rattle.clr_text.specs.Values.{moment_in, whole};
ghost use Rattle.clr_journal.specs.Delta.{changes_in};
ghost use Rattle.clr_update.specs.Shown.{as_changes};
ghost use Rattle.clr_journal.specs.Line.{archived_in, at_key, bare_receipt_in, carried_in};
ghost use Rattle.clr_journal.specs.Line.{command_at, done, entry_of, line_in, login_in, read_line};
ghost use Rattle.clr_journal.specs.Line.{receipt_in, updated_in, withdrawn_in};

use crate::changes_in;
use crate::line::{Carried, Line, Receipt};
use clr_changes::{Changes, Deed};
use clr_rules::{Command, Moment, Text};
use clr_text::{TextFault, command_in};
use serde_json::{Value, json};
use std::alloc::{AllocError, Global};

/// Reads a line of a journal, as it is without its line feed; none where the text is no line.
/// A key that no line has is passed over.
#[tactic(auto, unfolding(crate::specs::Line::read_line))]
pub fn read_line(alloc: Global, bytes: &[u8]) -> Result<Option<Line>, AllocError>
    ensures { IfOk result (λ line. option_map entry_of line ≡ read_line bytes.now) }
{
    match value_of(alloc, bytes)? {
        Some(mut value) => line_in(alloc, &mut value),
        None => Ok(None),
    }
}

/// The JSON value of a text, if it has one.
#[tactic(auto, unfolding(clr_text::specs::Reading::value_of))]
pub fn value_of(alloc: Global, bytes: &[u8]) -> Result<Option<Value>, AllocError>
    ensures { IfOk result (λ value. option_map view value ≡ value_of bytes.now) }
{
    match Value::from_slice(alloc, bytes) {
        Ok(value) => Ok(Some(value)),
        Err(error) => {
            if error.is_memory() {
                return Err(AllocError);
            }
            Ok(None)
        }
    }
}

/// The line of a JSON value, out of which the reply is taken.
fn line_in(alloc: Global, value: &mut Value) -> Result<Option<Line>, AllocError>
    ensures { IfOk result (λ line. option_map entry_of line ≡ line_in (view value.old)) }
{
    if value.get("withdrawn").is_some() {
        Ok(withdrawn_in(value))
    } else if value.get("updated").is_some() {
        updated_in(alloc, value)
    } else if value.get("archived").is_some() {
        archived_in(alloc, value)
    } else {
        carried_in(alloc, value)
    }
}

/// A line that withdraws a command.
fn withdrawn_in(value: &Value) -> Option<Line>
    ensures { option_map entry_of result ≡ withdrawn_in (view value.now) }
{
    match value.get("withdrawn").and_then(Value::as_bool) {
        Some(true) => match whole_at(value, "number") {
            Some(number) => Some(Line::Withdrawn(number)),
            None => None,
        },
        _ => None,
    }
}

/// A line with a command and its reply, which is taken out of the value.
fn carried_in(alloc: Global, value: &mut Value) -> Result<Option<Line>, AllocError>
    ensures { IfOk result (λ line. option_map entry_of line ≡ carried_in (view value.old)) }
{
    let Some(receipt) = receipt_in(alloc, value)? else {
        return Ok(None);
    };
    let Some(command) = command_at(alloc, value)? else {
        return Ok(None);
    };
    let Some(reply) = reply_at(value) else {
        return Ok(None);
    };
    Ok(Some(Line::Carried(Carried {
        receipt,
        deed: Deed::Command(command),
        reply,
    })))
}

/// A line of an update.
fn updated_in(alloc: Global, value: &Value) -> Result<Option<Line>, AllocError>
    ensures { IfOk result (λ line. option_map entry_of line ≡ updated_in (view value.now)) }
{
    let Some(receipt) = bare_receipt_in(value) else {
        return Ok(None);
    };
    let Some(changes) = changes_at(alloc, value)? else {
        return Ok(None);
    };
    let reply = done_value(alloc)?;
    Ok(Some(Line::Carried(Carried {
        receipt,
        deed: Deed::Update(changes),
        reply,
    })))
}

/// The changes at `updated`.
fn changes_at(alloc: Global, value: &Value) -> Result<Option<Changes>, AllocError>
    ensures { IfOk result (λ found. option_map as_changes found
        ≡ at_key changes_in (codes "updated") (view value.now)) }
{
    match value.get("updated") {
        Some(found) => changes_in(alloc, found),
        None => Ok(None),
    }
}

/// A line of an archive.
fn archived_in(alloc: Global, value: &Value) -> Result<Option<Line>, AllocError>
    ensures { IfOk result (λ line. option_map entry_of line ≡ archived_in (view value.now)) }
{
    let Some(receipt) = bare_receipt_in(value) else {
        return Ok(None);
    };
    let Some(before) = before_at(value) else {
        return Ok(None);
    };
    let reply = done_value(alloc)?;
    Ok(Some(Line::Carried(Carried {
        receipt,
        deed: Deed::Archive(before),
        reply,
    })))
}

/// The moment at `before` of what is at `archived`.
fn before_at(value: &Value) -> Option<Moment>
    ensures { result
        ≡ at_key (at_key moment_in (codes "before")) (codes "archived") (view value.now) }
{
    match value.get("archived") {
        Some(found) => whole_at(found, "before").and_then(Moment::new),
        None => None,
    }
}

/// What an update or an archive is answered, as a JSON value.
pub fn done_value(alloc: Global) -> Result<Value, AllocError>
    ensures { IfOk result (λ value. view value ≡ done) }
{
    json!(in alloc; {"reply": "accepted"})
}

/// The number and the moment of a line without a login.
fn bare_receipt_in(value: &Value) -> Option<Receipt>
    ensures { result ≡ bare_receipt_in (view value.now) }
{
    match (whole_at(value, "number"), whole_at(value, "received")) {
        (Some(number), Some(received)) => Some(Receipt {
            number,
            received,
            login: None,
        }),
        _ => None,
    }
}

/// The number, the moment and the login of a line.
fn receipt_in(alloc: Global, value: &Value) -> Result<Option<Receipt>, AllocError>
    ensures { IfOk result (λ receipt. receipt ≡ receipt_in (view value.now)) }
{
    let Some(number) = whole_at(value, "number") else {
        return Ok(None);
    };
    let Some(received) = whole_at(value, "received") else {
        return Ok(None);
    };
    let Some(login) = login_at(alloc, value)? else {
        return Ok(None);
    };
    Ok(Some(Receipt {
        number,
        received,
        login,
    }))
}

/// The whole number at a key.
fn whole_at(value: &Value, key: &str) -> Option<u64>
    ensures { result ≡ at_key whole key.now (view value.now) }
{
    value.get(key).and_then(Value::as_u64)
}

/// The login at `login`: a text or null.
fn login_at(alloc: Global, value: &Value) -> Result<Option<Option<Text>>, AllocError>
    ensures { IfOk result (λ login. login ≡ at_key login_in (codes "login") (view value.now)) }
{
    match value.get("login") {
        Some(Value::Null) => Ok(Some(None)),
        Some(Value::String(text)) => {
            let copy = text.clone()?;
            Ok(Some(Some(Text::new(copy))))
        }
        _ => Ok(None),
    }
}

/// The command at `command`.
fn command_at(alloc: Global, value: &Value) -> Result<Option<Command>, AllocError>
    ensures { IfOk result (λ command. command ≡ command_at (view value.now)) }
{
    let Some(found) = value.get("command") else {
        return Ok(None);
    };
    match command_in(alloc, found) {
        Ok(command) => Ok(Some(command)),
        Err(TextFault::NoMemory) => Err(AllocError),
        Err(_) => Ok(None),
    }
}

/// The reply at `reply`, taken out of the value.
fn reply_at(value: &mut Value) -> Option<Value>
    ensures { option_map view result ≡ get (codes "reply") (view value.old) }
{
    match value.get_mut("reply") {
        Some(found) => Some(found.take()),
        None => None,
    }
}
