//! The text of a line, and its value.
ghost use Rattle.std.specs.Prelude.{◌≡◌, IfOk, IsTrue, Some, string_bytes, true};
ghost use Rattle.std.specs.List.{list_all};
ghost use Rattle.serde_json.specs.View.{view};
ghost use Rattle.serde_json.specs.Data.{string};
ghost use Rattle.clr_changes.specs.Deeds.{archive, command as asked, update};
ghost use Rattle.clr_journal.specs.DeltaRows.{is_open};
ghost use Rattle.clr_update.specs.Shown.{as_changes};
ghost use Rattle.clr_text.specs.CommandText.{has_its_moment};
ghost use Rattle.clr_text.specs.Json.{optional_data};
ghost use Rattle.clr_text.specs.Replies.{reply_data};
ghost use Rattle.clr_journal.specs.Line.{archive_data, bare, carried, done, entry_data, line_text};
ghost use Rattle.clr_journal.specs.Line.{read_line, withdrawn};

use crate::line::Receipt;
use crate::{can_be_said, changes_value};
use clr_changes::Changes;
use clr_rules::{Command, Moment, Reply, Text};
use clr_text::{can_be_sent, command_value, reply_value};
use serde_json::{Value, json};
use std::alloc::{AllocError, Global};

/// The line of a command and its reply, without a line feed. It reads as that line; that of a
/// `show` or `jumper`, whose text states no moment, only where its moment is 0.
pub fn print_carried(
    alloc: Global,
    receipt: &Receipt,
    command: &Command,
    reply: &Reply,
) -> Result<String, AllocError>
    ensures text { IfOk result (λ text. string_bytes text
        ≡ line_text (carried receipt.now (asked command.now) (reply_data reply.now))) }
    ensures reads { IfOk result (λ text. has_its_moment command.now ≡ true
        → read_line (string_bytes text)
        ≡ Some (carried receipt.now (asked command.now) (reply_data reply.now))) }
{
    can_be_sent(command);
    let value = carried_value(alloc, receipt, command, reply)?;
    let text = value.to_string(alloc)?;
    let _bytes = text.as_str();
    Ok(text)
}

/// The line of an update with these changes, without a line feed. A login of the receipt is not
/// written. It reads as that line without a login, where no point that goes has a position.
pub fn print_updated(
    alloc: Global,
    receipt: &Receipt,
    changes: &Changes,
) -> Result<String, AllocError>
    ensures text { IfOk result (λ text. string_bytes text
        ≡ line_text (carried receipt.now (update (as_changes changes.now)) done)) }
    ensures reads { IfOk result (λ text.
        IsTrue (list_all (λ p. is_open p.position) changes.now.points_go.items)
        → read_line (string_bytes text)
        ≡ Some (carried (bare receipt.now) (update (as_changes changes.now)) done)) }
{
    can_be_said(changes);
    let value = updated_value(alloc, receipt, changes)?;
    let text = value.to_string(alloc)?;
    let _bytes = text.as_str();
    Ok(text)
}

/// The line of an archive, without a line feed. A login of the receipt is not written. It reads as
/// that line without a login.
pub fn print_archived(
    alloc: Global,
    receipt: &Receipt,
    before: Moment,
) -> Result<String, AllocError>
    ensures text { IfOk result (λ text. string_bytes text
        ≡ line_text (carried receipt.now (archive before) done)) }
    ensures reads { IfOk result (λ text. read_line (string_bytes text)
        ≡ Some (carried (bare receipt.now) (archive before) done)) }
{
    before.seconds();
    let value = archived_value(alloc, receipt, before)?;
    let text = value.to_string(alloc)?;
    let _bytes = text.as_str();
    Ok(text)
}

/// The line that withdraws the deed of a number, without a line feed. It reads as that line.
pub fn print_withdrawn(alloc: Global, number: u64) -> Result<String, AllocError>
    ensures text { IfOk result (λ text. string_bytes text
        ≡ line_text (withdrawn number)) }
    ensures reads { IfOk result (λ text. read_line (string_bytes text)
        ≡ Some (withdrawn number)) }
{
    let value = withdrawn_value(alloc, number)?;
    let text = value.to_string(alloc)?;
    let _bytes = text.as_str();
    Ok(text)
}

/// The JSON value of a command and its reply.
fn carried_value(
    alloc: Global,
    receipt: &Receipt,
    command: &Command,
    reply: &Reply,
) -> Result<Value, AllocError>
    ensures { IfOk result (λ value. view value
        ≡ entry_data (carried receipt.now (asked command.now) (reply_data reply.now))) }
{
    let reply = reply_value(alloc, reply)?;
    commanded_value(alloc, receipt, command, reply)
}

/// The JSON value of a command whose reply is this value.
pub fn commanded_value(
    alloc: Global,
    receipt: &Receipt,
    command: &Command,
    reply: Value,
) -> Result<Value, AllocError>
    ensures { IfOk result (λ value. view value
        ≡ entry_data (carried receipt.now (asked command.now) (view reply))) }
{
    let login = login_value(alloc, &receipt.login)?;
    let command = command_value(alloc, command)?;
    json!(in alloc; {
        "command": command,
        "login": login,
        "number": receipt.number,
        "received": receipt.received,
        "reply": reply
    })
}

/// The JSON value of an update.
pub fn updated_value(
    alloc: Global,
    receipt: &Receipt,
    changes: &Changes,
) -> Result<Value, AllocError>
    ensures { IfOk result (λ value. view value
        ≡ entry_data (carried receipt.now (update (as_changes changes.now)) done)) }
{
    let updated = changes_value(alloc, changes)?;
    json!(in alloc; {
        "number": receipt.number,
        "received": receipt.received,
        "updated": updated
    })
}

/// The JSON value of an archive.
pub fn archived_value(alloc: Global, receipt: &Receipt, before: Moment) -> Result<Value, AllocError>
    ensures { IfOk result (λ value. view value
        ≡ entry_data (carried receipt.now (archive before) done)) }
{
    let archived = before_value(alloc, before)?;
    json!(in alloc; {
        "archived": archived,
        "number": receipt.number,
        "received": receipt.received
    })
}

/// What a line says of an archive.
fn before_value(alloc: Global, before: Moment) -> Result<Value, AllocError>
    ensures { IfOk result (λ value. view value ≡ archive_data before) }
{
    json!(in alloc; {"before": before.seconds()})
}

/// A login as a JSON value: a text, or null.
fn login_value(alloc: Global, login: &Option<Text>) -> Result<Value, AllocError>
    ensures { IfOk result (λ value. view value ≡ optional_data string login.now) }
{
    match login {
        Some(login) => Value::try_from_str(alloc, login.as_str()),
        None => Ok(Value::Null),
    }
}

/// The JSON value that withdraws the deed of a number.
pub fn withdrawn_value(alloc: Global, number: u64) -> Result<Value, AllocError>
    ensures { IfOk result (λ value. view value ≡ entry_data (withdrawn number)) }
{
    json!(in alloc; {"number": number, "withdrawn": true})
}
