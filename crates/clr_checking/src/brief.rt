//! Whether the line of a refused command has the reply due, or may be in brief.
ghost use Rattle.std.specs.Prelude.{◌≡◌, IfOk, codes};
ghost use Rattle.serde_json.specs.View.{view};
ghost use Rattle.clr_journal.specs.Line.{says};
ghost use Rattle.clr_checking.specs.Brief.{DecidesTaken, is_brief, is_empty_kind, is_for_empty};

use clr_rules::{Command, Kind, Refusal, Reply};
use clr_verify::is_reply;
use serde_json::Value;
use std::alloc::{AllocError, Global};

/// Whether the line of a refused command is taken, where this reply is due.
pub(crate) fn is_taken(
    alloc: Global,
    command: &Command,
    reply: &Value,
    due: &Reply,
) -> Result<bool, AllocError>
    ensures { IfOk result (DecidesTaken command.now (view reply.now) due.now) }
{
    if is_brief(command, reply, due) {
        return Ok(true);
    }
    is_reply(alloc, reply, due)
}

/// Whether the line may be in brief, and have the refusal that was due to the whole command.
fn is_brief(command: &Command, reply: &Value, due: &Reply) -> bool
    ensures { result ≡ is_brief command.now (view reply.now) due.now }
{
    is_refused(reply) && is_empty_kind(&command.kind) && is_for_empty(due)
}

/// Whether a reply says that the command was refused.
fn is_refused(reply: &Value) -> bool
    ensures { result ≡ says (codes "refused") (view reply.now) }
{
    match reply.get("reply").and_then(Value::as_str) {
        Some(text) => text == "refused",
        None => false,
    }
}

/// Whether a command is of a kind that has lists, with none.
fn is_empty_kind(kind: &Kind) -> bool
    ensures { result ≡ is_empty_kind kind.now }
{
    match kind {
        Kind::Order { points, steps, .. } => {
            points.as_slice().is_empty() && steps.as_slice().is_empty()
        }
        Kind::Restore { steps, .. } => steps.as_slice().is_empty(),
        Kind::Switch { steps } => steps.as_slice().is_empty(),
        _ => false,
    }
}

/// Whether a command is refused for having no list.
fn is_for_empty(due: &Reply) -> bool
    ensures { result ≡ is_for_empty due.now }
{
    match due {
        Reply::Refused(Refusal::EmptyOrder) => true,
        _ => false,
    }
}
