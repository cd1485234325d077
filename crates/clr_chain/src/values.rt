//! The JSON values of lines, and their own form.
ghost use Rattle.std.specs.Prelude.{◌≡◌, IfOk, bytes_eq, false};
ghost use Rattle.serde_json.specs.View.{view};
ghost use Rattle.serde_json.specs.Written.{has_float};
ghost use Rattle.clr_changes.specs.Deeds.{deed_of};
ghost use Rattle.clr_journal.specs.Line.{carried, entry_data, entry_of, line_text};
ghost use Rattle.clr_chain.specs.Link.{has_fraction, is_own, link_text, with_sum};

use crate::floats::has_float;
use clr_journal::{
    Carried, Deed, Line, archived_value, commanded_value, updated_value, withdrawn_value,
};
use serde_json::{Value, put};
use std::alloc::{AllocError, Global};

/// The value of a line with its sum.
pub(crate) fn with_sum(alloc: Global, line: Value, sum: &str) -> Result<Value, AllocError>
    ensures { IfOk result (λ value. view value ≡ with_sum sum.now (view line)) }
{
    match line {
        Value::Object(mut members) => {
            let sum = Value::try_from_str(alloc, sum)?;
            put(&mut members, alloc, "sum", sum)?;
            Ok(Value::Object(members))
        }
        other => Ok(other),
    }
}

/// The value of a line that was read, without a sum.
fn line_value(alloc: Global, line: &Line) -> Result<Value, AllocError>
    ensures { IfOk result (λ value. view value ≡ entry_data (entry_of line.now)) }
{
    match line {
        Line::Carried(carried) => carried_value(alloc, carried),
        Line::Withdrawn(number) => withdrawn_value(alloc, *number),
    }
}

/// The value of a deed and its reply, without a sum.
fn carried_value(alloc: Global, line: &Carried) -> Result<Value, AllocError>
    ensures { IfOk result (λ value. view value
        ≡ entry_data (carried line.now.receipt (deed_of line.now.deed) (view line.now.reply))) }
{
    match &line.deed {
        Deed::Command(command) => {
            let reply = line.reply.clone()?;
            commanded_value(alloc, &line.receipt, command, reply)
        }
        Deed::Update(changes) => updated_value(alloc, &line.receipt, changes),
        Deed::Archive(before) => archived_value(alloc, &line.receipt, *before),
    }
}

/// Whether the reply of a line has a number that is no whole number.
pub(crate) fn has_fraction(line: &Line) -> bool
    ensures { result ≡ has_fraction (entry_of line.now) }
{
    match line {
        Line::Carried(carried) => has_float(&carried.reply),
        Line::Withdrawn(_) => false,
    }
}

/// The text of a line that was read, without a sum.
pub(crate) fn line_text(alloc: Global, line: &Line) -> Result<Vec<u8>, AllocError>
    requires { has_fraction (entry_of line.now) ≡ false }
    ensures { IfOk result (λ text. text.items ≡ line_text (entry_of line.now)) }
{
    let value = line_value(alloc, line)?;
    value.to_vec(alloc)
}

/// The text of a line that was read, with a sum.
fn link_text(alloc: Global, line: &Line, sum: &str) -> Result<Vec<u8>, AllocError>
    requires { has_fraction (entry_of line.now) ≡ false }
    ensures { IfOk result (λ text. text.items ≡ link_text (entry_of line.now) sum.now) }
{
    let line = line_value(alloc, line)?;
    let value = with_sum(alloc, line, sum)?;
    value.to_vec(alloc)
}

/// Whether a text is a line's own form, with this sum.
pub(crate) fn is_own(alloc: Global, line: &Line, sum: &str, text: &[u8]) -> Result<bool, AllocError>
    ensures { IfOk result (λ is. is ≡ is_own (entry_of line.now) sum.now text.now) }
{
    if has_fraction(line) {
        return Ok(false);
    }
    let own = link_text(alloc, line, sum)?;
    Ok(is_same(text, &own))
}

/// Whether two texts are the same.
pub(crate) fn is_same(text: &[u8], other: &[u8]) -> bool
    ensures { result ≡ bytes_eq text.now other.now }
{
    text == other
}
