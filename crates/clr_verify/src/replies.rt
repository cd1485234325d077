//! Whether a reply is that of a line.
ghost use Rattle.std.specs.Prelude.{◌≡◌, ◌≤◌, IfOk, false};
ghost use Rattle.serde_json.specs.Data.{depth};
ghost use Rattle.serde_json.specs.View.{view};
ghost use Rattle.serde_json.specs.Written.{has_float};
ghost use Rattle.clr_text.specs.Replies.{reply_data};
ghost use Rattle.clr_journal.specs.Answered.{not_done};
ghost use Rattle.clr_journal.specs.Line.{done};
ghost use Rattle.clr_verify.specs.Replies.{DecidesReply};

use clr_journal::done_value;
use clr_rules::Reply;
use clr_text::reply_value;
use serde_json::{Value, json};
use std::alloc::{AllocError, Global};

/// Whether a line's reply is this one.
pub fn is_reply(alloc: Global, due: &Value, reply: &Reply) -> Result<bool, AllocError>
    ensures { IfOk result (DecidesReply (view due.now) (reply_data reply.now)) }
{
    let own = reply_value(alloc, reply)?;
    is_same(alloc, due, &own)
}

/// Whether a line's reply is that of an update or of an archive.
pub fn is_done(alloc: Global, due: &Value) -> Result<bool, AllocError>
    ensures { IfOk result (DecidesReply (view due.now) done) }
{
    let own = done_value(alloc)?;
    is_same(alloc, due, &own)
}

/// Whether a line's reply is that of changes that cannot be made.
pub fn is_not_done(alloc: Global, due: &Value) -> Result<bool, AllocError>
    ensures { IfOk result (DecidesReply (view due.now) not_done) }
{
    let own = not_done_value(alloc)?;
    is_same(alloc, due, &own)
}

/// The reply of changes that cannot be made, as a JSON value.
fn not_done_value(alloc: Global) -> Result<Value, AllocError>
    ensures { IfOk result (λ value. view value ≡ not_done) }
{
    json!(in alloc; {"reply": "refused"})
}

/// Whether a line's reply is this value of whole numbers. Their texts are compared.
fn is_same(alloc: Global, due: &Value, own: &Value) -> Result<bool, AllocError>
    ensures { has_float (view own.now) ≡ false → depth (view own.now) ≤ 127
        → IfOk result (DecidesReply (view due.now) (view own.now)) }
{
    let text = due.to_vec(alloc)?;
    let written = own.to_vec(alloc)?;
    Ok(text.as_slice() == written.as_slice())
}
