//! Commands as JSON.
ghost use Rattle.std.specs.Prelude.{◌≡◌, IfOk, OnOk, string_bytes};
ghost use Rattle.serde_json.specs.View.{members_view, view};
ghost use Rattle.clr_text.specs.CommandText.{all_said, command_data, command_text, with_said};

use crate::key::Key;
use crate::kinds::{Word, put_own};
use crate::objects::Object;
use clr_rules::Command;
use serde_json::Value;
use std::alloc::{AllocError, Global};

/// The text of a command: one JSON object without blanks and without a line feed, its keys in the
/// order of their bytes, as `{"at":100,"by":"JONES","do":"request","section":"L2"}`.
///
/// It reads as the command, but for a `show` or `jumper` whose moment is not 0: the text of these
/// states none.
pub fn command_text(alloc: Global, command: &Command) -> Result<String, AllocError>
    ensures { IfOk result (λ text. string_bytes text ≡ command_text command.now) }
{
    let value = command_value(alloc, command)?;
    value.to_string(alloc)
}

/// The JSON value of a command, as a part of another.
pub fn command_value(alloc: Global, command: &Command) -> Result<Value, AllocError>
    ensures { IfOk result (λ value. view value ≡ command_data command.now) }
{
    let mut object = Object::new(alloc);
    put_all(&mut object, command)?;
    Ok(Value::Object(object.members))
}

/// Puts all that a command says.
fn put_all(object: &mut Object, command: &Command) -> Result<(), AllocError>
    ensures { OnOk result (members_view object.new.members.entries
        ≡ with_said (all_said command.now) (members_view object.old.members.entries)) }
{
    let word = Word::of(&command.kind);
    if word.states_moment() {
        object.put(&Key::At, &command.moment)?;
    }
    object.put_two(&Key::By, &command.caller, &Key::Do, &word)?;
    put_own(object, &command.kind)
}
