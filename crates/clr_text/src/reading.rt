//! From a text to a command.
ghost use Rattle.std.specs.Prelude.{◌≡◌, Ok, string_bytes};
ghost use Rattle.std.specs.BTreeMap.{keys};
ghost use Rattle.std.specs.List.{list_all, list_any};
ghost use Rattle.std.specs.Str.{bytes_eq};
ghost use Rattle.serde_json.specs.View.{members_view, view};
ghost use Rattle.clr_text.specs.Answers.{Gives, GivesAs};
ghost use Rattle.clr_text.specs.Keys.{key_text};
ghost use Rattle.clr_text.specs.Kinds.{keys_of};
ghost use Rattle.clr_text.specs.Reading.{all_keys, command_in, is_key_of, moment_of, none_missing};
ghost use Rattle.clr_text.specs.Reading.{read_command, text_at_do, values_in, word_in};

use crate::fault::TextFault;
use crate::json_reading::value_over;
use crate::key::Key;
use crate::kinds::{Word, kind_in};
use crate::values::at;
use clr_rules::{Command, Moment};
use json::Scratch;
use serde_json::{Map, Value};
use std::alloc::Global;

/// Reads a command from one JSON object, as
/// `{"at":100,"by":"JONES","do":"request","section":"L2"}`.
///
/// Blanks may be round it and in it; of a key that comes twice the last value counts. A number
/// that is written with a point or an exponent, `-0`, and one beyond 64 bits are no whole numbers;
/// one too large for a float is no JSON, and so is a value that nests deeper than 127 levels.
/// `show` and `jumper` state no moment; their commands have 0.
pub fn command_of(alloc: Global, bytes: &[u8]) -> Result<Command, TextFault>
    ensures { Gives result (read_command bytes.now) }
{
    command_over(alloc, bytes, &mut Scratch::new(alloc))
}

/// The same in working memory that the caller keeps from text to text.
#[tactic(auto, unfolding(crate::specs::Reading::read_command))]
pub fn command_over(
    alloc: Global,
    bytes: &[u8],
    scratch: &mut Scratch,
) -> Result<Command, TextFault>
    ensures { Gives result (read_command bytes.now) }
{
    let value = value_over(alloc, bytes, scratch)?;
    command_in(alloc, &value)
}

/// The command of a JSON value, as a part of another.
#[tactic(auto, unfolding(crate::specs::Reading::command_in))]
pub fn command_in(alloc: Global, value: &Value) -> Result<Command, TextFault>
    ensures { Gives result (command_in (view value.now)) }
{
    let Some(members) = value.as_object() else {
        return Err(TextFault::NotObject);
    };
    let word = word_in(value)?;
    if !has_no_others(word, members) {
        return Err(TextFault::UnknownKey);
    }
    none_missing(word, value)?;
    values_in(alloc, word, value)
}

/// Which command a value names.
fn word_in(value: &Value) -> Result<Word, TextFault>
    ensures { Gives result (word_in (view value.now)) }
{
    Word::named(text_at_do(value)?).ok_or(TextFault::UnknownCommand)
}

/// The text at `do`.
fn text_at_do(value: &Value) -> Result<&str, TextFault>
    ensures { GivesAs (λ text. text.now) result (text_at_do (view value.now)) }
{
    match value.get(Key::Do.text()) {
        None => Err(TextFault::MissingKey(Key::Do)),
        Some(found) => match found.as_str() {
            Some(text) => Ok(text),
            None => Err(TextFault::BadValue(Key::Do)),
        },
    }
}

/// Whether an object has the keys of a command alone.
fn has_no_others(word: Word, members: &Map<String, Value>) -> bool
    ensures { result ≡ all_keys (is_key_of word) (members_view members.now.entries) }
{
    all_known(word, members)
}

/// The same, of the keys as the map lists them.
fn all_known(word: Word, members: &Map<String, Value>) -> bool
    ensures { result
        ≡ list_all (λ key. is_key_of word (string_bytes key)) (keys members.now) }
{
    members.keys().all(|text| is_known(word, text.as_str()))
}

/// Whether a text is one of a command's keys.
fn is_known(word: Word, text: &str) -> bool
    ensures { result ≡ is_key_of word text.now }
{
    is_among(text, word.keys())
}

/// Whether a text is one of these keys.
fn is_among(text: &str, keys: &[Key]) -> bool
    ensures { result ≡ list_any (λ key. bytes_eq text.now (key_text key)) keys.now }
{
    keys.iter().any(|key| text == key.text())
}

/// Looks for the first of a command's keys that an object lacks.
#[tactic(auto, unfolding(crate::specs::Reading::none_missing))]
fn none_missing(word: Word, value: &Value) -> Result<bool, TextFault>
    ensures { Gives result (none_missing (keys_of word) (view value.now)) }
{
    for key in word.keys() {
        if value.get(key.text()).is_none() {
            return Err(TextFault::MissingKey(*key));
        }
    }
    Ok(true)
}

/// The command of this word, of an object that has its keys.
#[tactic(auto, unfolding(crate::specs::Reading::values_in))]
fn values_in(alloc: Global, word: Word, value: &Value) -> Result<Command, TextFault>
    ensures { Gives result (values_in word (view value.now)) }
{
    let moment = moment_of(alloc, word, value)?;
    let caller = at(alloc, value, Key::By)?;
    let kind = kind_in(alloc, word, value)?;
    Ok(Command {
        caller,
        moment,
        kind,
    })
}

/// The moment of a command: one that states none is at 0.
fn moment_of(alloc: Global, word: Word, value: &Value) -> Result<Moment, TextFault>
    ensures { Gives result (moment_of word (view value.now)) }
{
    if word.states_moment() {
        return at(alloc, value, Key::At);
    }
    Moment::new(0).ok_or(TextFault::BadValue(Key::At))
}
