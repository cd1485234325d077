//! The first line of a journal.
ghost use Rattle.std.specs.Prelude.{◌≡◌, IfOk, option_map, string_bytes, take};
ghost use Rattle.serde_json.specs.Find.{as_str};
ghost use Rattle.serde_json.specs.View.{view};
ghost use Rattle.clr_journal.specs.Line.{at_key};
ghost use Rattle.clr_chain.specs.First.{CanBePrinted, first_data_by, first_text, first_text_by};
ghost use Rattle.clr_chain.specs.First.{other_rules_in, place_in, read_first};
ghost use Rattle.clr_chain.specs.Finding.{first_of, other_rules_of};

use crate::values::is_same;
use clr_journal::{first_line, value_of};
use clr_rules::{Place, Text};
use serde_json::{Value, json};
use std::alloc::{AllocError, Global};

/// The rules that the program goes by. The number changes with each change of a reply to a command,
/// and of what an update's or an archive's line does.
pub const RULES: u64 = 1;

/// How many bytes the first line has at most, with its line feed.
pub(crate) const FRONT: usize = 4096;

/// The text of a first line, without its line feed.
#[tactic(auto, unfolding(crate::specs::First::first_text))]
pub fn print_first(alloc: Global, place: &Place) -> Result<String, AllocError>
    ensures text { IfOk result (λ text. string_bytes text ≡ first_text place.now) }
    ensures can { IfOk result (λ _. CanBePrinted place.now) }
{
    print_first_by(alloc, RULES, place)
}

/// The text of a first line that names the rules of this number, without its line feed.
#[tactic(auto, unfolding(crate::specs::First::first_text_by))]
fn print_first_by(alloc: Global, number: u64, place: &Place) -> Result<String, AllocError>
    ensures text { IfOk result (λ text. string_bytes text ≡ first_text_by number place.now) }
    ensures can { IfOk result (λ _. CanBePrinted place.now) }
{
    let value = first_value(alloc, number, place)?;
    value.to_string(alloc)
}

/// The JSON value of a first line that names the rules of this number.
fn first_value(alloc: Global, number: u64, place: &Place) -> Result<Value, AllocError>
    ensures value { IfOk result (λ value. view value ≡ first_data_by number place.now) }
    ensures can { IfOk result (λ _. CanBePrinted place.now) }
{
    let id = Value::try_from_str(alloc, place.id.as_str())?;
    let sum = Value::try_from_str(alloc, place.sum.as_str())?;
    json!(in alloc; {"journal": id, "number": place.number, "rules": number, "sum": sum})
}

/// The place that a journal begins with, by its bytes, of which the first are enough.
pub(crate) fn first_of(alloc: Global, bytes: &[u8]) -> Result<Option<Place>, AllocError>
    ensures { IfOk result (λ place. place ≡ first_of bytes.now) }
{
    match first_line(front_of(bytes)) {
        Some((text, _after)) => read_first(alloc, text),
        None => Ok(None),
    }
}

/// The number of the other rules that a journal names, by its bytes, of which the first are enough.
pub(crate) fn other_rules_of(alloc: Global, bytes: &[u8]) -> Result<Option<u64>, AllocError>
    ensures { IfOk result (λ number. number ≡ other_rules_of bytes.now) }
{
    match first_line(front_of(bytes)) {
        Some((text, _after)) => other_rules_in(alloc, text),
        None => Ok(None),
    }
}

/// The bytes that the first line may have.
fn front_of(bytes: &[u8]) -> &[u8]
    ensures { result.now ≡ take 4096 bytes.now }
{
    if bytes.len() > FRONT {
        &bytes[..FRONT]
    } else {
        bytes
    }
}

/// What a text says, if it is a first line in its own form.
#[tactic(auto, unfolding(crate::specs::First::read_first))]
pub fn read_first(alloc: Global, text: &[u8]) -> Result<Option<Place>, AllocError>
    ensures { IfOk result (λ place. place ≡ read_first text.now) }
{
    let Some(value) = value_of(alloc, text)? else {
        return Ok(None);
    };
    let Some(place) = place_in(alloc, &value)? else {
        return Ok(None);
    };
    let own = print_first(alloc, &place)?;
    if is_same(text, own.as_bytes()) {
        Ok(Some(place))
    } else {
        Ok(None)
    }
}

/// The number of the rules that a text names, if it is a first line in its own form by other rules
/// than the program's.
#[tactic(auto, unfolding(crate::specs::First::other_rules_in))]
pub fn other_rules_in(alloc: Global, text: &[u8]) -> Result<Option<u64>, AllocError>
    ensures { IfOk result (λ number. number ≡ other_rules_in text.now) }
{
    let Some(value) = value_of(alloc, text)? else {
        return Ok(None);
    };
    let Some(number) = value.get("rules").and_then(Value::as_u64) else {
        return Ok(None);
    };
    if number == RULES {
        return Ok(None);
    }
    let Some(place) = place_in(alloc, &value)? else {
        return Ok(None);
    };
    let own = print_first_by(alloc, number, &place)?;
    if is_same(text, own.as_bytes()) {
        Ok(Some(number))
    } else {
        Ok(None)
    }
}

/// The place of a JSON value.
fn place_in(alloc: Global, value: &Value) -> Result<Option<Place>, AllocError>
    ensures { IfOk result (λ place. place ≡ place_in (view value.now)) }
{
    let Some(id) = text_at(value, "journal") else {
        return Ok(None);
    };
    let Some(number) = value.get("number").and_then(Value::as_u64) else {
        return Ok(None);
    };
    let Some(sum) = text_at(value, "sum") else {
        return Ok(None);
    };
    let id = String::from_str(alloc, id)?;
    let sum = String::from_str(alloc, sum)?;
    Ok(Some(Place {
        id: Text::new(id),
        number,
        sum: Text::new(sum),
    }))
}

/// The text at a key.
pub(crate) fn text_at<'a>(value: &'a Value, key: &str) -> Option<&'a str>
    ensures { option_map (λ text. text.now) result ≡ at_key as_str key.now (view value.now) }
{
    value.get(key).and_then(Value::as_str)
}
