//! The JSON value of a text, read in working memory that the caller keeps.
//!
//! `Value::from_slice` of the kit's serde_json prepares new working memory for each text, 16 KiB of
//! it: a third of the work on a short command. What a text reads as is the same.
ghost use Rattle.std.specs.Prelude.{◌≡◌, ◌<◌, Err, IfOk, None, OnOk, Some, length};
ghost use Rattle.std.specs.Option.{ok_or};
ghost use Rattle.json.specs.Json.{items, members, value};
ghost use Rattle.serde_json.specs.Data.{no_members};
ghost use Rattle.serde_json.specs.Read.{converted, of_items, of_json, of_members};
ghost use Rattle.serde_json.specs.Read.{read as read_text};
ghost use Rattle.serde_json.specs.View.{items_view, members_view, view};
ghost use Rattle.clr_text.specs.Answers.{GivesAs};
ghost use Rattle.clr_text.specs.Reading.{value_of};

use crate::fault::TextFault;
use crate::json_number::number_in;
use json::{Invalid, Reader, Scratch, Token};
use serde_json::{Map, Value};
use std::alloc::{AllocError, AllocFailed, Global};

/// How deep arrays and objects may nest.
const MAX_DEPTH: usize = 127;

/// Why a text has no value.
#[derive(Clone, Copy)]
enum Unread {
    /// It is no JSON, or a number in it is out of range.
    NotJson,
    /// Memory ran out.
    NoMemory,
}

impl From<Invalid> for Unread {
    ghost use Rattle.clr_text.specs.declared.json_reading.Unread.TheVariants.{NotJson};

    ghost from_gives = { λ _ cause. cause ≡ NotJson };

    fn from(_error: Invalid) -> Unread {
        Unread::NotJson
    }
}

impl From<AllocError> for Unread {
    ghost use Rattle.clr_text.specs.declared.json_reading.Unread.TheVariants.{NoMemory};

    ghost from_gives = { λ _ cause. cause ≡ NoMemory };

    fn from(_error: AllocError) -> Unread {
        Unread::NoMemory
    }
}

impl<T: Drop> From<AllocFailed<T>> for Unread {
    ghost use Rattle.clr_text.specs.declared.json_reading.Unread.TheVariants.{NoMemory};

    ghost from_gives = { λ _ cause. cause ≡ NoMemory };

    fn from(_error: AllocFailed<T>) -> Unread {
        Unread::NoMemory
    }
}

/// The JSON value of a text, read in working memory that the caller keeps from text to text.
///
/// The fault is `NotJson` where the text is no UTF-8, or is not one JSON value with blanks round
/// it: also where a number is too large for a float, or a value nests deeper than 127 levels. It is
/// `NoMemory` where memory ran out, and no other.
#[tactic(auto, unfolding(crate::specs::Reading::value_of))]
pub(crate) fn value_over(
    alloc: Global,
    bytes: &[u8],
    scratch: &mut Scratch,
) -> Result<Value, TextFault>
    ensures { GivesAs view result (ok_or (value_of bytes.now) TextFault.NotJson) }
{
    let Ok(text) = simdutf8::basic::from_utf8(bytes) else {
        return Err(TextFault::NotJson);
    };
    match read_whole(alloc, text, scratch) {
        Ok(value) => Ok(value),
        Err(Unread::NotJson) => Err(TextFault::NotJson),
        Err(Unread::NoMemory) => Err(TextFault::NoMemory),
    }
}

/// The value that a whole text is.
fn read_whole(alloc: Global, text: &str, scratch: &mut Scratch) -> Result<Value, Unread>
    ensures ok { IfOk result (λ v. read_text text.now ≡ Some (view v)) }
    ensures err { result ≡ Err Unread.NotJson → read_text text.now ≡ None }
{
    let mut reader = Reader::new(text, scratch)?;
    let value = read(alloc, &mut reader, MAX_DEPTH)?;
    if reader.next().is_some() {
        return Err(Unread::NotJson);
    }
    Ok(value)
}

/// The value that comes next.
#[cycle(read)]
#[inline(always)]
fn read(alloc: Global, reader: &mut Reader<'_>, depth: usize) -> Result<Value, Unread>
    ensures ok { IfOk result
        (λ v. converted of_json (value depth reader.old) ≡ Some (view v, reader.new)) }
    ensures shorter { OnOk result (length reader.new < length reader.old) }
    ensures err { result ≡ Err Unread.NotJson
        → converted of_json (value depth reader.old) ≡ None }
{
    let token = reader.next().ok_or(Unread::NotJson)?;
    match token {
        Token::String(text) => Ok(Value::String(String::from_str(alloc, text)?)),
        Token::Number(text) => match number_in(text) {
            Some(number) => Ok(Value::Number(number)),
            None => Err(Unread::NotJson),
        },
        Token::Bool(b) => Ok(Value::Bool(b)),
        Token::Null => Ok(Value::Null),
        Token::EndObject | Token::EndArray | Token::Key(_) | Token::Bad => Err(Unread::NotJson),
        Token::BeginArray => {
            if depth == 0 {
                return Err(Unread::NotJson);
            }
            Ok(Value::Array(read_items(alloc, reader, depth - 1)?))
        }
        Token::BeginObject => {
            if depth == 0 {
                return Err(Unread::NotJson);
            }
            Ok(Value::Object(read_members(alloc, reader, depth - 1)?))
        }
    }
}

/// The items of an array, up to its end.
#[cycle(read)]
#[inline(never)]
fn read_items(alloc: Global, reader: &mut Reader<'_>, depth: usize) -> Result<Vec<Value>, Unread>
    ensures ok { IfOk result
        (λ v. converted of_items (items (value depth) (length reader.old) reader.old)
        ≡ Some (items_view v.items, reader.new)) }
    ensures shorter { OnOk result (length reader.new < length reader.old) }
    ensures err { result ≡ Err Unread.NotJson
        → converted of_items (items (value depth) (length reader.old) reader.old) ≡ None }
{
    let mut found = Vec::new(alloc);
    'items: while !reader.take_end_array() {
        let item = read(alloc, reader, depth)?;
        found.push(item)?;
    }
    Ok(found)
}

/// The members of an object, up to its end.
#[cycle(read)]
#[inline(never)]
fn read_members(
    alloc: Global,
    reader: &mut Reader<'_>,
    depth: usize,
) -> Result<Map<String, Value>, Unread>
    ensures ok { IfOk result
        (λ m. converted (λ ms. of_members ms no_members)
        (members (value depth) (length reader.old) reader.old)
        ≡ Some (members_view m.entries, reader.new)) }
    ensures shorter { OnOk result (length reader.new < length reader.old) }
    ensures err { result ≡ Err Unread.NotJson
        → converted (λ ms. of_members ms no_members)
        (members (value depth) (length reader.old) reader.old) ≡ None }
{
    let mut found = Map::new(alloc);
    'members: while let Some(name) = reader.next_key()? {
        let key = String::from_str(alloc, name)?;
        let member = read(alloc, reader, depth)?;
        drop(found.insert(key, member)?);
    }
    Ok(found)
}
