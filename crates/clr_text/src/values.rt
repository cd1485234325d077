//! The values of a command's keys: what each is read from, and that its key takes it.
ghost use Rattle.std.specs.Prelude.{◌≡◌, Bool, true, IfOk, IsTrue, Option, nat_le, option_map};
ghost use Rattle.std.specs.List.{list_all};
ghost use Rattle.std.specs.Str.{is_utf8};
ghost use Rattle.serde_json.specs.Data.{Data};
ghost use Rattle.serde_json.specs.Find.{as_bool, as_str};
ghost use Rattle.serde_json.specs.View.{items_view, view};
ghost use Rattle.clr_net.specs.Name.{is_name};
ghost use Rattle.clr_rules.specs.Id.{is_id};
ghost use Rattle.clr_rules.specs.Moment.{is_moment};
ghost use Rattle.clr_text.specs.Answers.{Gives};
ghost use Rattle.clr_text.specs.CommandText.{has_named_point};
ghost use Rattle.clr_text.specs.Values.{all_read, at_key, clearance_in, moment_in, name_in};
ghost use Rattle.clr_text.specs.Values.{names_in, number_in, step_in, tasks_in};

use crate::fault::TextFault;
use crate::key::Key;
use clr_net::Name;
use clr_order::{Step, read_step_text};
use clr_rules::{ClearanceId, Moment, Names, Tasks, Text};
use serde_json::Value;
use std::alloc::{AllocError, Global};

/// A value that a key of a command has, or an item of one.
pub(crate) trait KeyValue: Drop {
    /// What a JSON value is read as, as contracts see it.
    ghost reading: { Data → Option Self };

    /// Whether a key takes the value, as contracts see it.
    ghost is_taken: { Self → Bool };

    /// The value that a JSON value is, if it is one.
    fn read(alloc: Global, value: &Value) -> Result<Option<Self>, AllocError>
        ensures { IfOk result (λ found. found ≡ reading (view value.now)) };

    /// A key takes each value: a law, with nothing to do.
    fn taken(&self)
        ensures { IsTrue (is_taken self.now) };
}

/// The value at a key.
pub(crate) fn at<T: KeyValue>(alloc: Global, value: &Value, key: Key) -> Result<T, TextFault>
    ensures { Gives result (at_key T.reading key (view value.now)) }
{
    let Some(found) = value.get(key.text()) else {
        return Err(TextFault::BadValue(key));
    };
    match T::read(alloc, found)? {
        Some(read) => Ok(read),
        None => Err(TextFault::BadValue(key)),
    }
}

impl KeyValue for Moment {
    ghost reading = { moment_in };

    ghost is_taken = { is_moment };

    fn read(_alloc: Global, value: &Value) -> Result<Option<Moment>, AllocError> {
        Ok(value.as_u64().and_then(Moment::new))
    }

    fn taken(&self) {
        let _seconds = self.seconds();
    }
}

impl KeyValue for Name {
    ghost reading = { name_in };

    ghost is_taken = { is_name };

    fn read(_alloc: Global, value: &Value) -> Result<Option<Name>, AllocError> {
        match value.as_str() {
            Some(text) => Ok(Name::read(text).ok()),
            None => Ok(None),
        }
    }

    fn taken(&self) {
        let _text = self.as_str();
    }
}

impl KeyValue for ClearanceId {
    ghost reading = { clearance_in };

    ghost is_taken = { is_id };

    fn read(_alloc: Global, value: &Value) -> Result<Option<ClearanceId>, AllocError> {
        match value.as_str() {
            Some(text) => Ok(ClearanceId::read(text).ok()),
            None => Ok(None),
        }
    }

    fn taken(&self) {
        let _number = self.number();
        self.requester().taken();
    }
}

impl KeyValue for u16 {
    ghost reading = { number_in };

    ghost is_taken = { λ number. nat_le number 65535 };

    fn read(_alloc: Global, value: &Value) -> Result<Option<u16>, AllocError> {
        match value.as_u64() {
            Some(number) if number <= 65535 => Ok(Some(number as u16)),
            _ => Ok(None),
        }
    }

    fn taken(&self) {
        fits(*self);
    }
}

impl KeyValue for bool {
    ghost reading = { as_bool };

    ghost is_taken = { λ flag. true };

    fn read(_alloc: Global, value: &Value) -> Result<Option<bool>, AllocError> {
        Ok(value.as_bool())
    }

    fn taken(&self) {}
}

impl KeyValue for Text {
    ghost reading = { as_str };

    ghost is_taken = { is_utf8 };

    fn read(alloc: Global, value: &Value) -> Result<Option<Text>, AllocError> {
        match value.as_str() {
            Some(text) => {
                let copy = String::from_str(alloc, text)?;
                Ok(Some(Text::new(copy)))
            }
            None => Ok(None),
        }
    }

    fn taken(&self) {
        let _text = self.as_str();
    }
}

impl KeyValue for Names {
    ghost reading = { names_in };

    ghost is_taken = { λ names. list_all is_name names };

    fn read(alloc: Global, value: &Value) -> Result<Option<Names>, AllocError> {
        let Some(list) = value.as_array() else {
            return Ok(None);
        };
        match all_read(alloc, list.as_slice())? {
            Some(names) => Ok(Some(Names::new(names))),
            None => Ok(None),
        }
    }

    fn taken(&self) {
        each_taken(self.as_slice());
    }
}

impl KeyValue for Step {
    ghost reading = { step_in };

    ghost is_taken = { has_named_point };

    fn read(_alloc: Global, value: &Value) -> Result<Option<Step>, AllocError> {
        match value.as_str() {
            Some(text) => match read_step_text(text) {
                Ok(step) => Ok(Some(step)),
                Err(_) => Ok(None),
            },
            None => Ok(None),
        }
    }

    fn taken(&self) {
        self.point.taken();
    }
}

impl KeyValue for Tasks {
    ghost reading = { tasks_in };

    ghost is_taken = { λ tasks. list_all (λ t. is_name t.point) tasks };

    fn read(alloc: Global, value: &Value) -> Result<Option<Tasks>, AllocError> {
        let Some(list) = value.as_array() else {
            return Ok(None);
        };
        match all_read(alloc, list.as_slice())? {
            Some(steps) => Ok(Some(Tasks::new(steps))),
            None => Ok(None),
        }
    }

    fn taken(&self) {
        each_taken(self.as_slice());
    }
}

/// What the items of a list are read as, where each of them fits.
fn all_read<T: KeyValue>(alloc: Global, list: &[Value]) -> Result<Option<Vec<T>>, AllocError>
    ensures { IfOk result (λ found. option_map (λ items. items.items) found
        ≡ all_read T.reading (items_view list.now)) }
{
    let mut items = Vec::new(alloc);
    for item in list {
        let Some(read) = T::read(alloc, item)? else {
            return Ok(None);
        };
        items.push(read)?;
    }
    Ok(Some(items))
}

/// A number of sixteen bits has a greatest value.
fn fits(number: u16)
    ensures { IsTrue (nat_le number 65535) }
{}

/// Each of these values is taken.
fn each_taken<T: KeyValue>(values: &[T])
    ensures { IsTrue (list_all T.is_taken values.now) }
{
    for value in values {
        value.taken();
    }
}
