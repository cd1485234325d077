//! What a command says at its keys, as JSON values.
ghost use Rattle.std.specs.Prelude.{◌≡◌, IfOk, map};
ghost use Rattle.serde_json.specs.Data.{boolean, string};
ghost use Rattle.serde_json.specs.View.{view};
ghost use Rattle.clr_order.specs.Step.{task};
ghost use Rattle.clr_text.specs.CommandText.{task_data};
ghost use Rattle.clr_text.specs.Json.{list_data, whole_data};
ghost use Rattle.clr_text.specs.Kinds.{word_text};

use crate::kinds::Word;
use crate::parts::{ToJson, list_value, text_value};
use clr_order::Step;
use clr_rules::{Items, Moment, Tasks, Text};
use serde_json::Value;
use std::alloc::{AllocError, Global};

impl ToJson for Word {
    ghost json_data = { λ word. string (word_text word) };

    fn to_json(&self, alloc: Global) -> Result<Value, AllocError> {
        let word = *self;
        Value::try_from_str(alloc, word.text())
    }
}

impl ToJson for Moment {
    ghost json_data = { whole_data };

    fn to_json(&self, _alloc: Global) -> Result<Value, AllocError> {
        let moment = *self;
        Ok(Value::from(moment.seconds()))
    }
}

impl ToJson for u8 {
    ghost json_data = { whole_data };

    fn to_json(&self, _alloc: Global) -> Result<Value, AllocError> {
        Ok(Value::from(*self))
    }
}

impl ToJson for u16 {
    ghost json_data = { whole_data };

    fn to_json(&self, _alloc: Global) -> Result<Value, AllocError> {
        Ok(Value::from(*self))
    }
}

impl ToJson for usize {
    ghost json_data = { whole_data };

    fn to_json(&self, _alloc: Global) -> Result<Value, AllocError> {
        Ok(Value::from(*self))
    }
}

impl ToJson for bool {
    ghost json_data = { boolean };

    fn to_json(&self, _alloc: Global) -> Result<Value, AllocError> {
        Ok(Value::Bool(*self))
    }
}

impl ToJson for Text {
    ghost json_data = { string };

    fn to_json(&self, alloc: Global) -> Result<Value, AllocError> {
        Value::try_from_str(alloc, self.as_str())
    }
}

impl ToJson for &str {
    ghost json_data = { λ text. string text.now };

    fn to_json(&self, alloc: Global) -> Result<Value, AllocError> {
        Value::try_from_str(alloc, *self)
    }
}

impl<T: ToJson> ToJson for Items<T> {
    ghost json_data = { list_data T.json_data };

    fn to_json(&self, alloc: Global) -> Result<Value, AllocError> {
        list_value(alloc, self.as_slice())
    }
}

impl ToJson for Tasks {
    ghost json_data = { list_data task_data };

    fn to_json(&self, alloc: Global) -> Result<Value, AllocError> {
        tasks_value(alloc, self.as_slice())
    }
}

/// The texts of steps, as a list.
fn tasks_value(alloc: Global, steps: &[Step]) -> Result<Value, AllocError>
    ensures { IfOk result (λ value. view value ≡ list_data task_data (map task steps.now)) }
{
    let mut list = Vec::new(alloc);
    for step in steps {
        list.push(text_value(alloc, step)?)?;
    }
    Ok(Value::Array(list))
}
