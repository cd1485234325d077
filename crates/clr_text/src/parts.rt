//! Names, clearances, holds, points and steps as JSON values.
ghost use Rattle.std.specs.Prelude.{◌≡◌, IfOk};
ghost use Rattle.serde_json.specs.Data.{Data};
ghost use Rattle.serde_json.specs.View.{view};
ghost use Rattle.clr_order.specs.Step.{task};
ghost use Rattle.clr_text.specs.CommandText.{task_data};
ghost use Rattle.clr_text.specs.Json.{hold_data, id_data, list_data, name_data, optional_data};
ghost use Rattle.clr_text.specs.Json.{point_data, step_data};

use crate::objects::object_of_three;
use crate::words::position_text;
use clr_net::Name;
use clr_order::{Step, step_text};
use clr_rules::{ClearanceId, Hold, PointState};
use serde_json::Value;
use std::alloc::{AllocError, Global};

/// What is written as a JSON value.
pub(crate) trait ToJson {
    ghost json_data: { Self → Data };

    /// The JSON value of it.
    fn to_json(&self, alloc: Global) -> Result<Value, AllocError>
        ensures { IfOk result (λ value. view value ≡ json_data self.now) };
}

/// A list of these.
pub(crate) fn list_value<T: ToJson>(alloc: Global, items: &[T]) -> Result<Value, AllocError>
    ensures { IfOk result (λ value. view value ≡ list_data T.json_data items.now) }
{
    let mut list = Vec::new(alloc);
    for item in items {
        list.push(item.to_json(alloc)?)?;
    }
    Ok(Value::Array(list))
}

/// What there is, or null.
impl<T: ToJson> ToJson for Option<T> {
    ghost json_data = { optional_data T.json_data };

    fn to_json(&self, alloc: Global) -> Result<Value, AllocError> {
        match self {
            Some(item) => item.to_json(alloc),
            None => Ok(Value::Null),
        }
    }
}

impl ToJson for Name {
    ghost json_data = { name_data };

    fn to_json(&self, alloc: Global) -> Result<Value, AllocError> {
        Value::try_from_str(alloc, self.as_str())
    }
}

impl ToJson for ClearanceId {
    ghost json_data = { id_data };

    fn to_json(&self, alloc: Global) -> Result<Value, AllocError> {
        let id = *self;
        let text = format!(in alloc; "{id}")?;
        Ok(Value::String(text))
    }
}

impl ToJson for Hold {
    ghost json_data = { hold_data };

    fn to_json(&self, alloc: Global) -> Result<Value, AllocError> {
        let kind = self.kind.text();
        object_of_three(alloc, "by", &self.id, "kind", &kind, "place", &self.place)
    }
}

impl ToJson for PointState {
    ghost json_data = { point_data };

    fn to_json(&self, alloc: Global) -> Result<Value, AllocError> {
        let position = position_text(self.position);
        object_of_three(
            alloc,
            "hand",
            &self.hand,
            "point",
            &self.point,
            "position",
            &position,
        )
    }
}

impl ToJson for Step {
    ghost json_data = { step_data };

    fn to_json(&self, alloc: Global) -> Result<Value, AllocError> {
        let state = self.state.text();
        let text = TextOf { step: self };
        object_of_three(
            alloc,
            "reader",
            &self.reader,
            "state",
            &state,
            "text",
            &text,
        )
    }
}

/// The text of a step.
#[derive(Drop)]
struct TextOf<'a> {
    step: &'a Step,
}

impl<'a> ToJson for TextOf<'a> {
    ghost json_data = { λ text. task_data (task text.step.now) };

    fn to_json(&self, alloc: Global) -> Result<Value, AllocError> {
        text_value(alloc, self.step)
    }
}

/// The text of a step, as a JSON value.
pub(crate) fn text_value(alloc: Global, step: &Step) -> Result<Value, AllocError>
    ensures { IfOk result (λ value. view value ≡ task_data (task step.now)) }
{
    let text = step_text(alloc, step)?;
    Ok(Value::String(text))
}
