//! Replies as JSON values.
ghost use Rattle.std.specs.Prelude.{◌≡◌, IfOk};
ghost use Rattle.serde_json.specs.View.{view};
ghost use Rattle.clr_text.specs.Replies.{card_data, reply_data, view_data};

use crate::objects::{Object, object_of_two};
use crate::parts::ToJson;
use crate::refusal_values::refusal_value;
use clr_net::Name;
use clr_rules::{Card, Reply, View};
use serde_json::Value;
use std::alloc::{AllocError, Global};

/// The JSON value of a reply, as a part of another.
pub fn reply_value(alloc: Global, reply: &Reply) -> Result<Value, AllocError>
    ensures { IfOk result (λ value. view value ≡ reply_data reply.now) }
{
    match reply {
        Reply::Accepted(card) => accepted(alloc, card),
        Reply::Shown(view) => shown(alloc, view),
        Reply::Refused(refusal) => refusal_value(alloc, refusal),
        Reply::Added(point) => added(alloc, point),
    }
}

fn accepted(alloc: Global, card: &Card) -> Result<Value, AllocError>
    ensures { IfOk result (λ value. view value ≡ reply_data (Reply.Accepted card.now)) }
{
    object_of_two(alloc, "card", card, "reply", &"accepted")
}

pub(crate) fn shown(alloc: Global, shown: &View) -> Result<Value, AllocError>
    ensures { IfOk result (λ value. view value ≡ reply_data (Reply.Shown shown.now)) }
{
    object_of_two(alloc, "reply", &"shown", "view", shown)
}

fn added(alloc: Global, point: &Name) -> Result<Value, AllocError>
    ensures { IfOk result (λ value. view value ≡ reply_data (Reply.Added point.now)) }
{
    object_of_two(alloc, "point", point, "reply", &"added")
}

impl ToJson for Card {
    ghost json_data = { card_data };

    fn to_json(&self, alloc: Global) -> Result<Value, AllocError> {
        let phase = self.phase.text();
        let mut object = Object::new(alloc);
        object.put_three(
            &"clearance",
            &self.clearance,
            &"done",
            &self.done,
            &"holder",
            &self.holder,
        )?;
        object.put_three(
            &"phase",
            &phase,
            &"round",
            &self.round,
            &"steps",
            &self.steps,
        )?;
        Ok(Value::Object(object.members))
    }
}

impl ToJson for View {
    ghost json_data = { view_data };

    fn to_json(&self, alloc: Global) -> Result<Value, AllocError> {
        let mut object = Object::new(alloc);
        object.put(&"card", &self.card)?;
        object.put_three(
            &"crews",
            &self.crews,
            &"fence",
            &self.fence,
            &"holds",
            &self.holds,
        )?;
        object.put_three(
            &"points",
            &self.points,
            &"steps",
            &self.steps,
            &"work",
            &self.work,
        )?;
        Ok(Value::Object(object.members))
    }
}
