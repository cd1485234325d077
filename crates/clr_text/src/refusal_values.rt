//! Refusals as JSON values.
ghost use Rattle.std.specs.Prelude.{◌≡◌, IfOk, codes};
ghost use Rattle.serde_json.specs.Data.{no_members, object, put as with_member, string};
ghost use Rattle.serde_json.specs.View.{view};
ghost use Rattle.clr_rules.specs.HoldKind.{hold_kind_text};
ghost use Rattle.clr_text.specs.Json.{id_data, whole_data};
ghost use Rattle.clr_text.specs.RefusalText.{refusal_data};

use crate::objects::{Object, object_of_three};
use crate::parts::ToJson;
use clr_rules::{ClearanceId, HoldKind, Refusal};
use serde_json::Value;
use std::alloc::{AllocError, Global};

/// A refusal.
pub(crate) fn refusal_value(alloc: Global, refusal: &Refusal) -> Result<Value, AllocError>
    ensures { IfOk result (λ value. view value ≡ refusal_data refusal.now) }
{
    let number = refusal.number();
    let name = refusal.name();
    match refusal {
        Refusal::SourceInside(section) => of_one(alloc, number, name, "section", section),
        Refusal::NotOnFence(point) => of_one(alloc, number, name, "point", point),
        Refusal::StepsWrong(point) => of_one(alloc, number, name, "point", point),
        Refusal::UnknownPoint(point) => of_one(alloc, number, name, "point", point),
        Refusal::InHand(by) => of_one(alloc, number, name, "by", by),
        Refusal::CrossesFence(by) => of_one(alloc, number, name, "by", by),
        Refusal::Held(by, kind) => of_hold(alloc, number, name, by, *kind),
        _ => object_of_three(
            alloc, "number", &number, "refusal", &name, "reply", &"refused",
        ),
    }
}

/// A refusal that names one thing.
fn of_one<T: ToJson>(
    alloc: Global,
    number: u8,
    name: &str,
    key: &str,
    thing: &T,
) -> Result<Value, AllocError>
    ensures { IfOk result (λ value. view value
        ≡ object (with_member (codes "reply") (string (codes "refused"))
        (with_member (codes "refusal") (string name.now)
        (with_member key.now (T.json_data thing.now)
        (with_member (codes "number") (whole_data number) no_members))))) }
{
    let mut object = Object::new(alloc);
    object.put_two(&"number", &number, &key, thing)?;
    object.put_two(&"refusal", &name, &"reply", &"refused")?;
    Ok(Value::Object(object.members))
}

/// A refusal that names a hold.
fn of_hold(
    alloc: Global,
    number: u8,
    name: &str,
    by: &ClearanceId,
    kind: HoldKind,
) -> Result<Value, AllocError>
    ensures { IfOk result (λ value. view value
        ≡ object (with_member (codes "reply") (string (codes "refused"))
        (with_member (codes "refusal") (string name.now)
        (with_member (codes "number") (whole_data number)
        (with_member (codes "kind") (string (hold_kind_text kind))
        (with_member (codes "by") (id_data by.now) no_members)))))) }
{
    let mut object = Object::new(alloc);
    object.put_two(&"by", by, &"kind", &kind.text())?;
    object.put_three(&"number", &number, &"refusal", &name, &"reply", &"refused")?;
    Ok(Value::Object(object.members))
}
