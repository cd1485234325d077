//! JSON objects that are being made, member by member.
ghost use Rattle.std.specs.Prelude.{◌≡◌, IfOk, List, OnOk, ℕ};
ghost use Rattle.serde_json.specs.Data.{no_members, object, put as with_member};
ghost use Rattle.serde_json.specs.View.{members_view, view};
ghost use Rattle.clr_text.specs.Keys.{key_text};

use crate::key::Key;
use crate::parts::ToJson;
use serde_json::{Map, Value, put};
use std::alloc::{AllocError, Global};

/// What names a member.
pub(crate) trait Named {
    ghost named: { Self → List ℕ };

    /// The name.
    fn name(&self) -> &str
        ensures { result.now ≡ named self.now };
}

impl Named for Key {
    ghost named = { key_text };

    fn name(&self) -> &str {
        let key = *self;
        key.text()
    }
}

impl Named for &str {
    ghost named = { λ name. name.now };

    fn name(&self) -> &str {
        *self
    }
}

/// The members of an object that is being made.
#[derive(Drop)]
pub(crate) struct Object {
    alloc: Global,
    pub(crate) members: Map<String, Value>,
}

impl Object {
    /// No member yet.
    pub(crate) fn new(alloc: Global) -> Object
        ensures { members_view result.members.entries ≡ no_members }
    {
        Object {
            alloc,
            members: Map::new(alloc),
        }
    }

    /// Puts a member.
    pub(crate) fn put<K: Named, T: ToJson>(&mut self, key: &K, said: &T) -> Result<(), AllocError>
        ensures { OnOk result (members_view self.new.members.entries
            ≡ with_member (K.named key.now) (T.json_data said.now)
            (members_view self.old.members.entries)) }
    {
        let value = said.to_json(self.alloc)?;
        put(&mut self.members, self.alloc, key.name(), value)
    }

    /// Puts a member, then another.
    pub(crate) fn put_two<K: Named, T: ToJson, U: ToJson>(
        &mut self,
        key: &K,
        said: &T,
        next: &K,
        also: &U,
    ) -> Result<(), AllocError>
        ensures { OnOk result (members_view self.new.members.entries
            ≡ with_member (K.named next.now) (U.json_data also.now)
            (with_member (K.named key.now) (T.json_data said.now)
            (members_view self.old.members.entries))) }
    {
        self.put(key, said)?;
        self.put(next, also)
    }

    /// Puts a member, another, then a third.
    pub(crate) fn put_three<K: Named, T: ToJson, U: ToJson, V: ToJson>(
        &mut self,
        key: &K,
        said: &T,
        next: &K,
        also: &U,
        last: &K,
        end: &V,
    ) -> Result<(), AllocError>
        ensures { OnOk result (members_view self.new.members.entries
            ≡ with_member (K.named last.now) (V.json_data end.now)
            (with_member (K.named next.now) (U.json_data also.now)
            (with_member (K.named key.now) (T.json_data said.now)
            (members_view self.old.members.entries)))) }
    {
        self.put_two(key, said, next, also)?;
        self.put(last, end)
    }
}

/// An object of two members.
pub(crate) fn object_of_two<T: ToJson, U: ToJson>(
    alloc: Global,
    key: &str,
    said: &T,
    next: &str,
    also: &U,
) -> Result<Value, AllocError>
    ensures { IfOk result (λ value. view value ≡ object (with_member next.now (U.json_data also.now)
        (with_member key.now (T.json_data said.now) no_members))) }
{
    let mut object = Object::new(alloc);
    object.put_two(&key, said, &next, also)?;
    Ok(Value::Object(object.members))
}

/// An object of three members.
pub(crate) fn object_of_three<T: ToJson, U: ToJson, V: ToJson>(
    alloc: Global,
    key: &str,
    said: &T,
    next: &str,
    also: &U,
    last: &str,
    end: &V,
) -> Result<Value, AllocError>
    ensures { IfOk result (λ value. view value ≡ object (with_member last.now (V.json_data end.now)
        (with_member next.now (U.json_data also.now)
        (with_member key.now (T.json_data said.now) no_members)))) }
{
    let mut object = Object::new(alloc);
    object.put_three(&key, said, &next, also, &last, end)?;
    Ok(Value::Object(object.members))
}
