//! Objects, member by member.

ghost use Rattle.std.specs.Prelude.{◌≡◌, OnOk};
ghost use Rattle.serde_json.specs.Data.{no_members, object, put as with_member, string};
ghost use Rattle.serde_json.specs.View.{view};
ghost use Rattle.json_chain.specs.Members.{members_in};
ghost use Rattle.json_chain.specs.Texts.{hex_json, list_json};

use crate::texts::hex_of;
use crate::to_json::{ToJson, list};
use serde_json::{Map, Value};
use std::alloc::{AllocError, Global};

/// An object that is being made. A function that puts several members in borrows it, and so owns
/// nothing where one of them fails.
#[derive(Drop)]
pub struct Object {
    alloc: Global,
    members: Map<String, Value>,
}

impl Object {
    /// An object of no members.
    pub fn new(alloc: Global) -> Object
        ensures { members_in result ≡ no_members }
    {
        Object {
            alloc,
            members: Map::new(alloc),
        }
    }

    /// Puts a member in. The only error is want of memory, as of the others below.
    pub fn put(&mut self, name: &str, value: Value) -> Result<(), AllocError>
        ensures { OnOk result
            (members_in self.new ≡ with_member name.now (view value) (members_in self.old)) }
    {
        serde_json::put(&mut self.members, self.alloc, name, value)
    }

    /// Puts a member in that is a text.
    pub fn put_text(&mut self, name: &str, text: &str) -> Result<(), AllocError>
        ensures { OnOk result
            (members_in self.new ≡ with_member name.now (string text.now) (members_in self.old)) }
    {
        self.put(name, Value::try_from_str(self.alloc, text)?)
    }

    /// Puts a member in that is bytes in hex.
    pub fn put_hex(&mut self, name: &str, bytes: &[u8]) -> Result<(), AllocError>
        ensures { OnOk result
            (members_in self.new ≡ with_member name.now (hex_json bytes.now) (members_in self.old)) }
    {
        self.put(name, hex_of(self.alloc, bytes)?)
    }

    /// Puts a member in that is shown as JSON.
    pub(crate) fn put_json<T: ToJson>(&mut self, name: &str, item: &T) -> Result<(), AllocError>
        ensures { OnOk result
            (members_in self.new ≡ with_member name.now (T.json item.now) (members_in self.old)) }
    {
        self.put(name, item.to_json(self.alloc)?)
    }

    /// Puts a member in that is a list of what is shown as JSON.
    pub(crate) fn put_list<T: ToJson>(&mut self, name: &str, items: &[T]) -> Result<(), AllocError>
        ensures { OnOk result
            (members_in self.new
            ≡ with_member name.now (list_json T.json items.now) (members_in self.old)) }
    {
        self.put(name, list(self.alloc, items)?)
    }

    /// The object, as a value.
    pub fn into_value(self) -> Value
        ensures { view result ≡ object (members_in self) }
    {
        let Object { members, .. } = self;
        Value::Object(members)
    }
}
