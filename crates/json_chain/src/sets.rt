//! What a transaction read and wrote, as JSON.

ghost use Rattle.std.specs.Prelude.{◌≡◌, IfOk};
ghost use Rattle.serde_json.specs.View.{view};
ghost use Rattle.json_chain.specs.Sets.{range_entry_json, range_json, read_json, seen_json, write_item_json};

use crate::object::Object;
use crate::texts::value_of;
use crate::to_json::ToJson;
use fab_types::{RangeEntry, RangeItem, ReadItem, Version, WriteItem};
use serde_json::Value;
use std::alloc::{AllocError, Global};

/// The version that was seen; null where the key was absent.
fn seen(alloc: Global, version: Option<Version>) -> Result<Value, AllocError>
    ensures { IfOk result (λ v. view v ≡ seen_json version) }
{
    match version {
        Some(version) => version.to_json(alloc),
        None => Ok(Value::Null),
    }
}

impl ToJson for ReadItem {
    ghost json = { read_json };

    fn to_json(&self, alloc: Global) -> Result<Value, AllocError> {
        let mut object = Object::new(alloc);
        object.put_hex("key", self.key.as_slice())?;
        object.put("version", seen(alloc, self.version)?)?;
        Ok(object.into_value())
    }
}

impl ToJson for RangeEntry {
    ghost json = { range_entry_json };

    fn to_json(&self, alloc: Global) -> Result<Value, AllocError> {
        let mut object = Object::new(alloc);
        object.put_hex("key", self.key.as_slice())?;
        object.put_json("version", &self.version)?;
        Ok(object.into_value())
    }
}

impl ToJson for RangeItem {
    ghost json = { range_json };

    fn to_json(&self, alloc: Global) -> Result<Value, AllocError> {
        let mut object = Object::new(alloc);
        object.put_hex("end", self.end().as_slice())?;
        object.put_list("entries", self.entries())?;
        object.put("limit", Value::from(self.limit()))?;
        object.put_hex("start", self.start().as_slice())?;
        Ok(object.into_value())
    }
}

impl ToJson for WriteItem {
    ghost json = { write_item_json };

    fn to_json(&self, alloc: Global) -> Result<Value, AllocError> {
        let mut object = Object::new(alloc);
        object.put_hex("key", self.key.as_slice())?;
        object.put("value", value_of(alloc, &self.value)?)?;
        Ok(object.into_value())
    }
}
