//! Values as JSON.

ghost use Rattle.std.specs.Prelude.{◌≡◌, IfOk, map};
ghost use Rattle.serde_json.specs.Data.{Data, array};
ghost use Rattle.serde_json.specs.View.{items_of, view};

use serde_json::Value;
use std::alloc::{AllocError, Global};

/// What is shown as JSON.
pub(crate) trait ToJson {
    /// What it is as JSON.
    ghost json: { Self → Data };

    /// The value that it is as JSON. The only error is want of memory.
    fn to_json(&self, alloc: Global) -> Result<Value, AllocError>
        ensures { IfOk result (λ v. view v ≡ json self.now) };
}

/// A list of what is shown as JSON, in order.
pub(crate) fn list<T: ToJson>(alloc: Global, items: &[T]) -> Result<Value, AllocError>
    ensures { IfOk result (λ v. view v ≡ array (items_of (map T.json items.now))) }
{
    let mut values = Vec::new(alloc);
    for item in items {
        values.push(item.to_json(alloc)?)?;
    }
    Ok(Value::Array(values))
}
