//! Entries of a state, and writes to a key, as JSON.

ghost use Rattle.std.specs.Prelude.{◌≡◌, IfOk, option_map};
ghost use Rattle.serde_json.specs.View.{view};
ghost use Rattle.ledger_model.specs.State.{write_of};
ghost use Rattle.json_chain.specs.Entries.{entry_json, placed_write_json};
ghost use Rattle.json_chain.specs.Writes.{did_json, placed_at};

use crate::object::Object;
use crate::placed::Placed;
use crate::texts::value_of;
use crate::writes::written_to;
use fab_types::{Flag, Key, Version};
use serde_json::Value;
use std::alloc::{AllocError, Global};
use wire::payload_id;

/// A key of a state, with its value and the version of its last writer. The only error is want of
/// memory.
pub fn entry_of(
    alloc: Global,
    key: &Key,
    value: &fab_types::Value,
    version: Version,
) -> Result<Value, AllocError>
    ensures { IfOk result (λ v. view v ≡ entry_json key.now value.now version) }
{
    let mut object = Object::new(alloc);
    object.put_hex("key", key.as_slice())?;
    object.put_hex("value", value.as_slice())?;
    object.put_json("version", &version)?;
    Ok(object.into_value())
}

/// What a transaction did to a key. None where it is not VALID or does not write the key. The only
/// error is want of memory.
pub fn written_of(
    alloc: Global,
    placed: &Placed<'_>,
    key: &Key,
) -> Result<Option<Value>, AllocError>
    ensures { IfOk result (λ v. let t = placed_at placed.now.envelope.now placed.now.flag
        placed.now.block placed.now.place in
        option_map view v ≡ option_map (did_json t key.now) (write_of t key.now)) }
{
    if !matches!(placed.flag, Flag::Valid) {
        return Ok(None);
    }
    let payload = &placed.envelope.payload;
    let Some(value) = written_to(payload.writes().as_slice(), key) else {
        return Ok(None);
    };
    let id = payload_id(payload);
    Ok(Some(write_of(alloc, &id, placed, key, value)?))
}

/// What the transaction of this id wrote to a key, at its place in the chain.
fn write_of(
    alloc: Global,
    id: &[u8; 32],
    placed: &Placed<'_>,
    key: &Key,
    value: &Option<fab_types::Value>,
) -> Result<Value, AllocError>
    ensures { IfOk result
        (λ v. view v
        ≡ placed_write_json id.now placed.now.block placed.now.place key.now value.now) }
{
    let mut object = Object::new(alloc);
    object.put("block", Value::from(placed.block))?;
    object.put_hex("id", id)?;
    object.put_hex("key", key.as_slice())?;
    object.put("place", Value::from(placed.place))?;
    object.put("value", value_of(alloc, value)?)?;
    Ok(object.into_value())
}
