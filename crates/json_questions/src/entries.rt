//! What a state has, as JSON.

ghost use Rattle.std.specs.Prelude.{◌≡◌, IfOk, map};
ghost use Rattle.std.specs.FinMap.{get};
ghost use Rattle.std.specs.Map.Iter.{deref_pair};
ghost use Rattle.serde_json.specs.Data.{array};
ghost use Rattle.serde_json.specs.View.{items_of, view};
ghost use Rattle.ledger_model.specs.Views.{first};
ghost use Rattle.world_state.specs.Writing.{as_state};
ghost use Rattle.json_chain.specs.Entries.{entries_json, entry_json};
ghost use Rattle.json_questions.specs.Answers.{or_null};

use fab_types::{Bound, Key, Value as Bytes, Version};
use json_chain::entry_of;
use serde_json::Value;
use std::alloc::{AllocError, Global};
use world_state::{StateMap, first_entries};

/// What a key has in a state; null where it is absent.
pub(crate) fn entry_at(alloc: Global, state: &StateMap, key: &Key) -> Result<Value, AllocError>
    ensures { IfOk result
        (λ v. view v
        ≡ or_null (λ e. entry_json key.now e.0 e.1)
        (get (as_state state.now.entries) key.now)) }
{
    match state.get(key) {
        Some(entry) => entry_of(alloc, key, &entry.0, entry.1),
        None => Ok(Value::Null),
    }
}

/// The first so many entries of a range of a state.
pub(crate) fn entries_of(
    alloc: Global,
    state: &StateMap,
    start: &Bound,
    end: &Bound,
    limit: usize,
) -> Result<Value, AllocError>
    ensures { IfOk result
        (λ v. view v
        ≡ array
        (items_of
        (entries_json (first (as_state state.now.entries) start.now end.now limit)))) }
{
    let entries = first_entries(alloc, state, start, end, limit)?;
    list_of(alloc, &entries)
}

/// These entries.
fn list_of(alloc: Global, entries: &[(&Key, &(Bytes, Version))]) -> Result<Value, AllocError>
    ensures { IfOk result
        (λ v. view v ≡ array (items_of (entries_json (map deref_pair entries.now)))) }
{
    let mut values = Vec::new(alloc);
    for (key, entry) in entries {
        values.push(entry_of(alloc, key, &entry.0, entry.1)?)?;
    }
    Ok(Value::Array(values))
}
