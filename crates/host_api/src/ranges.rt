//! The entries of a range, as a payload and as a reply have them.

ghost use Rattle.std.specs.Prelude.{◌≡◌, ◌≤◌, ◌<◌, ◌+◌, ◌*◌, ◌%◌, ◌/◌, map, length, IfOk};
ghost use Rattle.std.specs.Map.Iter.{deref_pair};
ghost use Rattle.wasm_meaning.specs.Memory.{with_bytes};
ghost use Rattle.host_api.specs.Recorded.{Recorded};
ghost use Rattle.host_api.specs.HostStep.{replies, reply_range_bytes, reply_entry_bytes};
ghost use Rattle.host_api.specs.Recording.{key_and_value, version_entry};

use crate::memory::{Span, write_bytes};
use fab_types::limits::{MOST_KEY_BYTES, MOST_RANGE_ENTRIES, MOST_VALUE_BYTES};
use fab_types::{Key, RangeEntry, Value, Version};
use std::alloc::{AllocError, Global};
use wasm_ast::HostAnswer;

/// The keys of entries, with their versions.
pub fn range_entries(
    alloc: Global,
    entries: &[(&Key, &(Value, Version))],
) -> Result<Vec<RangeEntry>, AllocError>
    ensures { IfOk result (λ v. v.items ≡ map version_entry (map deref_pair entries.now)) }
{
    let mut items = Vec::with_capacity(alloc, entries.len())?;
    for (key, entry) in entries {
        items.push(RangeEntry {
            key: (*key).clone()?,
            version: entry.1,
        })?;
    }
    Ok(items)
}

/// Answers the length of the reply that these entries make, which is written only if it fits its
/// room whole.
pub fn range_reply(
    entries: &[(&Key, &(Value, Version))],
    room: Span,
    memory: &mut [u8],
) -> HostAnswer
    requires count { length entries.now ≤ MOST_RANGE_ENTRIES }
    requires room { room.pointer + room.len ≤ length memory.old }
    ensures { (s : Recorded) →
        replies (reply_range_bytes (map key_and_value (map deref_pair entries.now))) room.pointer
        room.len memory.old s
        ≡ record { answer = result; memory = memory.new; records = s } }
{
    let len = reply_len(entries);
    if len <= room.len {
        write_entries(entries, room.pointer as usize, memory);
    }
    HostAnswer::Value(len)
}

/// The length of the reply.
fn reply_len(entries: &[(&Key, &(Value, Version))]) -> u32
    requires { length entries.now ≤ MOST_RANGE_ENTRIES }
    ensures { result ≡ length (reply_range_bytes (map key_and_value (map deref_pair entries.now))) }
{
    let mut len = 1;
    for (key, entry) in entries {
        len += 3 + key.as_slice().len() as u32 + entry.0.as_slice().len() as u32;
    }
    len
}

/// Writes the reply from a place on.
fn write_entries(entries: &[(&Key, &(Value, Version))], at: usize, memory: &mut [u8])
    requires count { length entries.now ≤ MOST_RANGE_ENTRIES }
    requires room { at + length (reply_range_bytes (map key_and_value (map deref_pair entries.now)))
        ≤ length memory.old }
    ensures { memory.new
        ≡ with_bytes memory.old at
        (reply_range_bytes (map key_and_value (map deref_pair entries.now))) }
{
    memory[at] = entries.len() as u8;
    let mut next = at + 1;
    for (key, entry) in entries {
        next = write_entry(key.as_slice(), entry.0.as_slice(), next, memory);
    }
}

/// Writes an entry from a place on, and answers the place after it.
fn write_entry(key: &[u8], value: &[u8], at: usize, memory: &mut [u8]) -> usize
    requires key { length key.now ≤ MOST_KEY_BYTES }
    requires value { length value.now ≤ MOST_VALUE_BYTES }
    requires room { at + length (reply_entry_bytes (key.now, value.now)) ≤ length memory.old }
    ensures written { memory.new
        ≡ with_bytes memory.old at (reply_entry_bytes (key.now, value.now)) }
    ensures next { result ≡ at + length (reply_entry_bytes (key.now, value.now)) }
{
    memory[at] = key.len() as u8;
    write_bytes(memory, at + 1, key);
    let middle = at + 1 + key.len();
    memory[middle] = (value.len() % 256) as u8;
    memory[middle + 1] = (value.len() / 256) as u8;
    write_bytes(memory, middle + 2, value);
    middle + 2 + value.len()
}
