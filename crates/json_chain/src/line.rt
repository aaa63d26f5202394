//! Lines of JSON.

ghost use Rattle.std.specs.Prelude.{◌≡◌, ◌≤◌, Some, false, IfOk, string_bytes};
ghost use Rattle.serde_json.specs.Data.{depth};
ghost use Rattle.serde_json.specs.Read.{max_depth, read};
ghost use Rattle.serde_json.specs.View.{view};
ghost use Rattle.serde_json.specs.Written.{compact_text, has_float};
ghost use Rattle.json_chain.specs.Blocks.{block_json};
ghost use Rattle.json_chain.specs.Endings.{ending_json};
ghost use Rattle.json_chain.specs.Entries.{entry_json};
ghost use Rattle.json_chain.specs.Genesis.{genesis_json};
ghost use Rattle.json_chain.specs.Memberships.{standing_behind};
ghost use Rattle.json_chain.specs.JsonText.{IsJsonText};
ghost use Rattle.json_chain.specs.Writes.{IsWriteLine};

use crate::block::block_of;
use crate::ending::{Finding, ending_of};
use crate::entries::{entry_of, written_of};
use crate::genesis::genesis_of;
use crate::placed::Placed;
use crate::standing::standing_of;
use block_store::End;
use endorsement_policy::Rules;
use fab_types::{CommittedBlock, Key, Version};
use ledger_setting::Genesis;
use org_keys::Organisation;
use serde_json::Value;
use std::alloc::{AllocError, Global};
use world_state::Snapshot;

/// A value as one line: without spaces, the fields of each object in the byte order of their names,
/// where it has no float; and it is read back as the value. The only error is want of memory.
pub fn line_of(alloc: Global, value: &Value) -> Result<String, AllocError>
    requires { depth (view value.now) ≤ max_depth }
    ensures text { IfOk result (λ s. has_float (view value.now) ≡ false →
        string_bytes s ≡ compact_text (view value.now)) }
    ensures read { IfOk result (λ s. read (string_bytes s) ≡ Some (view value.now)) }
{
    value.to_string(alloc)
}

/// What a ledger begins with, but for the shared keys. The only error is want of memory.
pub fn genesis_line(alloc: Global, genesis: &Genesis) -> Result<String, AllocError>
    ensures { IfOk result (λ s. IsJsonText (genesis_json genesis.now) (string_bytes s)) }
{
    line_of(alloc, &genesis_of(alloc, genesis)?)
}

/// A block with its hashes, its transactions and their flags, and which of their tags are right
/// under the keys of these organisations. The only error is want of memory.
pub fn block_line(
    alloc: Global,
    organisations: &[Organisation],
    committed: &CommittedBlock,
) -> Result<String, AllocError>
    ensures { IfOk result
        (λ s. IsJsonText (block_json organisations.now committed.now) (string_bytes s)) }
{
    line_of(alloc, &block_of(alloc, organisations, committed)?)
}

/// What stands in the state after a chain: the membership there, where one stands that can be used,
/// else what the genesis says. The only error is want of memory.
pub fn standing_line(
    alloc: Global,
    rules: &Rules,
    snapshot: &Snapshot,
) -> Result<String, AllocError>
    ensures { IfOk result
        (λ s. IsJsonText (standing_behind rules.now snapshot.now) (string_bytes s)) }
{
    line_of(alloc, &standing_of(alloc, rules, snapshot)?)
}

/// What is found of a chain of so many blocks, and how its store ends. The only error is want of
/// memory.
pub fn ending_line(
    alloc: Global,
    finding: Finding,
    blocks: usize,
    end: End,
) -> Result<String, AllocError>
    ensures { IfOk result (λ s. IsJsonText (ending_json finding blocks end) (string_bytes s)) }
{
    line_of(alloc, &ending_of(alloc, finding, blocks, end)?)
}

/// A key of a state, with its value and the version of its last writer. The only error is want of
/// memory.
pub fn entry_line(
    alloc: Global,
    key: &Key,
    value: &fab_types::Value,
    version: Version,
) -> Result<String, AllocError>
    ensures { IfOk result
        (λ s. IsJsonText (entry_json key.now value.now version) (string_bytes s)) }
{
    line_of(alloc, &entry_of(alloc, key, value, version)?)
}

/// What a transaction wrote to a key. None where it is not VALID or does not write the key. The
/// only error is want of memory.
pub fn write_line(
    alloc: Global,
    placed: &Placed<'_>,
    key: &Key,
) -> Result<Option<String>, AllocError>
    ensures { IfOk result
        (IsWriteLine placed.now.envelope.now placed.now.flag key.now placed.now.block
        placed.now.place) }
{
    let Some(value) = written_of(alloc, placed, key)? else {
        return Ok(None);
    };
    Ok(Some(line_of(alloc, &value)?))
}
