//! What the payloads of calls, upgrades and amendments may name.

ghost use Rattle.std.specs.Prelude.{◌≡◌, IfOk};
ghost use Rattle.ledger_model.specs.Flags.{version_at};
ghost use Rattle.world_state.specs.Writing.{as_state};
ghost use Rattle.endorsement_policy.specs.Endorsed.{is_amend_payload, is_no_newer, is_one_put, is_one_read, is_put_payload, is_upgrade_payload, is_value, names_no_other, reads_no_newer, reads_no_other, reads_own, writes_own, writes_shown};

use fab_types::{
    Amend, Edition, Key, Name, Namespace, Payload, ReadItem, Upgrade, Value, Version, WriteItem,
    is_shown,
};
use std::alloc::{AllocError, Global};
use wire::{encode_definition, encode_membership};
use world_state::StateMap;

/// Whether the key that the proposal is about is read.
pub(crate) fn reads_own(payload: &Payload) -> bool
    ensures { result ≡ reads_own payload.now }
{
    let proposal = payload.proposal();
    let reads = payload.reads().as_slice();
    reads.iter().any(|r| r.key.is_of_proposal(proposal))
}

/// Whether each other key that is read is shown.
fn reads_no_other(payload: &Payload) -> bool
    ensures { result ≡ reads_no_other payload.now }
{
    let proposal = payload.proposal();
    let reads = payload.reads().as_slice();
    reads.iter().all(|r| r.key.is_of_proposal(proposal) || is_shown(r.key.as_slice()))
}

/// Whether each key that is written is shown.
fn writes_shown(payload: &Payload) -> bool
    ensures { result ≡ writes_shown payload.now }
{
    let writes = payload.writes().as_slice();
    writes.iter().all(|w| is_shown(w.key.as_slice()))
}

/// Whether no key that is not shown is named but the one that the proposal is about, and that one
/// is not written.
pub(crate) fn names_no_other(payload: &Payload) -> bool
    ensures { result ≡ names_no_other payload.now }
{
    reads_no_other(payload) && writes_shown(payload)
}

/// Whether each key that is written, or deleted, is in the namespace of the chaincode.
pub(crate) fn writes_own(edition: Edition, chaincode: &Name, payload: &Payload) -> bool
    ensures { result ≡ writes_own edition chaincode.now payload.now }
{
    let namespace = Namespace::of(edition, chaincode);
    let writes = payload.writes().as_slice();
    writes.iter().all(|w| namespace.holds(w.key.as_slice()))
}

/// Whether each key that is read is no newer than in the state.
pub(crate) fn reads_no_newer(state: &StateMap, payload: &Payload) -> bool
    ensures { result ≡ reads_no_newer (as_state state.now.entries) payload.now }
{
    let reads = payload.reads().as_slice();
    reads.iter().all(|r| is_read_no_newer(state, r))
}

/// Whether a key was read no newer than it is in the state.
fn is_read_no_newer(state: &StateMap, read: &ReadItem) -> bool
    ensures { result
        ≡ is_no_newer (version_at (as_state state.now.entries) read.now.key) read.now.version }
{
    is_no_newer(standing_version(state, &read.key), read.version)
}

/// The version of a key in the state. None where the key is absent.
fn standing_version(state: &StateMap, key: &Key) -> Option<Version>
    ensures { result ≡ version_at (as_state state.now.entries) key.now }
{
    match state.get(key) {
        Some(entry) => Some(entry.1),
        None => None,
    }
}

/// Whether what was read is absent, or of a version that is no later than the one that stands.
fn is_no_newer(standing: Option<Version>, read: Option<Version>) -> bool
    ensures { result ≡ is_no_newer standing read }
{
    match (standing, read) {
        (_, None) => true,
        (None, Some(_)) => false,
        (Some(standing), Some(read)) => !(standing < read),
    }
}

/// Whether this is what an upgrade makes: it puts the new definition at its key. The only error is
/// want of memory.
pub(crate) fn is_upgrade_payload(
    alloc: Global,
    upgrade: &Upgrade,
    payload: &Payload,
) -> Result<bool, AllocError>
    ensures { IfOk result (λ b. b ≡ is_upgrade_payload upgrade.now payload.now) }
{
    let key = Key::of_definition(&upgrade.chaincode);
    let definition = encode_definition(alloc, &upgrade.definition)?;
    Ok(is_put_payload(&key, &definition, payload))
}

/// Whether this is what an amendment makes: it puts the new membership at its key. The only error
/// is want of memory.
pub(crate) fn is_amend_payload(
    alloc: Global,
    amend: &Amend,
    payload: &Payload,
) -> Result<bool, AllocError>
    ensures { IfOk result (λ b. b ≡ is_amend_payload amend.now payload.now) }
{
    let key = Key::of_membership();
    let membership = encode_membership(alloc, &amend.membership)?;
    Ok(is_put_payload(&key, &membership, payload))
}

/// Whether one key is read and no more, nothing is answered, and these bytes are put at that key.
fn is_put_payload(key: &Key, bytes: &[u8], payload: &Payload) -> bool
    ensures { result ≡ is_put_payload key.now bytes.now payload.now }
{
    is_one_read(key, payload.reads().as_slice())
        && payload.ranges().as_slice().is_empty()
        && payload.result().as_slice().is_empty()
        && is_one_put(key, bytes, payload.writes().as_slice())
}

/// Whether this key is read, and nothing else.
fn is_one_read(key: &Key, reads: &[ReadItem]) -> bool
    ensures { result ≡ is_one_read key.now reads.now }
{
    match reads {
        [read] => read.key.as_slice() == key.as_slice(),
        _ => false,
    }
}

/// Whether these bytes are put at this key, and nothing else is written.
fn is_one_put(key: &Key, bytes: &[u8], writes: &[WriteItem]) -> bool
    ensures { result ≡ is_one_put key.now bytes.now writes.now }
{
    match writes {
        [write] => write.key.as_slice() == key.as_slice() && is_value(bytes, &write.value),
        _ => false,
    }
}

/// Whether the value is there, and has these bytes.
fn is_value(bytes: &[u8], value: &Option<Value>) -> bool
    ensures { result ≡ is_value bytes.now value.now }
{
    match value {
        Some(value) => value.as_slice() == bytes,
        None => false,
    }
}
