//! What is kept of a chain of two blocks, in which an id comes twice and an amendment stands; and ids
//! in runs.

use crate::samples::{is_taken, transaction};
use fab_types::{Block, Bound, Flag, Key};
use id_runs::IdRuns;
use kept_state::State;
use orderer::Orderer;
use std::alloc::{AllocError, Global};
use std::test::Fail;
use wire::{decode_envelope, header_hash};
use world_state::{Judged, Past, tx_ids};

/// The bytes of an amendment that no one endorsed: A keeps its key, and the policy is `'A'`.
const AMENDMENT: [u8; 40] =
    *b"\x80\x01\x00\x00\x00\x01\x01\x01A\x00\x00\x03'A'\x00\x00\x00\x00\x00\x00\x00\x00\x00\x00\x00\x00\x00\x00\x00\x00\x00\x00\x00\x00\x00\x00\x00\x00\x00";

/// Orders two blocks: of two calls, and of an amendment and the first call once more. Whether all
/// were taken.
fn are_ordered(alloc: Global, orderer: &mut Orderer) -> bool {
    is_taken(orderer, transaction(alloc, 1, 1))
        && is_taken(orderer, transaction(alloc, 2, 2))
        && is_taken(orderer, decode_envelope(alloc, &AMENDMENT).ok())
        && is_taken(orderer, transaction(alloc, 1, 1))
}

/// Whether a block of two transactions is put behind what is kept, the first of them VALID and the
/// other one with this flag.
fn is_put(
    alloc: Global,
    state: &mut State,
    block: &Block,
    second: Flag,
) -> Result<bool, AllocError> {
    let is_next = block.header.number.get() == state.height() + 1;
    if !is_next || block.envelopes.as_slice().len() != 2 {
        return Ok(false);
    }
    let mut flags = Vec::with_capacity(alloc, 2)?;
    flags.push(Flag::Valid)?;
    flags.push(second)?;
    let ids = tx_ids(alloc, block)?;
    state.extend(alloc, block, &Judged { flags, ids })?;
    Ok(true)
}

/// Whether the hashes of both headers are kept, none of a third one, and the next header names the
/// second.
fn has_hashes(state: &State, first: &Block, second: &Block) -> bool {
    state.first_hash() == 1
        && state.hash(1) == Some(header_hash(&first.header))
        && state.hash(2) == Some(header_hash(&second.header))
        && state.hash(3).is_none()
        && state.link() == header_hash(&second.header)
}

/// Whether the genesis stands before block 2, and the membership of serial number 1 before block 3.
fn has_amended(state: &State) -> bool {
    match state.membership_before(3) {
        Some(membership) => membership.serial == 1 && state.membership_before(2).is_none(),
        None => false,
    }
}

/// Whether block 1 put the value at the key `01`.
fn has_put(state: &State) -> bool {
    let Some(key) = Key::from_slice(&[1]) else {
        return false;
    };
    match (state.get(&key), state.map().get(&key)) {
        (Some((value, version)), Some(entry)) => {
            version.block() == 1 && value.as_slice() == entry.0.as_slice() && version == entry.1
        }
        _ => false,
    }
}

/// Whether the first entry of all is that of the key `01`.
fn has_entries(alloc: Global, state: &State) -> bool {
    let Some(none) = Bound::new(Vec::new(alloc)) else {
        return false;
    };
    match state.entries_in(&none, &none).next() {
        Some((key, _)) => key.as_slice() == [1].as_slice(),
        None => false,
    }
}

/// Whether two blocks are put behind nothing, and what is kept answers as it has to.
fn is_kept(alloc: Global, state: &mut State, blocks: &[Block]) -> Result<bool, AllocError> {
    let [first, second] = blocks else {
        return Ok(false);
    };
    let ids = tx_ids(alloc, first)?;
    let is_first = is_put(alloc, state, first, Flag::Valid)?;
    let is_second = is_put(alloc, state, second, Flag::DuplicateTxid)?;
    let has_ids = ids
        .iter()
        .all(|id| state.has_tx(id) && state.block_of(id) == Some(1));
    Ok(
        is_first
            && is_second
            && has_ids
            && has_hashes(state, first, second)
            && has_amended(state)
            && has_put(state)
            && has_entries(alloc, state),
    )
}

#[test]
fn two_blocks_are_kept(rt: HostRuntime) -> Result<(), Fail> {
    let alloc = rt.alloc();
    let mut orderer = Orderer::new(alloc, 2, 1000, 1000, false);
    let are_ordered = are_ordered(alloc, &mut orderer);
    let mut state = State::empty(alloc);
    let is_kept = is_kept(alloc, &mut state, orderer.blocks());
    assert!(rt; are_ordered && is_kept == Ok(true));
    Ok(())
}

/// Whether ids of two blocks have the first block that came with them, and older ids stay.
fn are_found(alloc: Global) -> Result<bool, AllocError> {
    let first = IdRuns::empty(alloc).with(alloc, &[[1; 32], [2; 32]], 1)?;
    let both = first.with(alloc, &[[2; 32], [3; 32]], 2)?;
    Ok(
        both.find(&[1; 32]) == Some(1)
            && both.find(&[2; 32]) == Some(1)
            && both.find(&[3; 32]) == Some(2)
            && both.find(&[4; 32]).is_none()
            && first.find(&[3; 32]).is_none(),
    )
}

#[test]
fn ids_have_their_first_block(rt: HostRuntime) -> Result<(), Fail> {
    let are_found = are_found(rt.alloc());
    assert!(rt; are_found == Ok(true));
    Ok(())
}
