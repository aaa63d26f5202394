//! Peers that come back with the blocks of their stores.

use crate::peer_node_test::commit;
use crate::samples::{GET_PUT_A, Setup, opening};
use block_store::{append, load};
use fab_types::{Block, CommittedBlock, Flag, Key, Value, Version};
use orderer::Orderer;
use peer_node::{Peer, PeerWriter, ReopenRefusal};
use std::alloc::{AllocError, Global};
use std::sync::{Arc, Wait};
use std::test::Fail;
use std::thread::Threads;
use store_devices::Counted;
use store_replay::RecommitRefusal;
use world_state::Snapshot;

/// Appends a block of one transaction with this flag. Whether that was done.
fn is_appended(alloc: Global, device: &mut Counted<Vec<u8>>, block: &Block, flag: Flag) -> bool {
    block.envelopes.as_slice().len() == 1 && append(alloc, device, block, &[flag]).is_ok()
}

/// Appends blocks that are VALID, but for the one of a number, which is a conflict.
fn append_each(
    alloc: Global,
    device: &mut Counted<Vec<u8>>,
    blocks: &[Block],
    other: u32,
) -> Result<(), Fail> {
    for block in blocks {
        let flag = if block.header.number.get() == other {
            Flag::MvccReadConflict
        } else {
            Flag::Valid
        };
        if !is_appended(alloc, device, block, flag) {
            return Err("a record".into());
        }
    }
    Ok(())
}

/// The bytes of a store of these blocks, of which the one of a number has another flag.
fn store(alloc: Global, blocks: &[Block], other: u32) -> Result<Vec<u8>, Fail> {
    let mut device = Counted::new(Vec::new(alloc));
    append_each(alloc, &mut device, blocks, other)?;
    Ok(device.into_inner())
}

/// Whether each of these blocks has one transaction, which is VALID.
fn are_valid(blocks: &[Arc<CommittedBlock>]) -> bool {
    let mut are_valid = true;
    for block in blocks {
        are_valid &= block.flags() == [Flag::Valid].as_slice();
    }
    are_valid
}

/// Whether an entry of a state is `1` at this key, put by the one transaction of this block.
fn is_put(entry: &(&Key, &(Value, Version)), key: &[u8], block: u32) -> bool {
    let (value, version) = entry.1;
    entry.0.as_slice() == key
        && value.as_slice() == b"1".as_slice()
        && version.block() == block
        && version.place() == 0
}

/// Whether the state of a chain is that after the five blocks.
fn is_state_of_five(alloc: Global, chain: &Snapshot) -> Result<bool, AllocError> {
    let entries = chain.entries(alloc)?;
    Ok(match entries.as_slice() {
        [a, b, k] => is_put(a, b"a", 4) && is_put(b, b"b", 2) && is_put(k, b"k", 5),
        _ => false,
    })
}

/// Whether a chain is that of the five blocks.
fn is_whole(alloc: Global, chain: &Snapshot) -> bool {
    chain.height() == 5 && are_valid(chain.blocks()) && is_state_of_five(alloc, chain) == Ok(true)
}

/// The height of a peer, and whether its chain is whole once it has taken blocks 4 and 5.
fn caught_up<R: Threads + Wait + Sync>(
    rt: &R,
    alloc: Global,
    writer: &mut PeerWriter,
    chain: &Orderer,
) -> (usize, bool) {
    let before = writer.newest().height();
    commit(rt, writer, chain, 4);
    commit(rt, writer, chain, 5);
    (before, is_whole(alloc, writer.newest()))
}

/// What becomes of a peer that comes back with a store, or why it does not. None where there is
/// none.
fn reopened<R: Threads + Wait + Sync>(
    rt: &R,
    alloc: Global,
    setup: &Setup,
    bytes: &[u8],
) -> Option<Result<(usize, bool), ReopenRefusal>> {
    let org = setup.genesis.peers.first()?;
    let loaded = load(alloc, &mut Counted::new(bytes)).ok()?;
    match Peer::reopen(rt, alloc, &setup.genesis, org, 1, loaded) {
        Ok((mut writer, _seats)) => {
            let caught_up = caught_up(rt, alloc, &mut writer, &setup.chain);
            writer.close(rt);
            Some(Ok(caught_up))
        }
        Err(refusal) => Some(Err(refusal)),
    }
}

/// Whether the bytes of a store, but for ten of the end of its fourth record, give three blocks, and
/// with blocks 4 and 5 the flags and the state of all five; and whether a store with another flag of
/// its second block is refused, and the block is named.
fn comes_back<R: Threads + Wait + Sync>(
    rt: &R,
    alloc: Global,
    setup: &Setup,
) -> Result<bool, Fail> {
    let whole = store(alloc, setup.chain.blocks(), 0)?;
    let other = store(alloc, setup.chain.blocks(), 2)?;
    let end = (whole.len() / 5 * 4).saturating_sub(10);
    let is_back = reopened(rt, alloc, setup, whole.get(..end).unwrap_or(&[]));
    let is_refused = reopened(rt, alloc, setup, &other);
    let refusal = ReopenRefusal::Stored(RecommitRefusal::Flags(2));
    Ok(is_back == Some(Ok((3, true))) && is_refused == Some(Err(refusal)))
}

#[test]
fn a_peer_comes_back_with_its_store(rt: HostRuntime) -> Result<(), Fail> {
    let alloc = rt.alloc();
    let comes_back = comes_back(&rt, alloc, &opening(alloc, GET_PUT_A, 5)?);
    assert!(rt; comes_back?);
    Ok(())
}
