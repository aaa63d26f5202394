//! An older snapshot, behind which a hundred blocks are put, and an id that comes twice.

use crate::samples::{deletion, is_taken, transaction};
use committer::{Replay, commit_on};
use fab_types::{Block, Bound, Edition, Envelope, Flag, Key, Value, Version};
use orderer::Orderer;
use std::alloc::{AllocError, Global};
use wire::tx_id;
use world_state::Snapshot;

/// How many blocks the older snapshot has.
const OLD: usize = 5;

/// How many blocks there are: a hundred more.
const ALL: u8 = 105;

/// The transaction of a block: it puts the key of one byte that is the block's number and one more,
/// or 1 for block 80. From block 81 on the keys come again from 2 on, and those of even blocks are
/// deleted.
fn nth(alloc: Global, number: u8) -> Option<Envelope> {
    let key = number % 80 + 1;
    if number > 80 && number % 2 == 0 {
        deletion(alloc, number, key)
    } else {
        transaction(alloc, number, key)
    }
}

/// Orders the transactions of the blocks. Whether all were taken.
fn are_ordered(alloc: Global, orderer: &mut Orderer) -> bool {
    let mut are_ordered = true;
    for number in 1..=ALL {
        are_ordered &= is_taken(orderer, nth(alloc, number));
    }
    are_ordered
}

/// Whether a copy of a block of one transaction, which is endorsed, joins a chain with this flag.
fn is_pushed(
    alloc: Global,
    chain: &mut Replay,
    block: &Block,
    flag: Flag,
) -> Result<bool, AllocError> {
    if block.envelopes.as_slice().len() != 1 {
        return Ok(false);
    }
    match chain.push(alloc, Edition::First, block.clone()?, &[true]) {
        Ok(flags) => Ok(flags == [flag].as_slice()),
        Err(_) => Ok(false),
    }
}

/// Whether blocks of one transaction each join a chain, each VALID.
fn are_pushed(alloc: Global, chain: &mut Replay, blocks: &[Block]) -> Result<bool, AllocError> {
    let mut are_pushed = true;
    for block in blocks {
        are_pushed &= is_pushed(alloc, chain, block, Flag::Valid)?;
    }
    Ok(are_pushed)
}

/// Whether an entry is that of blocks 1 to 5 with this key: `1`, put by the block whose number is
/// one less.
fn is_old(key: u8, value: &Value, version: Version) -> bool {
    value.as_slice() == b"1".as_slice()
        && version.block() == u32::from(key.wrapping_sub(1))
        && version.place() == 0
        && version.block() <= OLD as u32
}

/// Whether a snapshot of blocks 1 to 5 has their keys, 2 to 6, and no other.
fn is_found(old: &Snapshot, key: &Key) -> bool {
    let [key_byte] = key.as_slice() else {
        return false;
    };
    match old.get(key) {
        Some((value, version)) => is_old(*key_byte, value, version),
        None => *key_byte < 2 || *key_byte > 6,
    }
}

/// Whether a snapshot of blocks 1 to 5 answers so of the key and the id of a block.
fn is_of_block(alloc: Global, old: &Snapshot, block: &Block) -> Result<bool, AllocError> {
    let [envelope] = block.envelopes.as_slice() else {
        return Ok(false);
    };
    let [write] = envelope.payload.writes().as_slice() else {
        return Ok(false);
    };
    let id = tx_id(alloc, envelope.payload.proposal())?;
    let number = block.header.number.get();
    let has = number <= OLD as u32;
    let first = if has { Some(number) } else { None };
    Ok(old.has_tx(&id) == has && old.block_of(&id) == first && is_found(old, &write.key))
}

/// Whether entries are those of blocks 1 to 5, in key order.
fn are_old(entries: &[(&Key, &(Value, Version))]) -> bool {
    let mut key = 2;
    for (found, (value, version)) in entries {
        if found.as_slice() != [key].as_slice() || !is_old(key, value, *version) {
            return false;
        }
        key = key.wrapping_add(1);
    }
    entries.len() == OLD
}

/// Whether a snapshot of blocks 1 to 5 answers of its height, of the range of all keys, and of each
/// key and id of these blocks as it has to.
fn is_as_it_was(alloc: Global, old: &Snapshot, blocks: &[Block]) -> Result<bool, AllocError> {
    let Some(none) = Bound::new(Vec::new(alloc)) else {
        return Ok(false);
    };
    let mut is = old.height() == OLD && are_old(&old.range(alloc, &none, &none, 100)?);
    for block in blocks {
        is &= is_of_block(alloc, old, block)?;
    }
    Ok(is)
}

/// Whether a hundred blocks join a chain behind an older snapshot, which stays as it is: the first
/// makes a snapshot that shares its parts, and the others change that one.
fn are_put_behind(
    alloc: Global,
    old: &Snapshot,
    next: &Block,
    blocks: &[Block],
) -> Result<bool, AllocError> {
    if next.envelopes.as_slice().len() != 1 {
        return Ok(false);
    }
    match commit_on(alloc, Edition::First, old, next.clone()?, &[true]) {
        Ok(newest) => are_all(alloc, &mut Replay::new(newest), blocks),
        Err(_) => Ok(false),
    }
}

/// Whether blocks join a chain, which then has all of them. Of 80 keys, 12 are deleted.
fn are_all(alloc: Global, newest: &mut Replay, blocks: &[Block]) -> Result<bool, AllocError> {
    let are_pushed = are_pushed(alloc, newest, blocks)?;
    let newest = newest.snapshot();
    Ok(are_pushed && newest.height() == usize::from(ALL) && newest.entries(alloc)?.len() == 68)
}

fn is_kept(alloc: Global, old: &mut Replay, blocks: &[Block]) -> Result<bool, AllocError> {
    let (first, later) = blocks.split_at(OLD.min(blocks.len()));
    let [next, rest @ ..] = later else {
        return Ok(false);
    };
    let are_first = are_pushed(alloc, old, first)?;
    let old = old.snapshot();
    let before = is_as_it_was(alloc, old, blocks)?;
    let are_behind = are_put_behind(alloc, old, next, rest)?;
    let after = is_as_it_was(alloc, old, blocks)?;
    Ok(are_first && before && are_behind && after)
}

/// Whether an older snapshot stays as it is where an orderer's blocks are put behind it.
fn is_kept_behind(alloc: Global, orderer: &mut Orderer) -> bool {
    let are_ordered = are_ordered(alloc, orderer);
    let mut old = Replay::new(Snapshot::empty(alloc));
    are_ordered && is_kept(alloc, &mut old, orderer.blocks()) == Ok(true)
}

#[test]
fn an_older_snapshot_stays_as_it_is(rt: HostRuntime) {
    let alloc = rt.alloc();
    let is_kept = is_kept_behind(alloc, &mut Orderer::new(alloc, 1, 1000, 1000, false));
    assert!(rt; is_kept);
}

/// Whether two blocks of one transaction, the same one, join a chain, and its id then has block 1.
fn has_first_block(
    alloc: Global,
    chain: &mut Replay,
    blocks: &[Block],
) -> Result<bool, AllocError> {
    let [first, second] = blocks else {
        return Ok(false);
    };
    let [envelope] = first.envelopes.as_slice() else {
        return Ok(false);
    };
    let id = tx_id(alloc, envelope.payload.proposal())?;
    let is_first = is_pushed(alloc, chain, first, Flag::Valid)?;
    let is_second = is_pushed(alloc, chain, second, Flag::DuplicateTxid)?;
    Ok(is_first && is_second && chain.snapshot().block_of(&id) == Some(1))
}

/// Whether the id of a transaction that an orderer is given twice has its first block.
fn is_first_of_two(alloc: Global, orderer: &mut Orderer) -> bool {
    let is_first = is_taken(orderer, transaction(alloc, 1, 1));
    let is_second = is_taken(orderer, transaction(alloc, 1, 1));
    let mut chain = Replay::new(Snapshot::empty(alloc));
    is_first && is_second && has_first_block(alloc, &mut chain, orderer.blocks()) == Ok(true)
}

#[test]
fn an_id_that_comes_twice_has_its_first_block(rt: HostRuntime) {
    let alloc = rt.alloc();
    let is_first = is_first_of_two(alloc, &mut Orderer::new(alloc, 1, 1000, 1000, false));
    assert!(rt; is_first);
}
