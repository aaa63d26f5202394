//! Reads on one thread beside a long endorsement on another, while blocks are committed on a third.

use crate::peer_node_test::commit;
use crate::samples::{LOOP, Setup, opening};
use fab_types::{Key, Proposal};
use orderer::Orderer;
use peer_node::{Peer, PeerWriter, Seat};
use std::alloc::Global;
use std::sync::Wait;
use std::sync::atomic::{AtomicU64, Ordering};
use std::test::Fail;
use std::thread::{Threads, join};

/// How many blocks are committed.
const BLOCKS: u8 = 20;

/// The number of the refusal of a proposal, or 0. Others are then told that it has come.
fn endorse_long(mut seat: Seat, proposal: &Proposal, ended: &AtomicU64) -> u16 {
    let number = match seat.endorse(proposal) {
        Ok(_) => 0,
        Err(refusal) => refusal.number(),
    };
    ended.store(1, Ordering::SeqCst);
    number
}

/// Reads a key until the endorsement has ended. Whether each read was answered.
fn read_until_ended<R: Wait>(rt: &R, mut seat: Seat, key: &Key, ended: &AtomicU64) -> bool {
    let mut are_answered = true;
    'reads: for _ in rt.forever() {
        are_answered = seat.read(key).is_ok() && are_answered;
        if ended.load(Ordering::SeqCst) == 1 {
            break;
        }
    }
    are_answered
}

/// Lets one seat endorse a proposal while another reads a key, each on a thread of its own.
fn endorse_and_read<R: Threads + Wait + Sync>(
    rt: &R,
    endorsing: Seat,
    reading: Seat,
    proposal: &Proposal,
    key: &Key,
) -> (u16, bool) {
    let ended = AtomicU64::new(0);
    let ended = &ended;
    join(
        rt,
        move || endorse_long(endorsing, proposal, ended),
        move || read_until_ended(rt, reading, key, ended),
    )
}

/// Commits the blocks of a chain. Whether none was refused.
fn commit_each<R: Threads + Wait + Sync>(rt: &R, writer: &mut PeerWriter, chain: &Orderer) -> bool {
    let mut are_committed = true;
    for index in 0..u32::from(BLOCKS) {
        are_committed = commit(rt, writer, chain, index + 1).is_some() && are_committed;
    }
    are_committed
}

/// What the threads met: the number of the refusal of the endorsement, and whether each read was
/// answered and each block taken.
type Met = ((u16, bool), bool);

/// What the threads meet, of which one endorses the call and one reads the key that it writes.
fn meet<R: Threads + Wait + Sync>(
    rt: &R,
    writer: &mut PeerWriter,
    setup: &Setup,
    endorsing: Seat,
    reading: Seat,
) -> Option<Met> {
    let proposal = setup.call.payload.proposal();
    let [write] = setup.call.payload.writes().as_slice() else {
        return None;
    };
    let (key, chain) = (&write.key, &setup.chain);
    Some(join(
        rt,
        || endorse_and_read(rt, endorsing, reading, proposal, key),
        || commit_each(rt, writer, chain),
    ))
}

/// What the threads of a peer with two seats meet, and how many blocks it has then.
fn met<R: Threads + Wait + Sync>(rt: &R, alloc: Global, setup: &Setup) -> (Option<Met>, usize) {
    let genesis = &setup.genesis;
    let Some(org) = genesis.peers.first() else {
        return (None, 0);
    };
    let Ok((mut writer, mut seats)) = Peer::open(rt, alloc, genesis, org, 2) else {
        return (None, 0);
    };
    let met = match (seats.pop(), seats.pop()) {
        (Some(one), Some(two)) => meet(rt, &mut writer, setup, one, two),
        _ => None,
    };
    let height = writer.newest().height();
    writer.close(rt);
    (met, height)
}

#[test]
fn reads_go_on_beside_a_long_endorsement(rt: HostRuntime) -> Result<(), Fail> {
    let alloc = rt.alloc();
    let met = met(&rt, alloc, &opening(alloc, LOOP, BLOCKS)?);
    assert!(rt; met == (Some(((403, true), true)), usize::from(BLOCKS)));
    Ok(())
}
