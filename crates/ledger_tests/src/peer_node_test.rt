//! Peers on threads: seats that were told of blocks, a payload that goes stale, and refused blocks.

ghost use Rattle.std.specs.Prelude.{◌≡◌, IfSome};
ghost use Rattle.snapshot_cell.specs.Seats.{cell_of_told};
ghost use Rattle.peer_node.specs.Seats.{peer_of};
ghost use Rattle.peer_node.specs.Writers.{peer_of_writer};

use crate::samples::{GET_PUT_A, Setup, opening};
use fab_types::{Key, Proposal};
use orderer::Orderer;
use peer_node::{Peer, PeerWriter, Seat, Told};
use std::alloc::Global;
use std::sync::Wait;
use std::test::Fail;
use std::thread::Threads;

/// Commits the block of a number. None where it is refused.
pub fn commit<R: Threads + Wait + Sync>(
    rt: &R,
    writer: &mut PeerWriter,
    chain: &Orderer,
    number: u32,
) -> Option<Told>
    ensures told { IfSome result (λ t. cell_of_told t ≡ peer_of_writer writer.old) }
    ensures same { peer_of_writer writer.new ≡ peer_of_writer writer.old }
{
    let block = chain.blocks_from(number).first()?;
    match block.clone() {
        Ok(block) => writer.commit(rt, block).ok(),
        Err(_) => None,
    }
}

/// The place of the transaction that wrote a key, as a seat reads it.
fn place(seat: &mut Seat, key: &Key) -> Option<(u32, u32)>
    ensures { peer_of seat.new ≡ peer_of seat.old }
{
    match seat.read(key) {
        Ok(Some((_, version))) => Some((version.block(), version.place())),
        _ => None,
    }
}

/// Commits the block of a number, and tells a seat of it. Whether that was done.
pub fn tell<R: Threads + Wait + Sync>(
    rt: &R,
    writer: &mut PeerWriter,
    chain: &Orderer,
    number: u32,
    seat: &mut Seat,
) -> bool
    requires { peer_of seat.old ≡ peer_of_writer writer.old }
    ensures seat { peer_of seat.new ≡ peer_of seat.old }
    ensures writer { peer_of_writer writer.new ≡ peer_of_writer writer.old }
{
    match commit(rt, writer, chain, number) {
        Some(told) => {
            seat.learn(&told);
            true
        }
        None => false,
    }
}

/// The number of the refusal of what a seat had begun before it was told of a block, or 0.
fn stale<R: Threads + Wait + Sync>(
    rt: &R,
    writer: &mut PeerWriter,
    chain: &Orderer,
    number: u32,
    seat: &mut Seat,
    proposal: &Proposal,
) -> u16
    requires { peer_of seat.old ≡ peer_of_writer writer.old }
{
    let Ok(begun) = seat.begin(proposal) else {
        return 0;
    };
    tell(rt, writer, chain, number, seat);
    match seat.finish(begun) {
        Ok(_) => 0,
        Err(refusal) => refusal.number(),
    }
}

/// The number of the refusal of a block, or 0.
fn commit_refusal<R: Threads + Wait + Sync>(
    rt: &R,
    writer: &mut PeerWriter,
    chain: &Orderer,
    number: u32,
) -> Option<u16>
    ensures { peer_of_writer writer.new ≡ peer_of_writer writer.old }
{
    let block = chain.blocks_from(number).first()?.clone().ok()?;
    match writer.commit(rt, block) {
        Ok(_) => Some(0),
        Err(refusal) => Some(refusal.number()),
    }
}

/// What a seat saw: whether it endorsed, the refusals of block 2, block 1 and block 1 again, where
/// the key was written after block 1 and after it was told of block 3, and the number of the refusal
/// of what it had begun before it was told of block 4.
#[derive(Clone, Copy, PartialEq)]
struct Sight {
    endorsed: bool,
    refusals: [Option<u16>; 3],
    places: [Option<(u32, u32)>; 2],
    refused: u16,
}

fn seen_by<R: Threads + Wait + Sync>(
    rt: &R,
    writer: &mut PeerWriter,
    setup: &Setup,
    seat: &mut Seat,
) -> Option<Sight>
    requires { peer_of seat.old ≡ peer_of_writer writer.old }
{
    let key = &setup.call.payload.writes().as_slice().first()?.key;
    let (proposal, chain) = (setup.call.payload.proposal(), &setup.chain);
    let endorsed = seat.endorse(proposal).is_ok();
    let ahead = commit_refusal(rt, writer, chain, 2);
    let first = commit_refusal(rt, writer, chain, 1);
    let again = commit_refusal(rt, writer, chain, 1);
    let before = place(seat, key);
    commit(rt, writer, chain, 2)?;
    tell(rt, writer, chain, 3, seat);
    let after = place(seat, key);
    let refused = stale(rt, writer, chain, 4, seat, proposal);
    Some(Sight {
        endorsed,
        refusals: [ahead, first, again],
        places: [before, after],
        refused,
    })
}

/// What a seat of a peer saw, and how many blocks the peer has then.
fn seen<R: Threads + Wait + Sync>(rt: &R, alloc: Global, setup: &Setup) -> (Option<Sight>, usize) {
    let genesis = &setup.genesis;
    let Some(org) = genesis.peers.first() else {
        return (None, 0);
    };
    let Ok((mut writer, mut seats)) = Peer::open(rt, alloc, genesis, org, 2) else {
        return (None, 0);
    };
    let seen = match seats.first_mut() {
        Some(seat) => seen_by(rt, &mut writer, setup, seat),
        None => None,
    };
    let height = writer.newest().height();
    writer.close(rt);
    (seen, height)
}

#[test]
fn what_was_told_is_read(rt: HostRuntime) -> Result<(), Fail> {
    let alloc = rt.alloc();
    let seen = seen(&rt, alloc, &opening(alloc, GET_PUT_A, 4)?);
    let expected = Sight {
        endorsed: true,
        refusals: [Some(601), Some(0), Some(601)],
        places: [Some((1, 0)), Some((3, 0))],
        refused: 405,
    };
    assert!(rt; seen == (Some(expected), 4));
    Ok(())
}
