//! Calls that are refused one growth of memory, if any: they answer that they are, and the same call
//! then answers as if nothing had been.
//!
//! `rt ci` runs these tests with memory enough, and `test/documents growths` once for each of their
//! growths, with that one refused.

ghost use Rattle.std.specs.Prelude.{◌≡◌};
ghost use Rattle.peer_node.specs.Seats.{peer_of};
ghost use Rattle.peer_node.specs.Writers.{peer_of_writer};

use crate::peer_node_test::tell;
use crate::samples::{GET_PUT_A, Setup, opening};
use fab_types::{Envelope, Flag, Proposal};
use fabric_core::{Event, Reply, System};
use peer_node::{Peer, PeerWriter, Seat, TakeRefusal};
use std::alloc::{AllocError, Global};
use std::sync::Wait;
use std::test::Fail;
use std::thread::Threads;
use world_state::Snapshot;

/// Whether a chain has one block, with one VALID transaction.
fn is_valid_alone(snapshot: &Snapshot) -> bool {
    let flags = snapshot.last().map(|last| last.flags());
    snapshot.height() == 1 && flags == Some([Flag::Valid].as_slice())
}

/// The event at a place of the steps by which a seat endorses a call, and by which one with an
/// endorsement comes to the peer's chain.
fn event_at(place: usize, call: &Envelope) -> Result<Event, AllocError> {
    Ok(match place {
        0 => Event::Begin {
            peer: 0,
            seat: 0,
            proposal: call.payload.proposal().clone()?,
        },
        1 => Event::Finish { peer: 0, seat: 0 },
        2 => Event::Submit(call.clone()?),
        3 => Event::Take,
        _ => Event::Commit { peer: 0 },
    })
}

/// Whether this is replied to the event at a place of those.
fn is_reply(place: usize, reply: &Reply) -> bool {
    matches!(
        (place, reply),
        (0, Reply::Begun(0))
            | (1, Reply::Endorsed(..))
            | (2, Reply::Queued)
            | (3, Reply::Ordered(_))
            | (4, Reply::Committed(1, _))
    )
}

/// Whether a system replies so to the event at a place.
fn is_replied_once(system: &mut System, place: usize, call: &Envelope) -> Result<bool, AllocError> {
    let event = event_at(place, call)?;
    match system.step(event) {
        Ok(reply) => Ok(is_reply(place, &reply)),
        Err(refused) => Err(refused),
    }
}

/// Whether a system replies so, again where it was refused memory.
fn is_replied(system: &mut System, place: usize, call: &Envelope) -> bool {
    match is_replied_once(system, place, call) {
        Ok(is_replied) => is_replied,
        Err(_) => is_replied_once(system, place, call) == Ok(true),
    }
}

/// Whether each of the five events is replied to, and the peer has the block.
fn are_replied(system: &mut System, call: &Envelope) -> bool {
    let mut are_replied = true;
    for place in 0..5 {
        are_replied = is_replied(system, place, call) && are_replied;
    }
    are_replied && system.snapshot(0).is_some_and(is_valid_alone)
}

/// Whether the steps are taken by a system with a setup's genesis.
fn are_taken(alloc: Global, setup: &Setup) -> Result<bool, AllocError> {
    let mut system = System::new(alloc, &setup.genesis)?;
    Ok(are_replied(&mut system, &setup.call))
}

#[test]
fn steps_are_taken_again(rt: HostRuntime) -> Result<(), Fail> {
    let alloc = rt.alloc();
    let are_taken = are_taken(alloc, &opening(alloc, GET_PUT_A, 0)?);
    assert!(rt; are_taken?);
    Ok(())
}

/// What a peer with one seat does: the seat endorses, and a block is committed of which it is told.
fn endorse_and_commit<R: Threads + Wait + Sync>(
    rt: &R,
    writer: &mut PeerWriter,
    seat: &mut Seat,
    setup: &Setup,
) -> bool
    requires { peer_of seat.old ≡ peer_of_writer writer.old }
{
    is_endorsed(seat, setup.call.payload.proposal()) && is_told(rt, writer, seat, setup)
}

/// Whether a seat endorses a call, again where it was refused memory.
fn is_endorsed(seat: &mut Seat, proposal: &Proposal) -> bool
    ensures { peer_of seat.new ≡ peer_of seat.old }
{
    match seat.endorse(proposal) {
        Ok(_) => true,
        Err(refusal) => refusal.number() == 9 && seat.endorse(proposal).is_ok(),
    }
}

/// Whether the first block of a chain is committed, again where it was refused memory, and the seat
/// sees it.
fn is_told<R: Threads + Wait + Sync>(
    rt: &R,
    writer: &mut PeerWriter,
    seat: &mut Seat,
    setup: &Setup,
) -> bool
    requires { peer_of seat.old ≡ peer_of_writer writer.old }
{
    let chain = &setup.chain;
    let is_told = tell(rt, writer, chain, 1, seat) || tell(rt, writer, chain, 1, seat);
    is_told && is_valid_alone(writer.newest()) && is_read(seat, &setup.call)
}

/// Whether a seat reads what a transaction puts, again where it was refused memory.
fn is_read(seat: &mut Seat, call: &Envelope) -> bool {
    let [put] = call.payload.writes().as_slice() else {
        return false;
    };
    let found = match seat.read(&put.key) {
        Err(TakeRefusal::Memory) => seat.read(&put.key),
        found => found,
    };
    matches!(found, Ok(Some(_)))
}

/// What a peer that opens with one seat does, as `endorse_and_commit` says.
fn are_peers_calls_answered<R: Threads + Wait + Sync>(
    rt: &R,
    alloc: Global,
    setup: &Setup,
) -> Result<bool, Fail> {
    let Some(org) = setup.genesis.peers.first() else {
        return Err("a peer".into());
    };
    let Ok((mut writer, mut seats)) = Peer::open(rt, alloc, &setup.genesis, org, 1) else {
        return Err("a peer".into());
    };
    let are_answered = match seats.first_mut() {
        Some(seat) => endorse_and_commit(rt, &mut writer, seat, setup),
        None => false,
    };
    writer.close(rt);
    Ok(are_answered)
}

#[test]
fn peers_answer_again(rt: HostRuntime) -> Result<(), Fail> {
    let alloc = rt.alloc();
    let are_answered = are_peers_calls_answered(&rt, alloc, &opening(alloc, GET_PUT_A, 1)?);
    assert!(rt; are_answered?);
    Ok(())
}
