//! A run of events, whose replies are told one by one.

use crate::samples::{GET_PUT_A, Setup, opening};
use fab_types::Proposal;
use fabric_core::{Audit, Event, Ran, Reply, audit, run};
use ledger_setting::Genesis;
use std::alloc::{AllocError, Global};
use std::test::Fail;

/// A call that begins and is endorsed, and what comes to nothing.
fn events(alloc: Global, proposal: &Proposal) -> Result<Vec<Event>, AllocError> {
    let begin = Event::Begin {
        peer: 0,
        seat: 0,
        proposal: proposal.clone()?,
    };
    let finish = Event::Finish { peer: 0, seat: 0 };
    let (none, nobody) = (Event::Commit { peer: 0 }, Event::Commit { peer: 1 });
    Ok(vec![in alloc; begin, finish, Event::Take, Event::Tick, none, nobody]?)
}

/// The replies that those events have.
fn are_replies(replies: &[Reply]) -> bool {
    matches!(
        replies,
        [
            Reply::Begun(0),
            Reply::Endorsed(..),
            Reply::Nothing,
            Reply::Nothing,
            Reply::Nothing,
            Reply::NoSuchPeer,
        ]
    )
}

/// Whether all was done, and the peer's chain is empty and agrees.
fn is_done(alloc: Global, genesis: &Genesis, ran: &Ran) -> Result<bool, AllocError> {
    let Some(snapshot) = ran.system.snapshot(0) else {
        return Ok(false);
    };
    let agrees = audit(alloc, genesis, snapshot)? == Audit::Agrees { rerun: 0 };
    Ok(agrees && !ran.refused && snapshot.height() == 0 && are_replies(&ran.replies))
}

fn is_run(alloc: Global, setup: &Setup) -> Result<bool, AllocError> {
    let genesis = &setup.genesis;
    let events = events(alloc, setup.call.payload.proposal())?;
    let ran = run(alloc, genesis, &events)?;
    is_done(alloc, genesis, &ran)
}

#[test]
fn a_run_replies_to_each_event(rt: HostRuntime) -> Result<(), Fail> {
    let alloc = rt.alloc();
    let is_run = is_run(alloc, &opening(alloc, GET_PUT_A, 0)?);
    assert!(rt; is_run == Ok(true));
    Ok(())
}
