//! What can happen to a system, and what it replies.

ghost use Rattle.std.specs.Prelude.{◌≡◌};
ghost use Rattle.fabric_core.specs.Numbers.{reply_number};

use fab_types::{Endorsement, Envelope, Flag, Payload, Proposal};
use orderer::BatchReport;
use seq::Seq;
use simulator::SimRefusal;
use std::alloc::AllocError;

/// One step of one actor. Peers and seats are counted from 0.
#[derive(Debug, Drop)]
pub enum Event {
    /// A seat begins to simulate a proposal on the state of its peer.
    Begin {
        peer: usize,
        seat: usize,
        proposal: Proposal,
    },
    /// A seat ends its simulation.
    Finish {
        peer: usize,
        seat: usize,
    },
    /// A client sends an envelope.
    Submit(Envelope),
    /// The orderer takes the front of the queue.
    Take,
    /// The orderer's timeout.
    Tick,
    /// A peer commits its next block.
    Commit {
        peer: usize,
    },
}

impl Clone for Event {
    ghost use Rattle.std.specs.Prelude.{◌≡◌};

    ghost is_clone = { λ a b. b ≡ a };

    fn clone(&self) -> Result<Event, AllocError> {
        Ok(match self {
            Event::Begin {
                peer,
                seat,
                proposal,
            } => Event::Begin {
                peer: *peer,
                seat: *seat,
                proposal: proposal.clone()?,
            },
            Event::Finish { peer, seat } => Event::Finish {
                peer: *peer,
                seat: *seat,
            },
            Event::Submit(envelope) => Event::Submit(envelope.clone()?),
            Event::Take => Event::Take,
            Event::Tick => Event::Tick,
            Event::Commit { peer } => Event::Commit { peer: *peer },
        })
    }
}

/// What a system replies to an event.
#[derive(Debug, Drop)]
pub enum Reply {
    /// Begin, Finish, Commit: there is no such peer (452).
    NoSuchPeer,
    /// Begin, Finish: the peer has no such seat (452).
    NoSuchSeat,
    /// Begin: the seat holds a proposal (451).
    SeatBusy,
    /// Begin: the proposal is simulated on the state at this height.
    Begun(usize),
    /// Finish: nothing was begun at the seat (453).
    NothingBegun,
    /// Finish: the simulation gave no payload (401 to 404, 406 to 408), or something that the
    /// payload read is not as it is in the peer's newest state (405).
    Refused(SimRefusal),
    /// Finish: the payload of the simulation, with the tag of the peer's organisation.
    Endorsed(Payload, Endorsement),
    /// Submit: the envelope stands last in the queue.
    Queued,
    /// Submit: the queue is full (411).
    QueueFull,
    /// Take: the queue is empty. Tick: no envelope waits. Commit: the peer has all blocks.
    Nothing,
    /// Take: the orderer has the envelope. The batches that it ended, and their blocks.
    Ordered(Seq<BatchReport>),
    /// Tick: the batch that the timeout ended, and its block.
    Cut(BatchReport),
    /// Take: the envelope is above the absolute size (421). It is handed back.
    TooLarge(Envelope),
    /// Take, Tick: a block would be needed past the last number (422). A taken envelope is handed
    /// back.
    NoBlockLeft(Option<Envelope>),
    /// Commit: the block of this number is on the peer's chain, with these flags.
    Committed(usize, Seq<Flag>),
}

impl Reply {
    /// The number of the refusal, as it stands at each reply above. None where nothing was refused.
    pub fn number(&self) -> Option<u16>
        ensures { result ≡ reply_number self.now }
    {
        match self {
            Reply::Refused(refusal) => Some(refusal.number()),
            Reply::QueueFull => Some(411),
            Reply::TooLarge(_) => Some(421),
            Reply::NoBlockLeft(_) => Some(422),
            Reply::SeatBusy => Some(451),
            Reply::NoSuchPeer | Reply::NoSuchSeat => Some(452),
            Reply::NothingBegun => Some(453),
            Reply::Begun(_)
            | Reply::Endorsed(..)
            | Reply::Queued
            | Reply::Nothing
            | Reply::Ordered(_)
            | Reply::Cut(_)
            | Reply::Committed(..) => None,
        }
    }
}
