//! A seat on a thread of its own.

ghost use Rattle.std.specs.Prelude.{◌≡◌, ◌∷◌, ◌++◌, []};
ghost use Rattle.intake.specs.Seats.{intake_of_sender, number, put};
ghost use Rattle.peer_node.specs.Seats.{seen_chain, peer_of, endorsing_of};
ghost use Rattle.seat_threads.specs.Rounds.{proposal_of, ComesTo};
ghost use Rattle.seat_threads.specs.Work.{Works};

use crate::counts::Counts;
use crate::endorsing::{envelope, proposal};
use fab_types::{Envelope, Name};
use intake::{Full, SenderSeat};
use peer_node::{FinishRefusal, Seat};
use std::alloc::Global;
use std::sync::Wait;
use std::sync::atomic::{AtomicU64, Ordering};
use std::thread;

/// A seat with its number, the chaincode that it calls, where it submits, and what its rounds came
/// to.
#[derive(Drop)]
pub struct Worker {
    pub alloc: Global,
    pub number: u64,
    pub chaincode: Name,
    pub seat: Seat,
    pub sender: SenderSeat,
    pub counts: Counts,
}

impl Worker {
    /// Endorses and submits a proposal in each of so many rounds, and then counts itself as ended.
    pub fn work<R: Wait>(mut self, rt: &R, rounds: u32, ended: &AtomicU64) -> Worker
        ensures { Works rounds self result }
    {
        self.counts = Counts::none();
        for round in 0..rounds {
            match self.endorse(round) {
                Ok(envelope) => {
                    submit(rt, &mut self.sender, envelope);
                    self.counts.endorsed += 1;
                }
                Err(refusal) => self.counts.refuse(refusal),
            }
        }
        ended.fetch_add(1, Ordering::SeqCst);
        self
    }

    /// The envelope of a round. Refused as the seat's endorsement is, and for want of memory.
    fn endorse(&mut self, round: u32) -> Result<Envelope, FinishRefusal>
        ensures comes { ComesTo (endorsing_of self.old.seat)
            (proposal_of self.old.chaincode self.old.number round)
            (seen_chain self.old.seat) (seen_chain self.new.seat) result }
        ensures seat { (endorsing_of self.new.seat ≡ endorsing_of self.old.seat) ×
            (peer_of self.new.seat ≡ peer_of self.old.seat) }
        ensures same { (self.new.number ≡ self.old.number) ×
            (self.new.chaincode ≡ self.old.chaincode) }
        ensures sender { self.new.sender ≡ self.old.sender }
        ensures counts { self.new.counts ≡ self.old.counts }
    {
        let proposal = proposal(self.alloc, &self.chaincode, self.number, u64::from(round))?;
        envelope(self.alloc, &mut self.seat, &proposal)
    }
}

/// Submits an envelope, again while the intake is full.
fn submit<R: Wait>(rt: &R, sender: &mut SenderSeat, envelope: Envelope)
    ensures put { put sender.new ≡ put sender.old ++ envelope ∷ [] }
    ensures same { (intake_of_sender sender.new ≡ intake_of_sender sender.old) ×
        (number sender.new ≡ number sender.old) }
{
    let mut waiting = envelope;
    'submits: for _ in rt.forever() {
        match sender.submit(rt, waiting) {
            Ok(()) => return,
            Err(Full { envelope }) => waiting = envelope,
        }
        thread::yield_now();
    }
    unreachable!()
}
