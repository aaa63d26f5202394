//! The seat of the receiver.

ghost use Rattle.std.specs.Prelude.{◌≡◌, ℕ, ◌+◌, ◌<◌, [], ◌∷◌, ◌++◌, IfOk, MatchOption};
ghost use Rattle.std.specs.Arc.{arc_value};
ghost use Rattle.crossbeam_queue.specs.Passes.{view, IsPassOf};
ghost use Rattle.intake.specs.Mail.{receiver, NoneMissing};

use crate::rule::{Count, Hire, Parcel, Queue, Retire, Takes, View};
use crate::sender::SenderSeat;
use crossbeam_queue::Pass;
use fab_types::Envelope;
use std::alloc::AllocError;
use std::sync::{Arc, Wait};

/// The seat of the receiver.
#[derive(Drop)]
pub struct ReceiverSeat {
    pub(crate) queue: Arc<Queue>,
    pub(crate) pass: Pass<Parcel, View>,
    pub ghost of_queue: { IsPassOf (arc_value queue) pass },
    pub ghost gets: { view pass ≡ receiver (view pass).senders (view pass).made (view pass).got (view pass).known },
}

impl ReceiverSeat {
    ghost use Rattle.intake.specs.Seats.{intake_of_sender, intake_of_receiver, number, put, knows, IsFresh, IsSameIntake};

    /// Takes the front in one step. It may spin.
    ///
    /// None only where the queue was empty at one moment of the call: then nothing is missing of
    /// the senders that were retired before.
    pub fn take<R: Wait>(&mut self, rt: &R) -> Option<Envelope>
        ensures same { IsSameIntake self.new self.old ×
            ((knows self.new).senders ≡ (knows self.old).senders) ×
            ((knows self.new).known ≡ (knows self.old).known) }
        ensures got { MatchOption result ((knows self.new).got ≡ (knows self.old).got)
            (λ e. (from : ℕ) ×
            ((knows self.new).got
            ≡ (knows self.old).got ++ record { from = from; envelope = e } ∷ [])) }
        ensures none { MatchOption result (NoneMissing (knows self.new)) (λ _. Unit {0}) }
    {
        match self.queue.pop_as::<Takes, R>(rt, &mut self.pass) {
            Some(Parcel { from: _, envelope }) => Some(envelope),
            None => None,
        }
    }

    /// Takes in a sender that has ended. It takes no memory.
    pub fn retire(&mut self, seat: SenderSeat)
        requires { intake_of_sender seat ≡ intake_of_receiver self.old }
        ensures same { IsSameIntake self.new self.old ×
            ((knows self.new).senders ≡ (knows self.old).senders) ×
            ((knows self.new).got ≡ (knows self.old).got) }
        ensures known { (knows self.new).known
            ≡ (knows self.old).known ++ (number seat, put seat) ∷ [] }
    {
        let SenderSeat {
            queue: _,
            pass,
            from: _,
        } = seat;
        self.queue.absorb::<Retire>(&mut self.pass, pass);
    }

    /// Counts so many senders, before any of their seats is made.
    pub(crate) fn expect(&mut self, senders: usize)
        requires { knows self.old ≡ receiver 0 0 [] [] }
        ensures same { IsSameIntake self.new self.old }
        ensures counted { knows self.new ≡ receiver senders 0 [] [] }
    {
        for _sender in 0..senders {
            let _idle = self.queue.another::<Count>(&mut self.pass);
        }
    }

    /// Makes the next sender's seat.
    pub(crate) fn hire(&mut self, index: usize) -> Result<SenderSeat, AllocError>
        requires next { index ≡ (knows self.old).made }
        requires room { index < (knows self.old).senders }
        ensures same { IsSameIntake self.new self.old }
        ensures made { IfOk result
            (λ _. knows self.new
            ≡ receiver (knows self.old).senders (index + 1) (knows self.old).got
            (knows self.old).known) }
        ensures seat { IfOk result (λ s. IsFresh self.old (knows self.old).senders index s) }
    {
        let queue = Arc::try_clone(&self.queue)?;
        let pass = queue.another::<Hire>(&mut self.pass);
        Ok(SenderSeat {
            queue,
            pass,
            from: index,
        })
    }
}
