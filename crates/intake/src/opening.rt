//! How an intake is opened.

ghost use Rattle.std.specs.Prelude.{◌≡◌, ℕ, ◌<◌, [], length, IfOk, slice_get, Some, All};
ghost use Rattle.intake.specs.Mail.{receiver};
ghost use Rattle.intake.specs.Seats.{intake_of_sender, intake_of_receiver, capacity_of_receiver, knows, IsFresh};

use crate::receiver::ReceiverSeat;
use crate::rule::Queue;
use crate::sender::SenderSeat;
use std::alloc::{AllocError, Global};
use std::sync::Arc;

/// Opens intakes.
pub struct Intake;

impl Intake {
    /// A queue of so many places, at least 1, with the seats of so many senders, numbered from 0.
    /// The only error is want of memory.
    pub fn open(
        alloc: Global,
        capacity: usize,
        senders: usize,
    ) -> Result<(Vec<SenderSeat>, ReceiverSeat), AllocError>
        requires { 0 < capacity }
        ensures receiver { IfOk result
            (λ t. (capacity_of_receiver t.1 ≡ capacity) ×
            (knows t.1 ≡ receiver senders senders [] [])) }
        ensures length { IfOk result (λ t. length t.0.items ≡ senders) }
        ensures of { IfOk result
            (λ t. All (λ s. intake_of_sender s ≡ intake_of_receiver t.1) t.0.items) }
        ensures seats { IfOk result
            (λ t. (k : ℕ) (s : SenderSeat) → slice_get t.0.items k ≡ Some s →
            IsFresh t.1 senders k s) }
    {
        let (queue, pass) = Queue::ruled(alloc, capacity)?;
        let queue = Arc::new(alloc, queue)?;
        let mut receiver = ReceiverSeat { queue, pass };
        receiver.expect(senders);
        let mut seats = Vec::with_capacity(alloc, senders)?;
        for index in 0..senders {
            let seat = receiver.hire(index)?;
            seats.push(seat)?;
        }
        Ok((seats, receiver))
    }
}
