//! The seats of the senders.

ghost use Rattle.std.specs.Prelude.{◌≡◌, ◌++◌, ◌∷◌, [], IfErr, MatchResult};
ghost use Rattle.std.specs.Arc.{arc_value};
ghost use Rattle.crossbeam_queue.specs.Passes.{view, IsPassOf};
ghost use Rattle.intake.specs.Mail.{sender};

use crate::rule::{Parcel, Queue, Submits, View};
use crossbeam_queue::Pass;
use fab_types::Envelope;
use std::error::Error;
use std::fmt::{self, Display, Formatter, Write};
use std::sync::{Arc, Wait};

/// The queue was full (411). It hands the envelope back.
#[derive(Debug, Drop)]
pub struct Full {
    pub envelope: Envelope,
}

impl Full {
    /// The number of the refusal: 411.
    pub fn number(&self) -> u16
        ensures { result ≡ 411 }
    {
        411
    }
}

impl Display for Full {
    ghost use Rattle.std.specs.Prelude.{◌++◌, Some, codes};
    ghost use Rattle.std.specs.Fmt.{decimal};

    ghost output = { λ _. Some (codes "refused " ++ decimal 411) };

    fn fmt<W: Write>(&self, f: &mut Formatter<W>) -> fmt::Result {
        write!(f, "refused {}", self.number())
    }
}

impl Error for Full {}

/// The seat of a sender. It ends by `retire`.
#[derive(Drop)]
pub struct SenderSeat {
    pub(crate) queue: Arc<Queue>,
    pub(crate) pass: Pass<Parcel, View>,
    pub(crate) from: usize,
    pub ghost of_queue: { IsPassOf (arc_value queue) pass },
    pub ghost sends: { view pass ≡ sender (view pass).senders from (view pass).put },
}

impl SenderSeat {
    ghost use Rattle.crossbeam_queue.specs.Fifo.{Held};
    ghost use Rattle.intake.specs.Mail.{HoldsMine};
    ghost use Rattle.intake.specs.Seats.{intake_of_sender, capacity_of_sender, sender_knows, senders, number, put};

    /// Puts the envelope behind all that the queue holds, in one step. It may spin.
    ///
    /// Refused only where the queue was full at one moment of the call (411): it then held as many
    /// envelopes as it has places, all of them of its senders.
    pub fn submit<R: Wait>(&mut self, rt: &R, envelope: Envelope) -> Result<(), Full>
        ensures same { (intake_of_sender self.new ≡ intake_of_sender self.old) ×
            (capacity_of_sender self.new ≡ capacity_of_sender self.old) ×
            (senders self.new ≡ senders self.old) × (number self.new ≡ number self.old) }
        ensures put { MatchResult result (λ _. put self.new ≡ put self.old ++ envelope ∷ [])
            (λ full. (full.envelope ≡ envelope) × (put self.new ≡ put self.old)) }
        ensures full { IfErr result
            (λ _. Held (capacity_of_sender self.old) (HoldsMine (sender_knows self.old))) }
    {
        let parcel = Parcel {
            from: self.from,
            envelope,
        };
        match self.queue.push_as::<Submits, R>(rt, &mut self.pass, parcel) {
            Ok(()) => Ok(()),
            Err(Parcel { from: _, envelope }) => Err(Full { envelope }),
        }
    }
}
