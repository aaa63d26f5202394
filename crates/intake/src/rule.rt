//! What the queue holds, what each seat knows of it, and the rule that ties them.

use crossbeam_queue::RuledArrayQueue;
use crossbeam_queue::protocol::{Join, Lesson, Outcome, Protocol, Split};
use fab_types::Envelope;
use std::collections::LinkedList;

/// An envelope with the number of the seat that sent it.
#[derive(Drop)]
pub struct Parcel {
    pub from: usize,
    pub envelope: Envelope,
}

/// What a seat knows, as a `receiver`, a `sender` or `idle` (`specs/Mail.antt`). It exists in
/// proofs alone.
pub struct View {
    pub sends: bool,
    pub gets: bool,
    pub senders: usize,
    pub from: usize,
    pub put: LinkedList<Envelope>,
    pub made: usize,
    pub got: LinkedList<Parcel>,
    pub known: LinkedList<(usize, LinkedList<Envelope>)>,
}

/// The rule of the queue.
pub struct Mail;

impl Protocol<Parcel, View> for Mail {
    ghost use Rattle.std.specs.Prelude.{[]};
    ghost use Rattle.intake.specs.Mail.{Delivers, receiver};

    ghost holds = { Delivers };

    ghost first = { receiver 0 0 [] [] };
}

/// One sender more is counted.
pub struct Count;

impl Split<View> for Count {
    ghost use Rattle.std.specs.Prelude.{◌+◌};
    ghost use Rattle.intake.specs.Mail.{receiver, idle};

    ghost left = { λ v. receiver (v.senders + 1) v.made v.got v.known };

    ghost right = { λ v. idle };
}

/// The next sender gets its seat.
pub struct Hire;

impl Split<View> for Hire {
    ghost use Rattle.std.specs.Prelude.{◌+◌, []};
    ghost use Rattle.intake.specs.Mail.{receiver, sender};

    ghost left = { λ v. receiver v.senders (v.made + 1) v.got v.known };

    ghost right = { λ v. sender v.senders v.made [] };
}

/// A sender has ended: the receiver knows all that it put.
pub struct Retire;

impl Join<View> for Retire {
    ghost use Rattle.std.specs.Prelude.{[], ◌∷◌, ◌++◌};
    ghost use Rattle.intake.specs.Mail.{receiver, idle};

    ghost both = { λ v w. receiver v.senders v.made v.got (v.known ++ (w.from, w.put) ∷ []) };

    ghost spent = { idle };
}

/// An envelope is put.
pub struct Submits;

impl Outcome<Parcel, View> for Submits {
    ghost use Rattle.std.specs.Prelude.{◌≡◌, [], ◌∷◌, ◌++◌};
    ghost use Rattle.intake.specs.Mail.{sender};

    ghost then = { λ v x w. w ≡ sender v.senders v.from (v.put ++ x.envelope ∷ []) };
}

impl Lesson<Parcel, View> for Submits {
    ghost use Rattle.intake.specs.Mail.{HoldsMine};

    ghost fact = { HoldsMine };
}

/// An envelope is taken.
pub struct Takes;

impl Outcome<Parcel, View> for Takes {
    ghost use Rattle.std.specs.Prelude.{◌≡◌, [], ◌∷◌, ◌++◌};
    ghost use Rattle.intake.specs.Mail.{receiver};

    ghost then = { λ v x w. w ≡ receiver v.senders v.made (v.got ++ x ∷ []) v.known };
}

impl Lesson<Parcel, View> for Takes {
    ghost use Rattle.intake.specs.Mail.{HoldsRest};

    ghost fact = { HoldsRest };
}

/// The queue under its rule.
pub type Queue = RuledArrayQueue<Parcel, View, Mail>;
