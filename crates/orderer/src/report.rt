//! What an orderer answers.

ghost use Rattle.std.specs.Prelude.{◌≡◌};
ghost use Rattle.orderer.specs.declared.report.OrderCause.TheVariants.{Memory};
ghost use Rattle.orderer.specs.Numbers.{cause_number};

use crate::arrangement::AbortCause;
use batch_cutter::Cause;
use fab_types::Envelope;
use seq::Seq;
use std::alloc::{AllocError, AllocFailed};
use std::error::Error;
use std::fmt::{self, Display, Formatter, Write};

/// What became of a batch.
#[derive(Debug, Drop)]
pub struct BatchReport {
    /// The number of its block. None where nothing survived, so that there is no block.
    pub block: Option<u32>,
    /// How many transactions its block has: 0 where there is no block.
    pub count: usize,
    /// The places in the batch as it was cut, from 0, of the transactions that are left out,
    /// ascending, and why.
    pub aborted: Seq<(u16, AbortCause)>,
}

/// Why the orderer refused a call.
#[derive(Clone, Copy, Debug, Drop, PartialEq, Eq)]
pub enum OrderCause {
    /// The envelope is above the absolute size.
    TooLarge = 421,
    /// The call would need a block past the last one that the ledger's rules allow.
    NoNumber = 422,
    /// A growth of memory was refused.
    Memory = 9,
}

/// A call that was refused and changed nothing.
#[derive(Debug, Drop)]
pub struct OrderRefusal {
    /// The envelope, handed back. None where the call brought none, as a tick.
    pub envelope: Option<Envelope>,
    pub cause: OrderCause,
}

impl OrderCause {
    /// The number of the refusal: 9, 421 or 422.
    pub fn number(self) -> u16
        ensures { result ≡ cause_number self }
    {
        self as u16
    }
}

impl Display for OrderCause {
    ghost use Rattle.std.specs.Prelude.{◌++◌, Some, codes};
    ghost use Rattle.std.specs.Fmt.{decimal};

    ghost output = { λ c. Some (codes "refused " ++ decimal (cause_number c)) };

    fn fmt<W: Write>(&self, f: &mut Formatter<W>) -> fmt::Result {
        write!(f, "refused {}", self.number())
    }
}

impl Error for OrderCause {}

impl Display for OrderRefusal {
    ghost use Rattle.std.specs.Prelude.{◌++◌, Some, codes};
    ghost use Rattle.std.specs.Fmt.{decimal};

    ghost output = { λ r. Some (codes "refused " ++ decimal (cause_number r.cause)) };

    fn fmt<W: Write>(&self, f: &mut Formatter<W>) -> fmt::Result {
        write!(f, "{}", self.cause)
    }
}

impl Error for OrderRefusal {}

impl From<Cause> for OrderCause {
    ghost use Rattle.orderer.specs.Adding.{as_order_cause};

    ghost from_gives = { λ cause c. c ≡ as_order_cause cause };

    fn from(cause: Cause) -> OrderCause {
        match cause {
            Cause::TooLarge => OrderCause::TooLarge,
            Cause::Memory => OrderCause::Memory,
        }
    }
}

impl From<AllocError> for OrderCause {
    ghost from_gives = { λ _ c. c ≡ Memory };

    fn from(_error: AllocError) -> OrderCause {
        OrderCause::Memory
    }
}

impl<T: Drop> From<AllocFailed<T>> for OrderCause {
    ghost from_gives = { λ _ c. c ≡ Memory };

    fn from(_error: AllocFailed<T>) -> OrderCause {
        OrderCause::Memory
    }
}

impl From<AllocError> for OrderRefusal {
    ghost use Rattle.std.specs.Prelude.{None};

    ghost from_gives = { λ _ r. (r.envelope ≡ None) × (r.cause ≡ Memory) };

    fn from(_error: AllocError) -> OrderRefusal {
        OrderRefusal {
            envelope: None,
            cause: OrderCause::Memory,
        }
    }
}
