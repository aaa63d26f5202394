//! What is cut, and what a cutter answers.

ghost use Rattle.std.specs.Prelude.{◌≡◌, ℕ};
ghost use Rattle.batch_cutter.specs.Offers.{cause_number};

use std::error::Error;
use std::fmt::{self, Display, Formatter, Write};

/// A message that has a size.
pub trait Weigh {
    ghost weight: { Self → ℕ };

    /// The size of the message in bytes.
    fn weight(&self) -> usize
        ensures { result ≡ weight self.now };
}

/// The batches that one offer cuts, in their order.
#[derive(Drop)]
pub enum Cut<M> {
    /// No batch: the message waits.
    Nothing,
    /// One batch. It ends with the message, or the message waits after it.
    One(Vec<M>),
    /// The messages that waited, and the message alone.
    Two(Vec<M>, Vec<M>),
}

/// Why a message was refused.
#[derive(Clone, Copy, Debug, Drop, PartialEq, Eq)]
pub enum Cause {
    /// The message is above the absolute size.
    TooLarge = 421,
    /// A growth of memory was refused.
    Memory = 9,
}

impl Cause {
    /// The number of the cause: 9 or 421.
    pub fn number(self) -> u16
        ensures { result ≡ cause_number self }
    {
        self as u16
    }
}

impl Display for Cause {
    ghost use Rattle.std.specs.Prelude.{◌++◌, Some, codes};
    ghost use Rattle.std.specs.Fmt.{decimal};

    ghost output = { λ c. Some (codes "refused " ++ decimal (cause_number c)) };

    fn fmt<W: Write>(&self, f: &mut Formatter<W>) -> fmt::Result {
        write!(f, "refused {}", self.number())
    }
}

impl Error for Cause {}

/// A message that was refused, handed back.
#[derive(Drop)]
pub struct Offered<M> {
    pub message: M,
    pub cause: Cause,
}
