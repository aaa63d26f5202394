//! Why a line is skipped.

ghost use Rattle.std.specs.Prelude.{◌≡◌};
ghost use Rattle.log_orderer.specs.Numbers.{skip_number};

use std::fmt::{self, Display, Formatter, Write};

/// Why a line is skipped. Want of memory is no such reason. 301 to 305 are the faults of `wire` of
/// the same numbers.
#[derive(Clone, Copy, Debug, Drop, PartialEq, Eq)]
pub enum Skip {
    /// The line is neither `tick` nor hex.
    NoHex = 300,
    /// The bytes end inside the envelope.
    EndedEarly = 301,
    /// An envelope of a block does not take exactly its length: no line is skipped for it.
    EnvelopeLength = 302,
    /// The bytes are not canonical.
    NotCanonical = 303,
    /// A length, a count or a number is out of its range.
    Limit = 304,
    /// Bytes are left over after the envelope.
    BytesLeft = 305,
    /// The envelope is above the absolute size.
    TooLarge = 421,
    /// The line would need a block past the last one that the ledger's rules allow.
    NoNumber = 422,
}

impl Skip {
    /// The number of the reason: 300 to 305, 421 or 422. No line is skipped for 302.
    pub fn number(self) -> u16
        ensures { result ≡ skip_number self }
    {
        self as u16
    }
}

impl Display for Skip {
    ghost use Rattle.std.specs.Prelude.{Some};
    ghost use Rattle.std.specs.Fmt.{decimal};

    ghost output = { λ s. Some (decimal (skip_number s)) };

    fn fmt<W: Write>(&self, f: &mut Formatter<W>) -> fmt::Result {
        write!(f, "{}", self.number())
    }
}
