//! Why a block is not committed.

ghost use Rattle.std.specs.Prelude.{◌≡◌};
ghost use Rattle.committer.specs.declared.refusal.CommitRefusal.TheVariants.{Memory};
ghost use Rattle.committer.specs.Numbers.{refusal_number};

use std::alloc::{AllocError, AllocFailed};
use std::error::Error;
use std::fmt::{self, Display, Formatter, Write};

/// Why a block is not committed.
#[derive(Clone, Copy, Debug, Drop, PartialEq, Eq)]
pub enum CommitRefusal {
    /// Its number is not the next one.
    Number = 601,
    /// The hash that it names is not that of the last header.
    PreviousHash = 602,
    /// The hash of its data is not the one that its header names.
    DataHash = 603,
    /// There are 4,000,000,000 blocks already.
    AtEnd = 604,
    /// A growth of memory was refused.
    Memory = 9,
}

impl CommitRefusal {
    /// The number of the refusal: 9, or 601 to 604.
    pub fn number(self) -> u16
        ensures { result ≡ refusal_number self }
    {
        self as u16
    }
}

impl Display for CommitRefusal {
    ghost use Rattle.std.specs.Prelude.{◌++◌, Some, codes};
    ghost use Rattle.std.specs.Fmt.{decimal};

    ghost output = { λ r. Some (codes "refused " ++ decimal (refusal_number r)) };

    fn fmt<W: Write>(&self, f: &mut Formatter<W>) -> fmt::Result {
        write!(f, "refused {}", self.number())
    }
}

impl Error for CommitRefusal {}

impl From<AllocError> for CommitRefusal {
    ghost from_gives = { λ _ c. c ≡ Memory };

    fn from(_error: AllocError) -> CommitRefusal {
        CommitRefusal::Memory
    }
}

impl<T: Drop> From<AllocFailed<T>> for CommitRefusal {
    ghost from_gives = { λ _ c. c ≡ Memory };

    fn from(_error: AllocFailed<T>) -> CommitRefusal {
        CommitRefusal::Memory
    }
}
