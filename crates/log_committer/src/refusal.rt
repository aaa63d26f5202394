//! Why a block of a log is not taken.

ghost use Rattle.std.specs.Prelude.{◌≡◌};
ghost use Rattle.log_committer.specs.Numbers.{receive_number};
ghost use Rattle.log_committer.specs.declared.refusal.ReceiveRefusal.TheVariants.{Unfit};

use committer::CommitRefusal;
use fab_types::BlockNumber;
use std::alloc::AllocError;
use std::error::Error;
use std::fmt::{self, Display, Formatter, Write};

/// Why a block of a log is not taken.
#[derive(Clone, Copy, Debug, Drop, PartialEq, Eq)]
pub enum ReceiveRefusal {
    /// The chain has a block of this number whose header has another hash: the two blocks are of
    /// different logs.
    Forked(BlockNumber),
    /// Its number is above the chain's height, and it is not committed for this cause.
    Unfit(CommitRefusal),
}

impl ReceiveRefusal {
    /// The number by which a refusal is named: 602 of a block that is forked, else that of the
    /// cause, 601 to 604, or 9 for want of memory.
    pub fn number(self) -> u16
        ensures { result ≡ receive_number self }
    {
        match self {
            ReceiveRefusal::Forked(_) => 602,
            ReceiveRefusal::Unfit(cause) => cause.number(),
        }
    }
}

impl Display for ReceiveRefusal {
    ghost use Rattle.std.specs.Prelude.{Some};
    ghost use Rattle.log_committer.specs.Numbers.{receive_text};

    ghost output = { λ r. Some (receive_text r) };

    fn fmt<W: Write>(&self, f: &mut Formatter<W>) -> fmt::Result {
        match self {
            ReceiveRefusal::Forked(block) => write!(f, "refused 602 block {}", block.get()),
            ReceiveRefusal::Unfit(cause) => write!(f, "{cause}"),
        }
    }
}

impl Error for ReceiveRefusal {}

impl From<AllocError> for ReceiveRefusal {
    ghost use Rattle.committer.specs.declared.refusal.CommitRefusal.TheVariants.{Memory};

    ghost from_gives = { λ _ r. r ≡ Unfit Memory };

    fn from(_error: AllocError) -> ReceiveRefusal {
        ReceiveRefusal::Unfit(CommitRefusal::Memory)
    }
}

impl From<CommitRefusal> for ReceiveRefusal {
    ghost from_gives = { λ cause r. r ≡ Unfit cause };

    fn from(cause: CommitRefusal) -> ReceiveRefusal {
        ReceiveRefusal::Unfit(cause)
    }
}
