//! Why stored blocks are not committed again.

ghost use Rattle.std.specs.Prelude.{◌≡◌};
ghost use Rattle.store_replay.specs.Numbers.{recommit_number};
ghost use Rattle.store_replay.specs.declared.refusal.RecommitRefusal.TheVariants.{Memory};

use committer::CommitRefusal;
use std::alloc::AllocError;
use std::error::Error;
use std::fmt::{self, Display, Formatter, Write};

/// Why stored blocks are not committed again, and the number of the first block at fault.
#[derive(Clone, Copy, Debug, Drop, PartialEq, Eq)]
pub enum RecommitRefusal {
    /// A growth of memory was refused.
    Memory,
    /// The block of this number does not fit behind those before it.
    Unfit(usize, CommitRefusal),
    /// The block of this number is stored with other flags than the table's.
    Flags(usize),
}

impl RecommitRefusal {
    /// The number by which a refusal is named: 601 to 604, 711, or 9 for want of memory.
    pub fn number(self) -> u16
        ensures { result ≡ recommit_number self }
    {
        match self {
            RecommitRefusal::Memory => 9,
            RecommitRefusal::Unfit(_, cause) => cause.number(),
            RecommitRefusal::Flags(_) => 711,
        }
    }
}

impl Display for RecommitRefusal {
    ghost use Rattle.std.specs.Prelude.{Some};
    ghost use Rattle.store_replay.specs.Numbers.{recommit_text};

    ghost output = { λ r. Some (recommit_text r) };

    fn fmt<W: Write>(&self, f: &mut Formatter<W>) -> fmt::Result {
        match self {
            RecommitRefusal::Memory => write!(f, "refused 9"),
            RecommitRefusal::Unfit(block, cause) => write!(f, "{cause} block {block}"),
            RecommitRefusal::Flags(block) => write!(f, "refused 711 block {block}"),
        }
    }
}

impl Error for RecommitRefusal {}

impl From<AllocError> for RecommitRefusal {
    ghost from_gives = { λ _ r. r ≡ Memory };

    fn from(_error: AllocError) -> RecommitRefusal {
        RecommitRefusal::Memory
    }
}
