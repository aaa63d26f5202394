//! What a line asks for.

ghost use Rattle.std.specs.Prelude.{◌≡◌};
ghost use Rattle.json_events.specs.declared.action.BadLine.TheVariants.{Memory};

use fab_types::Proposal;
use std::alloc::{AllocError, AllocFailed};

/// What a line asks for. Peers, and the seats of a peer, are counted from 0; whether there are so
/// many is not said.
#[derive(Drop)]
pub enum Action {
    /// A seat of a peer begins to simulate a proposal.
    Begin {
        peer: u64,
        seat: u64,
        proposal: Proposal,
    },
    /// A seat of a peer endorses what it began, and what it gives is bound to a name.
    Finish {
        peer: u64,
        seat: u64,
        name: String,
    },
    /// The envelope that 1 to 32 names stand for together is submitted (`Bindings::resolve`).
    SubmitEndorsed(Vec<String>),
    /// The envelope that these bytes spell is submitted.
    SubmitBytes(Vec<u8>),
    /// The orderer takes an envelope from the queue.
    Take,
    /// The orderer's batch is cut by time.
    Tick,
    /// A peer commits its next block.
    Commit {
        peer: u64,
    },
}

/// Why a line, or a text in it, is not read.
#[derive(Clone, Copy, Debug, PartialEq, Eq)]
pub enum BadLine {
    /// A growth of memory was refused.
    Memory,
    /// It is none of the forms.
    NoForm,
}

impl From<AllocError> for BadLine {
    ghost from_gives = { λ _ r. r ≡ Memory };

    fn from(_refused: AllocError) -> BadLine {
        BadLine::Memory
    }
}

impl<T: Drop> From<AllocFailed<T>> for BadLine {
    ghost from_gives = { λ _ r. r ≡ Memory };

    fn from(_refused: AllocFailed<T>) -> BadLine {
        BadLine::Memory
    }
}
