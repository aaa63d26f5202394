//! Why a seat hands out no payload, and why a peer does not come back.

ghost use Rattle.std.specs.Prelude.{◌≡◌};

use simulator::SimRefusal;
use snapshot_cell::{OpenRefusal, TakeRefusal};
use std::alloc::AllocError;
use std::error::Error;
use std::fmt::{self, Display, Formatter, Write};
use store_replay::RecommitRefusal;

/// Why a seat hands out no payload.
#[derive(Clone, Copy, Debug, PartialEq, Eq)]
pub enum FinishRefusal {
    /// The simulation or its recheck refused, or there was no memory.
    Simulation(SimRefusal),
    /// The cell was not entered.
    NotEntered,
}

impl FinishRefusal {
    ghost use Rattle.peer_node.specs.Refusals.{finish_number};

    /// The number by which the program names the refusal: 401 to 408, 432, or 9 for want of memory.
    pub fn number(self) -> u16
        ensures { result ≡ finish_number self }
    {
        match self {
            FinishRefusal::Simulation(refusal) => refusal.number(),
            FinishRefusal::NotEntered => 432,
        }
    }
}

impl Display for FinishRefusal {
    ghost use Rattle.std.specs.Prelude.{Some};
    ghost use Rattle.peer_node.specs.Refusals.{finish_text};

    ghost output = { λ r. Some (finish_text r) };

    fn fmt<W: Write>(&self, f: &mut Formatter<W>) -> fmt::Result {
        match self {
            FinishRefusal::Simulation(refusal) => write!(f, "{refusal}"),
            FinishRefusal::NotEntered => write!(f, "refused 432"),
        }
    }
}

impl Error for FinishRefusal {}

impl From<SimRefusal> for FinishRefusal {
    ghost use Rattle.std.specs.Prelude.{◌≡◌};
    ghost use Rattle.peer_node.specs.declared.refusal.FinishRefusal.TheVariants.{Simulation};

    ghost from_gives = { λ s r. r ≡ Simulation s };

    fn from(refusal: SimRefusal) -> FinishRefusal {
        FinishRefusal::Simulation(refusal)
    }
}

impl From<TakeRefusal> for FinishRefusal {
    ghost use Rattle.std.specs.Prelude.{◌≡◌};
    ghost use Rattle.peer_node.specs.Refusals.{of_take};

    ghost from_gives = { λ t r. r ≡ of_take t };

    fn from(refusal: TakeRefusal) -> FinishRefusal {
        match refusal {
            TakeRefusal::NotEntered => FinishRefusal::NotEntered,
            TakeRefusal::Memory => FinishRefusal::Simulation(SimRefusal::Memory),
        }
    }
}

impl From<AllocError> for FinishRefusal {
    ghost use Rattle.std.specs.Prelude.{◌≡◌};
    ghost use Rattle.peer_node.specs.Refusals.{of_memory};

    ghost from_gives = { λ _ r. r ≡ of_memory };

    fn from(_error: AllocError) -> FinishRefusal {
        FinishRefusal::Simulation(SimRefusal::Memory)
    }
}

/// Why a peer does not come back.
#[derive(Clone, Copy, Debug, Drop, PartialEq, Eq)]
pub enum ReopenRefusal {
    /// The blocks of the store are no chain with the table's flags, or there was no memory.
    Stored(RecommitRefusal),
    /// A seat got no place in the cell, or there was no memory.
    Open(OpenRefusal),
}

impl ReopenRefusal {
    ghost use Rattle.peer_node.specs.Refusals.{reopen_number};

    /// The number by which the refusal is named: 601 to 604, 711, 431, or 9 for want of memory.
    pub fn number(self) -> u16
        ensures { result ≡ reopen_number self }
    {
        match self {
            ReopenRefusal::Stored(refusal) => refusal.number(),
            ReopenRefusal::Open(refusal) => refusal.number(),
        }
    }
}

impl Display for ReopenRefusal {
    ghost use Rattle.std.specs.Prelude.{Some};
    ghost use Rattle.peer_node.specs.Refusals.{reopen_text};

    ghost output = { λ r. Some (reopen_text r) };

    fn fmt<W: Write>(&self, f: &mut Formatter<W>) -> fmt::Result {
        match self {
            ReopenRefusal::Stored(refusal) => write!(f, "{refusal}"),
            ReopenRefusal::Open(refusal) => write!(f, "{refusal}"),
        }
    }
}

impl Error for ReopenRefusal {}

impl From<RecommitRefusal> for ReopenRefusal {
    ghost use Rattle.peer_node.specs.declared.refusal.ReopenRefusal.TheVariants.{Stored};

    ghost from_gives = { λ s r. r ≡ Stored s };

    fn from(refusal: RecommitRefusal) -> ReopenRefusal {
        ReopenRefusal::Stored(refusal)
    }
}

impl From<OpenRefusal> for ReopenRefusal {
    ghost use Rattle.peer_node.specs.declared.refusal.ReopenRefusal.TheVariants.{Open};

    ghost from_gives = { λ o r. r ≡ Open o };

    fn from(refusal: OpenRefusal) -> ReopenRefusal {
        ReopenRefusal::Open(refusal)
    }
}
