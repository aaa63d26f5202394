//! Why a call of the cell is refused.

ghost use Rattle.std.specs.Prelude.{◌≡◌};
ghost use Rattle.snapshot_cell.specs.Numbers.{open_number, take_number};

use std::alloc::{AllocError, AllocFailed};
use std::error::Error;
use std::fmt::{self, Display, Formatter, Write};

/// Why no cell was opened.
#[derive(Clone, Copy, Debug, Drop, PartialEq, Eq)]
pub enum OpenRefusal {
    /// A seat got no place in the cell.
    NoPlace = 431,
    /// A growth of memory was refused.
    Memory = 9,
}

/// Why a seat took no snapshot.
#[derive(Clone, Copy, Debug, Drop, PartialEq, Eq)]
pub enum TakeRefusal {
    /// The cell was not entered, as after its writer's end.
    NotEntered = 432,
    /// A growth of memory, or one more owner of the snapshot, was refused.
    Memory = 9,
}

impl OpenRefusal {
    /// The number of the refusal: 9 or 431.
    pub fn number(self) -> u16
        ensures { result ≡ open_number self }
    {
        self as u16
    }
}

impl TakeRefusal {
    /// The number of the refusal: 9 or 432.
    pub fn number(self) -> u16
        ensures { result ≡ take_number self }
    {
        self as u16
    }
}

impl Display for OpenRefusal {
    ghost use Rattle.std.specs.Prelude.{◌++◌, Some, codes};
    ghost use Rattle.std.specs.Fmt.{decimal};

    ghost output = { λ r. Some (codes "refused " ++ decimal (open_number r)) };

    fn fmt<W: Write>(&self, f: &mut Formatter<W>) -> fmt::Result {
        write!(f, "refused {}", self.number())
    }
}

impl Display for TakeRefusal {
    ghost use Rattle.std.specs.Prelude.{◌++◌, Some, codes};
    ghost use Rattle.std.specs.Fmt.{decimal};

    ghost output = { λ r. Some (codes "refused " ++ decimal (take_number r)) };

    fn fmt<W: Write>(&self, f: &mut Formatter<W>) -> fmt::Result {
        write!(f, "refused {}", self.number())
    }
}

impl Error for OpenRefusal {}

impl Error for TakeRefusal {}

impl From<AllocError> for OpenRefusal {
    ghost use Rattle.snapshot_cell.specs.declared.refusal.OpenRefusal.TheVariants.{Memory};

    ghost from_gives = { λ _ r. r ≡ Memory };

    fn from(_error: AllocError) -> OpenRefusal {
        OpenRefusal::Memory
    }
}

impl<T: Drop> From<AllocFailed<T>> for OpenRefusal {
    ghost use Rattle.snapshot_cell.specs.declared.refusal.OpenRefusal.TheVariants.{Memory};

    ghost from_gives = { λ _ r. r ≡ Memory };

    fn from(_error: AllocFailed<T>) -> OpenRefusal {
        OpenRefusal::Memory
    }
}

impl From<AllocError> for TakeRefusal {
    ghost use Rattle.snapshot_cell.specs.declared.refusal.TakeRefusal.TheVariants.{Memory};

    ghost from_gives = { λ _ r. r ≡ Memory };

    fn from(_error: AllocError) -> TakeRefusal {
        TakeRefusal::Memory
    }
}
