//! Why the work of seats has no report.

use peer_node::OpenRefusal;
use std::alloc::{AllocError, AllocFailed};
use std::error::Error;
use std::fmt::{self, Display, Formatter, Write};

/// Why the work of seats has no report.
#[derive(Clone, Copy, Debug, Drop, PartialEq, Eq)]
pub enum SeatsRefusal {
    /// A growth of memory, or a thread, was refused.
    Memory = 9,
    /// A seat got no place in the cell.
    NoPlace = 431,
    /// A seat did not enter the cell.
    NotEntered = 432,
}

impl SeatsRefusal {
    ghost use Rattle.std.specs.Prelude.{◌≡◌};
    ghost use Rattle.seat_threads.specs.Refusals.{seats_number};

    /// The number by which the program names the refusal: 9, 431 or 432.
    pub fn number(self) -> u16
        ensures { result ≡ seats_number self }
    {
        self as u16
    }
}

impl Display for SeatsRefusal {
    ghost use Rattle.std.specs.Prelude.{◌++◌, Some, codes};
    ghost use Rattle.std.specs.Fmt.{decimal};
    ghost use Rattle.seat_threads.specs.Refusals.{seats_number};

    ghost output = { λ r. Some (codes "refused " ++ decimal (seats_number r)) };

    fn fmt<W: Write>(&self, f: &mut Formatter<W>) -> fmt::Result {
        write!(f, "refused {}", self.number())
    }
}

impl Error for SeatsRefusal {}

impl From<AllocError> for SeatsRefusal {
    ghost use Rattle.std.specs.Prelude.{◌≡◌};
    ghost use Rattle.seat_threads.specs.declared.refusal.SeatsRefusal.TheVariants.{Memory};

    ghost from_gives = { λ _ r. r ≡ Memory };

    fn from(_error: AllocError) -> SeatsRefusal {
        SeatsRefusal::Memory
    }
}

impl<T: Drop> From<AllocFailed<T>> for SeatsRefusal {
    ghost use Rattle.std.specs.Prelude.{◌≡◌};
    ghost use Rattle.seat_threads.specs.declared.refusal.SeatsRefusal.TheVariants.{Memory};

    ghost from_gives = { λ _ r. r ≡ Memory };

    fn from(_error: AllocFailed<T>) -> SeatsRefusal {
        SeatsRefusal::Memory
    }
}

impl From<OpenRefusal> for SeatsRefusal {
    ghost use Rattle.std.specs.Prelude.{◌≡◌};
    ghost use Rattle.seat_threads.specs.Refusals.{of_open};

    ghost from_gives = { λ o r. r ≡ of_open o };

    fn from(refusal: OpenRefusal) -> SeatsRefusal {
        match refusal {
            OpenRefusal::NoPlace => SeatsRefusal::NoPlace,
            OpenRefusal::Memory => SeatsRefusal::Memory,
        }
    }
}
