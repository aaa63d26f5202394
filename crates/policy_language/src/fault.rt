//! Why a text is no policy.

ghost use Rattle.std.specs.Prelude.{◌≡◌};
ghost use Rattle.policy_language.specs.declared.fault.PolicyFault.TheVariants.{Memory};
ghost use Rattle.policy_language.specs.Faults.{number_of};

use std::alloc::{AllocError, AllocFailed};
use std::error::Error;
use std::fmt::{self, Display, Formatter, Write};

/// Why no policy was read.
#[derive(Clone, Copy, Debug, Drop, PartialEq, Eq)]
pub enum PolicyFault {
    /// A growth of memory was refused.
    Memory,
    /// At this offset, in bytes, no token stands that a policy's text may have there. A text of
    /// more than 1,024 bytes is refused at offset 1,024.
    Syntax(usize),
    /// A name is not that of a known organisation.
    UnknownOrganisation,
    /// A threshold is 0, or above the number of its children.
    Threshold,
    /// More than 8 operators stand inside one another.
    TooDeep,
}

impl PolicyFault {
    /// The number of the fault: 9, or 501 to 504.
    pub fn number(self) -> u16
        ensures { result ≡ number_of self }
    {
        match self {
            PolicyFault::Memory => 9,
            PolicyFault::Syntax(_) => 501,
            PolicyFault::UnknownOrganisation => 502,
            PolicyFault::Threshold => 503,
            PolicyFault::TooDeep => 504,
        }
    }
}

impl Display for PolicyFault {
    ghost use Rattle.std.specs.Prelude.{Some};
    ghost use Rattle.policy_language.specs.Faults.{fault_text};

    ghost output = { λ f. Some (fault_text f) };

    fn fmt<W: Write>(&self, f: &mut Formatter<W>) -> fmt::Result {
        match self {
            PolicyFault::Syntax(offset) => write!(f, "refused 501 at {offset}"),
            fault => write!(f, "refused {}", fault.number()),
        }
    }
}

impl Error for PolicyFault {}

impl From<AllocError> for PolicyFault {
    ghost from_gives = { λ _ e. e ≡ Memory };

    fn from(_error: AllocError) -> PolicyFault {
        PolicyFault::Memory
    }
}

impl<T: Drop> From<AllocFailed<T>> for PolicyFault {
    ghost from_gives = { λ _ e. e ≡ Memory };

    fn from(_error: AllocFailed<T>) -> PolicyFault {
        PolicyFault::Memory
    }
}
