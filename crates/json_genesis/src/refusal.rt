//! Why a text gives no genesis, or no modules.

ghost use Rattle.std.specs.Prelude.{◌≡◌};
ghost use Rattle.json_genesis.specs.Numbers.{refusal_number};
ghost use Rattle.json_genesis.specs.declared.refusal.GenesisRefusal.TheVariants.{Memory};

use std::alloc::{AllocError, AllocFailed};
use std::error::Error;
use std::fmt::{self, Display, Formatter, Write};

/// Why a text gives no genesis, or no modules.
#[derive(Clone, Copy, Debug, PartialEq, Eq)]
pub enum GenesisRefusal {
    /// A growth of memory was refused.
    Memory,
    /// The text is not JSON. Bytes that are not UTF-8 are no text, which is told in the same way.
    Json,
    /// A field is missing, left over or of the wrong kind, or hex is not read.
    Field,
    /// A number, a list's or a key's length, or the spelling of a name is out of its range, or the
    /// bytes of a public key are no point, or one of small order.
    Range,
    /// A module is not decoded or not valid.
    Module,
    /// A policy is refused.
    Policy,
    /// The name of an organisation or of a chaincode, or a public key stands twice, or a peer's
    /// organisation is unknown.
    Names,
}

impl GenesisRefusal {
    /// The number by which the program names the refusal: 801 to 806, or 9 for want of memory.
    pub fn number(self) -> u16
        ensures { result ≡ refusal_number self }
    {
        match self {
            GenesisRefusal::Memory => 9,
            GenesisRefusal::Json => 801,
            GenesisRefusal::Field => 802,
            GenesisRefusal::Range => 803,
            GenesisRefusal::Module => 804,
            GenesisRefusal::Policy => 805,
            GenesisRefusal::Names => 806,
        }
    }
}

impl Display for GenesisRefusal {
    ghost use Rattle.std.specs.Prelude.{◌++◌, Some, codes};
    ghost use Rattle.std.specs.Fmt.{decimal};

    ghost output = { λ r. Some (codes "refused " ++ decimal (refusal_number r)) };

    fn fmt<W: Write>(&self, f: &mut Formatter<W>) -> fmt::Result {
        write!(f, "refused {}", self.number())
    }
}

impl Error for GenesisRefusal {}

impl From<AllocError> for GenesisRefusal {
    ghost from_gives = { λ _ r. r ≡ Memory };

    fn from(_refused: AllocError) -> GenesisRefusal {
        GenesisRefusal::Memory
    }
}

impl<T: Drop> From<AllocFailed<T>> for GenesisRefusal {
    ghost from_gives = { λ _ r. r ≡ Memory };

    fn from(_refused: AllocFailed<T>) -> GenesisRefusal {
        GenesisRefusal::Memory
    }
}
