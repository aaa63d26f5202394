//! Why a module is refused.

ghost use Rattle.std.specs.Prelude.{◌≡◌};
ghost use Rattle.wasm_typing.specs.FaultNumbers.{number_of};

use std::alloc::{AllocError, AllocFailed};
use std::error::Error;
use std::fmt::{self, Display, Formatter, Write};

/// The rule that a module breaks, or the want of memory that kept it from being validated.
#[derive(Clone, Copy, Debug, PartialEq, Eq)]
pub enum ValidateFault {
    /// A growth was refused; nothing is said of the module.
    Memory,
    /// An instruction, or the end of a body, does not fit the operands before it.
    TypeMismatch,
    /// A type, function, local, label, global, table or memory is named that does not exist.
    Index,
    /// A constant global is written.
    ImmutableGlobal,
    /// A load or a store says that its address is aligned beyond the width of what it moves.
    Alignment,
    /// Two exports have one name.
    DuplicateExport,
    /// An import is no call of the host, by its name and with its type.
    Import,
    /// No function of the type [] to [i32] is exported as `invoke`.
    NoInvoke,
    /// A segment passes the least size of its table or memory.
    Segment,
    /// The value of a global, or the place of a segment, is not one constant of its type.
    Initializer,
    /// There is more than one table or memory, or the limits of one are out of order or too large.
    Limits,
}

impl ValidateFault {
    /// The number of the fault: 201 to 210, and 9 for want of memory.
    pub fn number(self) -> u16
        ensures { result ≡ number_of self }
    {
        match self {
            ValidateFault::Memory => 9,
            ValidateFault::TypeMismatch => 201,
            ValidateFault::Index => 202,
            ValidateFault::ImmutableGlobal => 203,
            ValidateFault::Alignment => 204,
            ValidateFault::DuplicateExport => 205,
            ValidateFault::Import => 206,
            ValidateFault::NoInvoke => 207,
            ValidateFault::Segment => 208,
            ValidateFault::Initializer => 209,
            ValidateFault::Limits => 210,
        }
    }
}

impl Display for ValidateFault {
    fn fmt<W: Write>(&self, f: &mut Formatter<W>) -> fmt::Result {
        write!(f, "{}", self.number())
    }
}

impl Error for ValidateFault {}

impl<T: Drop> From<AllocFailed<T>> for ValidateFault {
    ghost use Rattle.std.specs.Prelude.{◌≡◌};
    ghost use Rattle.wasm_typing.specs.declared.fault.ValidateFault.TheVariants.{Memory};

    ghost from_gives = { λ _ e. e ≡ Memory };

    fn from(_refused: AllocFailed<T>) -> ValidateFault {
        ValidateFault::Memory
    }
}

impl From<AllocError> for ValidateFault {
    ghost use Rattle.std.specs.Prelude.{◌≡◌};
    ghost use Rattle.wasm_typing.specs.declared.fault.ValidateFault.TheVariants.{Memory};

    ghost from_gives = { λ _ e. e ≡ Memory };

    fn from(_refused: AllocError) -> ValidateFault {
        ValidateFault::Memory
    }
}
