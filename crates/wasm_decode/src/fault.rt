//! Why a module could not be read.

ghost use Rattle.std.specs.Prelude.{◌≡◌};
ghost use Rattle.wasm_decode.specs.declared.fault.DecodeFault.TheVariants.{Memory, Malformed};
ghost use Rattle.wasm_decode.specs.FaultNumbers.{number_of, kind_of};

use std::alloc::{AllocError, AllocFailed};
use std::error::Error;
use std::fmt::{self, Display, Formatter, Write};
use wasm_bytes::ByteFault;

/// What is wrong with the bytes.
#[derive(Clone, Copy, Debug, Drop, PartialEq, Eq)]
pub enum FaultKind {
    /// One of the first four bytes differs.
    Magic = 101,
    /// One of the next four bytes differs.
    Version = 102,
    /// The bytes of the module, a section or a body end inside an item.
    EndedEarly = 103,
    /// A number is too long, or its unused bits are wrong.
    BadNumber = 104,
    /// A section is unknown, repeated or out of order.
    SectionOrder = 105,
    /// A section or a body is longer than what holds it, or does not use all its bytes.
    Length = 106,
    /// An opcode stands for no instruction, or a reserved byte is not 0.
    Opcode = 107,
    /// A byte stands for no type, kind, limits or mutability.
    TypeByte = 108,
    /// A name is not UTF-8.
    NotUtf8 = 109,
    /// A type of floats, or an instruction on them.
    Float = 110,
    /// A limit of the profile is passed.
    Limit = 111,
    /// There are not as many bodies as functions.
    CountsDiffer = 112,
    /// A start section.
    StartSection = 113,
}

impl FaultKind {
    /// The number of the fault, 101 to 113.
    pub fn number(self) -> u8
        ensures { result ≡ number_of self }
    {
        self as u8
    }
}

impl Display for FaultKind {
    fn fmt<W: Write>(&self, f: &mut Formatter<W>) -> fmt::Result {
        write!(f, "{}", self.number())
    }
}

/// Why a module was refused.
#[derive(Clone, Copy, Debug, Drop, PartialEq, Eq)]
pub enum DecodeFault {
    /// A growth of memory was refused.
    Memory,
    /// The bytes spell no module of the profile. The offset is that of the item at fault: of its
    /// first byte, or of the end where the bytes end inside it.
    Malformed(FaultKind, usize),
}

impl Display for DecodeFault {
    fn fmt<W: Write>(&self, f: &mut Formatter<W>) -> fmt::Result {
        match self {
            DecodeFault::Memory => write!(f, "9"),
            DecodeFault::Malformed(kind, offset) => write!(f, "{kind} at {offset}"),
        }
    }
}

impl Error for DecodeFault {}

impl From<AllocError> for DecodeFault {
    ghost from_gives = { λ _ e. e ≡ Memory };

    fn from(_error: AllocError) -> DecodeFault {
        DecodeFault::Memory
    }
}

impl<T: Drop> From<AllocFailed<T>> for DecodeFault {
    ghost from_gives = { λ _ e. e ≡ Memory };

    fn from(_error: AllocFailed<T>) -> DecodeFault {
        DecodeFault::Memory
    }
}

impl From<ByteFault> for DecodeFault {
    ghost from_gives = { λ b e. e ≡ Malformed (kind_of b.kind) b.offset };

    fn from(fault: ByteFault) -> DecodeFault {
        let kind = match fault.kind {
            wasm_bytes::FaultKind::EndedEarly => FaultKind::EndedEarly,
            wasm_bytes::FaultKind::BadNumber => FaultKind::BadNumber,
            wasm_bytes::FaultKind::NotUtf8 => FaultKind::NotUtf8,
        };
        DecodeFault::Malformed(kind, fault.offset)
    }
}

/// The refusal of the item at an offset.
pub(crate) fn refuse<T>(kind: FaultKind, offset: usize) -> Result<T, DecodeFault>
    ensures { result ≡ Err (Malformed kind offset) }
{
    Err(DecodeFault::Malformed(kind, offset))
}
