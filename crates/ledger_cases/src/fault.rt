//! Why a line has no answer but a fault, or nothing was timed.

ghost use Rattle.std.specs.Prelude.{◌≡◌};
ghost use Rattle.ledger_cases.specs.declared.fault.CaseFault.TheVariants.{Memory};

use hex::FromHexError;
use std::alloc::{AllocError, AllocFailed};
use std::fmt::{self, Display, Formatter, Write};
use std::io;
use std::num::ParseIntError;
use wasm_bytes::ByteFault;
use wasm_decode::DecodeFault;
use wasm_validate::ValidateFault;
use wire::WireFault;

/// Why a line has no answer but a fault, or nothing was timed.
#[derive(Clone, Copy)]
pub enum CaseFault {
    /// There was no memory.
    Memory,
    /// The line is no case.
    BadLine,
    /// The bytes are no module, or no items of one: the number of the fault and its offset.
    Malformed(u16, usize),
    /// The module is not valid.
    Invalid(ValidateFault),
    /// The bytes spell no value of the ledger: the number of the fault.
    Refused(u16),
    /// The words of the command line name no task.
    Usage,
    /// The input could not be read, or the output written.
    Input,
    /// The clock cannot be read.
    Clock,
    /// A signature is not that of its key and message.
    Signature,
}

impl Display for CaseFault {
    fn fmt<W: Write>(&self, f: &mut Formatter<W>) -> fmt::Result {
        match self {
            CaseFault::Memory => f.write_str("no memory"),
            CaseFault::BadLine => f.write_str("bad line"),
            CaseFault::Malformed(number, offset) => write!(f, "fault {number} at {offset}"),
            CaseFault::Invalid(fault) => write!(f, "invalid {fault}"),
            CaseFault::Refused(number) => write!(f, "refused {number}"),
            CaseFault::Usage => f.write_str("usage: ledger_cases [verify|sign|once]"),
            CaseFault::Input => f.write_str("no input"),
            CaseFault::Clock => f.write_str("no clock"),
            CaseFault::Signature => f.write_str("wrong signature"),
        }
    }
}

impl From<AllocError> for CaseFault {
    ghost from_gives = { λ _ f. f ≡ Memory };

    fn from(_refused: AllocError) -> CaseFault {
        CaseFault::Memory
    }
}

impl<T: Drop> From<AllocFailed<T>> for CaseFault {
    ghost from_gives = { λ _ f. f ≡ Memory };

    fn from(_refused: AllocFailed<T>) -> CaseFault {
        CaseFault::Memory
    }
}

impl From<io::Error> for CaseFault {
    fn from(_failed: io::Error) -> CaseFault {
        CaseFault::Input
    }
}

impl From<ParseIntError> for CaseFault {
    fn from(_fault: ParseIntError) -> CaseFault {
        CaseFault::BadLine
    }
}

impl From<FromHexError> for CaseFault {
    fn from(fault: FromHexError) -> CaseFault {
        match fault {
            FromHexError::OutOfMemory => CaseFault::Memory,
            _ => CaseFault::BadLine,
        }
    }
}

impl From<ByteFault> for CaseFault {
    fn from(fault: ByteFault) -> CaseFault {
        CaseFault::Malformed(fault.kind.number(), fault.offset)
    }
}

impl From<DecodeFault> for CaseFault {
    fn from(fault: DecodeFault) -> CaseFault {
        match fault {
            DecodeFault::Memory => CaseFault::Memory,
            DecodeFault::Malformed(kind, offset) => {
                CaseFault::Malformed(u16::from(kind.number()), offset)
            }
        }
    }
}

impl From<ValidateFault> for CaseFault {
    fn from(fault: ValidateFault) -> CaseFault {
        match fault {
            ValidateFault::Memory => CaseFault::Memory,
            fault => CaseFault::Invalid(fault),
        }
    }
}

impl From<WireFault> for CaseFault {
    fn from(fault: WireFault) -> CaseFault {
        match fault {
            WireFault::Memory => CaseFault::Memory,
            fault => CaseFault::Refused(fault.number()),
        }
    }
}
