//! Why a task was not done.

ghost use Rattle.std.specs.Prelude.{◌≡◌};
ghost use Rattle.cli_lines.specs.Texts.{file_failure, genesis_failure, module_failure, simulation_failure};
ghost use Rattle.cli_lines.specs.Told.{IsBrokenOff, IsSilent};
ghost use Rattle.cli_lines.specs.declared.failure.Failure.TheVariants.{Memory};

use crate::files::FileFault;
use block_store::End;
use committer::CommitRefusal;
use json_genesis::GenesisRefusal;
use simulator::SimRefusal;
use std::alloc::{AllocError, AllocFailed};
use std::fmt::{self, Display, Formatter, Write};
use std::io::{self, ErrorKind};
use wasm_file::ModuleRefusal;

/// Why a task was not done, or ended with a difference.
#[derive(Clone, Copy)]
pub enum Failure {
    /// The words name no task.
    Usage,
    /// There was no memory.
    Memory,
    /// A file could not be opened, read or written.
    File,
    /// The file is no module of the profile, or it is not valid.
    Module(ModuleRefusal),
    /// The file is no genesis.
    Genesis(GenesisRefusal),
    /// The file is no key file.
    KeyFile,
    /// An organisation that is to endorse has a public key, and its seed is not at hand.
    NoSeed,
    /// A simulation gave no payload.
    Simulation(SimRefusal),
    /// A seat on a thread of its own got no place at its peer.
    NoPlace,
    /// A seat on a thread of its own got no snapshot from its peer.
    NotEntered,
    /// A block of a store does not fit.
    Commit(CommitRefusal),
    /// The block of this number is stored with other flags than the table's.
    Flags(usize),
    /// A store does not end with its last record.
    Store(End),
    /// A line of the events, counted from 1, stands for nothing that can be done.
    BadLine(usize),
    /// What was found, or why the task ended, is printed.
    Printed,
    /// A line could not be written.
    Output,
}

/// What the program prints of it, without the line's end. Nothing of a usage, which has a text of
/// its own, of a failure that was printed, or of one that cannot be.
impl Display for Failure {
    ghost use Rattle.cli_lines.specs.Texts.{failure_text};

    ghost output = { failure_text };

    fn fmt<W: Write>(&self, f: &mut Formatter<W>) -> fmt::Result {
        match self {
            Failure::Memory => f.write_str("refused 9"),
            Failure::File => f.write_str("refused 703"),
            Failure::Module(refusal) => refusal.fmt(f),
            Failure::Genesis(refusal) => refusal.fmt(f),
            Failure::KeyFile => f.write_str("refused 809"),
            Failure::NoSeed => f.write_str("refused 808"),
            Failure::Simulation(refusal) => refusal.fmt(f),
            Failure::NoPlace => f.write_str("refused 431"),
            Failure::NotEntered => f.write_str("refused 432"),
            Failure::Commit(refusal) => refusal.fmt(f),
            Failure::Flags(block) => write!(f, "refused 711 block {block}"),
            Failure::Store(end) => write!(f, "refused {end}"),
            Failure::BadLine(number) => write!(f, "bad line {number}"),
            Failure::Usage | Failure::Printed | Failure::Output => Ok(()),
        }
    }
}

impl From<FileFault> for Failure {
    ghost from_gives = { λ e r. IsSilent r × IsBrokenOff r × (r ≡ file_failure e) };

    fn from(fault: FileFault) -> Failure {
        match fault {
            FileFault::Memory => Failure::Memory,
            FileFault::Device => Failure::File,
        }
    }
}

impl From<ModuleRefusal> for Failure {
    ghost from_gives = { λ e r. IsSilent r × (r ≡ module_failure e) };

    fn from(refusal: ModuleRefusal) -> Failure {
        match refusal {
            ModuleRefusal::Memory => Failure::Memory,
            refusal => Failure::Module(refusal),
        }
    }
}

impl From<GenesisRefusal> for Failure {
    ghost from_gives = { λ e r. IsSilent r × (r ≡ genesis_failure e) };

    fn from(refusal: GenesisRefusal) -> Failure {
        match refusal {
            GenesisRefusal::Memory => Failure::Memory,
            refusal => Failure::Genesis(refusal),
        }
    }
}

impl From<SimRefusal> for Failure {
    ghost from_gives = { λ e r. IsSilent r × (r ≡ simulation_failure e) };

    fn from(refusal: SimRefusal) -> Failure {
        match refusal {
            SimRefusal::Memory => Failure::Memory,
            refusal => Failure::Simulation(refusal),
        }
    }
}

impl From<AllocError> for Failure {
    ghost from_gives = { λ _ r. IsSilent r × IsBrokenOff r × (r ≡ Memory) };

    fn from(_refused: AllocError) -> Failure {
        Failure::Memory
    }
}

impl<T: Drop> From<AllocFailed<T>> for Failure {
    ghost from_gives = { λ _ r. IsSilent r × IsBrokenOff r × (r ≡ Memory) };

    fn from(_refused: AllocFailed<T>) -> Failure {
        Failure::Memory
    }
}

impl From<io::Error> for Failure {
    ghost from_gives = { λ _ r. IsSilent r × IsBrokenOff r };

    fn from(error: io::Error) -> Failure {
        if error.kind() == ErrorKind::OutOfMemory {
            Failure::Memory
        } else {
            Failure::File
        }
    }
}
