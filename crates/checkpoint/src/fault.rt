//! Why a checkpoint is not written.

ghost use Rattle.std.specs.Prelude.{◌≡◌};
ghost use Rattle.checkpoint.specs.declared.fault.CheckpointFault.TheVariants.{Memory, Device};

use std::alloc::AllocError;
use std::io;

/// Why a checkpoint is not there, or not all of it.
#[derive(Clone, Copy, Debug, Drop, PartialEq, Eq)]
pub enum CheckpointFault {
    /// A growth of memory was refused (9).
    Memory,
    /// The writer failed (703).
    Device,
}

impl From<AllocError> for CheckpointFault {
    ghost from_gives = { λ _ f. f ≡ Memory };

    fn from(_error: AllocError) -> CheckpointFault {
        CheckpointFault::Memory
    }
}

impl From<io::Error> for CheckpointFault {
    ghost from_gives = { λ _ f. f ≡ Device };

    fn from(_error: io::Error) -> CheckpointFault {
        CheckpointFault::Device
    }
}
