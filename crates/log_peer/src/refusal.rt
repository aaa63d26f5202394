//! Why a store, or a block for it, is refused.

ghost use Rattle.std.specs.Prelude.{◌≡◌};
ghost use Rattle.log_peer.specs.declared.refusal.StoreRefusal.TheVariants.{Memory, Stored};

use block_store::{AppendFault, DeviceError, End};
use committer::CommitRefusal;
use log_committer::ReceiveRefusal;
use std::alloc::AllocError;
use std::fmt::{self, Display, Formatter};
use store_replay::RecommitRefusal;

/// Why a store, or a block for it, is refused.
#[derive(Clone, Copy, Debug, Drop, PartialEq, Eq)]
pub enum StoreRefusal {
    /// A growth of memory was refused (9).
    Memory,
    /// A call of the file failed (703).
    File,
    /// The record of this number is damaged (702).
    Damaged(u32),
    /// A stored block does not fit (601 to 604), has other flags than the table's (711), or is not
    /// committed again for want of memory (9).
    Stored(RecommitRefusal),
    /// A block of the log is of another log, or does not fit (601 to 604).
    Received(ReceiveRefusal),
}

/// A store that is not opened.
#[derive(Drop)]
pub struct Unopened<D: Drop> {
    pub refusal: StoreRefusal,
    /// Its file. It is what it was, unless a call of it failed.
    pub file: D,
}

impl Display for StoreRefusal {
    ghost use Rattle.std.specs.Prelude.{Some};
    ghost use Rattle.log_peer.specs.Refusals.{store_text};

    ghost output = { λ refusal. Some (store_text refusal) };

    fn fmt<W: fmt::Write>(&self, f: &mut Formatter<W>) -> fmt::Result {
        match self {
            StoreRefusal::Memory => write!(f, "refused 9"),
            StoreRefusal::File => write!(f, "refused {}", End::DeviceFailed),
            StoreRefusal::Damaged(number) => write!(f, "refused {}", End::Damaged(*number)),
            StoreRefusal::Stored(refusal) => write!(f, "{refusal}"),
            StoreRefusal::Received(refusal) => write!(f, "{refusal}"),
        }
    }
}

impl From<AllocError> for StoreRefusal {
    ghost from_gives = { λ _ r. r ≡ Memory };

    fn from(_error: AllocError) -> StoreRefusal {
        StoreRefusal::Memory
    }
}

impl From<DeviceError> for StoreRefusal {
    ghost use Rattle.log_peer.specs.declared.refusal.StoreRefusal.TheVariants.{File};

    ghost from_gives = { λ _ r. r ≡ File };

    fn from(_error: DeviceError) -> StoreRefusal {
        StoreRefusal::File
    }
}

impl From<AppendFault> for StoreRefusal {
    ghost use Rattle.log_peer.specs.Refusals.{append_refusal};

    ghost from_gives = { λ fault r. r ≡ append_refusal fault };

    fn from(fault: AppendFault) -> StoreRefusal {
        match fault {
            AppendFault::Memory => StoreRefusal::Memory,
            AppendFault::Device(_) => StoreRefusal::File,
        }
    }
}

impl From<RecommitRefusal> for StoreRefusal {
    ghost from_gives = { λ refusal r. r ≡ Stored refusal };

    fn from(refusal: RecommitRefusal) -> StoreRefusal {
        StoreRefusal::Stored(refusal)
    }
}

impl From<ReceiveRefusal> for StoreRefusal {
    ghost use Rattle.log_peer.specs.Refusals.{receive_refusal};

    ghost from_gives = { λ refusal r. r ≡ receive_refusal refusal };

    fn from(refusal: ReceiveRefusal) -> StoreRefusal {
        match refusal {
            ReceiveRefusal::Unfit(CommitRefusal::Memory) => StoreRefusal::Memory,
            refusal => StoreRefusal::Received(refusal),
        }
    }
}
