//! Reading a record where it lies.

ghost use Rattle.std.specs.Prelude.{◌≡◌, ◌≤◌, ◌<◌, ◌+◌, ◌-◌, ◌^◌, true, List, IfErr, IfOk, IfSome, IsOk, OnOk, Some, drop, length, slice_get, take};
ghost use Rattle.std.specs.List.{flat_map};
ghost use Rattle.fab_types.specs.Committed.{Committed};
ghost use Rattle.block_store.specs.Record.{IsRecord, record_bytes};
ghost use Rattle.block_store.specs.Store.{AreRecords};
ghost use Rattle.store_devices.specs.Places.{ends_of};
ghost use Rattle.store_devices.specs.Placed.{IsOfMemory};

use crate::places::Places;
use crate::store_file::StoreFile;
use block_store::{DeviceError, read_record};
use fab_types::CommittedBlock;
use std::alloc::{AllocError, Global};

/// Why a record is not read where it lies.
#[derive(Clone, Copy, Debug, Drop, PartialEq, Eq)]
pub enum BlockFault {
    /// A growth of memory was refused (9).
    Memory,
    /// A call of the file failed, or the file ends before the record does (703).
    Device,
    /// What stands there is no record of this number (702).
    Damaged(u32),
}

impl From<AllocError> for BlockFault {
    ghost use Rattle.store_devices.specs.declared.placed.BlockFault.TheVariants.{Memory};

    ghost from_gives = { λ _ f. f ≡ Memory };

    fn from(_error: AllocError) -> BlockFault {
        BlockFault::Memory
    }
}

impl From<DeviceError> for BlockFault {
    ghost use Rattle.store_devices.specs.declared.placed.BlockFault.TheVariants.{Device};

    ghost from_gives = { λ _ f. f ≡ Device };

    fn from(_error: DeviceError) -> BlockFault {
        BlockFault::Device
    }
}

/// Fills a buffer with the bytes of a file from a place on. An error is a failed call, an
/// interrupted one too, or that the file has fewer bytes.
pub fn read_exact_from<D: StoreFile>(
    file: &D,
    buffer: &mut [u8],
    place: u64,
) -> Result<(), DeviceError>
    ensures filled { OnOk result (IfSome (D.contents file.now)
        (λ held. buffer.new ≡ take (length buffer.old) (drop place held))) }
    ensures length { length buffer.new ≡ length buffer.old }
    ensures known { D.is_known ≡ true → place + length buffer.old < 2 ^ 64 →
        IfSome (D.contents file.now)
        (λ held. place + length buffer.old ≤ length held → IsOk result) }
{
    let mut at: usize = 0;
    while at < buffer.len() {
        let Some(from) = place.checked_add(at as u64) else {
            return Err(DeviceError);
        };
        match file.read_at(&mut buffer[at..], from) {
            Ok(0) => return Err(DeviceError),
            Ok(count) => at += count,
            Err(_) => return Err(DeviceError),
        }
    }
    Ok(())
}

/// The record of a number, where it lies. The number has a place.
pub fn read_placed<D: StoreFile>(
    alloc: Global,
    file: &D,
    places: &Places,
    number: u32,
) -> Result<CommittedBlock, BlockFault>
    requires { (1 ≤ number) × (number ≤ length places.now) }
    ensures record { IfOk result (IsRecord number) }
    ensures stored { (cs : List Committed) → AreRecords 1 cs → places.now ≡ ends_of cs →
        D.contents file.now ≡ Some (flat_map record_bytes cs) →
        IfOk result (λ c. slice_get cs (number - 1) ≡ Some c)
        × (D.is_known ≡ true → IfErr result IsOfMemory) }
{
    let Some((begin, end)) = places.span(number) else {
        return Err(BlockFault::Device);
    };
    let mut bytes = vec![in alloc; 0u8; end.saturating_sub(begin) as usize]?;
    read_exact_from(file, &mut bytes, begin)?;
    match read_record(alloc, number, &bytes)? {
        Some(record) => Ok(record),
        None => Err(BlockFault::Damaged(number)),
    }
}
