//! One record, where all of its bytes are at hand.

ghost use Rattle.std.specs.Prelude.{◌≡◌, ◌≤◌, IfOk, length};
ghost use Rattle.fab_types.specs.BlockWithin.{IsBlock};
ghost use Rattle.block_store.specs.Record.{record_bytes};
ghost use Rattle.block_store.specs.OneRecord.{IsRecordIn};

use crate::front::{Front, look_at_front};
use fab_types::CommittedBlock;
use std::alloc::{AllocError, Global};

/// The record of this number that these bytes are, from the first to the last. None where they are
/// none. The error is of memory.
pub fn read_record(
    alloc: Global,
    number: u32,
    bytes: &[u8],
) -> Result<Option<CommittedBlock>, AllocError>
    ensures { IfOk result (IsRecordIn number bytes.now) }
{
    match look_at_front(alloc, number, bytes)? {
        Front::Whole(record, taken) => {
            if taken == bytes.len() {
                Ok(Some(record))
            } else {
                Ok(None)
            }
        }
        Front::Beginning(_) => Ok(None),
        Front::Damaged => Ok(None),
    }
}

/// How many bytes the record of a block with its flags has: fewer than 526,954.
pub fn record_size(committed: &CommittedBlock) -> usize
    ensures value { IsBlock committed.now.block →
        result ≡ length (record_bytes committed.now) }
    ensures limits { result ≤ 526954 }
{
    let block = committed.block();
    let _flags = committed.flags();
    4 + block.size() + block.envelopes.as_slice().len() + 32
}
