//! Loading a store.

ghost use Rattle.std.specs.Prelude.{◌≡◌, ◌<◌, IfOk, length};
ghost use Rattle.block_store.specs.Loading.{Holds, IsLoaded, IsTold, LoadsFrom, ReadsAll};

use crate::device::CountedRead;
use crate::end::End;
use crate::record_reader::RecordReader;
use fab_types::CommittedBlock;
use std::alloc::{AllocError, Global};

/// So many bytes at most are asked of the device at a time.
const PIECE: usize = 65_536;

/// A store as it was loaded: its whole records from block 1 on, and what stands behind them.
#[derive(Drop)]
pub struct Loaded {
    pub blocks: Vec<CommittedBlock>,
    pub end: End,
    /// How many bytes were read of a record that is not whole.
    pub held: usize,
}

/// So many zeros.
fn zeros(alloc: Global, len: usize) -> Result<Vec<u8>, AllocError>
    ensures { IfOk result (λ v. length v.items ≡ len) }
{
    Ok(vec![in alloc; 0u8; len]?)
}

/// The same as [`load`], with a buffer for the pieces.
fn load_by<R: CountedRead>(
    alloc: Global,
    reader: &mut R,
    piece: &mut [u8],
) -> Result<Loaded, AllocError>
    requires { 0 < length piece.old }
    ensures loaded { IfOk result
        (λ l. IsLoaded (R.taken reader.old) (R.taken reader.new) l.blocks.items l.end) }
    ensures held { IfOk result
        (λ l. Holds l.end (R.taken reader.old) (R.taken reader.new) l.blocks.items l.held) }
    ensures all { IfOk result (λ l. ReadsAll l.end (R.IsAtEnd reader.new)) }
    ensures device { IfOk result
        (λ l. IsTold l.end (R.failures reader.old) (R.failures reader.new)) }
    ensures store { IfOk result
        (λ l. LoadsFrom (R.taken reader.old) (R.taken reader.new) (R.remaining reader.old)
        l.blocks.items l.end) }
{
    let mut records = RecordReader::new(alloc);
    let mut blocks = Vec::new(alloc);
    'pieces: loop {
        match reader.read(piece) {
            Err(_) => {
                let (held, end) = (records.held(), End::DeviceFailed);
                return Ok(Loaded { blocks, end, held });
            }
            Ok(0) => {
                let (held, end) = (records.held(), records.finish());
                return Ok(Loaded { blocks, end, held });
            }
            Ok(count) => {
                let mut more = records.feed(&piece[..count])?;
                blocks.append(&mut more)?;
            }
        }
        if records.is_damaged() {
            let (held, end) = (records.held(), records.finish());
            return Ok(Loaded { blocks, end, held });
        }
    }
}

/// Reads a store to the end of its device, to damage or to the first call that fails. It holds one
/// piece and what has come of the next record beside the blocks that it gives. The error is of
/// memory.
pub fn load<R: CountedRead>(alloc: Global, reader: &mut R) -> Result<Loaded, AllocError>
    // The records and the end are those of the bytes that were read.
    ensures loaded { IfOk result
        (λ l. IsLoaded (R.taken reader.old) (R.taken reader.new) l.blocks.items l.end) }
    // What is held stands behind the records; damage is not held.
    ensures held { IfOk result
        (λ l. Holds l.end (R.taken reader.old) (R.taken reader.new) l.blocks.items l.held) }
    // These were all, unless there was damage or the device failed.
    ensures all { IfOk result (λ l. ReadsAll l.end (R.IsAtEnd reader.new)) }
    // The device is blamed exactly where a call of it failed.
    ensures device { IfOk result
        (λ l. IsTold l.end (R.failures reader.old) (R.failures reader.new)) }
    // They are those of the store that was left to be read, where that is known.
    ensures store { IfOk result
        (λ l. LoadsFrom (R.taken reader.old) (R.taken reader.new) (R.remaining reader.old)
        l.blocks.items l.end) }
{
    let mut piece = zeros(alloc, PIECE)?;
    load_by(alloc, reader, &mut piece)
}
