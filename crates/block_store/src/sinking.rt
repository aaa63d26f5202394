//! Handing the records of a store to a sink as they are read.

ghost use Rattle.std.specs.Prelude.{◌≡◌, ◌<◌, [], ◌++◌, List, IfOk, OnOk, length};
ghost use Rattle.fab_types.specs.Committed.{Committed};
ghost use Rattle.block_store.specs.Loading.{Holds, IsLoaded, IsTold, LoadsFrom, ReadsAll};

use crate::device::CountedRead;
use crate::end::End;
use crate::record_reader::RecordReader;
use fab_types::CommittedBlock;
use std::alloc::{AllocError, Global};

/// So many bytes at most are asked of the device at a time, so that a sink has many records at once.
const PIECE: usize = 1_048_576;

/// Who takes the records of a store as they are read.
pub trait RecordSink {
    /// What a sink is made with, which no call changes.
    ghost Context: { Type 0 };

    ghost context: { Self → Self.Context };

    /// These records were taken, in their order.
    ghost Took: { Self → List Committed → Type 0 };

    /// Takes the next records. The error is of memory.
    fn take(&mut self, records: Vec<CommittedBlock>) -> Result<(), AllocError>
        requires { (before : List Committed) × Took self.old before }
        ensures took { (before : List Committed) → Took self.old before →
            OnOk result (Took self.new (before ++ records.items)) }
        ensures context { OnOk result (context self.new ≡ context self.old) };
}

/// How a store ends whose records a sink took.
#[derive(Drop)]
pub struct StoreEnd {
    pub end: End,
    /// How many bytes were read of a record that is not whole.
    pub held: usize,
}

/// So many zeros.
fn zeros(alloc: Global, len: usize) -> Result<Vec<u8>, AllocError>
    ensures { IfOk result (λ v. length v.items ≡ len) }
{
    Ok(vec![in alloc; 0u8; len]?)
}

/// The same as [`read_into`], with a buffer for the pieces.
fn read_by<R: CountedRead, S: RecordSink>(
    alloc: Global,
    reader: &mut R,
    piece: &mut [u8],
    sink: &mut S,
) -> Result<StoreEnd, AllocError>
    requires room { 0 < length piece.old }
    requires none { S.Took sink.old [] }
    ensures took { IfOk result
        (λ e. (cs : List Committed) × S.Took sink.new cs
        × IsLoaded (R.taken reader.old) (R.taken reader.new) cs e.end
        × Holds e.end (R.taken reader.old) (R.taken reader.new) cs e.held
        × LoadsFrom (R.taken reader.old) (R.taken reader.new) (R.remaining reader.old) cs e.end) }
    ensures context { IfOk result (λ _. S.context sink.new ≡ S.context sink.old) }
    ensures all { IfOk result (λ e. ReadsAll e.end (R.IsAtEnd reader.new)) }
    ensures device { IfOk result
        (λ e. IsTold e.end (R.failures reader.old) (R.failures reader.new)) }
{
    let mut records = RecordReader::new(alloc);
    'pieces: loop {
        match reader.read(piece) {
            Err(_) => {
                let (held, end) = (records.held(), End::DeviceFailed);
                return Ok(StoreEnd { end, held });
            }
            Ok(0) => {
                let (held, end) = (records.held(), records.finish());
                return Ok(StoreEnd { end, held });
            }
            Ok(count) => {
                let more = records.feed(&piece[..count])?;
                sink.take(more)?;
            }
        }
        if records.is_damaged() {
            let (held, end) = (records.held(), records.finish());
            return Ok(StoreEnd { end, held });
        }
    }
}

/// Reads a store to the end of its device, to damage or to the first call that fails, and hands its
/// records to a sink. It holds one piece and what has come of the next record. The error is of
/// memory.
pub fn read_into<R: CountedRead, S: RecordSink>(
    alloc: Global,
    reader: &mut R,
    sink: &mut S,
) -> Result<StoreEnd, AllocError>
    requires none { S.Took sink.old [] }
    // The sink took the records of the bytes that were read; so the end and what is held are.
    ensures took { IfOk result
        (λ e. (cs : List Committed) × S.Took sink.new cs
        × IsLoaded (R.taken reader.old) (R.taken reader.new) cs e.end
        × Holds e.end (R.taken reader.old) (R.taken reader.new) cs e.held
        × LoadsFrom (R.taken reader.old) (R.taken reader.new) (R.remaining reader.old) cs e.end) }
    ensures context { IfOk result (λ _. S.context sink.new ≡ S.context sink.old) }
    // These were all, unless there was damage or the device failed.
    ensures all { IfOk result (λ e. ReadsAll e.end (R.IsAtEnd reader.new)) }
    // The device is blamed exactly where a call of it failed.
    ensures device { IfOk result
        (λ e. IsTold e.end (R.failures reader.old) (R.failures reader.new)) }
{
    let mut piece = zeros(alloc, PIECE)?;
    read_by(alloc, reader, &mut piece, sink)
}
