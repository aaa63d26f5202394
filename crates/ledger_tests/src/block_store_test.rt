//! Stores of blocks of one transaction each, whole, in pieces, damaged, and on devices that fail.

ghost use Rattle.std.specs.Prelude.{◌≤◌};

use block_store::{AppendFault, End, RecordReader, append, load};
use fab_types::{Block, CommittedBlock, Flag};
use std::alloc::{AllocError, Global};
use std::io::{self, Read, Write};
use std::test::Fail;
use store_devices::Counted;
use wire::decode_block;

/// The bytes of a block of one transaction, but for its number.
const BLOCK: [u8; 110] =
    *b"\x00\x00\x00\x00\x07\x07\x07\x07\x07\x07\x07\x07\x07\x07\x07\x07\x07\x07\x07\x07\x07\x07\x07\x07\x07\x07\x07\x07\x07\x07\x07\x07\x07\x07\x07\x07\x09\x09\x09\x09\x09\x09\x09\x09\x09\x09\x09\x09\x09\x09\x09\x09\x09\x09\x09\x09\x09\x09\x09\x09\x09\x09\x09\x09\x09\x09\x09\x09\x00\x01\x00\x00\x00\x24\x02kv\x00\x00\x00\x00\x00\x00\x00\x00\x00\x00\x00\x00\x00\x00\x00\x00\x00\x00\x00\x00\x00\x00\x00\x00\x00\x01\x01a\x01\x00\x011\x00";

/// The length of a record of these stores: the length of the block, its header, the count of its
/// envelopes, one envelope behind its length, a flag and the digest.
const RECORD: usize = 4 + 68 + 2 + 4 + 36 + 1 + 32;

/// More calls than a test makes.
const NEVER: usize = 1 << 40;

/// A device in memory that moves at most so many bytes a call, and one of whose calls fails.
#[derive(Drop)]
struct Tape {
    bytes: Vec<u8>,
    at: usize,
    most: usize,
    /// So many calls go well before the one that fails.
    calls: usize,
}

impl Tape {
    fn new(bytes: Vec<u8>, most: usize, calls: usize) -> Tape {
        Tape {
            bytes,
            at: 0,
            most,
            calls,
        }
    }

    /// Whether this is the call that fails.
    fn fails(&mut self) -> bool {
        let fails = self.calls == 0;
        self.calls = self.calls.checked_sub(1).unwrap_or(NEVER);
        fails
    }
}

impl Write for Tape {
    fn write(&mut self, bytes: &[u8]) -> io::Result<usize> {
        if self.fails() {
            return Err(io::ErrorKind::Other.into());
        }
        let count = bytes.len().min(self.most);
        self.bytes.extend_from_slice(&bytes[..count])?;
        Ok(count)
    }

    fn flush(&mut self) -> io::Result<()> {
        Ok(())
    }
}

impl Read for Tape {
    fn read(&mut self, buffer: &mut [u8]) -> io::Result<usize> {
        if self.fails() {
            return Err(io::ErrorKind::Other.into());
        }
        let rest = self.bytes.get(self.at..).unwrap_or(&[]);
        let count = rest.len().min(self.most).min(buffer.len());
        buffer[..count].copy_from_slice(&rest[..count]);
        self.at += count;
        Ok(count)
    }
}

fn block(alloc: Global, number: u8) -> Result<Block, Fail> {
    let mut bytes = BLOCK;
    bytes[3] = number;
    match decode_block(alloc, &bytes) {
        Ok(block) => Ok(block),
        Err(_) => Err("a block".into()),
    }
}

/// The fault of appending a block of one transaction, if there is one.
fn fault_of(alloc: Global, tape: &mut Counted<Tape>, block: &Block) -> Option<AppendFault> {
    if block.envelopes.as_slice().len() != 1 {
        return Some(AppendFault::Device(NEVER));
    }
    append(alloc, tape, block, &[Flag::MvccReadConflict]).err()
}

/// Appends so many blocks.
fn append_each(alloc: Global, tape: &mut Counted<Tape>, count: u8) -> Result<(), Fail> {
    for before in 0..count {
        if fault_of(alloc, tape, &block(alloc, before.wrapping_add(1))?).is_some() {
            return Err("a record".into());
        }
    }
    Ok(())
}

/// The bytes of a store of so many blocks.
fn store(alloc: Global, count: u8) -> Result<Vec<u8>, Fail> {
    let mut tape = Counted::new(Tape::new(Vec::new(alloc), 50, NEVER));
    append_each(alloc, &mut tape, count)?;
    Ok(tape.into_inner().bytes)
}

/// How many blocks a store with these bytes has, and its end.
fn answer(alloc: Global, bytes: &[u8]) -> Result<(usize, End), AllocError> {
    answer_in_pieces(alloc, bytes, 50, NEVER)
}

/// The same where it is read in pieces of so many bytes, and a call fails.
fn answer_in_pieces(
    alloc: Global,
    bytes: &[u8],
    most: usize,
    calls: usize,
) -> Result<(usize, End), AllocError> {
    let mut tape = Counted::new(Tape::new(bytes.to_vec(alloc)?, most, calls));
    let loaded = load(alloc, &mut tape)?;
    Ok((loaded.blocks.len(), loaded.end))
}

/// Appends records. Whether that was done.
fn are_appended(alloc: Global, device: &mut Counted<Tape>, records: &[CommittedBlock]) -> bool {
    let mut are = true;
    for record in records {
        are &= append(alloc, device, record.block(), record.flags()).is_ok();
    }
    are
}

/// Appends the records that a piece of a store ends. Whether that was done.
fn is_copied(
    alloc: Global,
    reader: &mut RecordReader,
    device: &mut Counted<Tape>,
    piece: &[u8],
) -> bool {
    match reader.feed(piece) {
        Ok(records) => are_appended(alloc, device, &records),
        Err(_) => false,
    }
}

/// Whether a store is copied in two pieces, the first of them so long.
fn is_whole_in_two(alloc: Global, bytes: &[u8], cut: usize) -> bool {
    let mut reader = RecordReader::new(alloc);
    let mut device = Counted::new(Tape::new(Vec::new(alloc), 50, NEVER));
    let (first, second) = bytes.split_at_checked(cut).unwrap_or((bytes, &[]));
    let is_first = is_copied(alloc, &mut reader, &mut device, first)
        && reader.held() == cut % RECORD;
    let is_second = is_copied(alloc, &mut reader, &mut device, second);
    let is_same = device.into_inner().bytes.as_slice() == bytes;
    is_first && is_second && is_same && reader.finish() == End::Clean
}

fn is_whole_in_any_two(alloc: Global, bytes: &[u8]) -> bool {
    let mut is_whole = true;
    for cut in 0..bytes.len() {
        is_whole &= is_whole_in_two(alloc, bytes, cut);
    }
    is_whole
}

/// Whether a store is copied byte by byte.
fn is_whole_by_byte(alloc: Global, bytes: &[u8]) -> bool {
    let mut reader = RecordReader::new(alloc);
    let mut device = Counted::new(Tape::new(Vec::new(alloc), 50, NEVER));
    let mut is_copied_each = true;
    for byte in bytes {
        is_copied_each &= is_copied(alloc, &mut reader, &mut device, &[*byte]);
    }
    let is_same = device.into_inner().bytes.as_slice() == bytes;
    is_copied_each && is_same && reader.finish() == End::Clean
}

/// Whether a write of record 2 that fails at this call tells what it wrote, and leaves a store that
/// loads as the first block.
fn is_beginning(
    alloc: Global,
    bytes: &[u8],
    block: &Block,
    calls: usize,
) -> Result<bool, AllocError>
    requires { calls ≤ 15 }
{
    let mut tape = Counted::new(Tape::new(bytes.to_vec(alloc)?, 10, calls));
    let fault = fault_of(alloc, &mut tape, block);
    let (left, written) = (tape.into_inner().bytes, 10 * calls);
    let end = if written == 0 { End::Clean } else { End::Torn };
    let is_right = fault == Some(AppendFault::Device(written)) && left.len() == RECORD + written;
    Ok(is_right && answer(alloc, &left)? == (1, end))
}

fn are_beginnings(alloc: Global, bytes: &[u8], block: &Block) -> Result<bool, AllocError> {
    let mut are = true;
    for calls in 0..15 {
        are &= is_beginning(alloc, bytes, block, calls)?;
    }
    Ok(are)
}

#[test]
fn a_failed_write_leaves_a_beginning(rt: HostRuntime) -> Result<(), Fail> {
    let alloc = rt.alloc();
    let bytes = store(alloc, 1)?;
    let are = are_beginnings(alloc, &bytes, &block(alloc, 2)?)?;
    assert!(rt; are);
    Ok(())
}

/// Whether a read that fails at each call in turn gives the whole blocks before, and no failure
/// gives all.
fn are_read_up_to_the_failure(alloc: Global, bytes: &[u8]) -> Result<bool, AllocError> {
    let mut are = answer_in_pieces(alloc, bytes, 10, NEVER)? == (3, End::Clean);
    // 45 calls give the 441 bytes, and one more finds the end.
    for calls in 0..46 {
        let blocks = (10 * calls).min(bytes.len()) / RECORD;
        are &= answer_in_pieces(alloc, bytes, 10, calls)? == (blocks, End::DeviceFailed);
    }
    Ok(are)
}

fn flip(bytes: &mut [u8], at: usize) {
    if let Some(byte) = bytes.get_mut(at) {
        *byte ^= 1;
    }
}

/// Whether a store of which this byte is flipped loads as the blocks before the record that holds
/// it.
fn is_found(alloc: Global, bytes: &mut [u8], at: usize) -> Result<bool, AllocError> {
    flip(bytes, at);
    let (blocks, end) = answer(alloc, bytes)?;
    flip(bytes, at);
    let before = at / RECORD;
    let is_end = match end {
        End::Torn => true,
        End::Damaged(number) => number as usize == before + 1,
        End::Clean | End::DeviceFailed => false,
    };
    Ok(is_end && blocks == before)
}

fn each_flip_is_found(alloc: Global, bytes: &mut [u8]) -> Result<bool, AllocError> {
    let mut is_each = true;
    for at in 0..bytes.len() {
        is_each &= is_found(alloc, bytes, at)?;
    }
    Ok(is_each)
}

/// Whether a store of three records is read as far as it is whole, in whatever pieces it comes.
fn is_read(alloc: Global, bytes: &mut [u8]) -> Result<bool, AllocError> {
    let are_read = are_read_up_to_the_failure(alloc, bytes)?;
    let are_found = each_flip_is_found(alloc, bytes)?;
    Ok(are_read && are_found && is_whole_in_any_two(alloc, bytes) && is_whole_by_byte(alloc, bytes))
}

#[test]
fn a_store_is_read_as_far_as_it_is_whole(rt: HostRuntime) -> Result<(), Fail> {
    let alloc = rt.alloc();
    let is_read = is_read(alloc, &mut store(alloc, 3)?)?;
    assert!(rt; is_read);
    Ok(())
}
