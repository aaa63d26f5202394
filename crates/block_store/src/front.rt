//! The record at the front of some bytes.

ghost use Rattle.std.specs.Prelude.{◌≡◌, ◌<◌, ◌++◌, ◌↔◌, IsTrue, IfOk, IfSome, IfNone, length};
ghost use Rattle.std.specs.Int.{w32, to_be_bytes};
ghost use Rattle.block_store.specs.Record.{framed_bytes, IsBlockAt};
ghost use Rattle.block_store.specs.Front.{IsFront, Seals, Spells};

use crate::flag_numbers::flags_of;
use fab_types::{Block, CommittedBlock};
use sha2::{Digest, Sha256};
use std::alloc::{AllocError, Global};
use wire::{WireFault, decode_block};

/// A block has at least so many bytes.
const SHORTEST: usize = 103;

/// A block has at most so many bytes.
const LONGEST: usize = 526_406;

/// What stands at the front.
#[derive(Drop)]
pub(crate) enum Front {
    /// A record, and how many bytes it takes.
    Whole(CommittedBlock, usize),
    /// A part of a record, or nothing. It stays one while there are fewer bytes than these.
    Beginning(usize),
    /// Bytes with which no record begins.
    Damaged,
}

/// The length at the front, and the bytes behind it.
fn split_length(bytes: &[u8]) -> Option<(u32, &[u8])>
    ensures some { IfSome result (λ p. bytes.now ≡ to_be_bytes w32 p.0 ++ p.1.now) }
    ensures none { IfNone result (length bytes.now < 4) }
{
    let (front, rest) = bytes.split_first_chunk::<4>()?;
    Some((u32::from_be_bytes(*front), rest))
}

fn has_number(block: &Block, number: u32) -> bool
    ensures { IsTrue result ↔ (block.now.header.number ≡ number) }
{
    block.header.number.get() == number
}

/// The block with that number, if the bytes spell it.
fn block_at(alloc: Global, number: u32, text: &[u8]) -> Result<Option<Block>, AllocError>
    ensures { IfOk result (λ o. Spells number text.now o) }
{
    match decode_block(alloc, text) {
        Ok(block) => {
            if has_number(&block, number) {
                Ok(Some(block))
            } else {
                Ok(None)
            }
        }
        Err(WireFault::Memory) => Err(AllocError),
        Err(_) => Ok(None),
    }
}

/// The record with these bytes before its digest, if its flags and its digest are right.
fn sealed(
    alloc: Global,
    block: Block,
    before: &[u8],
    numbers: &[u8],
    digest: &[u8],
) -> Result<Option<CommittedBlock>, AllocError>
    requires { length numbers.now ≡ length block.envelopes }
    ensures { IfOk result (λ o. Seals block before.now numbers.now digest.now o) }
{
    let right = Sha256::digest(before);
    if digest != right.as_slice() {
        return Ok(None);
    }
    let Some(flags) = flags_of(alloc, numbers)? else {
        return Ok(None);
    };
    Ok(Some(CommittedBlock::new(block, flags)))
}

/// What stands at the front where a block is whole. `rest` are the bytes behind the block.
fn behind(
    alloc: Global,
    number: u32,
    block: Block,
    bytes: &[u8],
    rest: &[u8],
) -> Result<Front, AllocError>
    requires is_block { IsBlockAt number block }
    requires bytes_are { bytes.now ≡ framed_bytes block ++ rest.now }
    ensures { IfOk result (IsFront number bytes.now) }
{
    let count = block.envelopes.as_slice().len();
    if rest.len() < count + 32 {
        return Ok(Front::Beginning(bytes.len() - rest.len() + count + 32));
    }
    let (numbers, rest) = rest.split_at(count);
    let (digest, rest) = rest.split_at(32);
    let taken = bytes.len() - rest.len();
    let before = &bytes[..taken - 32];
    match sealed(alloc, block, before, numbers, digest)? {
        Some(record) => Ok(Front::Whole(record, taken)),
        None => Ok(Front::Damaged),
    }
}

/// What stands at the front, where record `number` is to stand.
pub(crate) fn look_at_front(alloc: Global, number: u32, bytes: &[u8]) -> Result<Front, AllocError>
    ensures { IfOk result (IsFront number bytes.now) }
{
    let Some((len, rest)) = split_length(bytes) else {
        return Ok(Front::Beginning(4));
    };
    let len = len as usize;
    if len < SHORTEST || len > LONGEST {
        return Ok(Front::Damaged);
    }
    if rest.len() < len {
        return Ok(Front::Beginning(4 + len));
    }
    let (text, rest) = rest.split_at(len);
    match block_at(alloc, number, text)? {
        Some(block) => behind(alloc, number, block, bytes, rest),
        None => Ok(Front::Damaged),
    }
}
