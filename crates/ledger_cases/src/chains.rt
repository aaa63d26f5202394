//! Chains from the words of their transactions, and the state after them.

ghost use Rattle.std.specs.Prelude.{◌≡◌, ◌+◌, length, IfOk, IfSome};
ghost use Rattle.world_state.specs.Judging.{IsOf};

use crate::bytes::split_word;
use crate::fault::CaseFault;
use crate::texts::{separate, write_pair, write_version};
use crate::transactions::{Asked, asked_range, is_endorsed, key_of, payload_of, unendorsed};
use fab_types::{
    Block, BlockData, BlockNumber, Edition, Envelope, Flag, Header, Key, Value, Version,
};
use mvcc_validate::flag_block;
use std::alloc::{AllocError, Global};
use std::fmt::Write;
use world_state::{Judged, Snapshot};

/// Each key of the state after a chain, with its value and version.
pub fn show_state(
    alloc: Global,
    edition: Edition,
    snapshot: &mut Snapshot,
    chain: &str,
) -> Result<String, CaseFault> {
    judge_chain(alloc, edition, snapshot, chain)?;
    let entries = snapshot.entries(alloc)?;
    Ok(entries_text(alloc, &entries)?)
}

/// What the state after a chain has at the key that the first word is.
pub fn show_key(
    alloc: Global,
    edition: Edition,
    snapshot: &mut Snapshot,
    text: &str,
) -> Result<String, CaseFault> {
    let (key, chain) = split_word(text);
    judge_chain(alloc, edition, snapshot, chain)?;
    let key = key_of(alloc, key)?;
    let mut answer = String::new(alloc);
    match snapshot.get(&key) {
        Some((value, version)) => write_entry(&mut answer, &key, value, version)?,
        None => answer.push_str("absent")?,
    }
    Ok(answer)
}

/// The first entries of the range that the first word is, in the state after a chain.
pub fn show_range(
    alloc: Global,
    edition: Edition,
    snapshot: &mut Snapshot,
    text: &str,
) -> Result<String, CaseFault> {
    let (asked, chain) = split_word(text);
    judge_chain(alloc, edition, snapshot, chain)?;
    range_text(alloc, snapshot, &asked_range(alloc, asked)?)
}

fn range_text(alloc: Global, snapshot: &Snapshot, asked: &Asked) -> Result<String, CaseFault> {
    let limit = usize::from(asked.limit);
    let entries = snapshot.range(alloc, &asked.start, &asked.end, limit)?;
    Ok(entries_text(alloc, &entries)?)
}

/// How many entries there are, and each.
fn entries_text(
    alloc: Global,
    entries: &[(&Key, &(Value, Version))],
) -> Result<String, AllocError> {
    let mut answer = format!(in alloc; "{}", entries.len())?;
    for (key, entry) in entries {
        answer.push(' ')?;
        write_entry(&mut answer, key, &entry.0, entry.1)?;
    }
    Ok(answer)
}

fn write_entry(
    answer: &mut String,
    key: &Key,
    value: &Value,
    version: Version,
) -> Result<(), AllocError> {
    write_pair(answer, key, value)?;
    write_version(answer, Some(version))
}

/// The flags of the blocks of a chain under an edition of the rules. They are added to the
/// snapshot.
pub fn judge_chain(
    alloc: Global,
    edition: Edition,
    snapshot: &mut Snapshot,
    chain: &str,
) -> Result<String, CaseFault> {
    let mut answer = String::new(alloc);
    for text in chain.split(" / ") {
        judge_block(alloc, edition, &mut answer, snapshot, text)?;
    }
    Ok(answer)
}

/// Adds the flags of the next block to the answer, and the block to the snapshot.
fn judge_block(
    alloc: Global,
    edition: Edition,
    answer: &mut String,
    snapshot: &mut Snapshot,
    text: &str,
) -> Result<(), CaseFault> {
    let (mut envelopes, mut endorsed) = (Vec::new(alloc), Vec::new(alloc));
    add_envelopes(
        alloc,
        snapshot.height(),
        &mut envelopes,
        &mut endorsed,
        text,
    )?;
    let block = next_block(snapshot, envelopes)?;
    let judged = judged(alloc, edition, answer, snapshot, &block, &endorsed)?;
    Ok(snapshot.extend(alloc, block, judged)?)
}

/// What the next block is judged to be, whose flags are added to the answer.
fn judged(
    alloc: Global,
    edition: Edition,
    answer: &mut String,
    snapshot: &Snapshot,
    block: &Block,
    endorsed: &[bool],
) -> Result<Judged, CaseFault>
    ensures { IfOk result (λ judged. IsOf block.now judged) }
{
    if endorsed.len() != block.envelopes.as_slice().len() {
        return Err(CaseFault::BadLine);
    }
    separate(answer, " /")?;
    let judged = flag_block(alloc, edition, snapshot, block, endorsed)?;
    write_flags(answer, &judged.flags)?;
    Ok(judged)
}

/// The numbers of flags, with blanks between them.
fn write_flags(answer: &mut String, flags: &[Flag]) -> Result<(), AllocError> {
    for flag in flags {
        separate(answer, " ")?;
        write!(answer, "{flag}")?;
    }
    Ok(())
}

/// Adds the transactions of a block, each with a nonce of its own, and which of them are endorsed.
fn add_envelopes(
    alloc: Global,
    height: usize,
    envelopes: &mut Vec<Envelope>,
    endorsed: &mut Vec<bool>,
    text: &str,
) -> Result<(), CaseFault> {
    for words in text.split(" | ") {
        let nonce = nonce_at(height, envelopes.len());
        endorsed.push(is_endorsed(words))?;
        envelopes.push(unendorsed(alloc, payload_of(alloc, nonce, words)?))?;
    }
    Ok(())
}

/// A nonce for each place of the first 256 blocks: the bytes of both, and 1 in all others.
fn nonce_at(height: usize, place: usize) -> [u8; 16] {
    let mut nonce = [1; 16];
    nonce[0] = (height % 256) as u8;
    nonce[1] = (place / 256 % 256) as u8;
    nonce[2] = (place % 256) as u8;
    nonce
}

/// The header of the block that comes next, if one may. Its hashes are zeros.
fn next_header(snapshot: &Snapshot) -> Option<Header>
    ensures { IfSome result (λ h. h.number ≡ length snapshot.now + 1) }
{
    Some(Header {
        number: BlockNumber::new(snapshot.height() as u32 + 1)?,
        previous_hash: [0; 32],
        data_hash: [0; 32],
    })
}

/// The block of these envelopes that comes next. A bad line where none may, or not with these.
pub fn next_block(snapshot: &Snapshot, envelopes: Vec<Envelope>) -> Result<Block, CaseFault>
    ensures number { IfOk result (λ b. b.header.number ≡ length snapshot.now + 1) }
    ensures envelopes { IfOk result (λ b. b.envelopes ≡ envelopes.items) }
{
    let header = next_header(snapshot).ok_or(CaseFault::BadLine)?;
    match BlockData::new(envelopes) {
        Some(envelopes) => Ok(Block { header, envelopes }),
        None => Err(CaseFault::BadLine),
    }
}
