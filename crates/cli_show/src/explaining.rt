//! What is wrong with a store or a module, in words on the standard error.

ghost use Rattle.std.specs.Prelude.{◌≡◌};

use crate::showing::{Asked, Shown, fault_of};
use crate::span::Span;
use block_store::{End, RecordReader};
use cli_lines::{
    Access, Failure, Files, Location, TAKE_AGAIN, block_words, explain, explain_missing_in,
    explain_trouble, flags_words,
};
use fab_types::limits::LAST_BLOCK;
use std::alloc::{AllocError, Global};
use std::io::Read;
use store_replay::Replayed;
use wasm_file::ModuleRefusal;
use wasm_profile::Profile;
use wasm_reasons::module_reason;
use world_state::Past;

/// What becomes of a part of a record.
const CUT_OFF: &str = "ledger peer cuts it off";

/// How many bytes of a store are read at a time.
const PIECE: u64 = 65_536;

/// Says why a module is refused, if it is.
pub(crate) fn explain_module<F: Files>(
    alloc: Global,
    files: &mut F,
    name: &str,
    bytes: &[u8],
    profile: Profile,
    functions: &Result<usize, ModuleRefusal>,
)
    ensures kept { F.bytes files.new ≡ F.bytes files.old }
{
    match functions {
        Ok(_) | Err(ModuleRefusal::Memory) => {}
        Err(refusal) => {
            let reason = module_reason(alloc, profile, bytes, refusal);
            explain(alloc, files, &Location::file(name), reason);
        }
    }
}

/// Says why the state after a store is not told, if it is not.
pub(crate) fn explain_fault<F: Files>(alloc: Global, files: &mut F, name: &str, replayed: &Replayed)
    ensures kept { F.bytes files.new ≡ F.bytes files.old }
{
    match fault_of(replayed) {
        Some(Failure::Flags(block)) => explain_flags(alloc, files, name, block, "711"),
        Some(_) => explain_chain(alloc, files, name, replayed),
        None => {}
    }
}

/// Says why the chain of a store is not whole, if it is not: why a block does not fit, or else how
/// the store ends.
pub(crate) fn explain_chain<F: Files>(alloc: Global, files: &mut F, name: &str, replayed: &Replayed)
    ensures kept { F.bytes files.new ≡ F.bytes files.old }
{
    match replayed.refused {
        Some(_) => explain_unfit(alloc, files, name, replayed),
        None => explain_end(alloc, files, name, replayed.blocks, replayed.end),
    }
}

/// Says what is found wrong with the blocks of a store, but for reruns that differ, and how it
/// ends.
pub(crate) fn explain_findings<F: Files>(
    alloc: Global,
    files: &mut F,
    name: &str,
    replayed: &Replayed,
    missing: Option<u32>,
)
    ensures kept { F.bytes files.new ≡ F.bytes files.old }
{
    match (replayed.differs, replayed.refused) {
        (Some(block), _) => explain_flags(alloc, files, name, block, "flags differ"),
        (None, Some(_)) => explain_unfit(alloc, files, name, replayed),
        (None, None) => {
            if let Some(block) = missing {
                explain_missing_in(alloc, files, name, block);
            }
        }
    }
    explain_end(alloc, files, name, replayed.blocks, replayed.end);
}

/// Says the same of a store whose blocks are shown, and that none is among those that were asked
/// for, where the store has none of them.
pub(crate) fn explain_shown<F: Files>(
    alloc: Global,
    files: &mut F,
    shown: &Shown<'_>,
    replayed: &Replayed,
    missing: Option<u32>,
)
    ensures kept { F.bytes files.new ≡ F.bytes files.old }
{
    explain_findings(alloc, files, shown.store, replayed, missing);
    let Span { from, to } = shown.span;
    if from <= to {
        return explain_absent(alloc, files, shown.store, from, replayed);
    }
    let name = shown.store;
    if let Ok(words) = format!(in alloc; "{name}: there is no block from {from} to {to}") {
        files.remark(&words);
    }
}

/// Says why the state that is asked for is not told, if it is not, and that a store has no block of
/// the number, where it is told after the last one.
pub(crate) fn explain_asked<F: Files>(
    alloc: Global,
    files: &mut F,
    asked: &Asked<'_>,
    replayed: &Replayed,
)
    ensures kept { F.bytes files.new ≡ F.bytes files.old }
{
    explain_fault(alloc, files, asked.store, replayed);
    if asked.at < LAST_BLOCK as usize && fault_of(replayed).is_none() {
        explain_absent(alloc, files, asked.store, asked.at, replayed);
    }
}

/// Says that a chain has no block of a number, if it has none.
fn explain_absent<F: Files>(
    alloc: Global,
    files: &mut F,
    name: &str,
    number: usize,
    replayed: &Replayed,
)
    ensures kept { F.bytes files.new ≡ F.bytes files.old }
{
    let height = replayed.chain.height() as usize;
    if number <= height {
        return;
    }
    if let Ok(words) = format!(in alloc;
        "{name}: there is no block {number}; the last is {height}"
    ) {
        files.remark(&words);
    }
}

/// Says which block has other flags than the table's, with what stands on the standard output for
/// it.
fn explain_flags<F: Files>(alloc: Global, files: &mut F, name: &str, block: usize, told: &str)
    ensures kept { F.bytes files.new ≡ F.bytes files.old }
{
    let words = match flags_words(alloc, block) {
        Ok(words) => format!(in alloc; "{words} ({told})"),
        Err(error) => Err(error),
    };
    explain(alloc, files, &Location::file(name), words);
}

/// Says why a block does not fit, if one does not.
fn explain_unfit<F: Files>(alloc: Global, files: &mut F, name: &str, replayed: &Replayed)
    ensures kept { F.bytes files.new ≡ F.bytes files.old }
{
    if let Some(refusal) = replayed.refused {
        let block = (replayed.chain.height() as usize).saturating_add(1);
        let words = block_words(alloc, block, refusal);
        explain(alloc, files, &Location::file(name), words);
    }
}

/// Says how a store ends that has so many whole blocks, unless it ends with a record.
fn explain_end<F: Files>(alloc: Global, files: &mut F, name: &str, blocks: usize, end: End)
    ensures kept { F.bytes files.new ≡ F.bytes files.old }
{
    let words = match end {
        End::Clean => return,
        End::DeviceFailed => return explain_trouble(alloc, files, name, Access::Read),
        End::Torn => torn_words(alloc, files, name, blocks),
        End::Damaged(record) => damaged_words(alloc, files, name, record),
    };
    explain(alloc, files, &Location::file(name), words);
}

/// That a store ends with a part of a record.
fn torn_words<F: Files>(
    alloc: Global,
    files: &mut F,
    name: &str,
    blocks: usize,
) -> Result<String, AllocError>
    ensures kept { F.bytes files.new ≡ F.bytes files.old }
{
    let at = whole_bytes(alloc, files, name, u64::MAX);
    format!(in alloc;
        "a part of a record is behind byte {at}, where {blocks} whole blocks end; {CUT_OFF} (701)"
    )
}

/// That a record of a store is damaged.
fn damaged_words<F: Files>(
    alloc: Global,
    files: &mut F,
    name: &str,
    record: u32,
) -> Result<String, AllocError>
    ensures kept { F.bytes files.new ≡ F.bytes files.old }
{
    let at = start_of_damage(alloc, files, name);
    format!(in alloc; "record {record}, at byte {at}, is damaged; {TAKE_AGAIN} (702)")
}

/// At which byte the damaged record of a store begins, as far as it can be read again: it is looked
/// for byte by byte in the piece in which it shows.
fn start_of_damage<F: Files>(alloc: Global, files: &mut F, name: &str) -> u64
    ensures kept { F.bytes files.new ≡ F.bytes files.old }
{
    let piece = whole_bytes(alloc, files, name, u64::MAX);
    whole_bytes(alloc, files, name, piece)
}

/// How many bytes of a store its whole records take, as far as it can be read again. It is read in
/// pieces up to this byte, and byte by byte from there on: where damage shows in a piece, what is
/// before that piece.
fn whole_bytes<F: Files>(alloc: Global, files: &mut F, name: &str, fine_from: u64) -> u64
    ensures kept { F.bytes files.new ≡ F.bytes files.old }
{
    match files.open(name) {
        Some(file) => bytes_of_records(alloc, file, fine_from),
        None => 0,
    }
}

/// The same of what a reader gives.
fn bytes_of_records<R: Read + Drop>(alloc: Global, mut file: R, fine_from: u64) -> u64 {
    let mut records = RecordReader::new(alloc);
    let mut read: u64 = 0;
    for _ in 0..u64::MAX {
        let whole = read.saturating_sub(records.held() as u64);
        let most = if read < fine_from { PIECE } else { 1 };
        let mut piece = Vec::new(alloc);
        let Ok(count) = file.by_ref().take(most).read_to_end(&mut piece) else {
            return whole;
        };
        if count == 0 || records.feed(&piece).is_err() {
            return whole;
        }
        if records.is_damaged() {
            return if read < fine_from { read } else { whole };
        }
        read = read.saturating_add(count as u64);
    }
    read
}
