//! The store in whose place a run writes its own.

ghost use Rattle.std.specs.Prelude.{◌≡◌, IfErr, IfOk, IfSome, IsTrue, OnOk};
ghost use Rattle.cli_lines.specs.Told.{IsBrokenOff, IsSilent};
ghost use Rattle.cli_session.specs.Stored.{BeginsNoStore, HasFound, IsStoreBy};

use block_store::{End, load};
use cli_lines::{Access, Failure, Files, Location, explain_numbered, explain_trouble};
use std::alloc::{AllocError, Global};
use std::io::Read;
use store_devices::Counted;

/// A file in whose place a store comes.
#[derive(Drop)]
pub(crate) struct Replaced<L: Drop> {
    /// Nobody else has the file.
    _lock: L,
    /// It has so many whole blocks.
    blocks: usize,
}

/// What was found in a file: so many whole blocks, and what stands behind them.
#[derive(Clone, Copy)]
struct Found {
    blocks: usize,
    end: End,
}

/// Takes the file of a name for the program alone, so that a store comes in its place.
///
/// Refused where another one has it, and where it holds bytes with which no store begins: then it
/// stays. Sentences call it by the name that is shown.
pub(crate) fn take_file<F: Files>(
    alloc: Global,
    files: &mut F,
    name: &str,
    shown: &str,
) -> Result<Replaced<F::Lock>, Failure>
    ensures silent { IfErr result IsSilent }
    ensures lost { IfErr result IsBrokenOff }
    ensures store { OnOk result
        (IfSome (F.bytes files.old name.now) (λ held. ¬ BeginsNoStore held)) }
    ensures kept { F.bytes files.new ≡ F.bytes files.old }
{
    let lock = lock_of(alloc, files, name, shown)?;
    let blocks = blocks_of(alloc, files, name, shown)?;
    Ok(Replaced {
        _lock: lock,
        blocks,
    })
}

/// Takes the file of a name for the program alone. Refused where another one has it.
fn lock_of<F: Files>(
    alloc: Global,
    files: &mut F,
    name: &str,
    shown: &str,
) -> Result<F::Lock, Failure>
    ensures silent { IfErr result IsSilent }
    ensures lost { IfErr result IsBrokenOff }
    ensures kept { F.bytes files.new ≡ F.bytes files.old }
{
    let Some(lock) = files.lock(name) else {
        explain_trouble(alloc, files, shown, Access::Write);
        return Err(Failure::File);
    };
    Ok(lock)
}

/// How many whole blocks the store in a file has, which may be empty. Refused where its bytes begin
/// no store, and where they cannot be read.
fn blocks_of<F: Files>(
    alloc: Global,
    files: &mut F,
    name: &str,
    shown: &str,
) -> Result<usize, Failure>
    ensures silent { IfErr result IsSilent }
    ensures lost { IfErr result IsBrokenOff }
    ensures store { OnOk result
        (IfSome (F.bytes files.old name.now) (λ held. ¬ BeginsNoStore held)) }
    ensures kept { F.bytes files.new ≡ F.bytes files.old }
{
    let Some(reader) = files.open(name) else {
        explain_trouble(alloc, files, shown, Access::Read);
        return Err(Failure::File);
    };
    let found = found_by(alloc, reader)?;
    if !found.is_store() {
        explain_found(alloc, files, shown, found.end);
        return Err(Failure::File);
    }
    Ok(found.blocks)
}

/// What a reader gives, as a store, as far as its records are whole.
fn found_by<R: Read + Drop>(alloc: Global, reader: R) -> Result<Found, AllocError>
    ensures { IfOk result
        (λ f. IfSome (R.remaining reader) (λ held. HasFound held f.blocks f.end)) }
{
    let mut device = Counted::new(reader);
    let loaded = load(alloc, &mut device)?;
    Ok(Found {
        blocks: loaded.blocks.len(),
        end: loaded.end,
    })
}

impl Found {
    /// Whether it is a store: no byte, or a whole block and what stands behind it.
    fn is_store(&self) -> bool
        ensures { IsTrue result → IsStoreBy self.now.blocks self.now.end }
    {
        match self.end {
            End::Clean => true,
            End::Torn | End::Damaged(_) => self.blocks > 0,
            End::DeviceFailed => false,
        }
    }
}

/// Says why no store comes in the place of a file, where no block stands before such an end.
fn explain_found<F: Files>(alloc: Global, files: &mut F, name: &str, end: End)
    ensures kept { F.bytes files.new ≡ F.bytes files.old }
{
    match end {
        End::DeviceFailed => explain_trouble(alloc, files, name, Access::Read),
        End::Torn => explain_numbered(alloc, files, &Location::file(name), NO_BLOCK, 703),
        _ => explain_numbered(alloc, files, &Location::file(name), NO_STORE, 703),
    }
}

/// What is wrong with a file that holds the beginning of a record at most.
const NO_BLOCK: &str =
    "no block is whole in it, and it stays; remove it if it is a store, or name another file";

/// What is wrong with a file that holds anything else.
const NO_STORE: &str = "it is no store, and stays; name another file";

impl<L: Drop> Replaced<L> {
    /// Says that a store came in the place of another one, if there was a block in it.
    pub(crate) fn explain<F: Files>(&self, alloc: Global, files: &mut F, name: &str)
        ensures kept { F.bytes files.new ≡ F.bytes files.old }
    {
        let blocks = self.blocks;
        if blocks == 0 {
            return;
        }
        let noun = if blocks == 1 { "block" } else { "blocks" };
        if let Ok(words) = format!(in alloc; "{name} had {blocks} {noun}, and is replaced") {
            files.remark(&words);
        }
    }
}
