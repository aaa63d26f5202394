//! The command `checkpoint`.

ghost use Rattle.std.specs.Prelude.{◌≡◌, ◌⊎◌, ℕ, List, [], true, IfErr, IfOk, IfSome, IsTrue, OnErr, OnOk, length};
ghost use Rattle.checkpoint.specs.Checkpoint.{form_bytes};
ghost use Rattle.kept_state.specs.Keeping.{chain_of};
ghost use Rattle.ledger_setting.specs.Rule.{table_of};
ghost use Rattle.cli_lines.specs.Places.{ChangesOnly, IsFileOf, IsFree};
ghost use Rattle.cli_lines.specs.Told.{Answers, Begins, IsBrokenOff, IsSilent, IsTextOf, Prints, PrintsNothing, Tells};
ghost use Rattle.cli_lines.specs.Whole.{ChangesPlaced, PlacesSo, StaysPlaced, whole_names};
ghost use Rattle.cli_peer.specs.Checkpoints.{BeginsCheckpoint, Checkpoints, HasCheckpoint, IsWritten, SparesFile, TellsPlaced, WhereOther, checkpoint_text};
ghost use Rattle.cli_peer.specs.Filters.{PrintsSo};
ghost use Rattle.cli_peer.specs.Stored.{IsRead, IsSoundStored};

use crate::explaining::{explain_store, explain_torn};
use crate::filter::end;
use checkpoint::{CheckpointFault, write_checkpoint};
use cli_lines::{
    Access, Content, Failure, Files, Location, Printer, Target, explain_numbered, explain_target,
    explain_trouble, part_of, read_at_most, write_whole,
};
use endorsement_policy::Workers;
use kept_state::KeptChain;
use ledger_setting::Genesis;
use log_peer::{StoreRefusal, recommit_all};
use peer_answers::LogGenesis;
use std::alloc::{AllocError, Global};
use std::io::Write;
use std::thread::Threads;
use store_devices::{Counted, Places};
use store_replay::TagChecks;
use world_state::Past;

/// The names of the files of `checkpoint`.
#[derive(Clone, Copy)]
pub struct Checkpointing<'a> {
    pub genesis: &'a str,
    pub store: &'a str,
    /// Where the checkpoint goes.
    pub file: &'a str,
}

/// Commits the whole blocks of a store again, of which none is held, and writes a checkpoint of
/// their chain to a file. Prints `checkpoint`, the height of the chain, and the checkpoint's digest
/// in hex.
///
/// Refused first where the file is the store or the genesis file, or holds anything but a
/// checkpoint (703); then as `peer` refuses a store that it begins with. The store is read beside a
/// peer that writes it: a part of a record at its end is none of its blocks.
pub fn checkpoint<T: Threads + Sync, F: Files, W: Write>(
    workers: &Workers<'_, T>,
    alloc: Global,
    files: &mut F,
    log: &LogGenesis,
    asked: &Checkpointing<'_>,
    out: &mut Printer<'_, W>,
) -> Result<(), Failure>
    ensures tells { Tells out.old out.new result }
    // The file has a checkpoint of the store's own chain, whose blocks are all lawful, and the line
    // tells its height and its digest; or the line says why the store is not opened.
    ensures answers { Answers
        (Checkpoints log.now F.is_known (F.bytes files.old asked.now.store.now)
        (F.bytes files.new asked.now.file.now)) out.old out.new result }
    ensures begins { Begins
        (IsTextOf (Checkpoints log.now F.is_known (F.bytes files.old asked.now.store.now)
        (F.bytes files.new asked.now.file.now))) out.old out.new result }
    // Only that file is changed, and none where it holds anything but a checkpoint.
    ensures others { ChangesOnly F.is_known (whole_names asked.now.file.now) (F.bytes files.old)
        (F.bytes files.new) }
    ensures spares { WhereOther F.is_known (F.bytes files.old) asked.now.file.now
        (F.bytes files.new ≡ F.bytes files.old) }
    // A store that is refused leaves all files. What breaks off leaves that, or has written it.
    ensures stays { SparesFile log.now F.is_known asked.now.store.now asked.now.file.now
        (F.bytes files.old) (F.bytes files.new) result }
{
    let place = place_of(alloc, files, asked)?;
    let read = read_store(workers, alloc, files, &log.genesis, asked.store)?;
    match read {
        Ok(stored) => {
            stored.explain_torn(alloc, files, asked.store);
            write_stored(alloc, files, &log.digest, &place.target, &stored, out)
        }
        Err(refusal) => {
            explain_store(alloc, files, asked.store, &refusal);
            Err(end(refusal, out))
        }
    }
}

/// Writes a checkpoint of a store to its place, and prints its height and its digest.
fn write_stored<F: Files, W: Write>(
    alloc: Global,
    files: &mut F,
    genesis: &[u8; 32],
    target: &Target,
    stored: &Stored,
    out: &mut Printer<'_, W>,
) -> Result<(), Failure>
    requires sound { IsSoundStored stored.now }
    ensures tells { Tells out.old out.new result }
    ensures lost { IfErr result IsBrokenOff }
    ensures prints { OnOk result
        (PrintsSo (TellsPlaced genesis.now F.is_known (F.bytes files.new) target.now
        (chain_of stored.now.chain)) out.old out.new) }
    ensures nothing { OnErr result (PrintsNothing out.old out.new) }
    ensures others { ChangesPlaced F.is_known target.now (F.bytes files.old) (F.bytes files.new) }
    ensures stays { OnErr result
        (StaysPlaced F.is_known target.now (F.bytes files.old) (F.bytes files.new)
        ⊎ ((digest : List ℕ) × PlacesSo F.is_known (F.bytes files.new) target.now
        (IsWritten genesis.now (chain_of stored.now.chain) digest))) }
{
    let content = StoredCheckpoint { genesis, stored };
    let digest = write_whole(alloc, files, target, &content)?;
    print_checkpoint(alloc, stored.height(), &digest, out)
}

/// Prints the height of a checkpoint and its digest.
fn print_checkpoint<W: Write>(
    alloc: Global,
    height: u32,
    digest: &[u8; 32],
    out: &mut Printer<'_, W>,
) -> Result<(), Failure>
    ensures tells { Tells out.old out.new result }
    ensures lost { IfErr result IsBrokenOff }
    ensures prints { OnOk result (Prints out.old out.new (checkpoint_text height digest.now)) }
    ensures nothing { OnErr result (PrintsNothing out.old out.new) }
{
    let digits = hex::encode(alloc, digest)?;
    writeln!(out, "checkpoint {height} {digits}")
}

/// The chain of a store, where each of its records ends, and how many bytes stand behind them.
#[derive(Drop)]
struct Stored {
    chain: KeptChain,
    places: Places,
    held: usize,
}

impl Stored {
    /// How many blocks the chain has.
    fn height(&self) -> u32
        requires sound { IsSoundStored self.now }
        ensures { result ≡ length (chain_of self.now.chain) }
    {
        self.chain.height()
    }

    /// Says that a part of a record stands behind the last block, if one does.
    fn explain_torn<F: Files>(&self, alloc: Global, files: &mut F, name: &str)
        ensures kept { F.bytes files.new ≡ F.bytes files.old }
    {
        if self.held > 0 {
            let height = self.chain.height();
            let end = match self.places.span(height) {
                Some((_, end)) => end,
                None => 0,
            };
            explain_torn(alloc, files, name, height, end);
        }
    }
}

/// What is read of the store of a name, or why it is refused, as `peer` refuses it.
fn read_store<T: Threads + Sync, F: Files>(
    workers: &Workers<'_, T>,
    alloc: Global,
    files: &mut F,
    genesis: &Genesis,
    name: &str,
) -> Result<Result<Stored, StoreRefusal>, Failure>
    ensures silent { IfErr result IsSilent }
    ensures lost { IfErr result IsBrokenOff }
    ensures read { IfOk result
        (IsRead (table_of genesis.now.rules.value) (F.bytes files.old name.now)) }
    ensures kept { F.bytes files.new ≡ F.bytes files.old }
{
    let Some(reader) = files.open(name) else {
        explain_trouble(alloc, files, name, Access::Read);
        return Err(Failure::File);
    };
    let mut device = Counted::new(reader);
    let watch = files.watch();
    let tags = TagChecks::new(workers, &watch);
    match recommit_all(&tags, alloc, &genesis.rules, &mut device) {
        Ok((chain, places, held)) => Ok(Ok(Stored {
            chain,
            places,
            held,
        })),
        Err(refusal) => Ok(Err(refusal)),
    }
}

/// A checkpoint of a store, by a genesis file of this digest.
#[derive(Clone, Copy)]
struct StoredCheckpoint<'a> {
    genesis: &'a [u8; 32],
    stored: &'a Stored,
}

impl Content for StoredCheckpoint<'_> {
    ghost use Rattle.kept_state.specs.Keeping.{chain_of};
    ghost use Rattle.cli_peer.specs.Checkpoints.{IsWritten};
    ghost use Rattle.cli_peer.specs.Stored.{IsSoundStored};

    type Told = [u8; 32];

    ghost IsSound = { λ c. IsSoundStored c.stored.now };

    ghost IsText = { λ c digest text. IsWritten c.genesis.now (chain_of c.stored.now.chain) digest
        text };

    fn write<W: Write>(&self, alloc: Global, writer: &mut W) -> Result<[u8; 32], Failure> {
        let Stored { chain, places, .. } = self.stored;
        match write_checkpoint(alloc, self.genesis, chain, places, writer) {
            Ok(digest) => Ok(digest),
            Err(CheckpointFault::Memory) => Err(Failure::Memory),
            Err(CheckpointFault::Device) => Err(Failure::File),
        }
    }
}

/// Where a checkpoint goes, and the file there that nobody else has, if there is one.
#[derive(Drop)]
struct Place<L: Drop> {
    target: Target,
    _lock: Option<L>,
}

/// The place of a checkpoint.
///
/// Refused where no file can have the name, where it is that of the genesis file or the store, where
/// another one has its file, and where that holds anything but a checkpoint.
fn place_of<F: Files>(
    alloc: Global,
    files: &mut F,
    asked: &Checkpointing<'_>,
) -> Result<Place<F::Lock>, Failure>
    ensures silent { IfErr result IsSilent }
    ensures lost { IfErr result IsBrokenOff }
    ensures file { F.is_known ≡ true → IfOk result (λ p. IsFileOf asked.now.file.now p.target) }
    ensures free { F.is_known ≡ true → IfOk result (λ p. IsFree (F.bytes files.old) p.target) }
    ensures held { F.is_known ≡ true → OnOk result
        (IfSome (F.bytes files.old asked.now.file.now) BeginsCheckpoint) }
    ensures kept { F.bytes files.new ≡ F.bytes files.old }
{
    let found = files.target(alloc, asked.file);
    explain_target(alloc, files, asked.file, &found);
    let target = found?;
    if is_read(alloc, files, asked, &target)? {
        explain_numbered(alloc, files, &Location::file(asked.file), IS_READ, 703);
        return Err(Failure::File);
    }
    let _lock = replaced_at(alloc, files, &target, asked.file)?;
    Ok(Place { target, _lock })
}

/// What is wrong with a name of a checkpoint whose file is read for it.
const IS_READ: &str =
    "it is the store or the genesis file, or stands where one would be written; name another file";

/// What is wrong with a file that holds anything else.
const NO_CHECKPOINT: &str = "it is no checkpoint, and stays; name another file";

/// The first bytes of a checkpoint.
const FRONT: [u8; 8] = *b"ckpt\0\0\0\x01";

/// Whether writing to a place would take away the store or the genesis file. A device stays what it
/// is.
fn is_read<F: Files>(
    alloc: Global,
    files: &mut F,
    asked: &Checkpointing<'_>,
    target: &Target,
) -> Result<bool, AllocError>
    ensures kept { F.bytes files.new ≡ F.bytes files.old }
{
    match target {
        Target::File(name) | Target::NewFile(name) => {
            let part = part_of(alloc, name)?;
            Ok(is_one_of(files, asked, name) || is_one_of(files, asked, &part))
        }
        Target::Device(_) => Ok(false),
    }
}

/// Whether a file is the store or the genesis file.
fn is_one_of<F: Files>(files: &mut F, asked: &Checkpointing<'_>, name: &str) -> bool
    ensures kept { F.bytes files.new ≡ F.bytes files.old }
{
    files.is_same(name, asked.genesis) || files.is_same(name, asked.store)
}

/// The file in whose place a checkpoint comes, if there is one, taken for the program alone.
/// Sentences call it by the name that is shown.
fn replaced_at<F: Files>(
    alloc: Global,
    files: &mut F,
    target: &Target,
    shown: &str,
) -> Result<Option<F::Lock>, Failure>
    ensures silent { IfErr result IsSilent }
    ensures lost { IfErr result IsBrokenOff }
    ensures checkpoint { OnOk result (HasCheckpoint (F.bytes files.old) target.now) }
    ensures kept { F.bytes files.new ≡ F.bytes files.old }
{
    match target {
        Target::File(name) => Ok(Some(take_file(alloc, files, name, shown)?)),
        Target::NewFile(_) | Target::Device(_) => Ok(None),
    }
}

/// Takes the file of a name for the program alone, so that a checkpoint comes in its place.
///
/// Refused where another one has it, and where it holds anything but a checkpoint.
fn take_file<F: Files>(
    alloc: Global,
    files: &mut F,
    name: &str,
    shown: &str,
) -> Result<F::Lock, Failure>
    ensures silent { IfErr result IsSilent }
    ensures lost { IfErr result IsBrokenOff }
    ensures checkpoint { OnOk result (IfSome (F.bytes files.old name.now) BeginsCheckpoint) }
    ensures kept { F.bytes files.new ≡ F.bytes files.old }
{
    let Some(lock) = files.lock(name) else {
        explain_trouble(alloc, files, shown, Access::Write);
        return Err(Failure::File);
    };
    let front = read_at_most(alloc, files, name, FRONT.len() as u64)?;
    if !is_front(&front) {
        explain_numbered(alloc, files, &Location::file(shown), NO_CHECKPOINT, 703);
        return Err(Failure::File);
    }
    Ok(lock)
}

/// Whether the first bytes of a file are those of a checkpoint, or there are none.
fn is_front(front: &[u8]) -> bool
    ensures { IsTrue result → (front.now ≡ []) ⊎ (front.now ≡ form_bytes) }
{
    front.is_empty() || front == FRONT.as_slice()
}
