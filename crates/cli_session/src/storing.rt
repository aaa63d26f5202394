//! The store that a run writes.

ghost use Rattle.std.specs.Prelude.{◌≡◌, ℕ, List, IfErr, OnErr, OnOk};
ghost use Rattle.std.specs.Io.KnownBytes.{Appends};
ghost use Rattle.block_store.specs.Record.{record_bytes};
ghost use Rattle.world_state.specs.Shared.{blocks_in};
ghost use Rattle.cli_lines.specs.Places.{IsFileOf};
ghost use Rattle.cli_lines.specs.Told.{IsBrokenOff, IsSilent};
ghost use Rattle.cli_lines.specs.Whole.{ChangesPlaced, StaysPlaced};
ghost use Rattle.cli_session.specs.Stored.{Holds, store_bytes};

use block_store::encode_record;
use cli_lines::{Content, Failure, Files, Target, write_whole};
use fab_types::CommittedBlock;
use std::alloc::Global;
use std::io::Write;
use std::sync::Arc;
use world_state::Snapshot;

/// Writes a chain as a store. A file is the new store to its end, or stays as it was
/// ([`write_whole`]).
pub(crate) fn write_store<F: Files>(
    alloc: Global,
    files: &mut F,
    target: &Target,
    snapshot: &Snapshot,
) -> Result<(), Failure>
    ensures silent { IfErr result IsSilent }
    ensures lost { IfErr result IsBrokenOff }
    ensures stored { OnOk result
        ((name : List ℕ) → IsFileOf name target.now
        → Holds F.is_known (F.bytes files.new) name snapshot.now) }
    ensures others { ChangesPlaced F.is_known target.now (F.bytes files.old) (F.bytes files.new) }
    ensures stays { OnErr result
        (StaysPlaced F.is_known target.now (F.bytes files.old) (F.bytes files.new)) }
{
    write_whole(alloc, files, target, &Records { snapshot })
}

/// The records of a chain, one behind the other.
#[derive(Clone, Copy)]
struct Records<'a> {
    snapshot: &'a Snapshot,
}

impl Content for Records<'_> {
    ghost use Rattle.std.specs.Prelude.{◌≡◌};
    ghost use Rattle.cli_session.specs.Stored.{store_bytes};

    type Told = ();

    ghost IsSound = { λ _. Unit {0} };

    ghost IsText = { λ r _ text. text ≡ store_bytes r.snapshot.now };

    fn write<W: Write>(&self, alloc: Global, writer: &mut W) -> Result<(), Failure> {
        write_blocks(alloc, writer, self.snapshot.blocks())
    }
}

/// Writes the record of each block.
fn write_blocks<W: Write>(
    alloc: Global,
    writer: &mut W,
    blocks: &[Arc<CommittedBlock>],
) -> Result<(), Failure>
    ensures silent { IfErr result IsSilent }
    ensures lost { IfErr result IsBrokenOff }
    ensures written { OnOk result
        (Appends (W.contents writer.old) (W.contents writer.new)
        (store_bytes (blocks_in blocks.now))) }
{
    for committed in blocks {
        write_record(alloc, writer, committed)?;
    }
    Ok(())
}

/// Writes the record of a block.
fn write_record<W: Write>(
    alloc: Global,
    writer: &mut W,
    committed: &CommittedBlock,
) -> Result<(), Failure>
    ensures silent { IfErr result IsSilent }
    ensures lost { IfErr result IsBrokenOff }
    ensures written { OnOk result
        (Appends (W.contents writer.old) (W.contents writer.new)
        (record_bytes committed.now)) }
{
    let bytes = encode_record(alloc, committed.block(), committed.flags())?;
    match writer.write_all(&bytes) {
        Ok(()) => Ok(()),
        Err(_) => Err(Failure::File),
    }
}
