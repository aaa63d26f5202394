//! Whether a block is the next one of a chain, and its commit.

ghost use Rattle.std.specs.Prelude.{◌≡◌, ◌≢◌, ◌++◌, ◌∷◌, [], length, IfOk, OnOk, IfErr};
ghost use Rattle.ledger_model.specs.Chain.{Chain, history};
ghost use Rattle.ledger_model.specs.Flags.{flags_told};
ghost use Rattle.wire.specs.Ids.{id_of};
ghost use Rattle.committer.specs.declared.refusal.CommitRefusal.TheVariants.{Memory};
ghost use Rattle.world_state.specs.Judging.{IsOf};
ghost use Rattle.world_state.specs.Kept.{IsKeptOf};
ghost use Rattle.committer.specs.Fits.{blocks_of, Fits, IsNext, IsRefused};

use crate::refusal::CommitRefusal;
use fab_types::limits::LAST_BLOCK;
use fab_types::{Block, Edition};
use mvcc_validate::flag_behind;
use std::alloc::{AllocError, Global};
use wire::data_hash;
use world_state::{Judged, Past, Snapshot};

/// Tests what takes no memory: whether there is room for a block, and then its number and the hash
/// that it names.
fn check_next<P: Past>(past: &P, block: &Block) -> Result<(), CommitRefusal>
    ensures next { (chain : Chain) → IsKeptOf (P.kept past.now) chain →
        OnOk result (IsNext (blocks_of chain) block.now) }
    ensures refused { (chain : Chain) → IsKeptOf (P.kept past.now) chain →
        IfErr result
        (λ refusal. (refusal ≢ Memory) × IsRefused refusal (blocks_of chain) block.now) }
{
    let height = past.height();
    if height == LAST_BLOCK {
        return Err(CommitRefusal::AtEnd);
    }
    if block.header.number.get() != height + 1 {
        return Err(CommitRefusal::Number);
    }
    if block.header.previous_hash != past.link() {
        return Err(CommitRefusal::PreviousHash);
    }
    Ok(())
}

/// Tests whether a block fits behind a snapshot. It is to be asked before the tags of the block's
/// envelopes are checked, which costs more than all of it.
///
/// These are tested in turn, and the first that stands refuses the block:
///
/// - `AtEnd` (604): there are 4,000,000,000 blocks.
/// - `Number` (601): its number is not the next one.
/// - `PreviousHash` (602): it does not name the hash of the last header, or 32 zero bytes as block
///   1.
/// - `DataHash` (603): its header does not name the hash of its data.
///
/// `Memory` (9) is answered where a growth of memory was refused, behind the first three tests
/// alone: the bytes that are hashed for the fourth take memory.
pub fn check_fits(alloc: Global, snapshot: &Snapshot, block: &Block) -> Result<(), CommitRefusal>
    ensures fits { OnOk result (Fits (blocks_of snapshot.now) block.now) }
    ensures refused { IfErr result
        (λ refusal. IsRefused refusal (blocks_of snapshot.now) block.now) }
{
    check_fits_behind(alloc, snapshot, block)
}

/// Tests whether a block fits behind a chain, as `check_fits` says of a snapshot.
pub fn check_fits_behind<P: Past>(
    alloc: Global,
    past: &P,
    block: &Block,
) -> Result<(), CommitRefusal>
    ensures fits { (chain : Chain) → IsKeptOf (P.kept past.now) chain →
        OnOk result (Fits (blocks_of chain) block.now) }
    ensures refused { (chain : Chain) → IsKeptOf (P.kept past.now) chain →
        IfErr result (λ refusal. IsRefused refusal (blocks_of chain) block.now) }
{
    check_next(past, block)?;
    if block.header.data_hash != data_hash(alloc, &block.envelopes)? {
        return Err(CommitRefusal::DataHash);
    }
    Ok(())
}

/// What a block that fits behind a snapshot is judged to be under the rules of an edition, where it
/// is known which of its envelopes are endorsed.
///
/// It refuses as `check_fits` does, and for want of memory (9) behind that.
pub fn judge_told(
    alloc: Global,
    edition: Edition,
    snapshot: &Snapshot,
    block: &Block,
    endorsed: &[bool],
) -> Result<Judged, CommitRefusal>
    requires one_each { length endorsed.now ≡ length block.now.envelopes }
    ensures flags { IfOk result
        (λ judged. judged.flags.items
        ≡ flags_told edition id_of (history snapshot.now) (history snapshot.now)
        block.now.header.number 0 block.now.envelopes endorsed.now) }
    ensures of { IfOk result (λ judged. IsOf block.now judged) }
    ensures fits { OnOk result (Fits (blocks_of snapshot.now) block.now) }
    ensures refused { IfErr result
        (λ refusal. IsRefused refusal (blocks_of snapshot.now) block.now) }
{
    judge_behind(alloc, edition, snapshot, block, endorsed)
}

/// What a block that fits behind a chain is judged to be, as `judge_told` says of a snapshot.
pub fn judge_behind<P: Past>(
    alloc: Global,
    edition: Edition,
    past: &P,
    block: &Block,
    endorsed: &[bool],
) -> Result<Judged, CommitRefusal>
    requires one_each { length endorsed.now ≡ length block.now.envelopes }
    ensures flags { (chain : Chain) → IsKeptOf (P.kept past.now) chain →
        IfOk result
        (λ judged. judged.flags.items
        ≡ flags_told edition id_of (history chain) (history chain) block.now.header.number 0
        block.now.envelopes endorsed.now) }
    ensures of { IfOk result (λ judged. IsOf block.now judged) }
    ensures fits { (chain : Chain) → IsKeptOf (P.kept past.now) chain →
        OnOk result (Fits (blocks_of chain) block.now) }
    ensures refused { (chain : Chain) → IsKeptOf (P.kept past.now) chain →
        IfErr result (λ refusal. IsRefused refusal (blocks_of chain) block.now) }
{
    check_fits_behind(alloc, past, block)?;
    Ok(flag_behind(alloc, edition, past, block, endorsed)?)
}

/// The snapshot after one block more, with the flags of its transactions. `snapshot` stays as it
/// is. `endorsed` says of each transaction, by its place, whether its envelope is endorsed.
///
/// It refuses as `check_fits` does, and for want of memory (9) behind that. The block of a refused
/// call is dropped.
pub fn commit_on(
    alloc: Global,
    edition: Edition,
    snapshot: &Snapshot,
    block: Block,
    endorsed: &[bool],
) -> Result<Snapshot, CommitRefusal>
    requires one_each { length endorsed.now ≡ length block.envelopes }
    ensures committed { IfOk result
        (λ s. s
        ≡ snapshot.now ++
        record {
          block = block;
          flags = flags_told edition id_of (history snapshot.now) (history snapshot.now)
              block.header.number 0 block.envelopes endorsed.now;
        } ∷
        []) }
    ensures fits { OnOk result (Fits (blocks_of snapshot.now) block) }
    ensures refused { IfErr result (λ refusal. IsRefused refusal (blocks_of snapshot.now) block) }
{
    let judged = judge_told(alloc, edition, snapshot, &block, endorsed)?;
    Ok(snapshot.followed_by(alloc, block, judged)?)
}
