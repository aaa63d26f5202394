//! Chains that are committed block by block.

ghost use Rattle.std.specs.Prelude.{◌≡◌, ◌++◌, ◌∷◌, [], length, IfOk, OnOk, IfErr};
ghost use Rattle.ledger_model.specs.Chain.{Chain, Committed, history};
ghost use Rattle.ledger_model.specs.Flags.{flags_told};
ghost use Rattle.wire.specs.Ids.{id_of};
ghost use Rattle.committer.specs.Fits.{blocks_of, Fits, IsRefused};

use crate::commit::judge_told;
use crate::refusal::CommitRefusal;
use fab_types::{Block, Edition, Flag};
use std::alloc::Global;
use std::marker::Model;
use world_state::Snapshot;

/// A chain to which blocks are committed one by one.
#[derive(Drop)]
pub struct Replay {
    snapshot: Snapshot,
}

impl Model for Replay {
    ghost use Rattle.ledger_model.specs.Chain.{Chain};

    ghost Value = { Chain };

    ghost view = { λ r. r.snapshot };
}

impl Replay {
    ghost use Rattle.std.specs.Borrow.{sem};
    ghost use Rattle.std.specs.Io.BufRead.{Rests};
    ghost use Rattle.committer.specs.contracts.replay.Replay.{the_row};
    ghost use Rattle.committer.specs.Pushes.{Pushes};

    /// A replay that goes on from a snapshot.
    pub fn new(snapshot: Snapshot) -> Replay
        ensures { result ≡ snapshot }
    {
        Replay { snapshot }
    }

    /// The snapshot after the blocks so far. It takes no memory.
    pub fn snapshot(&self) -> &Snapshot
        ensures { result.now ≡ self.now }
    {
        &self.snapshot
    }

    /// Commits a block under the rules of an edition, and gives the flags of its transactions, by
    /// their places.
    ///
    /// It refuses as `commit_on` does, and a refusal changes nothing.
    pub fn push(
        &mut self,
        alloc: Global,
        edition: Edition,
        block: Block,
        endorsed: &[bool],
    ) -> Result<&[Flag], CommitRefusal>
        requires one_each { length endorsed.now ≡ length block.envelopes }
        ensures* after { sem 𝓛
            (Rests the_row self.entry
            (λ new. Pushes edition self.old block endorsed.now result new)) }
        ensures flags { IfOk result
            (λ flags. flags.now
            ≡ flags_told edition id_of (history self.old) (history self.old)
            block.header.number 0 block.envelopes endorsed.now) }
        ensures fits { OnOk result (Fits (blocks_of self.old) block) }
        ensures refused { IfErr result (λ refusal. IsRefused refusal (blocks_of self.old) block) }
    {
        let judged = judge_told(alloc, edition, &self.snapshot, &block, endorsed)?;
        self.snapshot.extend(alloc, block, judged)?;
        Ok(last_flags(&self.snapshot))
    }
}

/// The flags of the last block, or none where there is no block.
fn last_flags(snapshot: &Snapshot) -> &[Flag]
    ensures { (before : Chain) (last : Committed) → snapshot.now ≡ before ++ last ∷ [] →
        result.now ≡ last.flags }
{
    match snapshot.last() {
        None => &[],
        Some(committed) => committed.flags(),
    }
}
