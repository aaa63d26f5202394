//! Replays.

ghost use Rattle.std.specs.Prelude.{◌≡◌, [], ◌∷◌, ◌++◌, List, IfOk, IfSome, None, OnOk};
ghost use Rattle.fab_types.specs.Committed.{Committed};
ghost use Rattle.block_store.specs.Loading.{IsTold, ReadsAll};
ghost use Rattle.kept_state.specs.Keeping.{IsKept, chain_of};
ghost use Rattle.ledger_setting.specs.Rule.{table_of};
ghost use Rattle.store_replay.specs.Replay.{Replays, ReplaysFrom, IsReplayed, earlier, first_of};
ghost use Rattle.store_replay.specs.Tags.{orgs_kept, right_in_record};

use crate::block_sink::BlockSink;
use crate::pending::Pending;
use crate::pushing::push;
use crate::tags::TagChecks;
use crate::watch::Watch;
use block_store::{CountedRead, End, RecordSink, read_into};
use committer::CommitRefusal;
use endorsement_policy::Rules;
use fab_types::CommittedBlock;
use kept_state::KeptChain;
use ledger_setting::Genesis;
use policy_language::OrgSet;
use std::alloc::{AllocError, Global};
use std::thread::Threads;
use world_state::Past;

/// A store's chain as it was committed again.
#[derive(Drop)]
pub struct Replayed {
    /// How many whole blocks the store has.
    pub blocks: usize,
    /// The chain of those blocks, as far as they fit, with the flags of the table.
    pub chain: KeptChain,
    /// The number of the first block of that chain for which the store has other flags.
    pub differs: Option<usize>,
    /// Why the block behind that chain does not fit (601 to 604). None where all blocks are on it.
    pub refused: Option<CommitRefusal>,
    /// How the store ends.
    pub end: End,
}

/// A chain so far, what was found on the way, and who takes its blocks.
#[derive(Drop)]
struct Progress<S> {
    chain: KeptChain,
    differs: Option<usize>,
    refused: Option<CommitRefusal>,
    sink: S,
}

/// The number of the first block that has other flags: one that was found, or else that of the last
/// block of a chain of this height, unless that has the same.
fn first_differing(found: Option<usize>, is_same: bool, height: u32) -> Option<usize>
    ensures { result ≡ earlier found (first_of is_same height None) }
{
    match found {
        Some(number) => Some(number),
        None if is_same => None,
        None => Some(height as usize),
    }
}

/// Commits the block of the next record behind the chain and hands it to the sink, or finds that it
/// does not fit. It may be known whose tags in it are right. The error is of memory.
fn commit_next<S: BlockSink>(
    alloc: Global,
    rules: &Rules,
    progress: &mut Progress<S>,
    stored: CommittedBlock,
    right: Option<Vec<OrgSet>>,
) -> Result<(), AllocError>
    requires fits { progress.old.refused ≡ None }
    requires kept { IsKept progress.old.chain }
    requires took { S.Took progress.old.sink (chain_of progress.old.chain) }
    requires right { IfSome right
        (λ orgs. orgs.items
        ≡ right_in_record (orgs_kept rules.now progress.old.chain.state) stored) }
    ensures replays { (cs : List Committed) →
        Replays (table_of rules.now) [] cs (chain_of progress.old.chain) progress.old.differs None →
        OnOk result
        (Replays (table_of rules.now) [] (cs ++ stored ∷ []) (chain_of progress.new.chain)
        progress.new.differs progress.new.refused) }
    ensures kept { OnOk result (IsKept progress.new.chain) }
    ensures took { OnOk result (S.Took progress.new.sink (chain_of progress.new.chain)) }
    ensures context { OnOk result (S.context progress.new.sink ≡ S.context progress.old.sink) }
{
    match push(alloc, rules, &mut progress.chain, stored, right) {
        Ok((committed, is_same)) => {
            let height = progress.chain.height();
            progress.differs = first_differing(progress.differs, is_same, height);
            progress.sink.take(committed)
        }
        Err(CommitRefusal::Memory) => Err(AllocError),
        Err(cause) => {
            progress.refused = Some(cause);
            Ok(())
        }
    }
}

/// Commits the blocks of records behind one another, up to the first that does not fit. The error is
/// of memory.
fn commit_all<T: Threads + Sync, V: Watch, S: BlockSink>(
    tags: &TagChecks<'_, T, V>,
    alloc: Global,
    rules: &Rules,
    progress: &mut Progress<S>,
    records: Vec<CommittedBlock>,
) -> Result<(), AllocError>
    requires fits { progress.old.refused ≡ None }
    requires kept { IsKept progress.old.chain }
    requires took { S.Took progress.old.sink (chain_of progress.old.chain) }
    ensures replays { (cs : List Committed) →
        Replays (table_of rules.now) [] cs (chain_of progress.old.chain) progress.old.differs None →
        OnOk result
        (Replays (table_of rules.now) [] (cs ++ records.items) (chain_of progress.new.chain)
        progress.new.differs progress.new.refused) }
    ensures kept { OnOk result (IsKept progress.new.chain) }
    ensures took { OnOk result (S.Took progress.new.sink (chain_of progress.new.chain)) }
    ensures context { OnOk result (S.context progress.new.sink ≡ S.context progress.old.sink) }
{
    let mut pending = Pending::new(alloc, records);
    'records: while let Some((stored, right)) = pending.next(tags, alloc, rules, &progress.chain) {
        commit_next(alloc, rules, progress, stored, right)?;
        if progress.refused.is_some() {
            return Ok(());
        }
    }
    Ok(())
}

/// The records of a store as their blocks are committed again.
#[derive(Drop)]
struct Replaying<'a, T, V, S> {
    tags: &'a TagChecks<'a, T, V>,
    alloc: Global,
    rules: &'a Rules,
    blocks: usize,
    progress: Progress<S>,
}

impl<T: Threads + Sync, V: Watch, S: BlockSink> RecordSink for Replaying<'_, T, V, S> {
    ghost use Rattle.kept_state.specs.Keeping.{chain_of};
    ghost use Rattle.ledger_setting.specs.Rule.{table_of};
    ghost use Rattle.endorsement_policy.specs.Listed.{Listed};
    ghost use Rattle.store_replay.specs.Replaying.{HasReplayed};

    ghost Context = { Listed × S.Context };

    ghost context = { λ r. (r.rules.now, S.context r.progress.sink) };

    ghost Took = { λ r cs. HasReplayed T.row (table_of r.rules.now) r.progress.chain
        r.progress.differs r.progress.refused r.blocks cs
        × S.Took r.progress.sink (chain_of r.progress.chain) };

    fn take(&mut self, records: Vec<CommittedBlock>) -> Result<(), AllocError> {
        self.blocks = self.blocks.saturating_add(records.len());
        if self.progress.refused.is_none() {
            let progress = &mut self.progress;
            commit_all(self.tags, self.alloc, self.rules, progress, records)?;
        }
        Ok(())
    }
}

/// Reads a store from its device, commits its blocks again under the rules of a genesis, and hands
/// each to a sink.
///
/// The whole blocks that the store has are committed from the empty state on, up to the first that
/// does not fit. Behind that one records are counted alone. The answer is the same whoever checks
/// the tags. The error is of memory.
pub fn replay_store<T: Threads + Sync, V: Watch, R: CountedRead, S: BlockSink + Drop>(
    tags: &TagChecks<'_, T, V>,
    alloc: Global,
    genesis: &Genesis,
    reader: &mut R,
    sink: S,
) -> Result<(Replayed, S), AllocError>
    requires none { S.Took sink [] }
    // The blocks and the end are those of the bytes that were read.
    ensures replayed { IfOk result
        (λ p. IsReplayed (table_of genesis.now.rules.value) (R.taken reader.old)
        (R.taken reader.new) p.0) }
    // The sink took the blocks of the chain.
    ensures took { IfOk result (λ p. S.Took p.1 (chain_of p.0.chain)) }
    ensures context { IfOk result (λ p. S.context p.1 ≡ S.context sink) }
    // These were all, unless there was damage or the device failed.
    ensures all { IfOk result (λ p. ReadsAll p.0.end (R.IsAtEnd reader.new)) }
    // The device is blamed exactly where a call of it failed.
    ensures device { IfOk result
        (λ p. IsTold p.0.end (R.failures reader.old) (R.failures reader.new)) }
    // They are those of the store that was left to be read, where that is known.
    ensures store { IfOk result
        (λ p. ReplaysFrom (table_of genesis.now.rules.value) (R.remaining reader.old) p.0) }
{
    let progress = Progress {
        chain: KeptChain::empty(alloc),
        differs: None,
        refused: None,
        sink,
    };
    let rules: &Rules = &genesis.rules;
    let mut replaying = Replaying {
        tags,
        alloc,
        rules,
        blocks: 0,
        progress,
    };
    let read = read_into(alloc, reader, &mut replaying)?;
    let Replaying {
        blocks,
        progress,
        ..
    } = replaying;
    let Progress {
        chain,
        differs,
        refused,
        sink,
    } = progress;
    let replayed = Replayed {
        blocks,
        chain,
        differs,
        refused,
        end: read.end,
    };
    Ok((replayed, sink))
}
