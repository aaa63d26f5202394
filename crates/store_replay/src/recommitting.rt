//! Stored blocks as a chain again.

ghost use Rattle.std.specs.Prelude.{◌≡◌, true, [], ◌∷◌, ◌++◌, IfOk, IfSome, OnOk, OnErr, IfErr, length};
ghost use Rattle.fab_types.specs.Committed.{Committed};
ghost use Rattle.ledger_model.specs.Chain.{Chain};
ghost use Rattle.ledger_model.specs.Judged.{BlockRule};
ghost use Rattle.committer.specs.Fits.{IsRefused, blocks_of};
ghost use Rattle.ledger_setting.specs.Judging.{IsJudged};
ghost use Rattle.ledger_setting.specs.Rule.{table_of};
ghost use Rattle.store_replay.specs.Lawful.{AreLawful, IsNextRefused, IsRecommitRefused, StopsAt};
ghost use Rattle.store_replay.specs.Replay.{HasTheFlags};
ghost use Rattle.store_replay.specs.Tags.{orgs_kept, right_in_record};
ghost use Rattle.world_state.specs.Kept.{IsKeptOf, kept_of};

use crate::pending::Pending;
use crate::pushing::judge_record;
use crate::refusal::RecommitRefusal;
use crate::tags::TagChecks;
use crate::watch::Watch;
use committer::CommitRefusal;
use endorsement_policy::Rules;
use fab_types::CommittedBlock;
use policy_language::OrgSet;
use std::alloc::Global;
use std::thread::Threads;
use world_state::{Judged, Past, Snapshot};

/// The refusal of a record whose block is not committed behind a chain of this height.
fn refused(height: u32, cause: CommitRefusal) -> RecommitRefusal
    ensures { (rule : BlockRule) (chain : Chain) (stored : Committed) → height ≡ length chain →
        IsRefused cause (blocks_of chain) stored.block → IsNextRefused rule chain stored result }
{
    match cause {
        CommitRefusal::Memory => RecommitRefusal::Memory,
        cause => RecommitRefusal::Unfit(height as usize + 1, cause),
    }
}

/// What the block of a record is judged to be behind a chain of which this is kept, where the record
/// has the flags of the table.
pub fn judge_as_stored<P: Past>(
    alloc: Global,
    rules: &Rules,
    past: &P,
    stored: &CommittedBlock,
    right: Option<&[OrgSet]>,
) -> Result<Judged, RecommitRefusal>
    requires { IfSome right
        (λ orgs. orgs.now
        ≡ right_in_record (orgs_kept rules.now (P.kept past.now)) stored.now) }
    ensures judged { (chain : Chain) → IsKeptOf (P.kept past.now) chain →
        IfOk result (λ judged. IsJudged (table_of rules.now) chain stored.now.block judged) }
    ensures flags { (chain : Chain) → IsKeptOf (P.kept past.now) chain →
        OnOk result (HasTheFlags (table_of rules.now) chain stored.now true) }
    ensures refused { (chain : Chain) → IsKeptOf (P.kept past.now) chain →
        IfErr result (λ r. IsNextRefused (table_of rules.now) chain stored.now r) }
{
    match judge_record(alloc, rules, past, stored, right) {
        Ok((judged, is_same)) => {
            if !is_same {
                return Err(RecommitRefusal::Flags(past.height() as usize + 1));
            }
            Ok(judged)
        }
        Err(cause) => Err(refused(past.height(), cause)),
    }
}

/// Puts the block of one record behind a chain. It is committed again, and has to have the flags
/// with which it is stored. Where it is known of each envelope which of the organisations that
/// stand behind the chain have right tags on it, no tag is computed. A refusal changes nothing.
fn recommit_with(
    alloc: Global,
    rules: &Rules,
    snapshot: &mut Snapshot,
    stored: CommittedBlock,
    right: Option<Vec<OrgSet>>,
) -> Result<(), RecommitRefusal>
    requires { IfSome right
        (λ orgs. orgs.items
        ≡ right_in_record (orgs_kept rules.now (kept_of snapshot.old)) stored) }
    ensures chain { OnOk result (snapshot.new ≡ snapshot.old ++ stored ∷ []) }
    ensures lawful { OnOk result (AreLawful (table_of rules.now) snapshot.old (stored ∷ [])) }
    ensures unchanged { OnErr result (snapshot.new ≡ snapshot.old) }
    ensures refused { IfErr result
        (λ r. IsNextRefused (table_of rules.now) snapshot.old stored r) }
{
    let judged = judge_as_stored(alloc, rules, snapshot, &stored, right.as_deref())?;
    let (block, _flags) = stored.into_parts();
    Ok(snapshot.extend(alloc, block, judged)?)
}

/// Puts the blocks of records behind a chain, one after another: each is committed again, and has
/// to have the flags with which it is stored. The answer is the same whoever checks the tags.
///
/// Refused at the first block that does not fit (601 to 604) or has other flags than the table's
/// (711), and for want of memory (9), behind blocks that are lawful and at one that is the next by
/// its number and the hash that it names. The blocks before that one stay.
fn recommit_behind<T: Threads + Sync, V: Watch>(
    tags: &TagChecks<'_, T, V>,
    alloc: Global,
    rules: &Rules,
    snapshot: &mut Snapshot,
    records: Vec<CommittedBlock>,
) -> Result<(), RecommitRefusal>
    ensures chain { OnOk result (snapshot.new ≡ snapshot.old ++ records.items) }
    ensures lawful { OnOk result (AreLawful (table_of rules.now) snapshot.old records.items) }
    ensures refused { IfErr result
        (λ r. StopsAt (table_of rules.now) snapshot.old records.items snapshot.new r) }
{
    let mut pending = Pending::new(alloc, records);
    'records: while let Some((stored, right)) = pending.next(tags, alloc, rules, snapshot) {
        recommit_with(alloc, rules, snapshot, stored, right)?;
    }
    Ok(())
}

/// The chain of these blocks: each is committed again behind those before it, and has to have the
/// flags with which it is stored. The answer is the same whoever checks the tags.
///
/// Refused at the first block that does not fit (601 to 604) or has other flags than the table's
/// (711), and for want of memory (9), behind blocks that are lawful and at one that is the next by
/// its number and the hash that it names.
pub fn recommit<T: Threads + Sync, V: Watch>(
    tags: &TagChecks<'_, T, V>,
    alloc: Global,
    rules: &Rules,
    records: Vec<CommittedBlock>,
) -> Result<Snapshot, RecommitRefusal>
    ensures chain { IfOk result (λ s. s ≡ records.items) }
    ensures lawful { IfOk result (λ _. AreLawful (table_of rules.now) [] records.items) }
    ensures refused { IfErr result (λ r. IsRecommitRefused (table_of rules.now) records.items r) }
{
    let mut snapshot = Snapshot::empty(alloc);
    recommit_behind(tags, alloc, rules, &mut snapshot, records)?;
    Ok(snapshot)
}
