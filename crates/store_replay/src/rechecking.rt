//! A store's blocks as they are committed again, of which none is held.

ghost use Rattle.std.specs.Prelude.{◌≡◌, [], ◌∷◌, ◌++◌, ℕ, List, IfErr, IfSome, MatchResult, OnErr, OnOk};
ghost use Rattle.fab_types.specs.Committed.{Committed};
ghost use Rattle.ledger_setting.specs.Rule.{table_of};
ghost use Rattle.kept_state.specs.Keeping.{IsKept, chain_of};
ghost use Rattle.store_replay.specs.Lawful.{AreLawful, IsNextRefused, IsRecommitRefused, StopsAt};
ghost use Rattle.store_replay.specs.Recommitting.{IsRecommitted};
ghost use Rattle.store_replay.specs.Tags.{orgs_kept, right_in_record};

use crate::pending::Pending;
use crate::recommitting::judge_as_stored;
use crate::refusal::RecommitRefusal;
use crate::tags::TagChecks;
use crate::watch::Watch;
use block_store::RecordSink;
use endorsement_policy::Rules;
use fab_types::CommittedBlock;
use kept_state::KeptChain;
use policy_language::OrgSet;
use std::alloc::{AllocError, Global};
use std::thread::Threads;

/// A store's blocks as they are committed again, each behind those before it, and of which none is
/// held. Each has to have the flags with which it is stored. Behind one that is refused, others are
/// let go.
#[derive(Drop)]
pub struct Recommit<'a, T, V> {
    tags: &'a TagChecks<'a, T, V>,
    alloc: Global,
    rules: &'a Rules,
    chain: KeptChain,
    refused: Option<RecommitRefusal>,
}

impl<'a, T, V> Recommit<'a, T, V> {
    /// Before the first block. It takes no memory.
    pub fn new(tags: &'a TagChecks<'a, T, V>, alloc: Global, rules: &'a Rules) -> Self
        ensures none { IsRecommitted (table_of result.rules.now) result.chain result.refused [] }
        ensures rules { result.rules.now ≡ rules.now }
    {
        Recommit {
            tags,
            alloc,
            rules,
            chain: KeptChain::empty(alloc),
            refused: None,
        }
    }

    /// The chain of the blocks that were taken, or why one of them is refused.
    pub fn finish(self) -> Result<KeptChain, RecommitRefusal>
        ensures { (cs : List Committed) →
            IsRecommitted (table_of self.entry.rules.now) self.entry.chain self.entry.refused cs →
            MatchResult result
            (λ c. IsKept c × (chain_of c ≡ cs) × AreLawful (table_of self.entry.rules.now) [] cs)
            (IsRecommitRefused (table_of self.entry.rules.now) cs) }
    {
        match self.refused {
            None => Ok(self.chain),
            Some(refusal) => Err(refusal),
        }
    }
}

impl<T: Threads + Sync, V: Watch> RecordSink for Recommit<'_, T, V> {
    ghost use Rattle.ledger_setting.specs.Rule.{table_of};
    ghost use Rattle.endorsement_policy.specs.Listed.{Listed};
    ghost use Rattle.store_replay.specs.Recommitting.{HasTaken};

    ghost Context = { Listed };

    ghost context = { λ r. r.rules.now };

    ghost Took = { λ r cs. HasTaken T.row (table_of r.rules.now) r.chain r.refused cs };

    fn take(&mut self, records: Vec<CommittedBlock>) -> Result<(), AllocError> {
        if self.refused.is_none() {
            let kept = &mut self.chain;
            match recommit_kept(self.tags, self.alloc, self.rules, kept, records) {
                Ok(()) => {}
                Err(refusal) => self.refused = Some(refusal),
            }
        }
        Ok(())
    }
}

/// Puts the blocks of records behind a chain, as `recommit_behind` does behind that of a snapshot.
fn recommit_kept<T: Threads + Sync, V: Watch>(
    tags: &TagChecks<'_, T, V>,
    alloc: Global,
    rules: &Rules,
    chain: &mut KeptChain,
    records: Vec<CommittedBlock>,
) -> Result<(), RecommitRefusal>
    requires kept { IsKept chain.old }
    ensures kept { OnOk result (IsKept chain.new) }
    ensures chain { OnOk result (chain_of chain.new ≡ chain_of chain.old ++ records.items) }
    ensures lawful { OnOk result
        (AreLawful (table_of rules.now) (chain_of chain.old) records.items) }
    ensures refused { IfErr result (λ r. StopsAt (table_of rules.now) (chain_of chain.old)
        records.items (chain_of chain.new) r) }
{
    let mut pending = Pending::new(alloc, records);
    'records: while let Some((stored, right)) = pending.next(tags, alloc, rules, chain) {
        recommit_one(alloc, rules, chain, stored, right)?;
    }
    Ok(())
}

/// Puts the block of one record behind a chain, as `recommit_with` does behind that of a snapshot.
fn recommit_one(
    alloc: Global,
    rules: &Rules,
    chain: &mut KeptChain,
    stored: CommittedBlock,
    right: Option<Vec<OrgSet>>,
) -> Result<(), RecommitRefusal>
    requires kept { IsKept chain.old }
    requires right { IfSome right
        (λ orgs. orgs.items ≡ right_in_record (orgs_kept rules.now chain.old.state) stored) }
    ensures kept { OnOk result (IsKept chain.new) }
    ensures chain { OnOk result (chain_of chain.new ≡ chain_of chain.old ++ stored ∷ []) }
    ensures lawful { OnOk result
        (AreLawful (table_of rules.now) (chain_of chain.old) (stored ∷ [])) }
    ensures unchanged { OnErr result (chain_of chain.new ≡ chain_of chain.old) }
    ensures refused { IfErr result
        (λ r. IsNextRefused (table_of rules.now) (chain_of chain.old) stored r) }
{
    let judged = judge_as_stored(alloc, rules, chain, &stored, right.as_deref())?;
    let (block, _flags) = stored.into_parts();
    chain.extend(alloc, block, judged)?;
    Ok(())
}
