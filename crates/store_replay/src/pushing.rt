//! The block of one record behind a chain.

ghost use Rattle.std.specs.Prelude.{◌≡◌, ◌≢◌, IfOk, IfSome, OnErr, OnOk, IfErr};
ghost use Rattle.committer.specs.Fits.{IsRefused, blocks_of};
ghost use Rattle.committer.specs.declared.refusal.CommitRefusal.TheVariants.{Memory};
ghost use Rattle.kept_state.specs.Keeping.{IsKept, chain_of};
ghost use Rattle.ledger_setting.specs.Judging.{IsJudged, next_by};
ghost use Rattle.ledger_setting.specs.Rule.{table_of};
ghost use Rattle.store_replay.specs.Replay.{HasTheFlags, IsPushed};
ghost use Rattle.ledger_model.specs.Chain.{Chain};
ghost use Rattle.store_replay.specs.Tags.{orgs_kept, right_in_record};
ghost use Rattle.world_state.specs.Kept.{IsKeptOf};

use committer::CommitRefusal;
use endorsement_policy::Rules;
use fab_types::{CommittedBlock, Flag};
use kept_state::KeptChain;
use ledger_setting::judge_with_behind;
use policy_language::OrgSet;
use std::alloc::Global;
use world_state::{Judged, Past};

/// What the block of a record is judged to be behind a chain of which this is kept, and whether the
/// record has these flags. It may be known whose tags in it are right, of those who stand behind
/// the chain. It refuses as `judge` does.
pub fn judge_record<P: Past>(
    alloc: Global,
    rules: &Rules,
    past: &P,
    stored: &CommittedBlock,
    right: Option<&[OrgSet]>,
) -> Result<(Judged, bool), CommitRefusal>
    requires { IfSome right
        (λ orgs. orgs.now
        ≡ right_in_record (orgs_kept rules.now (P.kept past.now)) stored.now) }
    ensures judged { (chain : Chain) → IsKeptOf (P.kept past.now) chain →
        IfOk result (λ t. IsJudged (table_of rules.now) chain stored.now.block t.0) }
    ensures flags { (chain : Chain) → IsKeptOf (P.kept past.now) chain →
        IfOk result (λ t. HasTheFlags (table_of rules.now) chain stored.now t.1) }
    ensures refused { (chain : Chain) → IsKeptOf (P.kept past.now) chain →
        IfErr result (λ cause. IsRefused cause (blocks_of chain) stored.now.block) }
{
    let judged = judge_with_behind(alloc, rules, past, stored.block(), right)?;
    let flags: &[Flag] = &judged.flags;
    let is_same = stored.flags() == flags;
    Ok((judged, is_same))
}

/// Commits the block of a record behind a chain and hands it out, and tells whether the record has
/// the table's flags. It may be known whose tags in it are right.
///
/// It refuses as `judge` does, and a refusal does not change the chain.
pub fn push(
    alloc: Global,
    rules: &Rules,
    chain: &mut KeptChain,
    stored: CommittedBlock,
    right: Option<Vec<OrgSet>>,
) -> Result<(CommittedBlock, bool), CommitRefusal>
    requires kept { IsKept chain.old }
    requires right { IfSome right
        (λ orgs. orgs.items ≡ right_in_record (orgs_kept rules.now chain.old.state) stored) }
    ensures kept { OnOk result (IsKept chain.new) }
    ensures pushed { IfOk result
        (λ p. IsPushed (table_of rules.now) (chain_of chain.old) stored p.1 (chain_of chain.new)) }
    ensures made { IfOk result
        (λ p. p.0 ≡ next_by (table_of rules.now) (chain_of chain.old) stored.block) }
    // Behind want of memory the state is kept of nothing.
    ensures still { IfErr result (λ cause. cause ≢ Memory → IsKept chain.new) }
    ensures unchanged { OnErr result (chain_of chain.new ≡ chain_of chain.old) }
    ensures refused { IfErr result
        (λ cause. IsRefused cause (blocks_of (chain_of chain.old)) stored.block) }
{
    let (judged, is_same) = judge_record(alloc, rules, chain, &stored, right.as_deref())?;
    let (block, _flags) = stored.into_parts();
    let committed = chain.extend(alloc, block, judged)?;
    Ok((committed, is_same))
}
