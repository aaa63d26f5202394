//! What a block is judged to be by the rules, and its commit.

ghost use Rattle.std.specs.Prelude.{◌≡◌, [], ◌∷◌, ◌++◌, map, IfOk, OnOk, OnErr, IfErr, IfSome};
ghost use Rattle.ledger_model.specs.Chain.{Chain, history};
ghost use Rattle.ledger_model.specs.State.{state};
ghost use Rattle.ledger_model.specs.Views.{values_of};
ghost use Rattle.world_state.specs.Kept.{IsKeptOf, state_in};
ghost use Rattle.world_state.specs.Writing.{as_state};
ghost use Rattle.endorsement_policy.specs.Endorsed.{is_endorsed, right_orgs};
ghost use Rattle.endorsement_policy.specs.Judge.{orgs_behind, plain_in};
ghost use Rattle.endorsement_policy.specs.Membership.{listed_in};
ghost use Rattle.committer.specs.Fits.{Fits, IsRefused, blocks_of};
ghost use Rattle.ledger_setting.specs.Judging.{IsJudged, next_by};
ghost use Rattle.ledger_setting.specs.Rule.{table_of};

use committer::{CommitRefusal, check_fits_behind};
use endorsement_policy::{
    Gate, Rules, Workers, check_all, check_all_in, check_plain_in, check_with_right_orgs_in,
};
use fab_types::{Block, Envelope};
use mvcc_validate::{flag_behind, flag_block};
use policy_language::OrgSet;
use std::alloc::{AllocError, Global};
use std::thread::Threads;
use world_state::{Judged, Past, Snapshot, StateMap};

/// What a block is judged to be behind a snapshot: its transactions have the flags of the table, by
/// the rules in the state before the block. Nothing is put anywhere.
///
/// Refused where the chain is full (604), where the block has not the next number (601), names
/// another hash than that of the last header (602) or says another hash of its data (603), before
/// any tag is checked; and for want of memory (9), which comes behind the first three tests alone.
pub fn judge(
    alloc: Global,
    rules: &Rules,
    snapshot: &Snapshot,
    block: &Block,
) -> Result<Judged, CommitRefusal>
    ensures judged { IfOk result
        (λ judged. IsJudged (table_of rules.now) snapshot.now block.now judged) }
    ensures refused { IfErr result
        (λ refusal. IsRefused refusal (blocks_of snapshot.now) block.now) }
{
    judge_behind(alloc, rules, snapshot, block)
}

/// The same where it may be known of each envelope which of the organisations that stand behind the
/// snapshot have right tags on it, as `right_orgs_of_blocks` tells. Where it is, no tag is
/// computed.
pub fn judge_with(
    alloc: Global,
    rules: &Rules,
    snapshot: &Snapshot,
    block: &Block,
    right: Option<&[OrgSet]>,
) -> Result<Judged, CommitRefusal>
    requires { IfSome right
        (λ orgs. orgs.now
        ≡ map (right_orgs (orgs_behind rules.now snapshot.now)) block.now.envelopes) }
    ensures judged { IfOk result
        (λ judged. IsJudged (table_of rules.now) snapshot.now block.now judged) }
    ensures refused { IfErr result
        (λ refusal. IsRefused refusal (blocks_of snapshot.now) block.now) }
{
    judge_with_behind(alloc, rules, snapshot, block, right)
}

/// What a block is judged to be behind a chain of which this is kept, as `judge` says of a snapshot.
/// Nothing is put anywhere.
pub fn judge_behind<P: Past>(
    alloc: Global,
    rules: &Rules,
    past: &P,
    block: &Block,
) -> Result<Judged, CommitRefusal>
    ensures judged { (chain : Chain) → IsKeptOf (P.kept past.now) chain →
        IfOk result (λ judged. IsJudged (table_of rules.now) chain block.now judged) }
    ensures refused { (chain : Chain) → IsKeptOf (P.kept past.now) chain →
        IfErr result (λ refusal. IsRefused refusal (blocks_of chain) block.now) }
{
    judge_with_behind(alloc, rules, past, block, None)
}

/// The same where it may be known of each envelope which of the organisations that stand behind the
/// chain have right tags on it, as `judge_with` says of a snapshot.
pub fn judge_with_behind<P: Past>(
    alloc: Global,
    rules: &Rules,
    past: &P,
    block: &Block,
    right: Option<&[OrgSet]>,
) -> Result<Judged, CommitRefusal>
    requires { IfSome right
        (λ orgs. orgs.now
        ≡ map (right_orgs (listed_in rules.now (values_of (state_in (P.kept past.now)))).orgs)
        block.now.envelopes) }
    ensures judged { (chain : Chain) → IsKeptOf (P.kept past.now) chain →
        IfOk result (λ judged. IsJudged (table_of rules.now) chain block.now judged) }
    ensures refused { (chain : Chain) → IsKeptOf (P.kept past.now) chain →
        IfErr result (λ refusal. IsRefused refusal (blocks_of chain) block.now) }
{
    check_fits_behind(alloc, past, block)?;
    let endorsed = check_with(alloc, rules, past.map(), block.envelopes.as_slice(), right)?;
    Ok(flag_behind(alloc, rules.edition(), past, block, &endorsed)?)
}

/// Nothing happens round a check.
struct NoGate;

impl Gate for NoGate {
    fn before(&self, _index: usize) {}

    fn after(&self, _index: usize) {}
}

/// The same as `judge`, where workers check the envelopes at once: the same for every number of
/// them.
pub fn judge_by_workers<T: Threads + Sync>(
    workers: &Workers<'_, T>,
    alloc: Global,
    rules: &Rules,
    snapshot: &Snapshot,
    block: &Block,
) -> Result<Judged, CommitRefusal>
    ensures judged { IfOk result
        (λ judged. IsJudged (table_of rules.now) snapshot.now block.now judged) }
    ensures refused { IfErr result
        (λ refusal. IsRefused refusal (blocks_of snapshot.now) block.now) }
{
    judge_behind_by_workers(workers, alloc, rules, snapshot, block)
}

/// The same as `judge_behind`, where workers check the envelopes at once: the same for every number
/// of them.
pub fn judge_behind_by_workers<T: Threads + Sync, P: Past>(
    workers: &Workers<'_, T>,
    alloc: Global,
    rules: &Rules,
    past: &P,
    block: &Block,
) -> Result<Judged, CommitRefusal>
    ensures judged { (chain : Chain) → IsKeptOf (P.kept past.now) chain →
        IfOk result (λ judged. IsJudged (table_of rules.now) chain block.now judged) }
    ensures refused { (chain : Chain) → IsKeptOf (P.kept past.now) chain →
        IfErr result (λ refusal. IsRefused refusal (blocks_of chain) block.now) }
{
    check_fits_behind(alloc, past, block)?;
    let envelopes = block.envelopes.as_slice();
    let endorsed = check_all_in(workers, alloc, rules, past.map(), envelopes, &NoGate)?;
    Ok(flag_behind(alloc, rules.edition(), past, block, &endorsed)?)
}

/// For each envelope whether it is endorsed, by workers at once: the same for every number of them.
/// The only error is want of memory.
pub fn check_by_workers<T: Threads + Sync>(
    workers: &Workers<'_, T>,
    alloc: Global,
    rules: &Rules,
    snapshot: &Snapshot,
    envelopes: &[Envelope],
) -> Result<Vec<bool>, AllocError>
    ensures { IfOk result (λ v. v.items
        ≡ map (is_endorsed rules.now (state (history snapshot.now)))
        envelopes.now) }
{
    check_all(workers, alloc, rules, snapshot, envelopes, &NoGate)
}

/// For each envelope whether it is endorsed in a state. It may be known of each which of the
/// organisations that stand have right tags on it. The only error is want of memory.
fn check_with(
    alloc: Global,
    rules: &Rules,
    state: &StateMap,
    envelopes: &[Envelope],
    right: Option<&[OrgSet]>,
) -> Result<Vec<bool>, AllocError>
    requires { IfSome right
        (λ orgs. orgs.now
        ≡ map (right_orgs (listed_in rules.now (plain_in state.now.entries)).orgs)
        envelopes.now) }
    ensures { IfOk result (λ v. v.items
        ≡ map (is_endorsed rules.now (as_state state.now.entries)) envelopes.now) }
{
    match right {
        Some(right) => check_with_right_orgs_in(alloc, rules, state, envelopes, right),
        None => check_plain_in(alloc, rules, state, envelopes),
    }
}

/// What `judge` says of a block that fits, where it is known which of its envelopes are endorsed.
/// The error is of memory.
pub fn judge_checked(
    alloc: Global,
    rules: &Rules,
    snapshot: &Snapshot,
    block: &Block,
    endorsed: &[bool],
) -> Result<Judged, AllocError>
    requires fits { Fits (blocks_of snapshot.now) block.now }
    requires endorsed { endorsed.now
        ≡ map (is_endorsed rules.now (state (history snapshot.now)))
        block.now.envelopes }
    ensures { IfOk result
        (λ judged. IsJudged (table_of rules.now) snapshot.now block.now judged) }
{
    let judged = flag_block(alloc, rules.edition(), snapshot, block, endorsed)?;
    Ok(judged)
}

/// Judges a block, and puts it behind the chain.
///
/// It refuses as `judge` does, and a refusal changes nothing.
pub fn commit(
    alloc: Global,
    rules: &Rules,
    snapshot: &mut Snapshot,
    block: Block,
) -> Result<(), CommitRefusal>
    ensures committed { OnOk result
        (snapshot.new ≡ snapshot.old ++ next_by (table_of rules.now) snapshot.old block ∷ []) }
    ensures unchanged { OnErr result (snapshot.new ≡ snapshot.old) }
    ensures fits { OnOk result (Fits (blocks_of snapshot.old) block) }
    ensures refused { IfErr result (λ refusal. IsRefused refusal (blocks_of snapshot.old) block) }
{
    let judged = judge(alloc, rules, snapshot, &block)?;
    Ok(snapshot.extend(alloc, block, judged)?)
}

/// The same as `commit`, where workers check the envelopes at once: the same for every number of
/// them.
pub fn commit_by_workers<T: Threads + Sync>(
    workers: &Workers<'_, T>,
    alloc: Global,
    rules: &Rules,
    snapshot: &mut Snapshot,
    block: Block,
) -> Result<(), CommitRefusal>
    ensures committed { OnOk result
        (snapshot.new ≡ snapshot.old ++ next_by (table_of rules.now) snapshot.old block ∷ []) }
    ensures unchanged { OnErr result (snapshot.new ≡ snapshot.old) }
    ensures fits { OnOk result (Fits (blocks_of snapshot.old) block) }
    ensures refused { IfErr result (λ refusal. IsRefused refusal (blocks_of snapshot.old) block) }
{
    let judged = judge_by_workers(workers, alloc, rules, snapshot, &block)?;
    snapshot.extend(alloc, block, judged)?;
    Ok(())
}
