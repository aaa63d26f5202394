//! Whether envelopes are endorsed.

ghost use Rattle.std.specs.Prelude.{◌≡◌, IfOk, length, map, take};
ghost use Rattle.ledger_model.specs.Chain.{history};
ghost use Rattle.ledger_model.specs.State.{state};
ghost use Rattle.endorsement_policy.specs.Endorsed.{is_endorsed, right_orgs};
ghost use Rattle.endorsement_policy.specs.Membership.{listed_in};
ghost use Rattle.endorsement_policy.specs.Judge.{judges, orgs_behind, plain_in};
ghost use Rattle.world_state.specs.Writing.{as_state};

use crate::judge::Judge;
use crate::rules::Rules;
use fab_types::Envelope;
use policy_language::OrgSet;
use std::alloc::{AllocError, Global};
use world_state::{Snapshot, StateMap};

/// Whether an envelope is endorsed in a state. The only error is want of memory.
///
/// A call falls under the policy that its chaincode has there, and is to have read the key of its
/// chaincode's definition, and of keys that are not shown to read no other and write none. An
/// upgrade falls under the policy of upgrades, and is to put a definition that can be used, an open
/// one with a policy of organisations that stand. An amendment falls under that policy of upgrades
/// too, and is to put the next membership. Whose tags are right, and which policy of upgrades
/// stands, is by the membership in the state, else by the genesis.
pub fn is_endorsed(
    alloc: Global,
    rules: &Rules,
    snapshot: &Snapshot,
    envelope: &Envelope,
) -> Result<bool, AllocError>
    ensures { IfOk result
        (λ b. b ≡ is_endorsed rules.now (state (history snapshot.now)) envelope.now) }
{
    is_endorsed_in(alloc, rules, snapshot.map(), envelope)
}

/// Whether an envelope is endorsed in a state, as `is_endorsed` says of that of a snapshot. The only
/// error is want of memory.
pub fn is_endorsed_in(
    alloc: Global,
    rules: &Rules,
    state: &StateMap,
    envelope: &Envelope,
) -> Result<bool, AllocError>
    ensures { IfOk result
        (λ b. b ≡ is_endorsed rules.now (as_state state.now.entries) envelope.now) }
{
    let judge = Judge::new(alloc, rules, state, &[])?;
    let answer = judge.is_endorsed(alloc, envelope, None);
    drop(judge);
    answer
}

/// For each envelope whether it is endorsed, by one thread. The text of a chaincode's policy is
/// read once. The only error is want of memory.
pub fn check_plain(
    alloc: Global,
    rules: &Rules,
    snapshot: &Snapshot,
    envelopes: &[Envelope],
) -> Result<Vec<bool>, AllocError>
    ensures { IfOk result (λ v. v.items
        ≡ map (is_endorsed rules.now (state (history snapshot.now)))
        envelopes.now) }
{
    check_plain_in(alloc, rules, snapshot.map(), envelopes)
}

/// The same in a state.
pub fn check_plain_in(
    alloc: Global,
    rules: &Rules,
    state: &StateMap,
    envelopes: &[Envelope],
) -> Result<Vec<bool>, AllocError>
    ensures { IfOk result (λ v. v.items
        ≡ map (is_endorsed rules.now (as_state state.now.entries)) envelopes.now) }
{
    check_with_first(alloc, rules, state, envelopes, &[])
}

/// The same where it is known of each envelope which of the organisations that stand have right
/// tags on it, as `right_orgs_of_blocks` tells: no tag is computed. The only error is want of
/// memory.
pub fn check_with_right_orgs(
    alloc: Global,
    rules: &Rules,
    snapshot: &Snapshot,
    envelopes: &[Envelope],
    right: &[OrgSet],
) -> Result<Vec<bool>, AllocError>
    requires { right.now ≡ map (right_orgs (orgs_behind rules.now snapshot.now)) envelopes.now }
    ensures { IfOk result (λ v. v.items
        ≡ map (is_endorsed rules.now (state (history snapshot.now)))
        envelopes.now) }
{
    check_with_right_orgs_in(alloc, rules, snapshot.map(), envelopes, right)
}

/// The same in a state.
pub fn check_with_right_orgs_in(
    alloc: Global,
    rules: &Rules,
    state: &StateMap,
    envelopes: &[Envelope],
    right: &[OrgSet],
) -> Result<Vec<bool>, AllocError>
    requires { right.now
        ≡ map (right_orgs (listed_in rules.now (plain_in state.now.entries)).orgs) envelopes.now }
    ensures { IfOk result (λ v. v.items
        ≡ map (is_endorsed rules.now (as_state state.now.entries)) envelopes.now) }
{
    check_with_first(alloc, rules, state, envelopes, right)
}

/// The same where it is known of the first envelopes, so many as are given.
fn check_with_first(
    alloc: Global,
    rules: &Rules,
    state: &StateMap,
    envelopes: &[Envelope],
    right: &[OrgSet],
) -> Result<Vec<bool>, AllocError>
    requires { right.now
        ≡ take (length right.now)
        (map (right_orgs (listed_in rules.now (plain_in state.now.entries)).orgs) envelopes.now) }
    ensures { IfOk result (λ v. v.items
        ≡ map (is_endorsed rules.now (as_state state.now.entries)) envelopes.now) }
{
    let judge = Judge::new(alloc, rules, state, envelopes)?;
    let answers = check_each(alloc, &judge, envelopes, right);
    drop(judge);
    answers
}

/// For each envelope whether it is endorsed, as the judge says.
fn check_each(
    alloc: Global,
    judge: &Judge<'_>,
    envelopes: &[Envelope],
    right: &[OrgSet],
) -> Result<Vec<bool>, AllocError>
    requires { right.now
        ≡ take (length right.now) (map (right_orgs judge.now.listed.orgs) envelopes.now) }
    ensures { IfOk result (λ v. v.items ≡ map (judges judge.now) envelopes.now) }
{
    let mut answers = Vec::with_capacity(alloc, envelopes.len())?;
    for (place, envelope) in envelopes.iter().enumerate() {
        let orgs = right.get(place);
        answers.push(judge.is_endorsed(alloc, envelope, orgs)?)?;
    }
    Ok(answers)
}
