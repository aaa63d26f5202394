//! Whether organisations suffice, as JSON.

ghost use Rattle.std.specs.Prelude.{◌≡◌, IfOk};
ghost use Rattle.serde_json.specs.Data.{boolean};
ghost use Rattle.serde_json.specs.View.{view};
ghost use Rattle.policy_language.specs.GoodSets.{is_satisfied};
ghost use Rattle.endorsement_policy.specs.Endorsed.{policy_in};
ghost use Rattle.endorsement_policy.specs.Judge.{plain_in};
ghost use Rattle.endorsement_policy.specs.Membership.{listed_in};
ghost use Rattle.json_questions.specs.Answers.{names_among, or_null};

use crate::asked_orgs::AskedOrgs;
use endorsement_policy::{Rules, Standing, satisfies_in};
use fab_types::Name;
use serde_json::Value;
use std::alloc::{AllocError, Global};
use world_state::StateMap;

/// Whether those of these organisations that stand in a state satisfy the policy that a chaincode
/// has there; null where it has none that can be used.
pub(crate) fn satisfied_of(
    alloc: Global,
    rules: &Rules,
    state: &StateMap,
    chaincode: &Name,
    orgs: &AskedOrgs,
) -> Result<Value, AllocError>
    ensures { IfOk result
        (λ v. view v
        ≡ or_null
        (λ p. boolean (is_satisfied p
        (names_among (listed_in rules.now (plain_in state.now.entries)).orgs orgs.now)))
        (policy_in rules.now (plain_in state.now.entries) chaincode.now)) }
{
    let standing = Standing::in_state(alloc, rules, state)?;
    let who_stand = orgs.who_stand(alloc, &standing)?;
    match satisfies_in(alloc, rules, state, chaincode, &who_stand)? {
        Some(is_satisfied) => Ok(Value::from(is_satisfied)),
        None => Ok(Value::Null),
    }
}
