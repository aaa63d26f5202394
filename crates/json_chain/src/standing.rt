//! Who stands, as JSON.

ghost use Rattle.std.specs.Prelude.{◌≡◌, None, IfOk};
ghost use Rattle.std.specs.FinMap.{get};
ghost use Rattle.serde_json.specs.View.{view};
ghost use Rattle.fab_types.specs.Memberships.{membership_key};
ghost use Rattle.endorsement_policy.specs.Judge.{plain_in};
ghost use Rattle.endorsement_policy.specs.Membership.{usable_membership};
ghost use Rattle.json_chain.specs.Memberships.{kept_json, standing_behind, standing_json};
ghost use Rattle.json_chain.specs.Texts.{list_json};

use crate::object::Object;
use crate::to_json::ToJson;
use endorsement_policy::{Rules, usable_membership, value_of_membership};
use org_keys::Organisation;
use policy_text::policy_text;
use serde_json::Value;
use std::alloc::{AllocError, Global};
use world_state::{Snapshot, StateMap};

/// What stands in the state after a chain, as `standing_of_state` shows it. The only error is want
/// of memory.
pub fn standing_of(alloc: Global, rules: &Rules, snapshot: &Snapshot) -> Result<Value, AllocError>
    ensures { IfOk result (λ v. view v ≡ standing_behind rules.now snapshot.now) }
{
    standing_of_state(alloc, rules, snapshot.map())
}

/// What stands in a state, as the membership that says so: the one in the state, where one stands
/// there that can be used; else all by the genesis, who keep their keys, and the serial number is
/// 0. The only error is want of memory.
pub fn standing_of_state(
    alloc: Global,
    rules: &Rules,
    state: &StateMap,
) -> Result<Value, AllocError>
    ensures { IfOk result
        (λ v. view v
        ≡ standing_json rules.now
        (usable_membership rules.now.installed.orgs
        (get (plain_in state.now.entries) membership_key))) }
{
    let organisations = rules.installed().organisations();
    let found = usable_membership(alloc, organisations, value_of_membership(state))?;
    match found {
        Some(membership) => membership.to_json(alloc),
        None => listed_of(alloc, rules),
    }
}

/// What stands by the genesis.
fn listed_of(alloc: Global, rules: &Rules) -> Result<Value, AllocError>
    ensures { IfOk result (λ v. view v ≡ standing_json rules.now None) }
{
    let mut object = Object::new(alloc);
    object.put("members", kept_of(alloc, rules.organisations())?)?;
    object.put(
        "policy",
        Value::String(policy_text(alloc, rules.upgrade())?),
    )?;
    object.put("serial", Value::from(0u32))?;
    Ok(object.into_value())
}

/// Members that keep their keys.
fn kept_of(alloc: Global, organisations: &[Organisation]) -> Result<Value, AllocError>
    ensures { IfOk result (λ v. view v ≡ list_json kept_json organisations.now) }
{
    let mut values = Vec::new(alloc);
    for organisation in organisations {
        values.push(kept(alloc, organisation)?)?;
    }
    Ok(Value::Array(values))
}

/// A member that keeps its key.
fn kept(alloc: Global, organisation: &Organisation) -> Result<Value, AllocError>
    ensures { IfOk result (λ v. view v ≡ kept_json organisation.now) }
{
    let mut object = Object::new(alloc);
    object.put_json("name", &organisation.name)?;
    Ok(object.into_value())
}
