//! What a ledger begins with, as JSON.

ghost use Rattle.std.specs.Prelude.{◌≡◌, ◌≤◌, Some, IfOk, OnOk, length, option_map};
ghost use Rattle.serde_json.specs.Data.{array};
ghost use Rattle.serde_json.specs.View.{items_of, view};
ghost use Rattle.json_chain.specs.Members.{members_in};
ghost use Rattle.json_chain.specs.Genesis.{chaincode_json, chaincodes_json, module_json};
ghost use Rattle.json_chain.specs.Genesis.{named_json, org_json, policy_json, genesis_json};
ghost use Rattle.json_chain.specs.Genesis.{with_book, with_limits, with_rules};
ghost use Rattle.json_chain.specs.Texts.{list_json};
ghost use Rattle.endorsement_policy.specs.Endorsed.{listed_policy};

use crate::object::Object;
use crate::texts::name_of;
use crate::to_json::ToJson;
use chaincode_book::Chaincode;
use endorsement_policy::{ModuleId, Rules};
use fab_types::{Edition, Name, OrgName};
use ledger_setting::Genesis;
use org_keys::PublicKey;
use policy_text::policy_text;
use serde_json::Value;
use std::alloc::{AllocError, Global};

/// What a ledger begins with, but for the shared keys. The only error is want of memory.
pub fn genesis_of(alloc: Global, genesis: &Genesis) -> Result<Value, AllocError>
    ensures { IfOk result (λ v. view v ≡ genesis_json genesis.now) }
{
    let mut object = Object::new(alloc);
    put_limits(&mut object, genesis)?;
    put_book(alloc, &mut object, genesis)?;
    put_rules(&mut object, &genesis.rules)?;
    Ok(object.into_value())
}

/// Puts in what batches are cut and ordered by, and the number of this form of a genesis.
fn put_limits(object: &mut Object, genesis: &Genesis) -> Result<(), AllocError>
    ensures { OnOk result
        (members_in object.new ≡ with_limits genesis.now (members_in object.old)) }
{
    object.put("absolute", Value::from(genesis.absolute))?;
    object.put("count", Value::from(genesis.count))?;
    object.put("ledger", Value::from(1u8))?;
    object.put("preferred", Value::from(genesis.preferred))?;
    object.put("reorder", Value::from(genesis.reorder))
}

/// Puts in what is installed, who takes part, and the policies.
fn put_book(alloc: Global, object: &mut Object, genesis: &Genesis) -> Result<(), AllocError>
    ensures { OnOk result
        (members_in object.new ≡ with_book genesis.now (members_in object.old)) }
{
    let installed = genesis.book.installed();
    let chaincodes = genesis.book.chaincodes();
    let ids = installed.modules();
    object.put(
        "chaincodes",
        chaincodes_of(alloc, &genesis.rules, chaincodes, ids)?,
    )?;
    object.put_list("modules", ids)?;
    object.put("orgs", orgs_of(alloc, &genesis.rules, installed.names())?)?;
    object.put_list("peers", &genesis.peers)?;
    object.put(
        "upgrade",
        Value::String(policy_text(alloc, genesis.rules.upgrade())?),
    )
}

/// Puts in the number of the rules and the SHA-256 of the genesis file, unless they are rules 1.
fn put_rules(object: &mut Object, rules: &Rules) -> Result<(), AllocError>
    ensures { OnOk result (members_in object.new
        ≡ with_rules rules.now.edition rules.now.ledger (members_in object.old)) }
{
    let edition = rules.edition();
    match edition {
        Edition::First => Ok(()),
        Edition::Second => {
            object.put("rules", Value::from(edition.number()))?;
            object.put_hex("digest", rules.ledger())
        }
    }
}

/// The organisations of these names.
fn orgs_of(alloc: Global, rules: &Rules, names: &[OrgName]) -> Result<Value, AllocError>
    ensures { IfOk result (λ v. view v ≡ list_json (org_json rules.now.orgs) names.now) }
{
    let mut values = Vec::new(alloc);
    for name in names {
        values.push(org_of(alloc, rules, name)?)?;
    }
    Ok(Value::Array(values))
}

/// The name of an organisation, and its public key, if it has one.
fn org_of(alloc: Global, rules: &Rules, name: &OrgName) -> Result<Value, AllocError>
    ensures { IfOk result (λ v. view v ≡ org_json rules.now.orgs name.now) }
{
    match rules.organisation(name) {
        Some(organisation) => keyed(alloc, name, organisation.key.public()),
        None => name.to_json(alloc),
    }
}

/// A name, with this public key, if there is one.
fn keyed(alloc: Global, name: &OrgName, public: Option<&PublicKey>) -> Result<Value, AllocError>
    ensures { IfOk result
        (λ v. view v ≡ named_json name.now (option_map (λ k. k.now) public.entry)) }
{
    match public {
        None => name.to_json(alloc),
        Some(public) => {
            let mut object = Object::new(alloc);
            object.put_json("name", name)?;
            object.put_hex("public", public.as_bytes())?;
            Ok(object.into_value())
        }
    }
}

impl ToJson for ModuleId {
    ghost json = { module_json };

    fn to_json(&self, alloc: Global) -> Result<Value, AllocError> {
        let mut object = Object::new(alloc);
        object.put_hex("module", &self.digest)?;
        object.put("profile", Value::from(self.profile.number()))?;
        Ok(object.into_value())
    }
}

/// The chaincodes of a genesis, each with the id at its place.
fn chaincodes_of(
    alloc: Global,
    rules: &Rules,
    chaincodes: &[Chaincode],
    ids: &[ModuleId],
) -> Result<Value, AllocError>
    requires one_each { length chaincodes.now ≤ length ids.now }
    ensures { IfOk result
        (λ v. view v
        ≡ array (items_of (chaincodes_json rules.now.policies chaincodes.now ids.now))) }
{
    let mut values = Vec::new(alloc);
    for place in 0..chaincodes.len() {
        let chaincode = chaincode_of(alloc, rules, &chaincodes[place], &ids[place])?;
        values.push(chaincode)?;
    }
    Ok(Value::Array(values))
}

fn chaincode_of(
    alloc: Global,
    rules: &Rules,
    chaincode: &Chaincode,
    id: &ModuleId,
) -> Result<Value, AllocError>
    ensures { IfOk result
        (λ v. view v ≡ chaincode_json rules.now.policies chaincode.now id.now) }
{
    let mut object = Object::new(alloc);
    object.put("fuel", Value::from(chaincode.fuel))?;
    object.put_hex("module", &id.digest)?;
    object.put_text("name", name_of(&chaincode.name))?;
    object.put("policy", policy_of(alloc, rules, &chaincode.name)?)?;
    object.put("profile", Value::from(id.profile.number()))?;
    Ok(object.into_value())
}

/// The policy of a chaincode by the genesis; null where it has none.
fn policy_of(alloc: Global, rules: &Rules, chaincode: &Name) -> Result<Value, AllocError>
    ensures { IfOk result
        (λ v. view v ≡ policy_json (listed_policy rules.now.policies chaincode.now)) }
{
    match rules.policy(chaincode) {
        Some(listed) => Ok(Value::String(policy_text(alloc, &listed.policy)?)),
        None => Ok(Value::Null),
    }
}
