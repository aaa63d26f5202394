//! The chaincodes and policies.

ghost use Rattle.std.specs.Prelude.{◌≡◌, ◌≢◌, [], ◌∷◌, ◌++◌, IfOk, IfErr, OnOk};
ghost use Rattle.policy_language.specs.Faults.{Fails};
ghost use Rattle.policy_language.specs.Limits.{IsText};
ghost use Rattle.serde_json.specs.View.{view};
ghost use Rattle.json_genesis.specs.declared.refusal.GenesisRefusal.TheVariants.{Memory, Json};
ghost use Rattle.json_genesis.specs.Refused.{NoneIs};
ghost use Rattle.json_genesis.specs.Spelling.{HasParts, IsPolicy, chaincodes_of, ids_of, policies_of};

use crate::definition::Definition;
use crate::each::ReadItem;
use crate::fields::{ChaincodeFields, chaincode_fields};
use crate::modules::module;
use crate::numbers::within;
use crate::refusal::GenesisRefusal;
use chaincode_book::{Chaincode, Held};
use endorsement_policy::{ChaincodePolicy, ModuleId};
use fab_types::limits::MOST_FUEL;
use fab_types::{Name, OrgName};
use policy_language::{Policy, PolicyFault, parse};
use serde_json::Value;
use std::alloc::{AllocError, Global};

/// Reads a chaincode with its policy over these organisations.
#[derive(Clone, Copy)]
pub(crate) struct DefinitionReader<'a> {
    pub orgs: &'a [OrgName],
}

impl ReadItem for DefinitionReader<'_> {
    type Item = Definition;

    ghost use Rattle.json_genesis.specs.Spelling.{IsDefinition};

    ghost spells = { λ r. IsDefinition r.orgs.now };

    fn read(&self, alloc: Global, value: &Value) -> Result<Definition, GenesisRefusal> {
        let Some(fields) = chaincode_fields(value) else {
            return Err(GenesisRefusal::Field);
        };
        let fuel = within(fields.fuel, 1, MOST_FUEL)?;
        let Some(name) = Name::from_slice(fields.name.as_bytes()) else {
            return Err(GenesisRefusal::Range);
        };
        let definition = definition(alloc, &fields, name, fuel, self.orgs)?;
        Ok(definition)
    }
}

/// A chaincode of this name and fuel, with the module and the policy over these organisations that
/// its fields spell.
fn definition(
    alloc: Global,
    fields: &ChaincodeFields<'_>,
    name: Name,
    fuel: u64,
    orgs: &[OrgName],
) -> Result<Definition, GenesisRefusal>
    ensures ok { IfOk result (λ c. (c.chaincode.name ≡ name) × (c.chaincode.fuel ≡ fuel)
        × (c.policy.chaincode ≡ name)
        × HasParts orgs.now fields.now.hex.now (view fields.now.profile.now) fields.now.policy.now
        c) }
    ensures refused { IfErr result
        (λ r. NoneIs
        (HasParts orgs.now fields.now.hex.now (view fields.now.profile.now)
        fields.now.policy.now) r) }
{
    let chaincode = name.clone()?;
    let held = module(alloc, fields.hex, fields.profile)?;
    match policy(alloc, fields.policy, orgs) {
        Ok(policy) => {
            let Held { id, module } = held;
            Ok(Definition {
                chaincode: Chaincode { name, module, fuel },
                id,
                policy: ChaincodePolicy { chaincode, policy },
            })
        }
        Err(refusal) => {
            drop(held);
            Err(refusal)
        }
    }
}

/// The policy of upgrades over these organisations.
pub(crate) fn upgrade_policy(
    alloc: Global,
    value: &Value,
    orgs: &[OrgName],
) -> Result<Policy, GenesisRefusal>
    ensures ok { IfOk result (λ p. IsPolicy orgs.now (view value.now) p) }
    ensures refused { IfErr result (λ r. NoneIs (IsPolicy orgs.now (view value.now)) r) }
{
    match json_fields::text(value) {
        Some(text) => policy(alloc, text, orgs),
        None => Err(GenesisRefusal::Field),
    }
}

/// The policy that a text spells over these organisations.
fn policy(alloc: Global, text: &str, orgs: &[OrgName]) -> Result<Policy, GenesisRefusal>
    ensures ok { IfOk result (λ p. IsText orgs.now p text.now) }
    ensures refused { IfErr result (λ r. NoneIs (λ p. IsText orgs.now p text.now) r) }
{
    match parse(alloc, text, orgs) {
        Ok(policy) => Ok(policy),
        Err(fault) => Err(refusal_of_policy(fault)),
    }
}

/// The refusal of a file whose policy is at fault.
fn refusal_of_policy(fault: PolicyFault) -> GenesisRefusal
    ensures read { result ≢ Json }
    ensures fault { result ≢ Memory → Fails fault ⊥ → ⊥ }
{
    match fault {
        PolicyFault::Memory => GenesisRefusal::Memory,
        PolicyFault::Syntax(_)
        | PolicyFault::UnknownOrganisation
        | PolicyFault::Threshold
        | PolicyFault::TooDeep => GenesisRefusal::Policy,
    }
}

/// Chaincodes, the ids of their modules and their policies, each apart.
#[derive(Drop)]
pub(crate) struct Apart {
    pub chaincodes: Vec<Chaincode>,
    pub ids: Vec<ModuleId>,
    pub policies: Vec<ChaincodePolicy>,
}

impl Apart {
    /// One chaincode more.
    fn push(&mut self, definition: Definition) -> Result<(), AllocError>
        ensures { OnOk result
            ((self.new.chaincodes.items ≡ self.old.chaincodes.items ++ definition.chaincode ∷ [])
            × (self.new.ids.items ≡ self.old.ids.items ++ definition.id ∷ [])
            × (self.new.policies.items ≡ self.old.policies.items ++ definition.policy ∷ [])) }
    {
        let Definition {
            chaincode,
            id,
            policy,
        } = definition;
        self.chaincodes.push(chaincode)?;
        self.ids.push(id)?;
        self.policies.push(policy)?;
        Ok(())
    }
}

/// The parts of chaincodes.
pub(crate) fn parted(alloc: Global, definitions: Vec<Definition>) -> Result<Apart, AllocError>
    ensures { IfOk result (λ p. (p.chaincodes.items ≡ chaincodes_of definitions.items)
        × (p.ids.items ≡ ids_of definitions.items)
        × (p.policies.items ≡ policies_of definitions.items)) }
{
    let mut parted = Apart {
        chaincodes: Vec::new(alloc),
        ids: Vec::new(alloc),
        policies: Vec::new(alloc),
    };
    'definitions: for definition in definitions {
        parted.push(definition)?;
    }
    Ok(parted)
}
