//! The organisations.

ghost use Rattle.std.specs.Prelude.{◌≡◌, IfOk, IfErr};
ghost use Rattle.serde_json.specs.View.{view};
ghost use Rattle.json_genesis.specs.Refused.{NoneIs};
ghost use Rattle.json_genesis.specs.Spelling.{AreOrganisations, IsOrganisation};
ghost use Rattle.json_genesis.specs.Spelling.{are_different, names_of, public_keys_of};
ghost use Rattle.json_fields.specs.NamedKeys.{public_object};
ghost use Rattle.json_genesis.specs.Spelling.{shared_object};
ghost use Rattle.policy_language.specs.GoodSets.{is_among};

use crate::each::ReadItem;
use crate::fields::shared_fields;
use crate::lists::read_list;
use crate::numbers::bytes_of;
use crate::refusal::GenesisRefusal;
use fab_types::limits::MOST_ORGANISATIONS;
use fab_types::{Edition, OrgName};
use json_fields::public_fields;
use org_keys::{OrgKey, Organisation, PublicKey, TagKey};
use policy_language::is_among;
use serde_json::Value;
use std::alloc::{AllocError, Global};

/// Reads an organisation of a ledger under the rules of an edition, whose genesis file has this
/// SHA-256.
#[derive(Clone, Copy)]
struct OrganisationReader<'a> {
    edition: Edition,
    ledger: &'a [u8; 32],
}

impl ReadItem for OrganisationReader<'_> {
    type Item = Organisation;

    ghost use Rattle.json_genesis.specs.Spelling.{IsOrganisation};

    ghost spells = { λ r. IsOrganisation r.edition r.ledger.now };

    fn read(&self, alloc: Global, value: &Value) -> Result<Organisation, GenesisRefusal> {
        if let Some(fields) = shared_fields(value) {
            return self.with_shared_key(alloc, fields.key, fields.name);
        }
        match public_fields(value) {
            Some(fields) => self.with_public_key(alloc, fields.name, fields.public),
            None => Err(GenesisRefusal::Field),
        }
    }
}

impl OrganisationReader<'_> {
    /// The organisation of this name whose shared key is written in hex.
    fn with_shared_key(
        &self,
        alloc: Global,
        key: &str,
        name: &str,
    ) -> Result<Organisation, GenesisRefusal>
        ensures ok { IfOk result
            (IsOrganisation self.now.edition self.now.ledger.now
            (shared_object key.now name.now)) }
        ensures refused { IfErr result
            (NoneIs (IsOrganisation self.now.edition self.now.ledger.now
            (shared_object key.now name.now))) }
    {
        let Some(key) = TagKey::new(bytes_of(alloc, key)?) else {
            return Err(GenesisRefusal::Range);
        };
        let Some(name) = OrgName::from_slice(name.as_bytes()) else {
            return Err(GenesisRefusal::Range);
        };
        let key = OrgKey::Shared(key);
        Ok(Organisation { name, key })
    }

    /// The organisation of this name whose public key is written in hex.
    fn with_public_key(
        &self,
        alloc: Global,
        name: &str,
        public: &str,
    ) -> Result<Organisation, GenesisRefusal>
        ensures ok { IfOk result
            (IsOrganisation self.now.edition self.now.ledger.now
            (public_object name.now public.now)) }
        ensures refused { IfErr result
            (NoneIs (IsOrganisation self.now.edition self.now.ledger.now
            (public_object name.now public.now))) }
    {
        let Ok(bytes) = <[u8; 32]>::try_from(bytes_of(alloc, public)?) else {
            return Err(GenesisRefusal::Range);
        };
        let Some(public) = PublicKey::new(bytes) else {
            return Err(GenesisRefusal::Range);
        };
        let Some(name) = OrgName::from_slice(name.as_bytes()) else {
            return Err(GenesisRefusal::Range);
        };
        let key = OrgKey::Public(public).in_ledger(self.edition, self.ledger);
        Ok(Organisation { name, key })
    }
}

/// The organisations that are listed in the genesis file of this SHA-256, under the rules of an
/// edition, of different names and public keys, and their names.
pub(crate) fn organisations(
    alloc: Global,
    edition: Edition,
    ledger: &[u8; 32],
    value: &Value,
) -> Result<(Vec<Organisation>, Vec<OrgName>), GenesisRefusal>
    ensures ok { IfOk result (λ o. AreOrganisations edition ledger.now (view value.now) o.0.items
        × (o.1.items ≡ names_of o.0.items)) }
    ensures refused { IfErr result
        (λ r. NoneIs (AreOrganisations edition ledger.now (view value.now)) r) }
{
    let reader = OrganisationReader { edition, ledger };
    let organisations = read_list(alloc, &reader, value, 1, MOST_ORGANISATIONS)?;
    let orgs = names(alloc, &organisations)?;
    if !are_different(&orgs) {
        return Err(GenesisRefusal::Names);
    }
    if !have_different_keys(&organisations) {
        return Err(GenesisRefusal::Names);
    }
    Ok((organisations, orgs))
}

/// The names of organisations, in order.
fn names(alloc: Global, organisations: &[Organisation]) -> Result<Vec<OrgName>, AllocError>
    ensures { IfOk result (λ v. v.items ≡ names_of organisations.now) }
{
    let mut names = Vec::new(alloc);
    'names: for organisation in organisations {
        names.push(organisation.name.clone()?)?;
    }
    Ok(names)
}

/// Whether no name stands twice among these.
fn are_different(names: &[OrgName]) -> bool
    ensures { result ≡ are_different names.now }
{
    match names {
        [] => true,
        [first, rest @ ..] => !is_among(rest, first) && are_different(rest),
    }
}

/// Whether no two of these have one public key.
fn have_different_keys(organisations: &[Organisation]) -> bool
    ensures { result ≡ are_different (public_keys_of organisations.now) }
{
    match organisations {
        [] => true,
        [first, rest @ ..] => match first.key.public() {
            None => have_different_keys(rest),
            Some(key) => !has_public_key(rest, key) && have_different_keys(rest),
        },
    }
}

/// Whether one of these has this public key.
fn has_public_key(organisations: &[Organisation], key: &PublicKey) -> bool
    ensures { result ≡ is_among (public_keys_of organisations.now) key.now }
{
    match organisations {
        [] => false,
        [first, rest @ ..] => match first.key.public() {
            None => has_public_key(rest, key),
            Some(other) => other.as_bytes() == key.as_bytes() || has_public_key(rest, key),
        },
    }
}
