//! Bytes, versions and names as JSON.

ghost use Rattle.std.specs.Prelude.{◌≡◌, IfOk};
ghost use Rattle.serde_json.specs.Data.{string};
ghost use Rattle.serde_json.specs.View.{view};
ghost use Rattle.json_chain.specs.Texts.{hex_json, value_json, version_json};

use crate::to_json::ToJson;
use fab_types::{Name, OrgName, PolicyText, Version};
use policy_text::{ascii_text, org_name};
use serde_json::Value;
use std::alloc::{AllocError, Global};

/// Bytes as a string of hex.
pub(crate) fn hex_of(alloc: Global, bytes: &[u8]) -> Result<Value, AllocError>
    ensures { IfOk result (λ v. view v ≡ hex_json bytes.now) }
{
    Ok(Value::String(hex::encode(alloc, bytes)?))
}

/// A value as a string of hex; null where there is none.
pub(crate) fn value_of(alloc: Global, value: &Option<fab_types::Value>) -> Result<Value, AllocError>
    ensures { IfOk result (λ v. view v ≡ value_json value.now) }
{
    match value {
        Some(value) => hex_of(alloc, value.as_slice()),
        None => Ok(Value::Null),
    }
}

/// The text of a chaincode's name.
pub(crate) fn name_of(name: &Name) -> &str
    ensures { result.now ≡ name.now }
{
    ascii_text(name.as_slice())
}

/// The text of a policy in a definition.
pub(crate) fn policy_of(policy: &PolicyText) -> &str
    ensures { result.now ≡ policy.now }
{
    ascii_text(policy.as_slice())
}

impl ToJson for Version {
    ghost json = { version_json };

    fn to_json(&self, alloc: Global) -> Result<Value, AllocError> {
        let (block, place) = (self.block(), self.place());
        Ok(Value::String(format!(in alloc; "{block}.{place}")?))
    }
}

impl ToJson for OrgName {
    ghost json = { string };

    fn to_json(&self, alloc: Global) -> Result<Value, AllocError> {
        Value::try_from_str(alloc, org_name(self))
    }
}
