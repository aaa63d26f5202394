//! What the fields of a line hold.

ghost use Rattle.std.specs.Prelude.{◌≡◌, ◌≢◌, ℕ, List, codes, IfOk, IfErr, MatchOption, MatchBool};
ghost use Rattle.serde_json.specs.Data.{string};
ghost use Rattle.serde_json.specs.View.{items_view, view};
ghost use Rattle.fab_types.specs.Limits.{IsFuel, IsName, IsPolicyText};
ghost use Rattle.fab_types.specs.Spelling.{form_of};
ghost use Rattle.fab_types.specs.declared.definition.Definition.{Definition};
ghost use Rattle.json_events.specs.Refused.{NoneIs};
ghost use Rattle.json_events.specs.Spelling.{AreJoined, AreNames, AreTexts, IsArgument, IsArgumentOrDash, IsCall, IsDefinition, IsHex, IsUpgrade, StandsFor};

use crate::action::BadLine;
use crate::fields::{CallFields, UpgradeFields};
use fab_types::{Call, Definition, Fuel, Name, PolicyText, Upgrade, Value as Bytes};
use hex::{FromHex, FromHexError};
use serde_json::Value;
use std::alloc::Global;
use wasm_profile::Profile;

/// How many endorsements an envelope has at most.
const MOST_NAMES: usize = 32;

/// The bytes that a text of hex stands for. `NoForm` only where it stands for none.
pub fn bytes_of(alloc: Global, text: &str) -> Result<Vec<u8>, BadLine>
    ensures ok { IfOk result (λ bytes. IsHex text.now bytes.items) }
    ensures refused { IfErr result (λ r. NoneIs (IsHex text.now) r) }
{
    match hex::decode(alloc, text) {
        Ok(bytes) => Ok(bytes),
        Err(FromHexError::OutOfMemory) => Err(BadLine::Memory),
        Err(_) => Err(BadLine::NoForm),
    }
}

/// The bytes of the texts that the items of a list are, with one space between.
fn joined(alloc: Global, items: &[Value]) -> Result<Vec<u8>, BadLine>
    ensures ok { IfOk result (λ bytes. AreJoined (items_view items.now) bytes.items) }
    ensures refused { IfErr result (λ r. NoneIs (AreJoined (items_view items.now)) r) }
{
    let texts = texts(alloc, items)?;
    let text = texts.join(alloc, " ")?;
    Ok(text.into_bytes())
}

/// The bytes that hex or a list of texts stands for.
fn bytes_for(alloc: Global, value: &Value) -> Result<Vec<u8>, BadLine>
    ensures ok { IfOk result (λ bytes. StandsFor (view value.now) bytes.items) }
    ensures refused { IfErr result (λ r. NoneIs (StandsFor (view value.now)) r) }
{
    match value {
        Value::String(hex) => bytes_of(alloc, hex.as_str()),
        Value::Array(items) => joined(alloc, items),
        _ => Err(BadLine::NoForm),
    }
}

/// The argument that a value is: hex, or a list of texts. `NoForm` only where it is none.
pub fn argument(alloc: Global, value: &Value) -> Result<Bytes, BadLine>
    ensures ok { IfOk result (λ v. IsArgument (view value.now) v) }
    ensures refused { IfErr result (λ r. NoneIs (IsArgument (view value.now)) r) }
{
    match Bytes::new(bytes_for(alloc, value)?) {
        Some(bytes) => Ok(bytes),
        None => Err(BadLine::NoForm),
    }
}

/// The argument that a value is, or that of no bytes where it is `-`.
fn argument_or_dash(alloc: Global, value: &Value) -> Result<Bytes, BadLine>
    ensures ok { IfOk result (λ v. IsArgumentOrDash (view value.now) v) }
    ensures refused { IfErr result (λ r. NoneIs (IsArgumentOrDash (view value.now)) r) }
{
    if !is_dash(value) {
        return argument(alloc, value);
    }
    match Bytes::new(Vec::new(alloc)) {
        Some(bytes) => Ok(bytes),
        None => Err(BadLine::NoForm),
    }
}

/// Whether a value is the text `-`.
fn is_dash(value: &Value) -> bool
    ensures { MatchBool result (view value.now ≡ string (codes "-"))
        (view value.now ≢ string (codes "-")) }
{
    match json_fields::text(value) {
        Some(text) => text == "-",
        None => false,
    }
}

/// The chaincode's name that a text is. `NoForm` only where it is none.
pub fn name(text: &str) -> Result<Name, BadLine>
    ensures ok { IfOk result (λ n. (n ≡ text.now) × IsName text.now) }
    ensures refused { IfErr result
        (λ r. NoneIs (λ (n : List ℕ). (n ≡ text.now) × IsName text.now) r) }
{
    match Name::from_slice(text.as_bytes()) {
        Some(name) => Ok(name),
        None => Err(BadLine::NoForm),
    }
}

/// The call that these fields hold.
pub(crate) fn call(alloc: Global, fields: &CallFields<'_>) -> Result<Call, BadLine>
    ensures ok { IfOk result
        (λ c. IsCall (view fields.now.arg.now) fields.now.chaincode.now fields.now.nonce.now c) }
    ensures refused { IfErr result
        (λ r. NoneIs
        (IsCall (view fields.now.arg.now) fields.now.chaincode.now fields.now.nonce.now) r) }
{
    let Ok(nonce) = <[u8; 16]>::from_hex(fields.nonce) else {
        return Err(BadLine::NoForm);
    };
    let chaincode = name(fields.chaincode)?;
    let argument = argument_or_dash(alloc, fields.arg)?;
    Ok(Call {
        chaincode,
        argument,
        nonce,
    })
}

/// The policy's text that a text is.
pub(crate) fn policy_text(alloc: Global, text: &str) -> Result<PolicyText, BadLine>
    ensures ok { IfOk result (λ p. (p ≡ text.now) × IsPolicyText text.now) }
    ensures refused { IfErr result
        (λ r. NoneIs (λ (p : List ℕ). (p ≡ text.now) × IsPolicyText text.now) r) }
{
    match PolicyText::new(text.as_bytes().to_vec(alloc)?) {
        Some(policy) => Ok(policy),
        None => Err(BadLine::NoForm),
    }
}

/// The fuel of a number.
fn fuel(units: u64) -> Option<Fuel>
    ensures { MatchOption result (¬ IsFuel units) (λ f. (f ≡ units) × IsFuel units) }
{
    Fuel::new(u32::try_from(units).ok()?)
}

/// Whether a definition of this first byte is open, and its module's profile.
fn form(number: u64) -> Option<(bool, Profile)>
    ensures { MatchOption result ((d : Definition) → form_of d ≢ number)
        (λ f. (d : Definition) → d.is_open ≡ f.0 → d.profile ≡ f.1 → form_of d ≡ number) }
{
    let number = u8::try_from(number).ok()?;
    match number.checked_sub(16) {
        None | Some(0) => Some((false, Profile::of_number(number)?)),
        Some(open) => Some((true, Profile::of_number(open)?)),
    }
}

/// The definition that the fields of an upgrade hold.
fn definition(alloc: Global, fields: &UpgradeFields<'_>) -> Result<Definition, BadLine>
    ensures ok { IfOk result
        (λ d. IsDefinition fields.now.fuel fields.now.digest.now fields.now.policy.now
        fields.now.profile d) }
    ensures refused { IfErr result
        (λ r. NoneIs
        (IsDefinition fields.now.fuel fields.now.digest.now fields.now.policy.now
        fields.now.profile) r) }
{
    let (Some((is_open, profile)), Some(fuel)) = (form(fields.profile), fuel(fields.fuel)) else {
        return Err(BadLine::NoForm);
    };
    let Ok(digest) = <[u8; 32]>::from_hex(fields.digest) else {
        return Err(BadLine::NoForm);
    };
    let policy = policy_text(alloc, fields.policy)?;
    Ok(Definition {
        profile,
        is_open,
        digest,
        fuel,
        policy,
    })
}

/// The upgrade that these fields hold.
pub(crate) fn upgrade(alloc: Global, fields: &UpgradeFields<'_>) -> Result<Upgrade, BadLine>
    ensures ok { IfOk result
        (λ u. IsUpgrade fields.now.fuel fields.now.digest.now fields.now.nonce.now
        fields.now.policy.now fields.now.profile fields.now.chaincode.now u) }
    ensures refused { IfErr result
        (λ r. NoneIs
        (IsUpgrade fields.now.fuel fields.now.digest.now fields.now.nonce.now
        fields.now.policy.now fields.now.profile fields.now.chaincode.now) r) }
{
    let Ok(nonce) = <[u8; 16]>::from_hex(fields.nonce) else {
        return Err(BadLine::NoForm);
    };
    let chaincode = name(fields.chaincode)?;
    let definition = definition(alloc, fields)?;
    Ok(Upgrade {
        chaincode,
        definition,
        nonce,
    })
}

/// The names that a submit uses: 1 to 32.
pub(crate) fn names(alloc: Global, items: &[Value]) -> Result<Vec<String>, BadLine>
    ensures ok { IfOk result (λ v. AreNames (items_view items.now) v.items) }
    ensures refused { IfErr result (λ r. NoneIs (AreNames (items_view items.now)) r) }
{
    if items.is_empty() {
        return Err(BadLine::NoForm);
    }
    if items.len() > MOST_NAMES {
        return Err(BadLine::NoForm);
    }
    texts(alloc, items)
}

/// The strings that the items of a list are.
fn texts(alloc: Global, values: &[Value]) -> Result<Vec<String>, BadLine>
    ensures ok { IfOk result (λ v. AreTexts (items_view values.now) v.items) }
    ensures refused { IfErr result (λ r. NoneIs (AreTexts (items_view values.now)) r) }
{
    let mut found = Vec::new(alloc);
    'items: for value in values {
        let Some(text) = json_fields::text(value) else {
            return Err(BadLine::NoForm);
        };
        found.push(String::from_str(alloc, text)?)?;
    }
    Ok(found)
}
