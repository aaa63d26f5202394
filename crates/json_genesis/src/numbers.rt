//! Numbers, profiles, truth values and hex.

ghost use Rattle.std.specs.Prelude.{◌≡◌, IfOk, IfErr, option_map};
ghost use Rattle.serde_json.specs.Data.{boolean};
ghost use Rattle.serde_json.specs.View.{view};
ghost use Rattle.json_genesis.specs.Lists.{IsNumber};
ghost use Rattle.json_genesis.specs.Refused.{NoneIs};
ghost use Rattle.json_genesis.specs.Spelling.{IsEdition, IsHex, IsProfile};

use crate::refusal::GenesisRefusal;
use fab_types::Edition;
use hex::FromHexError;
use serde_json::Value;
use std::alloc::Global;
use wasm_profile::Profile;

/// A whole number from the least to the greatest. Of the wrong kind where the value is no number,
/// out of range where it is another one.
pub(crate) fn within(value: &Value, least: u64, greatest: u64) -> Result<u64, GenesisRefusal>
    ensures ok { IfOk result (λ n. IsNumber least greatest (view value.now) n) }
    ensures refused { IfErr result (λ r. NoneIs (IsNumber least greatest (view value.now)) r) }
{
    match json_fields::number(value) {
        Some(n) if least <= n && n <= greatest => Ok(n),
        None if !value.is_number() => Err(GenesisRefusal::Field),
        _ => Err(GenesisRefusal::Range),
    }
}

/// A whole number as `within` reads it, of things that are counted.
pub(crate) fn size_within(
    value: &Value,
    least: usize,
    greatest: usize,
) -> Result<usize, GenesisRefusal>
    ensures ok { IfOk result (λ n. IsNumber least greatest (view value.now) n) }
    ensures refused { IfErr result (λ r. NoneIs (IsNumber least greatest (view value.now)) r) }
{
    match within(value, least as u64, greatest as u64) {
        Ok(n) => Ok(n as usize),
        Err(refusal) => Err(refusal),
    }
}

/// The profile that a field names, whose number is read as `within` reads it.
pub(crate) fn profile(value: &Value) -> Result<Profile, GenesisRefusal>
    ensures ok { IfOk result (λ p. IsProfile (view value.now) p) }
    ensures refused { IfErr result (λ r. NoneIs (IsProfile (view value.now)) r) }
{
    let number = within(value, 1, 2)?;
    Profile::of_number(number as u8).ok_or(GenesisRefusal::Range)
}

/// The edition of the rules that a field names, whose number is read as `within` reads it. The
/// first edition where the field is left out.
pub(crate) fn edition(value: Option<&Value>) -> Result<Edition, GenesisRefusal>
    ensures ok { IfOk result (λ e. IsEdition (option_map (λ d. view d.now) value.entry) e) }
    ensures refused { IfErr result
        (λ r. NoneIs (IsEdition (option_map (λ d. view d.now) value.entry)) r) }
{
    let Some(value) = value else {
        return Ok(Edition::First);
    };
    let known = within(value, 1, 2)?;
    Edition::from_number(known as u32).ok_or(GenesisRefusal::Range)
}

/// The truth value that a field holds.
pub(crate) fn truth(value: &Value) -> Result<bool, GenesisRefusal>
    ensures ok { IfOk result (λ b. view value.now ≡ boolean b) }
    ensures refused { IfErr result (λ r. NoneIs (λ b. view value.now ≡ boolean b) r) }
{
    json_fields::truth(value).ok_or(GenesisRefusal::Field)
}

/// The bytes that a text of hex stands for.
pub(crate) fn bytes_of(alloc: Global, text: &str) -> Result<Vec<u8>, GenesisRefusal>
    ensures ok { IfOk result (λ bytes. IsHex text.now bytes.items) }
    ensures refused { IfErr result (λ r. NoneIs (IsHex text.now) r) }
{
    match hex::decode(alloc, text) {
        Ok(bytes) => Ok(bytes),
        Err(FromHexError::OutOfMemory) => Err(GenesisRefusal::Memory),
        Err(_) => Err(GenesisRefusal::Field),
    }
}
