//! The genesis of a file, and the modules of another.

ghost use Rattle.std.specs.Prelude.{◌≡◌, ◌≤◌, [], length, IfOk, IfErr};
ghost use Rattle.json_genesis.specs.Spelling.{Spells, SpellsHolding, SpellsModules};
ghost use Rattle.std.specs.Str.{IsUtf8};
ghost use Rattle.json_genesis.specs.declared.refusal.GenesisRefusal.TheVariants.{Json};
ghost use Rattle.cli_lines.specs.Opening.{AreNoModules, IsNoGenesis};
ghost use Rattle.cli_lines.specs.Told.{IsSilent};
ghost use Rattle.cli_lines.specs.declared.failure.Failure.TheVariants as failure;

use crate::failure::Failure;
use chaincode_book::Held;
use json_genesis::{GenesisRefusal, read_genesis, read_genesis_holding, read_modules};
use ledger_setting::Genesis;
use std::alloc::Global;

/// What a system begins with, by the bytes of a genesis file.
///
/// Refused where the bytes are not UTF-8 (801), and as `read_genesis` refuses their text.
pub fn genesis_in(alloc: Global, bytes: &[u8]) -> Result<Genesis, Failure>
    ensures spelled { IfOk result (λ g. Spells bytes.now g) }
    ensures silent { IfErr result IsSilent }
    ensures refused { IfErr result (IsNoGenesis bytes.now []) }
{
    Ok(read_genesis(alloc, text_of(bytes)?)?)
}

/// The same with these modules at hand, 64 at most, beside those that it installs.
pub fn genesis_holding(alloc: Global, bytes: &[u8], held: Vec<Held>) -> Result<Genesis, Failure>
    requires held { length held.items ≤ 64 }
    ensures spelled { IfOk result (λ g. SpellsHolding bytes.now held.items g) }
    ensures silent { IfErr result IsSilent }
    ensures refused { IfErr result (IsNoGenesis bytes.now held.items) }
{
    match text_of(bytes) {
        Ok(text) => Ok(read_genesis_holding(alloc, text, held)?),
        // An end at which modules are dropped unsaid is dear to prove.
        Err(failure) => {
            drop(held);
            Err(failure)
        }
    }
}

/// The modules of a modules file, by its bytes.
///
/// Refused where the bytes are not UTF-8 (801), and as `read_modules` refuses their text.
pub fn modules_in(alloc: Global, bytes: &[u8]) -> Result<Vec<Held>, Failure>
    ensures spelled { IfOk result (λ held. SpellsModules bytes.now held.items) }
    ensures count { IfOk result (λ held. length held.items ≤ 64) }
    ensures silent { IfErr result IsSilent }
    ensures refused { IfErr result (AreNoModules bytes.now) }
{
    Ok(read_modules(alloc, text_of(bytes)?)?)
}

/// The text that the bytes of a file of JSON are in UTF-8.
fn text_of(bytes: &[u8]) -> Result<&str, Failure>
    ensures text { IfOk result (λ text. text.now ≡ bytes.now) }
    ensures silent { IfErr result IsSilent }
    ensures refused { IfErr result (λ f. ¬ IsUtf8 bytes.now × (f ≡ failure.Genesis Json)) }
{
    match std::str::from_utf8(bytes) {
        Ok(text) => Ok(text),
        Err(_) => Err(Failure::Genesis(GenesisRefusal::Json)),
    }
}
