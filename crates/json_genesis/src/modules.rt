//! The modules.

ghost use Rattle.std.specs.Prelude.{◌≡◌, ◌≢◌, ◌++◌, IfOk, IfErr};
ghost use Rattle.serde_json.specs.View.{view};
ghost use Rattle.wasm_ast.specs.declared.module.Module.{Module};
ghost use Rattle.wasm_decode.specs.ModuleSpelling.{IsModule};
ghost use Rattle.wasm_typing.specs.ModuleRules.{IsValid};
ghost use Rattle.wasm_file.specs.declared.module.ModuleRefusal.{ModuleRefusal};
ghost use Rattle.json_genesis.specs.declared.refusal.GenesisRefusal.TheVariants.{Memory, Json};
ghost use Rattle.json_genesis.specs.Refused.{NoneIs};
ghost use Rattle.json_genesis.specs.Spelling.{IsModuleOf, more_ids_of, more_modules_of};

use crate::each::ReadItem;
use crate::fields::module_fields;
use crate::numbers::{bytes_of, profile};
use crate::refusal::GenesisRefusal;
use chaincode_book::Held;
use endorsement_policy::ModuleId;
use serde_json::Value;
use sha2::{Digest, Sha256};
use std::alloc::{AllocError, Global};
use wasm_file::{ModuleRefusal, valid_module};
use wasm_profile::Profile;
use wasm_validate::ValidModule;

/// Reads a module.
#[derive(Clone, Copy)]
pub(crate) struct ModuleReader;

impl ReadItem for ModuleReader {
    type Item = Held;

    ghost use Rattle.json_genesis.specs.Spelling.{IsInstalled};

    ghost spells = { λ _. IsInstalled };

    fn read(&self, alloc: Global, value: &Value) -> Result<Held, GenesisRefusal> {
        match module_fields(value) {
            Some(fields) => module(alloc, fields.hex, fields.profile),
            None => Err(GenesisRefusal::Field),
        }
    }
}

/// The valid module whose bytes are written in hex, read by the profile that a field holds, with
/// what it is known by.
pub(crate) fn module(alloc: Global, hex: &str, number: &Value) -> Result<Held, GenesisRefusal>
    ensures ok { IfOk result (λ m. IsModuleOf hex.now (view number.now) m) }
    ensures refused { IfErr result (λ r. NoneIs (IsModuleOf hex.now (view number.now)) r) }
{
    let profile = profile(number)?;
    let bytes = bytes_of(alloc, hex)?;
    let module = module_in(alloc, &bytes, profile)?;
    let digest = Sha256::digest(bytes.as_slice());
    let id = ModuleId { digest, profile };
    Ok(Held { id, module })
}

/// The valid module of a profile that bytes spell.
fn module_in(alloc: Global, bytes: &[u8], profile: Profile) -> Result<ValidModule, GenesisRefusal>
    ensures ok { IfOk result (λ m. IsModule profile m bytes.now × IsValid m) }
    ensures refused { IfErr result
        (λ r. NoneIs (λ (m : Module). IsModule profile m bytes.now × IsValid m) r) }
{
    match valid_module(alloc, bytes, profile) {
        Ok(valid) => Ok(valid),
        Err(refusal) => Err(refusal_of_module(refusal)),
    }
}

/// The refusal of a file whose module is refused so.
fn refusal_of_module(refusal: ModuleRefusal) -> GenesisRefusal
    ensures read { result ≢ Json }
    ensures refused { result ≢ Memory → refusal ≢ ModuleRefusal.Memory }
{
    match refusal {
        ModuleRefusal::Memory => GenesisRefusal::Memory,
        ModuleRefusal::Malformed(..) => GenesisRefusal::Module,
        ModuleRefusal::Invalid(_) => GenesisRefusal::Module,
    }
}

/// The modules apart from their ids, which come behind those that are given.
pub(crate) fn modules_apart(
    alloc: Global,
    installed: Vec<Held>,
    ids: Vec<ModuleId>,
) -> Result<(Vec<ValidModule>, Vec<ModuleId>), AllocError>
    ensures { IfOk result (λ p. (p.0.items ≡ more_modules_of installed.items)
        × (p.1.items ≡ ids.items ++ more_ids_of installed.items)) }
{
    let mut modules = Vec::with_capacity(alloc, installed.len())?;
    let mut ids = ids;
    'modules: for each in installed {
        let Held { id, module } = each;
        modules.push(module)?;
        ids.push(id)?;
    }
    Ok((modules, ids))
}
