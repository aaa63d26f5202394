//! Whether a module is valid, section by section (Core 1.0, section 3.4).

ghost use Rattle.std.specs.Prelude.{◌≡◌, ℕ, IfOk, IfErr, Some};
ghost use Rattle.wasm_ast.specs.declared.module.Import.{Import};
ghost use Rattle.wasm_typing.specs.HostCalls.{host_calls};
ghost use Rattle.wasm_typing.specs.Indices.{AreTypes};
ghost use Rattle.wasm_typing.specs.ModuleRules.{IsValid, IsValidImport, invoke_of, type_indices};
ghost use Rattle.wasm_typing.specs.Typing.{at};
ghost use Rattle.wasm_typing.specs.Broken.{Broken};

use crate::code::check_code;
use crate::exports::{check_exports, find_entry};
use crate::fault::ValidateFault;
use crate::globals::check_globals;
use crate::imports::{check_imports, function_indices};
use crate::limits::{check_memories, check_tables};
use crate::segments::{check_data, check_elements};
use std::alloc::Global;
use wasm_ast::{HostCall, Module};

/// What a run looks up in a valid module by name.
#[derive(Drop)]
pub struct Resolved {
    /// The host call that each import is, in the order of the imports.
    pub calls: Vec<HostCall>,
    /// The index of the function that is exported as `invoke`.
    pub invoke: u32,
}

/// What a run looks up by name in a module, where that is valid.
///
/// Rules are tested in the order of the sections: imports, functions, tables, memories, globals,
/// exports, elements, code, data, and in each item by item. An import's, a function's, an export's
/// or a segment's indices are tested before its other rules, and an instruction's before its
/// operands.
///
/// # Errors
///
/// The first rule that is broken, or `Memory` (nothing is then said of the module).
pub fn check_module(alloc: Global, given: &Module) -> Result<Resolved, ValidateFault>
    ensures valid { IfOk result (λ _. IsValid given.now) }
    ensures calls { IfOk result (λ found. found.calls.items ≡ host_calls given.now.imports) }
    ensures invoke { IfOk result (λ found. invoke_of given.now ≡ Some found.invoke) }
    ensures broken { IfErr result (λ e. Broken e given.now) }
{
    let calls = check_imports(alloc, given)?;
    let functions = function_indices(alloc, given)?;
    let invoke = check_sections(alloc, given, &functions)?;
    Ok(Resolved { calls, invoke })
}

// The index of `invoke` of a module that is valid. Its imports were checked, and the indices are
// those of all functions' types.
fn check_sections(alloc: Global, given: &Module, functions: &[u32]) -> Result<u32, ValidateFault>
    requires imports { (k : ℕ) → (i : Import) → at given.now.imports k ≡ Some i →
        IsValidImport given.now.types i }
    requires indices { functions.now ≡ type_indices given.now }
    requires known { AreTypes functions.now given.now.types }
    ensures valid { IfOk result (λ _. IsValid given.now) }
    ensures invoke { IfOk result (λ entry. invoke_of given.now ≡ Some entry) }
    ensures broken { IfErr result (λ e. Broken e given.now) }
{
    check_tables(given)?;
    check_memories(given)?;
    check_globals(given)?;
    check_exports(given, functions)?;
    let invoke = find_entry(given, functions)?;
    check_elements(given, functions)?;
    check_code(alloc, given, functions)?;
    check_data(given)?;
    Ok(invoke)
}
