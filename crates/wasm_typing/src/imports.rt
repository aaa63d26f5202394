//! Imports, and the types of functions (Core 1.0, sections 3.4.9 and 3.4.1).

ghost use Rattle.std.specs.Prelude.{◌≡◌, ◌<◌, ℕ, length, IfOk, IfErr, Some};
ghost use Rattle.wasm_ast.specs.declared.module.Import.{Import};
ghost use Rattle.wasm_ast.specs.declared.module.Func.{Func};
ghost use Rattle.wasm_typing.specs.Typing.{at};
ghost use Rattle.wasm_typing.specs.HostCalls.{call_named, host_calls};
ghost use Rattle.wasm_typing.specs.ModuleRules.{IsValidImport, imported_functions, type_indices};
ghost use Rattle.wasm_typing.specs.Indices.{AreTypes};
ghost use Rattle.wasm_typing.specs.Broken.{Broken};

use crate::fault::ValidateFault;
use crate::host_calls::{call_named, is_type_of_call};
use std::alloc::Global;
use wasm_ast::{HostCall, Import, ImportKind, Module};

/// The host call that each import is, in the order of the imports.
pub fn check_imports(alloc: Global, given: &Module) -> Result<Vec<HostCall>, ValidateFault>
    ensures calls { IfOk result (λ calls. calls.items ≡ host_calls given.now.imports) }
    ensures imports { IfOk result
        (λ _. (k : ℕ) → (i : Import) → at given.now.imports k ≡ Some i →
        IsValidImport given.now.types i) }
    ensures broken { IfErr result (λ e. Broken e given.now) }
{
    let mut calls = Vec::new(alloc);
    for import in given.imports.as_slice() {
        calls.push(check_import(given, import)?)?;
    }
    Ok(calls)
}

// The host call that an import is.
fn check_import(given: &Module, import: &Import) -> Result<HostCall, ValidateFault>
    ensures listed { IfOk result (λ _. IsValidImport given.now.types import.now) }
    ensures call { IfOk result (λ call. call_named import.now.name ≡ Some call) }
    ensures broken { IfErr result
        (λ e. (k : ℕ) → at given.now.imports k ≡ Some import.now → Broken e given.now) }
{
    let ImportKind::Function(type_index) = import.kind else {
        return Err(ValidateFault::Import);
    };
    let Some(function_type) = given.types.as_slice().get(type_index as usize) else {
        return Err(ValidateFault::Index);
    };
    if import.module.as_str() != "fabric" {
        return Err(ValidateFault::Import);
    }
    match call_named(import.name.as_str()) {
        Some(call) if is_type_of_call(function_type, call) => Ok(call),
        _ => Err(ValidateFault::Import),
    }
}

/// The index of the type of each function, the imported ones first.
pub fn function_indices(alloc: Global, given: &Module) -> Result<Vec<u32>, ValidateFault>
    requires { (k : ℕ) → (i : Import) → at given.now.imports k ≡ Some i →
        IsValidImport given.now.types i }
    ensures indices { IfOk result (λ v. v.items ≡ type_indices given.now) }
    ensures known { IfOk result (λ _. AreTypes (type_indices given.now) given.now.types) }
    ensures broken { IfErr result (λ e. Broken e given.now) }
{
    let mut indices = imported_indices(alloc, given)?;
    for function in given.functions.as_slice() {
        if function.type_index as usize >= given.types.len() {
            return Err(ValidateFault::Index);
        }
        indices.push(function.type_index)?;
    }
    Ok(indices)
}

// The index of the type of each imported function.
fn imported_indices(alloc: Global, given: &Module) -> Result<Vec<u32>, ValidateFault>
    ensures indices { IfOk result (λ v. v.items ≡ imported_functions given.now.imports) }
    ensures fault { IfErr result (λ e. e ≡ ValidateFault.Memory) }
{
    let mut indices = Vec::new(alloc);
    for import in given.imports.as_slice() {
        if let ImportKind::Function(type_index) = import.kind {
            indices.push(type_index)?;
        }
    }
    Ok(indices)
}
