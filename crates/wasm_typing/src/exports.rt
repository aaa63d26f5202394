//! Exports (Core 1.0, sections 3.4.8 and 3.4.10).

ghost use Rattle.std.specs.Prelude.{◌≡◌, ◌≢◌, ◌<◌, ℕ, length, IfOk, IfErr, IsTrue, ◌↔◌, false};
ghost use Rattle.std.specs.Prelude.{MatchOption, None};
ghost use Rattle.wasm_ast.specs.declared.module.Export.{Export};
ghost use Rattle.wasm_typing.specs.Typing.{at};
ghost use Rattle.wasm_typing.specs.ModuleRules.{count_of, type_indices, function_types, invoke_of, invoke_in, invoke_type};
ghost use Rattle.wasm_typing.specs.Indices.{AreTypes};
ghost use Rattle.wasm_typing.specs.Broken.{Broken};

use crate::fault::ValidateFault;
use wasm_ast::{Export, ExternalKind, FuncType, Module, ValueType};

/// Whether each export names what is there, by a name of its own.
///
/// Names are compared in pairs, since a module has few exports.
pub fn check_exports(given: &Module, functions: &[u32]) -> Result<(), ValidateFault>
    requires { functions.now ≡ type_indices given.now }
    ensures exports { IfOk result
        (λ _. (k : ℕ) → (e : Export) → at given.now.exports k ≡ Some e →
        e.index < count_of given.now e.kind) }
    ensures names { IfOk result
        (λ _. (j : ℕ) → (k : ℕ) → (d : Export) → (e : Export) → at given.now.exports j ≡ Some d →
        at given.now.exports k ≡ Some e → d.name ≡ e.name → j ≡ k) }
    ensures broken { IfErr result (λ e. Broken e given.now) }
{
    let exports = given.exports.as_slice();
    for i in 0..exports.len() {
        let export = &exports[i];
        if export.index as usize >= count_of(given, functions, export.kind) {
            return Err(ValidateFault::Index);
        }
        if is_named(&exports[..i], export.name.as_str()) {
            return Err(ValidateFault::DuplicateExport);
        }
    }
    Ok(())
}

// How many a module has of what an export may name.
fn count_of(given: &Module, functions: &[u32], kind: ExternalKind) -> usize
    requires { functions.now ≡ type_indices given.now }
    ensures { result ≡ count_of given.now kind }
{
    match kind {
        ExternalKind::Function => functions.len(),
        ExternalKind::Table => given.tables.len(),
        ExternalKind::Memory => given.memories.len(),
        ExternalKind::Global => given.globals.len(),
    }
}

// Whether one of these exports has a name.
fn is_named(exports: &[Export], name: &str) -> bool
    ensures some { IsTrue result →
        (k : ℕ) × (e : Export) × (at exports.now k ≡ Some e) × (e.name ≡ name.now) }
    ensures none { result ≡ false → (k : ℕ) → (e : Export) → at exports.now k ≡ Some e →
        e.name ≢ name.now }
{
    for export in exports {
        if export.name.as_str() == name {
            return true;
        }
    }
    false
}

/// The index of the function that is exported as `invoke`, which takes nothing and leaves an i32.
pub fn find_entry(given: &Module, functions: &[u32]) -> Result<u32, ValidateFault>
    requires indices { functions.now ≡ type_indices given.now }
    requires known { AreTypes functions.now given.now.types }
    ensures invoke { IfOk result (λ entry. invoke_of given.now ≡ Some entry) }
    ensures entry_type { IfOk result
        (λ entry. at (function_types given.now) entry ≡ Some invoke_type) }
    ensures broken { IfErr result (λ e. Broken e given.now) }
{
    let Some(entry) = invoke_in(given.exports.as_slice()) else {
        return Err(ValidateFault::NoInvoke);
    };
    match type_of(given, functions, entry) {
        Some(function_type) if is_invoke_type(function_type) => Ok(entry),
        _ => Err(ValidateFault::NoInvoke),
    }
}

// The type of a function.
fn type_of<'a>(given: &'a Module, functions: &[u32], function: u32) -> Option<&'a FuncType>
    requires indices { functions.now ≡ type_indices given.now }
    requires known { AreTypes functions.now given.now.types }
    ensures { let found = at (function_types given.now) function
        in MatchOption result (found ≡ None) (λ t. found ≡ Some t.now) }
{
    let Some(type_index) = functions.get(function as usize) else {
        return None;
    };
    Some(&given.types.as_slice()[*type_index as usize])
}

// The index of the first function that some exports name `invoke`.
fn invoke_in(exports: &[Export]) -> Option<u32>
    ensures { result ≡ invoke_in exports.now }
{
    for export in exports {
        if export.kind == ExternalKind::Function && export.name.as_str() == "invoke" {
            return Some(export.index);
        }
    }
    None
}

// Whether a type is [] to [i32].
fn is_invoke_type(function_type: &FuncType) -> bool
    ensures { IsTrue result ↔ (function_type.now ≡ invoke_type) }
{
    function_type.params.is_empty() && function_type.result == Some(ValueType::I32)
}
