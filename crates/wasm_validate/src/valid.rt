//! Modules that are known to be valid.

ghost use Rattle.std.specs.Prelude.{◌≡◌, ◌≢◌, IfOk, IfErr, Some};
ghost use Rattle.wasm_flat.specs.Spelling.{Spells};
ghost use Rattle.wasm_typing.specs.Broken.{Broken, BreaksAlone};
ghost use Rattle.wasm_typing.specs.HostCalls.{host_calls};
ghost use Rattle.wasm_typing.specs.ModuleRules.{IsValid, invoke_of};
ghost use Rattle.wasm_validate.specs.Flat.{context_of};

use std::alloc::Global;
use std::marker::Model;
use wasm_ast::{HostCall, Module};
use wasm_flat::Source;
use wasm_translate::{FlatText, flatten};
use wasm_typing::{Resolved, ValidateFault, check_module};

/// A module that is valid (Core 1.0, section 3.4), with what a run looks up in it.
///
/// Contracts see the module. Only `validate` makes one.
#[derive(Drop)]
pub struct ValidModule {
    module: Module,
    // The call of each import, in order.
    calls: Vec<HostCall>,
    // The index of the function that is exported as `invoke`.
    invoke: u32,
    // The flat code of the functions.
    flat: FlatText,
}

impl Model for ValidModule {
    ghost use Rattle.std.specs.Prelude.{◌≡◌, Some};
    ghost use Rattle.wasm_flat.specs.Spelling.{Spells};
    ghost use Rattle.wasm_validate.specs.Flat.{context_of};
    ghost use Rattle.wasm_ast.specs.declared.module.Module.{Module};
    ghost use Rattle.wasm_ast.specs.contracts.module.Module as declared;
    ghost use Rattle.wasm_typing.specs.HostCalls.{host_calls};
    ghost use Rattle.wasm_typing.specs.ModuleRules.{IsValid, invoke_of};

    ghost Value = { Module };

    ghost coded = { declared.the_row.coded };

    ghost view = { λ v. v.module };

    ghost invariant = { λ v. IsValid v.module × (v.calls.items ≡ host_calls v.module.imports) ×
        (invoke_of v.module ≡ Some v.invoke) × Spells v.flat (context_of v.module) };
}

impl ValidModule {
    /// The module.
    pub fn module(&self) -> &Module
        ensures same { result.now ≡ self.now }
        ensures valid { IsValid self.now }
    {
        &self.module
    }

    /// The host call that each import is, in the order of the imports.
    pub fn host_calls(&self) -> &[HostCall]
        ensures { result.now ≡ host_calls self.now.imports }
    {
        self.calls.as_slice()
    }

    /// The index of the function that the module exports as `invoke`. It takes nothing and leaves
    /// an i32.
    pub fn invoke(&self) -> u32
        ensures { invoke_of self.now ≡ Some result }
    {
        self.invoke
    }

    /// The flat code of the module's functions.
    pub fn flat(&self) -> &FlatText
        ensures { Spells result.now (context_of self.now) }
    {
        &self.flat
    }
}

/// Takes a module in where it is valid.
///
/// Rules are tested in the order of the sections: imports, functions, tables, memories, globals,
/// exports, elements, code, data, and in each item by item. An import's, a function's, an export's
/// or a segment's indices are tested before its other rules, and an instruction's before its
/// operands.
///
/// # Errors
///
/// The first rule that is broken, or `Memory` (nothing is then said of the module). A module that
/// is refused is dropped.
pub fn validate(alloc: Global, given: Module) -> Result<ValidModule, ValidateFault>
    ensures value { IfOk result (λ v. v ≡ given) }
    ensures valid { IfOk result (λ _. IsValid given) }
    ensures broken { IfErr result (λ e. Broken e given) }
    ensures refused { IfErr result (λ e. e ≢ ValidateFault.Memory → ¬ IsValid given) }
    // A module that breaks one rule alone is refused by its number, unless memory runs out.
    ensures alone { IfErr result (λ e. e ≢ ValidateFault.Memory →
        (only : ValidateFault) → BreaksAlone only given → e ≡ only) }
{
    let (Resolved { calls, invoke }, flat) = look_up(alloc, &given)?;
    Ok(ValidModule {
        module: given,
        calls,
        invoke,
        flat,
    })
}

// What a run looks up in a module, where that is valid: by name, and the flat code.
fn look_up(alloc: Global, given: &Module) -> Result<(Resolved, FlatText), ValidateFault>
    ensures valid { IfOk result (λ _. IsValid given.now) }
    ensures calls { IfOk result (λ found. found.0.calls.items ≡ host_calls given.now.imports) }
    ensures invoke { IfOk result (λ found. invoke_of given.now ≡ Some found.0.invoke) }
    ensures flat { IfOk result (λ found. Spells found.1 (context_of given.now)) }
    ensures broken { IfErr result (λ e. Broken e given.now) }
{
    let resolved = check_module(alloc, given)?;
    let flat = flatten_module(alloc, given, &resolved.calls)?;
    Ok((resolved, flat))
}

// The flat code of a valid module with these host calls. Its branches name labels, so there is one.
fn flatten_module(
    alloc: Global,
    given: &Module,
    calls: &[HostCall],
) -> Result<FlatText, ValidateFault>
    requires valid { IsValid given.now }
    requires calls { calls.now ≡ host_calls given.now.imports }
    ensures spelled { IfOk result (λ t. Spells t (context_of given.now)) }
    ensures fault { IfErr result (λ e. e ≡ ValidateFault.Memory) }
{
    let source = Source {
        imports: calls,
        types: given.types.as_slice(),
        defined: &given.functions,
    };
    Ok(flatten(alloc, &source)?.unwrap())
}
