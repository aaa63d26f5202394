//! Globals, and the constants that they and segments start with (Core 1.0, sections 3.4.4 and
//! 3.3.7).

ghost use Rattle.std.specs.Prelude.{◌≡◌, ◌≢◌, ◌<◌, ℕ, IfOk, IfErr, IfSome, Some, MatchOption};
ghost use Rattle.wasm_ast.specs.declared.module.Global.{Global};
ghost use Rattle.wasm_ast.specs.Types.{words};
ghost use Rattle.wasm_ast.specs.Op.{Const};
ghost use Rattle.wasm_ast.specs.Code.{Do, End};
ghost use Rattle.wasm_typing.specs.Typing.{at};
ghost use Rattle.wasm_typing.specs.ModuleRules.{IsValidGlobal};
ghost use Rattle.wasm_typing.specs.Broken.{Broken};

use crate::fault::ValidateFault;
use wasm_ast::{Body, Global, Instr, Module, ValueType};

/// Whether each global starts as one constant of its type.
pub fn check_globals(given: &Module) -> Result<(), ValidateFault>
    ensures constant { IfOk result
        (λ _. (k : ℕ) → (g : Global) → at given.now.globals k ≡ Some g → IsValidGlobal g) }
    ensures broken { IfErr result (λ e. Broken e given.now) }
{
    for global in given.globals.as_slice() {
        check_global(given, global)?;
    }
    Ok(())
}

// A global that starts as one constant of its type.
fn check_global(given: &Module, global: &Global) -> Result<(), ValidateFault>
    ensures constant { IfOk result (λ _. IsValidGlobal global.now) }
    ensures broken { IfErr result
        (λ e. (k : ℕ) → at given.now.globals k ≡ Some global.now → Broken e given.now) }
{
    match constant_of(&global.initializer, global.global_type.value_type) {
        None => Err(ValidateFault::Initializer),
        Some(_) => Ok(()),
    }
}

/// The word of a body that is one constant of a type.
pub fn constant_of(body: &Body, of_type: ValueType) -> Option<u64>
    ensures constant { MatchOption result ((n : ℕ) → body.now ≢ Do (Const of_type n) End)
        (λ n. body.now ≡ Do (Const of_type n) End) }
    ensures bound { IfSome result (λ n. n < words of_type) }
{
    let [instr] = body.items() else {
        return None;
    };
    match (instr, of_type) {
        (Instr::I32Const(word), ValueType::I32) => Some(*word as u64),
        (Instr::I64Const(word), ValueType::I64) => Some(*word),
        _ => None,
    }
}
