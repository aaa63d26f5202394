//! The rules of instructions on locals and globals (Core 1.0, section 3.3.3).

ghost use Rattle.std.specs.Prelude.{◌≡◌, IfOk, IfErr, Some};
ghost use Rattle.wasm_ast.specs.Op as op;
ghost use Rattle.wasm_typing.specs.Algorithm.{step};
ghost use Rattle.wasm_typing.specs.Breaks.{Breaks, KeepsOwn};
ghost use Rattle.wasm_typing.specs.Refused.{Refused};
ghost use Rattle.wasm_typing.specs.Mistyped.{Mismatch};
ghost use Rattle.wasm_typing.specs.Inside.{context_of};

use crate::fault::ValidateFault;
use crate::labels::Labels;
use crate::operands::OperandStack;
use crate::scope::Scope;

/// `local.get`: the value of a local.
pub fn check_local_get(
    scope: &Scope,
    labels: &Labels,
    stack: &mut OperandStack,
    local: u32,
) -> Result<(), ValidateFault>
    ensures ok { IfOk result
        (λ _. step (context_of scope.now labels.now) (op.LocalGet local) stack.old.here
        ≡ Some stack.new.here) }
    ensures lower { IfOk result (λ _. stack.new.lower ≡ stack.old.lower) }
    ensures refused { IfErr result
        (λ e. Refused e (Breaks e (context_of scope.now labels.now) (op.LocalGet local))
        (step (context_of scope.now labels.now) (op.LocalGet local) stack.old.here)) }
    ensures keeps { IfErr result (λ e. Mismatch e
        (KeepsOwn (context_of scope.now labels.now) (op.LocalGet local))) }
{
    match scope.type_of_local(local) {
        None => Err(ValidateFault::Index),
        Some(value_type) => stack.push(Some(value_type)),
    }
}

/// `local.set`: takes a value off for a local.
pub fn check_local_set(
    scope: &Scope,
    labels: &Labels,
    stack: &mut OperandStack,
    local: u32,
) -> Result<(), ValidateFault>
    ensures ok { IfOk result
        (λ _. step (context_of scope.now labels.now) (op.LocalSet local) stack.old.here
        ≡ Some stack.new.here) }
    ensures lower { IfOk result (λ _. stack.new.lower ≡ stack.old.lower) }
    ensures refused { IfErr result
        (λ e. Refused e (Breaks e (context_of scope.now labels.now) (op.LocalSet local))
        (step (context_of scope.now labels.now) (op.LocalSet local) stack.old.here)) }
    ensures keeps { IfErr result (λ e. Mismatch e
        (KeepsOwn (context_of scope.now labels.now) (op.LocalSet local))) }
{
    match scope.type_of_local(local) {
        None => Err(ValidateFault::Index),
        Some(value_type) => stack.pop_as(value_type),
    }
}

/// `local.tee`: sets a local to the value on top.
pub fn check_local_tee(
    scope: &Scope,
    labels: &Labels,
    stack: &mut OperandStack,
    local: u32,
) -> Result<(), ValidateFault>
    ensures ok { IfOk result
        (λ _. step (context_of scope.now labels.now) (op.LocalTee local) stack.old.here
        ≡ Some stack.new.here) }
    ensures lower { IfOk result (λ _. stack.new.lower ≡ stack.old.lower) }
    ensures refused { IfErr result
        (λ e. Refused e (Breaks e (context_of scope.now labels.now) (op.LocalTee local))
        (step (context_of scope.now labels.now) (op.LocalTee local) stack.old.here)) }
    ensures keeps { IfErr result (λ e. Mismatch e
        (KeepsOwn (context_of scope.now labels.now) (op.LocalTee local))) }
{
    match scope.type_of_local(local) {
        None => Err(ValidateFault::Index),
        Some(value_type) => {
            stack.pop_as(value_type)?;
            stack.push(Some(value_type))
        }
    }
}

/// `global.get`: the value of a global.
pub fn check_global_get(
    scope: &Scope,
    labels: &Labels,
    stack: &mut OperandStack,
    global: u32,
) -> Result<(), ValidateFault>
    ensures ok { IfOk result
        (λ _. step (context_of scope.now labels.now) (op.GlobalGet global) stack.old.here
        ≡ Some stack.new.here) }
    ensures lower { IfOk result (λ _. stack.new.lower ≡ stack.old.lower) }
    ensures refused { IfErr result
        (λ e. Refused e (Breaks e (context_of scope.now labels.now) (op.GlobalGet global))
        (step (context_of scope.now labels.now) (op.GlobalGet global) stack.old.here)) }
    ensures keeps { IfErr result (λ e. Mismatch e
        (KeepsOwn (context_of scope.now labels.now) (op.GlobalGet global))) }
{
    match scope.type_of_global(global) {
        None => Err(ValidateFault::Index),
        Some(global_type) => stack.push(Some(global_type.value_type)),
    }
}

/// `global.set`: takes a value off for a global, which is a variable.
pub fn check_global_set(
    scope: &Scope,
    labels: &Labels,
    stack: &mut OperandStack,
    global: u32,
) -> Result<(), ValidateFault>
    ensures ok { IfOk result
        (λ _. step (context_of scope.now labels.now) (op.GlobalSet global) stack.old.here
        ≡ Some stack.new.here) }
    ensures lower { IfOk result (λ _. stack.new.lower ≡ stack.old.lower) }
    ensures refused { IfErr result
        (λ e. Refused e (Breaks e (context_of scope.now labels.now) (op.GlobalSet global))
        (step (context_of scope.now labels.now) (op.GlobalSet global) stack.old.here)) }
    ensures keeps { IfErr result (λ e. Mismatch e
        (KeepsOwn (context_of scope.now labels.now) (op.GlobalSet global))) }
{
    match scope.type_of_global(global) {
        None => Err(ValidateFault::Index),
        Some(global_type) if !global_type.is_variable => Err(ValidateFault::ImmutableGlobal),
        Some(global_type) => stack.pop_as(global_type.value_type),
    }
}
