//! The rules of instructions on the memory (Core 1.0, section 3.3.4).

ghost use Rattle.std.specs.Prelude.{◌≡◌, IfOk, IfErr, Some, IsSome, IsTrue, ◌↔◌, ◌≤◌, ◌^◌};
ghost use Rattle.wasm_ast.specs.Op as op;
ghost use Rattle.wasm_typing.specs.Algorithm.{step};
ghost use Rattle.wasm_typing.specs.Breaks.{Breaks, KeepsOwn};
ghost use Rattle.wasm_typing.specs.Refused.{Refused};
ghost use Rattle.wasm_typing.specs.Mistyped.{Mismatch};
ghost use Rattle.wasm_typing.specs.Inside.{context_of};

use crate::fault::ValidateFault;
use crate::labels::Labels;
use crate::numbers::check_one;
use crate::operands::OperandStack;
use crate::scope::Scope;
use wasm_ast::ValueType::I32;
use wasm_ast::{LoadOp, MemoryArgument, StoreOp};

// Whether 2 to the power of an alignment is at most a width.
fn is_aligned(align: u32, width: u32) -> bool
    ensures { IsTrue result ↔ (2 ^ align ≤ width) }
{
    align < u32::BITS && 1 << align <= width
}

/// A load: a word at an address.
pub fn check_load(
    scope: &Scope,
    labels: &Labels,
    stack: &mut OperandStack,
    load: LoadOp,
    argument: MemoryArgument,
) -> Result<(), ValidateFault>
    ensures ok { IfOk result
        (λ _. step (context_of scope.now labels.now) (op.Load load argument.align argument.offset)
        stack.old.here
        ≡ Some stack.new.here) }
    ensures lower { IfOk result (λ _. stack.new.lower ≡ stack.old.lower) }
    ensures refused { IfErr result
        (λ e. Refused e
        (Breaks e (context_of scope.now labels.now)
        (op.Load load argument.align argument.offset))
        (step (context_of scope.now labels.now) (op.Load load argument.align argument.offset)
        stack.old.here)) }
    ensures keeps { IfErr result
        (λ e. Mismatch e
        (KeepsOwn (context_of scope.now labels.now)
        (op.Load load argument.align argument.offset))) }
{
    let Some(_memory) = scope.memory() else {
        return Err(ValidateFault::Index);
    };
    if !is_aligned(argument.align, load.width()) {
        return Err(ValidateFault::Alignment);
    }
    check_one(I32, load.value_type(), stack)
}

/// A store: takes a word and its address off.
pub fn check_store(
    scope: &Scope,
    labels: &Labels,
    stack: &mut OperandStack,
    store: StoreOp,
    argument: MemoryArgument,
) -> Result<(), ValidateFault>
    ensures ok { IfOk result
        (λ _. step (context_of scope.now labels.now) (op.Store store argument.align argument.offset)
        stack.old.here
        ≡ Some stack.new.here) }
    ensures lower { IfOk result (λ _. stack.new.lower ≡ stack.old.lower) }
    ensures refused { IfErr result
        (λ e. Refused e
        (Breaks e (context_of scope.now labels.now)
        (op.Store store argument.align argument.offset))
        (step (context_of scope.now labels.now) (op.Store store argument.align argument.offset)
        stack.old.here)) }
    ensures keeps { IfErr result
        (λ e. Mismatch e
        (KeepsOwn (context_of scope.now labels.now)
        (op.Store store argument.align argument.offset))) }
{
    let Some(_memory) = scope.memory() else {
        return Err(ValidateFault::Index);
    };
    if !is_aligned(argument.align, store.width()) {
        return Err(ValidateFault::Alignment);
    }
    stack.pop_as(store.value_type())?;
    stack.pop_as(I32)
}

/// `memory.size`: how many pages the memory has.
pub fn check_memory_size(
    scope: &Scope,
    labels: &Labels,
    stack: &mut OperandStack,
) -> Result<(), ValidateFault>
    ensures ok { IfOk result
        (λ _. step (context_of scope.now labels.now) (op.MemorySize) stack.old.here
        ≡ Some stack.new.here) }
    ensures lower { IfOk result (λ _. stack.new.lower ≡ stack.old.lower) }
    ensures refused { IfErr result
        (λ e. Refused e (Breaks e (context_of scope.now labels.now) (op.MemorySize))
        (step (context_of scope.now labels.now) (op.MemorySize) stack.old.here)) }
    ensures keeps { IfErr result (λ e. Mismatch e
        (KeepsOwn (context_of scope.now labels.now) (op.MemorySize))) }
{
    let Some(_memory) = scope.memory() else {
        return Err(ValidateFault::Index);
    };
    stack.push(Some(I32))
}

/// `memory.grow`: takes how many pages to add off, and leaves how many there were.
pub fn check_memory_grow(
    scope: &Scope,
    labels: &Labels,
    stack: &mut OperandStack,
) -> Result<(), ValidateFault>
    ensures ok { IfOk result
        (λ _. step (context_of scope.now labels.now) (op.MemoryGrow) stack.old.here
        ≡ Some stack.new.here) }
    ensures lower { IfOk result (λ _. stack.new.lower ≡ stack.old.lower) }
    ensures refused { IfErr result
        (λ e. Refused e (Breaks e (context_of scope.now labels.now) (op.MemoryGrow))
        (step (context_of scope.now labels.now) (op.MemoryGrow) stack.old.here)) }
    ensures keeps { IfErr result (λ e. Mismatch e
        (KeepsOwn (context_of scope.now labels.now) (op.MemoryGrow))) }
{
    let Some(_memory) = scope.memory() else {
        return Err(ValidateFault::Index);
    };
    check_one(I32, I32, stack)
}
