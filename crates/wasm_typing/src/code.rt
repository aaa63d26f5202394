//! The check of functions' bodies (Core 1.0, sections 3.3.6 and 3.4.1).

ghost use Rattle.std.specs.Prelude.{◌≡◌, ◌<◌, ◌⊎◌, ℕ, length, IfOk, IfErr, IsSome, Some};
ghost use Rattle.wasm_ast.specs.Op as op;
ghost use Rattle.wasm_ast.specs.Code.{End};
ghost use Rattle.wasm_ast.specs.View.{then_code};
ghost use Rattle.wasm_ast.specs.declared.module.Func.{Func};
ghost use Rattle.wasm_typing.specs.Typing.{at, under};
ghost use Rattle.wasm_typing.specs.ModuleRules.{type_indices, IsFunction};
ghost use Rattle.wasm_typing.specs.Algorithm.{step, instruction, conditional, whole_body};
ghost use Rattle.wasm_typing.specs.Breaks.{BreaksIn, BreaksInstr, BreaksFirst};
ghost use Rattle.wasm_typing.specs.Refused.{Refused};
ghost use Rattle.wasm_typing.specs.Mistyped.{Mismatch, Mistyped, MistypedIf, MistypedFirst};
ghost use Rattle.wasm_typing.specs.Indices.{AreTypes};
ghost use Rattle.wasm_typing.specs.Broken.{Broken};
ghost use Rattle.wasm_typing.specs.Operands.{then, push_result, no_operands};
ghost use Rattle.wasm_typing.specs.Inside.{context_of};

use crate::fault::ValidateFault;
use crate::labels::Labels;
use crate::operands::OperandStack;
use crate::plain::check_plain;
use crate::scope::Scope;
use std::alloc::Global;
use wasm_ast::ValueType::I32;
use wasm_ast::{Block, BlockType, Body, Conditional, Func, Instr, Module};

/// Whether each function's body is typed. The indices are those of all functions' types, the
/// imported ones first.
pub fn check_code(alloc: Global, given: &Module, functions: &[u32]) -> Result<(), ValidateFault>
    requires indices { functions.now ≡ type_indices given.now }
    requires known { AreTypes functions.now given.now.types }
    ensures typed { IfOk result
        (λ _. (k : ℕ) → (f : Func) → at given.now.functions k ≡ Some f → IsFunction given.now f) }
    ensures broken { IfErr result (λ e. Broken e given.now) }
{
    for function in given.functions.as_slice() {
        check_function(alloc, given, functions, function)?;
    }
    Ok(())
}

// A function, with stacks and a scope of its own.
fn check_function(
    alloc: Global,
    given: &Module,
    functions: &[u32],
    function: &Func,
) -> Result<(), ValidateFault>
    requires indices { functions.now ≡ type_indices given.now }
    requires known { AreTypes functions.now given.now.types }
    requires has_type { function.now.type_index < length given.now.types }
    ensures typed { IfOk result (λ _. IsFunction given.now function.now) }
    ensures broken { IfErr result
        (λ e. (k : ℕ) → at given.now.functions k ≡ Some function.now → Broken e given.now) }
{
    let types = given.types.as_slice();
    let function_type = &types[function.type_index as usize];
    let mut locals = Vec::from_slice(alloc, function_type.params.as_slice())?;
    locals.extend_from_slice(function.locals.as_slice())?;
    let scope = Scope {
        types,
        functions,
        tables: given.tables.as_slice(),
        memories: given.memories.as_slice(),
        globals: given.globals.as_slice(),
        locals: &locals,
        result: function_type.result,
    };
    let mut labels = Labels::new(alloc);
    let mut stack = OperandStack::new(alloc);
    let left = function_type.result;
    check_body(&scope, &mut labels, &mut stack, left, left, &function.body)
}

// An instruction, with its bodies.
#[cycle(check)]
fn check_instr(
    scope: &Scope,
    labels: &mut Labels,
    stack: &mut OperandStack,
    instr: &Instr,
) -> Result<(), ValidateFault>
    ensures ok { IfOk result
        (λ _. instruction (context_of scope.now labels.old) instr.now stack.old.here
        ≡ Some stack.new.here) }
    ensures lower { IfOk result (λ _. stack.new.lower ≡ stack.old.lower) }
    ensures labels { IfOk result (λ _. labels.new ≡ labels.old) }
    ensures refused { IfErr result
        (λ e. Refused e (BreaksInstr e (context_of scope.now labels.old) instr.now)
        (instruction (context_of scope.now labels.old) instr.now stack.old.here)) }
    ensures mistyped { IfErr result
        (λ e. Mismatch e
        (MistypedFirst (context_of scope.now labels.old) (then_code instr.now End)
        stack.old.here)) }
{
    match instr {
        Instr::Block(block) => check_block(scope, labels, stack, block.result, block),
        Instr::Loop(block) => check_block(scope, labels, stack, None, block),
        Instr::If(choice) => check_if(scope, labels, stack, choice),
        _ => check_plain(scope, labels, stack, instr),
    }
}

// A `block` or a `loop`. A branch to its label carries `carried`.
#[cycle(check)]
fn check_block(
    scope: &Scope,
    labels: &mut Labels,
    stack: &mut OperandStack,
    carried: BlockType,
    block: &Block,
) -> Result<(), ValidateFault>
    ensures ok { IfOk result
        (λ _. then
        (whole_body (under carried (context_of scope.now labels.old)) block.now.result
        block.now.body)
        (λ _. Some (push_result block.now.result stack.old.here))
        ≡ Some stack.new.here) }
    ensures lower { IfOk result (λ _. stack.new.lower ≡ stack.old.lower) }
    ensures labels { IfOk result (λ _. labels.new ≡ labels.old) }
    ensures refused { IfErr result
        (λ e. Refused e
        (BreaksIn e (under carried (context_of scope.now labels.old)) block.now.body)
        (then
        (whole_body (under carried (context_of scope.now labels.old)) block.now.result
        block.now.body)
        (λ _. Some (push_result block.now.result stack.old.here)))) }
    ensures mistyped { IfErr result
        (λ e. Mismatch e
        (Mistyped (under carried (context_of scope.now labels.old)) block.now.result
        block.now.body no_operands)) }
{
    check_body(scope, labels, stack, carried, block.result, &block.body)?;
    stack.push_result(block.result)
}

// An `if`: the operand, and both bodies.
#[cycle(check)]
fn check_if(
    scope: &Scope,
    labels: &mut Labels,
    stack: &mut OperandStack,
    choice: &Conditional,
) -> Result<(), ValidateFault>
    ensures ok { IfOk result
        (λ _. conditional (context_of scope.now labels.old) choice.now.result choice.now.yes
        choice.now.no stack.old.here
        ≡ Some stack.new.here) }
    ensures lower { IfOk result (λ _. stack.new.lower ≡ stack.old.lower) }
    ensures labels { IfOk result (λ _. labels.new ≡ labels.old) }
    ensures refused { IfErr result
        (λ e. Refused e
        (BreaksIn e (under choice.now.result (context_of scope.now labels.old)) choice.now.yes ⊎
        BreaksIn e (under choice.now.result (context_of scope.now labels.old))
        choice.now.no)
        (conditional (context_of scope.now labels.old) choice.now.result choice.now.yes
        choice.now.no stack.old.here)) }
    ensures mistyped { IfErr result
        (λ e. Mismatch e
        (MistypedIf (context_of scope.now labels.old) choice.now.result choice.now.yes
        choice.now.no stack.old.here)) }
{
    let left = choice.result;
    stack.pop_as(I32)?;
    check_body(scope, labels, stack, left, left, &choice.yes)?;
    check_body(scope, labels, stack, left, left, &choice.no)?;
    stack.push_result(left)
}

// A body to its end. A branch to its label carries `carried`, and at its end it leaves `left`.
#[cycle(check)]
fn check_body(
    scope: &Scope,
    labels: &mut Labels,
    stack: &mut OperandStack,
    carried: BlockType,
    left: BlockType,
    body: &Body,
) -> Result<(), ValidateFault>
    ensures ok { IfOk result
        (λ _. IsSome (whole_body (under carried (context_of scope.now labels.old)) left body.now)) }
    ensures stack { IfOk result (λ _. stack.new ≡ stack.old) }
    ensures labels { IfOk result (λ _. labels.new ≡ labels.old) }
    ensures refused { IfErr result
        (λ e. Refused e (BreaksIn e (under carried (context_of scope.now labels.old)) body.now)
        (whole_body (under carried (context_of scope.now labels.old)) left body.now)) }
    ensures mistyped { IfErr result (λ e. Mismatch e
        (Mistyped (under carried (context_of scope.now labels.old)) left body.now no_operands)) }
{
    labels.enter(carried)?;
    let outer = stack.enter();
    for instr in body.items() {
        check_instr(scope, labels, stack, instr)?;
    }
    stack.finish(left)?;
    stack.exit(outer);
    labels.exit();
    Ok(())
}
