//! The check of an instruction with none inside (Core 1.0, sections 3.3.1 to 3.3.5).

ghost use Rattle.std.specs.Prelude.{◌≡◌, IfOk, IfErr, Some, true};
ghost use Rattle.wasm_ast.specs.Code.{End};
ghost use Rattle.wasm_ast.specs.View.{then_code};
ghost use Rattle.wasm_typing.specs.Algorithm.{instruction};
ghost use Rattle.wasm_typing.specs.Breaks.{BreaksInstr};
ghost use Rattle.wasm_typing.specs.Inside.{context_of};
ghost use Rattle.wasm_typing.specs.Mistyped.{Mismatch, MistypedFirst};
ghost use Rattle.wasm_typing.specs.Plain.{is_plain};
ghost use Rattle.wasm_typing.specs.Refused.{Refused};

use crate::fault::ValidateFault;
use crate::labels::Labels;
use crate::operands::OperandStack;
use crate::scope::Scope;
use crate::{accesses, numbers, shapes, variables};
use wasm_ast::Instr;
use wasm_ast::ValueType::{I32, I64};

/// An instruction with none inside.
pub fn check_plain(
    scope: &Scope,
    labels: &Labels,
    stack: &mut OperandStack,
    instr: &Instr,
) -> Result<(), ValidateFault>
    requires { is_plain instr.now ≡ true }
    ensures ok { IfOk result
        (λ _. instruction (context_of scope.now labels.now) instr.now stack.old.here
        ≡ Some stack.new.here) }
    ensures lower { IfOk result (λ _. stack.new.lower ≡ stack.old.lower) }
    ensures refused { IfErr result
        (λ e. Refused e (BreaksInstr e (context_of scope.now labels.now) instr.now)
        (instruction (context_of scope.now labels.now) instr.now stack.old.here)) }
    ensures mistyped { IfErr result
        (λ e. Mismatch e
        (MistypedFirst (context_of scope.now labels.now) (then_code instr.now End)
        stack.old.here)) }
{
    match instr {
        Instr::Block(_) => unreachable!(),
        Instr::Loop(_) => unreachable!(),
        Instr::If(_) => unreachable!(),
        Instr::Unreachable => shapes::check_unreachable(stack),
        Instr::Nop => Ok(()),
        Instr::Br(label) => shapes::check_br(scope, labels, stack, *label),
        Instr::BrIf(label) => shapes::check_br_if(scope, labels, stack, *label),
        Instr::BrTable(table) => shapes::check_br_table(scope, labels, stack, table),
        Instr::Return => shapes::check_return(scope, labels, stack),
        Instr::Call(function) => shapes::check_call(scope, labels, stack, *function),
        Instr::CallIndirect(index) => shapes::check_call_indirect(scope, labels, stack, *index),
        Instr::Drop => shapes::check_drop(stack),
        Instr::Select => shapes::check_select(stack),
        Instr::LocalGet(local) => variables::check_local_get(scope, labels, stack, *local),
        Instr::LocalSet(local) => variables::check_local_set(scope, labels, stack, *local),
        Instr::LocalTee(local) => variables::check_local_tee(scope, labels, stack, *local),
        Instr::GlobalGet(global) => variables::check_global_get(scope, labels, stack, *global),
        Instr::GlobalSet(global) => variables::check_global_set(scope, labels, stack, *global),
        Instr::Load(load, at) => accesses::check_load(scope, labels, stack, *load, *at),
        Instr::Store(store, at) => accesses::check_store(scope, labels, stack, *store, *at),
        Instr::MemorySize => accesses::check_memory_size(scope, labels, stack),
        Instr::MemoryGrow => accesses::check_memory_grow(scope, labels, stack),
        Instr::I32Const(word) => numbers::check_constant(I32, *word as u64, stack),
        Instr::I64Const(word) => numbers::check_constant(I64, *word, stack),
        Instr::I32Eqz => numbers::check_one(I32, I32, stack),
        Instr::I64Eqz => numbers::check_one(I64, I32, stack),
        Instr::I32Unary(_) => numbers::check_one(I32, I32, stack),
        Instr::I64Unary(_) => numbers::check_one(I64, I64, stack),
        Instr::I32Compare(_) => numbers::check_two(I32, I32, stack),
        Instr::I64Compare(_) => numbers::check_two(I64, I32, stack),
        Instr::I32Binary(_) => numbers::check_two(I32, I32, stack),
        Instr::I64Binary(_) => numbers::check_two(I64, I64, stack),
        Instr::Convert(conversion) => numbers::check_convert(*conversion, stack),
    }
}
