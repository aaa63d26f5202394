//! The rules of instructions without a body (Core 1.0, sections 3.3.1 to 3.3.5), a function for a
//! shape.

ghost use Rattle.std.specs.Prelude.{◌≡◌, ◌<◌, ◌≤◌, length, IfOk, IfErr, Some};
ghost use Rattle.wasm_ast.specs.Op as op;
ghost use Rattle.wasm_typing.specs.Typing.{at, results};
ghost use Rattle.wasm_typing.specs.Algorithm.{step, select};
ghost use Rattle.wasm_typing.specs.Breaks.{Breaks, KeepsOwn};
ghost use Rattle.wasm_typing.specs.Refused.{Refused};
ghost use Rattle.wasm_typing.specs.Mistyped.{Mismatch};
ghost use Rattle.wasm_typing.specs.Operands.{from_here, then, pop, shared};
ghost use Rattle.wasm_typing.specs.Inside.{context_of};

use crate::fault::ValidateFault;
use crate::labels::Labels;
use crate::operands::OperandStack;
use crate::scope::Scope;
use wasm_ast::{BranchTable, ValueType};

/// `unreachable`: what follows cannot be reached.
pub fn check_unreachable(stack: &mut OperandStack) -> Result<(), ValidateFault>
    ensures ok { IfOk result (λ _. stack.new.here ≡ from_here) }
    ensures lower { IfOk result (λ _. stack.new.lower ≡ stack.old.lower) }
    ensures refused { IfErr result (λ _. ⊥) }
{
    stack.leave();
    Ok(())
}

/// `drop`: takes an operand of any type off.
pub fn check_drop(stack: &mut OperandStack) -> Result<(), ValidateFault>
    ensures ok { IfOk result
        (λ _. then (pop stack.old.here) (λ p. Some p.1) ≡ Some stack.new.here) }
    ensures lower { IfOk result (λ _. stack.new.lower ≡ stack.old.lower) }
    ensures refused { IfErr result (λ e. Refused e ⊥ (then (pop stack.old.here) (λ p. Some p.1))) }
{
    let _ = stack.pop()?;
    Ok(())
}

/// `select`: one of two operands of one type, which an i32 above them picks.
pub fn check_select(stack: &mut OperandStack) -> Result<(), ValidateFault>
    ensures ok { IfOk result (λ _. select stack.old.here ≡ Some stack.new.here) }
    ensures lower { IfOk result (λ _. stack.new.lower ≡ stack.old.lower) }
    ensures refused { IfErr result (λ e. Refused e ⊥ (select stack.old.here)) }
{
    stack.pop_as(ValueType::I32)?;
    let upper = stack.pop()?;
    let lower = stack.pop()?;
    match shared(upper, lower) {
        None => Err(ValidateFault::TypeMismatch),
        Some(operand) => stack.push(operand),
    }
}

// The type that two operands have in common.
fn shared(upper: Option<ValueType>, lower: Option<ValueType>) -> Option<Option<ValueType>>
    ensures { result ≡ shared upper lower }
{
    match (upper, lower) {
        (None, _) => Some(lower),
        (Some(found), Some(other)) if found != other => None,
        _ => Some(upper),
    }
}

/// `br`: a branch to a label.
pub fn check_br(
    scope: &Scope,
    labels: &Labels,
    stack: &mut OperandStack,
    label: u32,
) -> Result<(), ValidateFault>
    ensures ok { IfOk result
        (λ _. step (context_of scope.now labels.now) (op.Br label) stack.old.here
        ≡ Some stack.new.here) }
    ensures lower { IfOk result (λ _. stack.new.lower ≡ stack.old.lower) }
    ensures refused { IfErr result
        (λ e. Refused e (Breaks e (context_of scope.now labels.now) (op.Br label))
        (step (context_of scope.now labels.now) (op.Br label) stack.old.here)) }
    ensures keeps { IfErr result (λ e. Mismatch e
        (KeepsOwn (context_of scope.now labels.now) (op.Br label))) }
{
    let Some(carried) = labels.get(label) else {
        return Err(ValidateFault::Index);
    };
    stack.pop_result(carried)?;
    stack.leave();
    Ok(())
}

/// `br_if`: a branch to a label where the operand is not 0.
pub fn check_br_if(
    scope: &Scope,
    labels: &Labels,
    stack: &mut OperandStack,
    label: u32,
) -> Result<(), ValidateFault>
    ensures ok { IfOk result
        (λ _. step (context_of scope.now labels.now) (op.BrIf label) stack.old.here
        ≡ Some stack.new.here) }
    ensures lower { IfOk result (λ _. stack.new.lower ≡ stack.old.lower) }
    ensures refused { IfErr result
        (λ e. Refused e (Breaks e (context_of scope.now labels.now) (op.BrIf label))
        (step (context_of scope.now labels.now) (op.BrIf label) stack.old.here)) }
    ensures keeps { IfErr result (λ e. Mismatch e
        (KeepsOwn (context_of scope.now labels.now) (op.BrIf label))) }
{
    let Some(carried) = labels.get(label) else {
        return Err(ValidateFault::Index);
    };
    stack.pop_as(ValueType::I32)?;
    stack.pop_result(carried)?;
    stack.push_result(carried)
}

/// `br_table`: a branch to the label that the operand picks. All carry the same.
pub fn check_br_table(
    scope: &Scope,
    labels: &Labels,
    stack: &mut OperandStack,
    table: &BranchTable,
) -> Result<(), ValidateFault>
    ensures ok { IfOk result
        (λ _. step (context_of scope.now labels.now) (op.BrTable table.now.labels table.now.default)
        stack.old.here
        ≡ Some stack.new.here) }
    ensures lower { IfOk result (λ _. stack.new.lower ≡ stack.old.lower) }
    ensures refused { IfErr result
        (λ e. Refused e
        (Breaks e (context_of scope.now labels.now)
        (op.BrTable table.now.labels table.now.default))
        (step (context_of scope.now labels.now) (op.BrTable table.now.labels table.now.default)
        stack.old.here)) }
    ensures keeps { IfErr result
        (λ e. Mismatch e
        (KeepsOwn (context_of scope.now labels.now)
        (op.BrTable table.now.labels table.now.default))) }
{
    let Some(carried) = labels.get(table.default) else {
        return Err(ValidateFault::Index);
    };
    if !labels.have_all(table.labels.as_slice()) {
        return Err(ValidateFault::Index);
    }
    stack.pop_as(ValueType::I32)?;
    stack.pop_result(carried)?;
    if !labels.all_carry(table.labels.as_slice(), carried) {
        return Err(ValidateFault::TypeMismatch);
    }
    stack.leave();
    Ok(())
}

/// `return`: what the function leaves.
pub fn check_return(
    scope: &Scope,
    labels: &Labels,
    stack: &mut OperandStack,
) -> Result<(), ValidateFault>
    ensures ok { IfOk result
        (λ _. step (context_of scope.now labels.now) (op.Return) stack.old.here
        ≡ Some stack.new.here) }
    ensures lower { IfOk result (λ _. stack.new.lower ≡ stack.old.lower) }
    ensures refused { IfErr result
        (λ e. Refused e (Breaks e (context_of scope.now labels.now) (op.Return))
        (step (context_of scope.now labels.now) (op.Return) stack.old.here)) }
    ensures keeps { IfErr result (λ e. Mismatch e
        (KeepsOwn (context_of scope.now labels.now) (op.Return))) }
{
    stack.pop_result(scope.result)?;
    stack.leave();
    Ok(())
}

/// `call`: takes the arguments off and leaves the result.
pub fn check_call(
    scope: &Scope,
    labels: &Labels,
    stack: &mut OperandStack,
    function: u32,
) -> Result<(), ValidateFault>
    ensures ok { IfOk result
        (λ _. step (context_of scope.now labels.now) (op.Call function) stack.old.here
        ≡ Some stack.new.here) }
    ensures lower { IfOk result (λ _. stack.new.lower ≡ stack.old.lower) }
    ensures refused { IfErr result
        (λ e. Refused e (Breaks e (context_of scope.now labels.now) (op.Call function))
        (step (context_of scope.now labels.now) (op.Call function) stack.old.here)) }
    ensures keeps { IfErr result (λ e. Mismatch e
        (KeepsOwn (context_of scope.now labels.now) (op.Call function))) }
{
    let Some(function_type) = scope.type_of(function) else {
        return Err(ValidateFault::Index);
    };
    stack.pop_arguments(function_type.params.as_slice())?;
    stack.push_result(function_type.result)
}

/// `call_indirect`: takes the place in the table and the arguments off, and leaves the result of a
/// type.
pub fn check_call_indirect(
    scope: &Scope,
    labels: &Labels,
    stack: &mut OperandStack,
    type_index: u32,
) -> Result<(), ValidateFault>
    ensures ok { IfOk result
        (λ _. step (context_of scope.now labels.now) (op.CallIndirect type_index) stack.old.here
        ≡ Some stack.new.here) }
    ensures lower { IfOk result (λ _. stack.new.lower ≡ stack.old.lower) }
    ensures refused { IfErr result
        (λ e. Refused e (Breaks e (context_of scope.now labels.now) (op.CallIndirect type_index))
        (step (context_of scope.now labels.now) (op.CallIndirect type_index) stack.old.here)) }
    ensures keeps { IfErr result (λ e. Mismatch e
        (KeepsOwn (context_of scope.now labels.now) (op.CallIndirect type_index))) }
{
    let Some(_table) = scope.table() else {
        return Err(ValidateFault::Index);
    };
    let Some(called) = scope.type_at_index(type_index) else {
        return Err(ValidateFault::Index);
    };
    stack.pop_as(ValueType::I32)?;
    stack.pop_arguments(called.params.as_slice())?;
    stack.push_result(called.result)
}
