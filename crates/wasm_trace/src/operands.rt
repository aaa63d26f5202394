//! Instructions that take operands off the values and leave others.

ghost use Rattle.std.specs.Prelude.{◌≡◌, IfOk};
ghost use Rattle.wasm_ast.specs.Op as op;
ghost use Rattle.wasm_ast.specs.declared.types.ValueType.TheVariants as type;
ghost use Rattle.wasm_num.specs.Operators.{unary, compare, eqz, convert, operand_type, result_type};
ghost use Rattle.wasm_meaning.specs.Values.{value};
ghost use Rattle.wasm_trace.specs.View.{val_of, Popped, PoppedWord, BinaryIs, OnStack, EntersEither, IsNoJump};

use crate::parts::{Act, Front, Turn, Value};
use interp::Host;
use std::alloc::AllocError;
use wasm_ast::{
    BinaryOp, BranchTable, CompareOp, Conditional, ConvertOp, Trap, UnaryOp, ValueType,
};
use wasm_num::{word32, word64};

/// The type of a value.
fn type_of(value: Value) -> ValueType
    ensures { result ≡ (val_of value).«type» }
{
    match value {
        Value::I32(_) => ValueType::I32,
        Value::I64(_) => ValueType::I64,
    }
}

/// Takes the last value, if it is of this type.
pub(crate) fn pop_of(stack: &mut Vec<Value>, value_type: ValueType) -> Option<Value>
    ensures { Popped value_type stack.old.items result stack.new.items }
{
    match stack.pop() {
        None => None,
        Some(value) => {
            if type_of(value) == value_type {
                return Some(value);
            }
            None
        }
    }
}

/// An operator on one word.
pub(crate) fn unary<H: Host>(
    stack: &mut Vec<Value>,
    value_type: ValueType,
    operator: UnaryOp,
) -> Result<Turn<'static>, AllocError>
    ensures { IfOk result
        (λ t. OnStack H.Records (op.Unary value_type operator) stack.old.items stack.new.items t) }
{
    match pop_of(stack, value_type) {
        None => Ok(Turn::Stuck),
        Some(a) => {
            stack.push(unary_of(operator, a))?;
            Ok(Turn::On(Front::Nothing))
        }
    }
}

fn unary_of(operator: UnaryOp, a: Value) -> Value
    ensures { val_of result
        ≡ value (val_of a).«type» (unary (val_of a).«type» operator (val_of a).word) }
{
    match a {
        Value::I32(word) => Value::I32(word32::unary(operator, word)),
        Value::I64(word) => Value::I64(word64::unary(operator, word)),
    }
}

/// Whether the word on top is 0.
pub(crate) fn eqz<H: Host>(
    stack: &mut Vec<Value>,
    value_type: ValueType,
) -> Result<Turn<'static>, AllocError>
    ensures { IfOk result
        (λ t. OnStack H.Records (op.Eqz value_type) stack.old.items stack.new.items t) }
{
    match pop_of(stack, value_type) {
        None => Ok(Turn::Stuck),
        Some(a) => {
            stack.push(eqz_of(a))?;
            Ok(Turn::On(Front::Nothing))
        }
    }
}

fn eqz_of(a: Value) -> Value
    ensures { val_of result ≡ value type.I32 (eqz (val_of a).word) }
{
    match a {
        Value::I32(word) => Value::I32(word32::eqz(word)),
        Value::I64(word) => Value::I32(word64::eqz(word)),
    }
}

/// Takes the last value, if it is a word of 32 bits.
pub(crate) fn pop_i32(stack: &mut Vec<Value>) -> Option<u32>
    ensures { PoppedWord stack.old.items result stack.new.items }
{
    match stack.pop() {
        None => None,
        Some(value) => match value {
            Value::I32(word) => Some(word),
            Value::I64(_) => None,
        },
    }
}

/// A comparison of two words.
pub(crate) fn compare<H: Host>(
    stack: &mut Vec<Value>,
    value_type: ValueType,
    operator: CompareOp,
) -> Result<Turn<'static>, AllocError>
    ensures { IfOk result
        (λ t. OnStack H.Records (op.Compare value_type operator) stack.old.items stack.new.items
        t) }
{
    match pop_of(stack, value_type) {
        None => Ok(Turn::Stuck),
        Some(b) => match pop_of(stack, value_type) {
            None => Ok(Turn::Stuck),
            Some(a) => {
                stack.push(compare_of(operator, a, b))?;
                Ok(Turn::On(Front::Nothing))
            }
        },
    }
}

fn compare_of(operator: CompareOp, a: Value, b: Value) -> Value
    requires { (val_of a).«type» ≡ (val_of b).«type» }
    ensures { val_of result
        ≡ value type.I32 (compare (val_of a).«type» operator (val_of a).word (val_of b).word) }
{
    match a {
        Value::I32(m) => match b {
            Value::I32(n) => Value::I32(word32::compare(operator, m, n)),
            Value::I64(_) => unreachable!(),
        },
        Value::I64(m) => match b {
            Value::I32(_) => unreachable!(),
            Value::I64(n) => Value::I32(word64::compare(operator, m, n)),
        },
    }
}

/// An operator on two words, or its trap.
pub(crate) fn binary<H: Host>(
    stack: &mut Vec<Value>,
    value_type: ValueType,
    operator: BinaryOp,
) -> Result<Turn<'static>, AllocError>
    ensures { IfOk result
        (λ t. OnStack H.Records (op.Binary value_type operator) stack.old.items stack.new.items t) }
{
    match pop_of(stack, value_type) {
        None => Ok(Turn::Stuck),
        Some(b) => match pop_of(stack, value_type) {
            None => Ok(Turn::Stuck),
            Some(a) => match binary_of(operator, a, b) {
                Err(why) => Ok(Turn::On(Front::Trap(why))),
                Ok(value) => {
                    stack.push(value)?;
                    Ok(Turn::On(Front::Nothing))
                }
            },
        },
    }
}

fn binary_of(operator: BinaryOp, a: Value, b: Value) -> Result<Value, Trap>
    requires { (val_of a).«type» ≡ (val_of b).«type» }
    ensures { BinaryIs operator a b result }
{
    match a {
        Value::I32(m) => match b {
            Value::I32(n) => match word32::binary(operator, m, n) {
                Err(why) => Err(why),
                Ok(word) => Ok(Value::I32(word)),
            },
            Value::I64(_) => unreachable!(),
        },
        Value::I64(m) => match b {
            Value::I32(_) => unreachable!(),
            Value::I64(n) => match word64::binary(operator, m, n) {
                Err(why) => Err(why),
                Ok(word) => Ok(Value::I64(word)),
            },
        },
    }
}

/// A conversion between the widths.
pub(crate) fn convert<H: Host>(
    stack: &mut Vec<Value>,
    operator: ConvertOp,
) -> Result<Turn<'static>, AllocError>
    ensures { IfOk result
        (λ t. OnStack H.Records (op.Convert operator) stack.old.items stack.new.items t) }
{
    match pop_of(stack, operand_type(operator)) {
        None => Ok(Turn::Stuck),
        Some(a) => {
            stack.push(convert_of(operator, a))?;
            Ok(Turn::On(Front::Nothing))
        }
    }
}

fn operand_type(operator: ConvertOp) -> ValueType
    ensures { result ≡ operand_type operator }
{
    match operator {
        ConvertOp::WrapI64 => ValueType::I64,
        ConvertOp::ExtendI32S => ValueType::I32,
        ConvertOp::ExtendI32U => ValueType::I32,
    }
}

fn convert_of(operator: ConvertOp, a: Value) -> Value
    requires { (val_of a).«type» ≡ operand_type operator }
    ensures { val_of result ≡ value (result_type operator) (convert operator (val_of a).word) }
{
    match a {
        Value::I32(word) => Value::I64(wasm_num::convert(operator, u64::from(word))),
        Value::I64(word) => Value::I32(wasm_num::convert(operator, word) as u32),
    }
}

/// One of two values, by the word on top.
pub(crate) fn select<H: Host>(stack: &mut Vec<Value>) -> Result<Turn<'static>, AllocError>
    ensures { IfOk result (λ t. OnStack H.Records op.Select stack.old.items stack.new.items t) }
{
    match pop_i32(stack) {
        None => Ok(Turn::Stuck),
        Some(condition) => match stack.pop() {
            None => Ok(Turn::Stuck),
            Some(upper) => match stack.pop() {
                None => Ok(Turn::Stuck),
                Some(lower) => {
                    if type_of(lower) != type_of(upper) {
                        return Ok(Turn::Stuck);
                    }
                    stack.push(if condition == 0 { upper } else { lower })?;
                    Ok(Turn::On(Front::Nothing))
                }
            },
        },
    }
}

/// Takes the value on top away.
pub(crate) fn discard<H: Host>(stack: &mut Vec<Value>) -> Turn<'static>
    ensures { OnStack H.Records op.Drop stack.old.items stack.new.items result }
{
    match stack.pop() {
        None => Turn::Stuck,
        Some(_) => Turn::On(Front::Nothing),
    }
}

/// A constant.
pub(crate) fn constant<H: Host>(
    stack: &mut Vec<Value>,
    value: Value,
) -> Result<Turn<'static>, AllocError>
    ensures { IfOk result
        (λ t. OnStack H.Records (op.Const (val_of value).«type» (val_of value).word) stack.old.items
        stack.new.items t) }
{
    stack.push(value)?;
    Ok(Turn::On(Front::Nothing))
}

/// A branch if the word on top is not 0, which becomes a `br`.
pub(crate) fn branch_if<H: Host>(stack: &mut Vec<Value>, k: u32) -> Turn<'static>
    ensures { OnStack H.Records (op.BrIf k) stack.old.items stack.new.items result }
{
    match pop_i32(stack) {
        None => Turn::Stuck,
        Some(condition) => {
            if condition == 0 {
                return Turn::On(Front::Nothing);
            }
            Turn::On(Front::Branch(k))
        }
    }
}

/// A branch to the label that the word on top picks, which becomes a `br`.
pub(crate) fn branch_table<H: Host>(stack: &mut Vec<Value>, table: &BranchTable) -> Turn<'static>
    ensures { OnStack H.Records (op.BrTable table.now.labels table.now.default) stack.old.items
        stack.new.items result }
{
    match pop_i32(stack) {
        None => Turn::Stuck,
        Some(at) => match table.labels.as_slice().get(at as usize) {
            None => Turn::On(Front::Branch(table.default)),
            Some(label) => Turn::On(Front::Branch(*label)),
        },
    }
}

/// Enters one of two bodies, by the word on top.
pub(crate) fn either<'m, H: Host>(stack: &mut Vec<Value>, conditional: &'m Conditional) -> Act<'m>
    ensures does { EntersEither H.Records conditional.now stack.old.items stack.new.items result }
    ensures jumps { IsNoJump result }
{
    match pop_i32(stack) {
        None => Act::Become(Turn::Stuck),
        Some(condition) => {
            if condition == 0 {
                return Act::Enter(conditional.result, conditional.no.items());
            }
            Act::Enter(conditional.result, conditional.yes.items())
        }
    }
}
