//! Instructions that read and change nothing but the values.

ghost use Rattle.std.specs.Prelude.{◌≡◌, IfOk};
ghost use Rattle.wasm_trace.specs.Plain.{IsOnValues, OnValues};

use crate::operands::{
    binary, branch_if, branch_table, compare, constant, convert, discard, eqz, select, unary,
};
use crate::parts::{Front, Turn, Value};
use crate::variables::tee_local;
use interp::Host;
use std::alloc::AllocError;
use wasm_ast::{Instr, Trap, ValueType};

/// What an instruction becomes that reads and changes nothing but the values.
pub(crate) fn on_values<H: Host>(
    stack: &mut Vec<Value>,
    instr: &Instr,
) -> Result<Turn<'static>, AllocError>
    requires { IsOnValues instr.now }
    ensures { IfOk result (λ t. OnValues H.Records instr.now stack.old.items stack.new.items t) }
{
    match instr {
        Instr::Unreachable => Ok(Turn::On(Front::Trap(Trap::Unreachable))),
        Instr::Nop => Ok(Turn::On(Front::Nothing)),
        Instr::BrIf(k) => Ok(branch_if::<H>(stack, *k)),
        Instr::BrTable(table) => Ok(branch_table::<H>(stack, table)),
        Instr::Drop => Ok(discard::<H>(stack)),
        Instr::Select => select::<H>(stack),
        Instr::LocalTee(k) => tee_local::<H>(stack, *k),
        Instr::I32Const(word) => constant::<H>(stack, Value::I32(*word)),
        Instr::I64Const(word) => constant::<H>(stack, Value::I64(*word)),
        Instr::I32Eqz => eqz::<H>(stack, ValueType::I32),
        Instr::I64Eqz => eqz::<H>(stack, ValueType::I64),
        Instr::I32Compare(operator) => compare::<H>(stack, ValueType::I32, *operator),
        Instr::I64Compare(operator) => compare::<H>(stack, ValueType::I64, *operator),
        Instr::I32Unary(operator) => unary::<H>(stack, ValueType::I32, *operator),
        Instr::I64Unary(operator) => unary::<H>(stack, ValueType::I64, *operator),
        Instr::I32Binary(operator) => binary::<H>(stack, ValueType::I32, *operator),
        Instr::I64Binary(operator) => binary::<H>(stack, ValueType::I64, *operator),
        Instr::Convert(operator) => convert::<H>(stack, *operator),
        _ => unreachable!(),
    }
}
