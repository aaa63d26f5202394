//! The rules of numeric instructions (Core 1.0, section 3.3.1).

ghost use Rattle.std.specs.Prelude.{◌≡◌, ◌<◌, ◌∷◌, [], IfOk, IfErr, Some};
ghost use Rattle.wasm_ast.specs.Types.{words};
ghost use Rattle.wasm_ast.specs.Conversions.{operand_type, result_type};
ghost use Rattle.wasm_typing.specs.Operands.{apply};
ghost use Rattle.wasm_typing.specs.Algorithm.{constant};
ghost use Rattle.wasm_typing.specs.Refused.{Refused};

use crate::fault::ValidateFault;
use crate::operands::OperandStack;
use wasm_ast::ValueType::{I32, I64};
use wasm_ast::{ConvertOp, ValueType};

/// A constant. Its word is one of the type.
pub fn check_constant(
    of_type: ValueType,
    word: u64,
    stack: &mut OperandStack,
) -> Result<(), ValidateFault>
    requires { word < words of_type }
    ensures ok { IfOk result (λ _. constant of_type word stack.old.here ≡ Some stack.new.here) }
    ensures lower { IfOk result (λ _. stack.new.lower ≡ stack.old.lower) }
    ensures refused { IfErr result (λ e. e ≡ ValidateFault.Memory) }
{
    stack.push(Some(of_type))
}

/// An operator on one word, which gives one.
pub fn check_one(
    taken: ValueType,
    given: ValueType,
    stack: &mut OperandStack,
) -> Result<(), ValidateFault>
    ensures ok { IfOk result
        (λ _. apply (taken ∷ []) (Some given) stack.old.here ≡ Some stack.new.here) }
    ensures lower { IfOk result (λ _. stack.new.lower ≡ stack.old.lower) }
    ensures refused { IfErr result
        (λ e. Refused e ⊥ (apply (taken ∷ []) (Some given) stack.old.here)) }
{
    stack.pop_as(taken)?;
    stack.push(Some(given))
}

/// An operator on two words of one type, which gives one.
pub fn check_two(
    taken: ValueType,
    given: ValueType,
    stack: &mut OperandStack,
) -> Result<(), ValidateFault>
    ensures ok { IfOk result
        (λ _. apply (taken ∷ taken ∷ []) (Some given) stack.old.here ≡ Some stack.new.here) }
    ensures lower { IfOk result (λ _. stack.new.lower ≡ stack.old.lower) }
    ensures refused { IfErr result
        (λ e. Refused e ⊥ (apply (taken ∷ taken ∷ []) (Some given) stack.old.here)) }
{
    stack.pop_as(taken)?;
    check_one(taken, given, stack)
}

/// A conversion between the widths.
pub fn check_convert(conversion: ConvertOp, stack: &mut OperandStack) -> Result<(), ValidateFault>
    ensures ok { IfOk result
        (λ _. apply (operand_type conversion ∷ []) (Some (result_type conversion)) stack.old.here
        ≡ Some stack.new.here) }
    ensures lower { IfOk result (λ _. stack.new.lower ≡ stack.old.lower) }
    ensures refused { IfErr result
        (λ e. Refused e ⊥
        (apply (operand_type conversion ∷ []) (Some (result_type conversion)) stack.old.here)) }
{
    match conversion {
        ConvertOp::WrapI64 => check_one(I64, I32, stack),
        ConvertOp::ExtendI32S | ConvertOp::ExtendI32U => check_one(I32, I64, stack),
    }
}
