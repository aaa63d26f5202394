//! Conversions between the widths (Core 1.0, section 4.3.4).

ghost use Rattle.std.specs.Prelude.{◌≡◌, ◌<◌};
ghost use Rattle.wasm_ast.specs.Types.{words};
ghost use Rattle.wasm_num.specs.Operators.{convert, operand_type};

use wasm_ast::ConvertOp;

/// A word converted to the other width. Both words stand in 64 bits, one of 32 as a number below
/// 2^32.
#[inline(always)]
pub fn convert(op: ConvertOp, word: u64) -> u64
    requires { word < words (operand_type op) }
    ensures { result ≡ convert op word }
{
    match op {
        ConvertOp::WrapI64 => word % (1 << 32),
        ConvertOp::ExtendI32S => i64::from((word as u32).cast_signed()).cast_unsigned(),
        ConvertOp::ExtendI32U => word,
    }
}
