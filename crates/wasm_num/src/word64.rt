//! Operators on words of 64 bits (Core 1.0, section 4.3.2).

ghost use Rattle.std.specs.Prelude.{◌≡◌};
ghost use Rattle.wasm_ast.specs.declared.types.ValueType.TheVariants.{I64};
ghost use Rattle.wasm_num.specs.Operators.{binary, unary, compare, eqz, divide_signed, remainder_signed, places};

use wasm_ast::{BinaryOp, CompareOp, Trap, UnaryOp};

/// A word from two. A quotient or a remainder by zero is the trap `DivideByZero`, and the signed
/// quotient of -2^63 by -1 is `IntegerOverflow`; nothing else is a trap.
#[inline(always)]
pub fn binary(op: BinaryOp, a: u64, b: u64) -> Result<u64, Trap>
    ensures { result ≡ binary I64 op a b }
{
    match op {
        BinaryOp::Add => Ok(a.wrapping_add(b)),
        BinaryOp::Sub => Ok(a.wrapping_sub(b)),
        BinaryOp::Mul => Ok(a.wrapping_mul(b)),
        BinaryOp::DivS => divide_signed(a, b),
        BinaryOp::DivU => a.checked_div(b).ok_or(Trap::DivideByZero),
        BinaryOp::RemS => remainder_signed(a, b),
        BinaryOp::RemU => a.checked_rem(b).ok_or(Trap::DivideByZero),
        BinaryOp::And => Ok(a & b),
        BinaryOp::Or => Ok(a | b),
        BinaryOp::Xor => Ok(a ^ b),
        BinaryOp::Shl => Ok(a.wrapping_shl(places(b))),
        BinaryOp::ShrS => Ok(a.cast_signed().wrapping_shr(places(b)).cast_unsigned()),
        BinaryOp::ShrU => Ok(a.wrapping_shr(places(b))),
        BinaryOp::Rotl => Ok(a.rotate_left(places(b))),
        BinaryOp::Rotr => Ok(a.rotate_right(places(b))),
    }
}

#[inline(always)]
fn divide_signed(a: u64, b: u64) -> Result<u64, Trap>
    ensures { result ≡ divide_signed I64 a b }
{
    if b == 0 {
        return Err(Trap::DivideByZero);
    }
    let quotient = a.cast_signed().checked_div(b.cast_signed());
    Ok(quotient.ok_or(Trap::IntegerOverflow)?.cast_unsigned())
}

#[inline(always)]
fn remainder_signed(a: u64, b: u64) -> Result<u64, Trap>
    ensures { result ≡ remainder_signed I64 a b }
{
    if b == 0 {
        return Err(Trap::DivideByZero);
    }
    let remainder = a.cast_signed().wrapping_rem(b.cast_signed());
    Ok(remainder.cast_unsigned())
}

/// By how many places a count shifts or rotates: modulo 64.
#[inline(always)]
fn places(count: u64) -> u32
    ensures { result ≡ places I64 count }
{
    (count % 64) as u32
}

/// A word from one: how many zeros it begins with, ends with, or how many ones it has, in binary;
/// or the word with the signed reading of its low 8, 16 or 32 bits.
#[inline(always)]
pub fn unary(op: UnaryOp, a: u64) -> u64
    ensures { result ≡ unary I64 op a }
{
    match op {
        UnaryOp::Clz => u64::from(a.leading_zeros()),
        UnaryOp::Ctz => u64::from(a.trailing_zeros()),
        UnaryOp::Popcnt => u64::from(a.count_ones()),
        UnaryOp::Extend8S => i64::from(((a % (1 << 8)) as u8).cast_signed()).cast_unsigned(),
        UnaryOp::Extend16S => i64::from(((a % (1 << 16)) as u16).cast_signed()).cast_unsigned(),
        UnaryOp::Extend32S => i64::from(((a % (1 << 32)) as u32).cast_signed()).cast_unsigned(),
    }
}

/// 1 where the comparison holds, else 0.
#[inline(always)]
pub fn compare(op: CompareOp, a: u64, b: u64) -> u32
    ensures { result ≡ compare I64 op a b }
{
    let holds = match op {
        CompareOp::Eq => a == b,
        CompareOp::Ne => a != b,
        CompareOp::LtS => a.cast_signed() < b.cast_signed(),
        CompareOp::LtU => a < b,
        CompareOp::GtS => a.cast_signed() > b.cast_signed(),
        CompareOp::GtU => a > b,
        CompareOp::LeS => a.cast_signed() <= b.cast_signed(),
        CompareOp::LeU => a <= b,
        CompareOp::GeS => a.cast_signed() >= b.cast_signed(),
        CompareOp::GeU => a >= b,
    };
    u32::from(holds)
}

/// 1 for the word 0, else 0.
#[inline(always)]
pub fn eqz(a: u64) -> u32
    ensures { result ≡ eqz a }
{
    u32::from(a == 0)
}
