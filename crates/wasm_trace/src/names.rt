//! The names of instructions in the text format (Core 1.0, section 6.5).

ghost use Rattle.std.specs.Prelude.{◌≡◌, codes};
ghost use Rattle.wasm_ast.specs.declared.types.ValueType.TheVariants as value_type;
ghost use Rattle.wasm_trace.specs.Names.{IsNameOf, load_name, store_name, convert_name, compare_name, unary_name, binary_name, typed, text_of};

use std::fmt::{self, Display, Formatter, Write};
use wasm_ast::{BinaryOp, CompareOp, ConvertOp, Instr, LoadOp, StoreOp, UnaryOp};

/// The name of an instruction, without its operands: a type with its dot, if there is one, and the
/// rest.
#[derive(Clone, Copy)]
pub(crate) struct Mnemonic {
    pub(crate) prefix: &'static str,
    pub(crate) rest: &'static str,
}

impl Display for Mnemonic {
    ghost use Rattle.std.specs.Prelude.{Some};

    ghost output = { λ m. Some (text_of m) };

    fn fmt<W: Write>(&self, f: &mut Formatter<W>) -> fmt::Result {
        write!(f, "{}{}", self.prefix, self.rest)
    }
}

impl Mnemonic {
    /// The name of a loop.
    pub(crate) fn of_loop() -> Mnemonic
        ensures { text_of result ≡ codes "loop" }
    {
        bare("loop")
    }

    /// The name of an instruction.
    pub(crate) fn of(instr: &Instr) -> Mnemonic
        ensures { IsNameOf instr.now (text_of result) }
    {
        match instr {
            Instr::Unreachable => bare("unreachable"),
            Instr::Nop => bare("nop"),
            Instr::Block(_) => bare("block"),
            Instr::Loop(_) => Mnemonic::of_loop(),
            Instr::If(_) => bare("if"),
            Instr::Br(_) => bare("br"),
            Instr::BrIf(_) => bare("br_if"),
            Instr::BrTable(_) => bare("br_table"),
            Instr::Return => bare("return"),
            Instr::Call(_) => bare("call"),
            Instr::CallIndirect(_) => bare("call_indirect"),
            Instr::Drop => bare("drop"),
            Instr::Select => bare("select"),
            Instr::LocalGet(_) => bare("local.get"),
            Instr::LocalSet(_) => bare("local.set"),
            Instr::LocalTee(_) => bare("local.tee"),
            Instr::GlobalGet(_) => bare("global.get"),
            Instr::GlobalSet(_) => bare("global.set"),
            Instr::MemorySize => bare("memory.size"),
            Instr::MemoryGrow => bare("memory.grow"),
            Instr::Load(operator, _) => bare(load_name(*operator)),
            Instr::Store(operator, _) => bare(store_name(*operator)),
            Instr::Convert(operator) => bare(convert_name(*operator)),
            Instr::I32Const(_) => of_i32("const"),
            Instr::I64Const(_) => of_i64("const"),
            Instr::I32Eqz => of_i32("eqz"),
            Instr::I64Eqz => of_i64("eqz"),
            Instr::I32Compare(operator) => of_i32(compare_name(*operator)),
            Instr::I64Compare(operator) => of_i64(compare_name(*operator)),
            Instr::I32Unary(operator) => of_i32(unary_name(*operator)),
            Instr::I64Unary(operator) => of_i64(unary_name(*operator)),
            Instr::I32Binary(operator) => of_i32(binary_name(*operator)),
            Instr::I64Binary(operator) => of_i64(binary_name(*operator)),
        }
    }
}

fn bare(rest: &'static str) -> Mnemonic
    ensures { text_of result ≡ rest.now }
{
    Mnemonic { prefix: "", rest }
}

fn of_i32(rest: &'static str) -> Mnemonic
    ensures { text_of result ≡ typed value_type.I32 rest.now }
{
    Mnemonic {
        prefix: "i32.",
        rest,
    }
}

fn of_i64(rest: &'static str) -> Mnemonic
    ensures { text_of result ≡ typed value_type.I64 rest.now }
{
    Mnemonic {
        prefix: "i64.",
        rest,
    }
}

fn load_name(operator: LoadOp) -> &'static str
    ensures { result.now ≡ load_name operator }
{
    match operator {
        LoadOp::I32 => "i32.load",
        LoadOp::I64 => "i64.load",
        LoadOp::I32From8S => "i32.load8_s",
        LoadOp::I32From8U => "i32.load8_u",
        LoadOp::I32From16S => "i32.load16_s",
        LoadOp::I32From16U => "i32.load16_u",
        LoadOp::I64From8S => "i64.load8_s",
        LoadOp::I64From8U => "i64.load8_u",
        LoadOp::I64From16S => "i64.load16_s",
        LoadOp::I64From16U => "i64.load16_u",
        LoadOp::I64From32S => "i64.load32_s",
        LoadOp::I64From32U => "i64.load32_u",
    }
}

fn store_name(operator: StoreOp) -> &'static str
    ensures { result.now ≡ store_name operator }
{
    match operator {
        StoreOp::I32 => "i32.store",
        StoreOp::I64 => "i64.store",
        StoreOp::I32To8 => "i32.store8",
        StoreOp::I32To16 => "i32.store16",
        StoreOp::I64To8 => "i64.store8",
        StoreOp::I64To16 => "i64.store16",
        StoreOp::I64To32 => "i64.store32",
    }
}

fn convert_name(operator: ConvertOp) -> &'static str
    ensures { result.now ≡ convert_name operator }
{
    match operator {
        ConvertOp::WrapI64 => "i32.wrap_i64",
        ConvertOp::ExtendI32S => "i64.extend_i32_s",
        ConvertOp::ExtendI32U => "i64.extend_i32_u",
    }
}

fn compare_name(operator: CompareOp) -> &'static str
    ensures { result.now ≡ compare_name operator }
{
    match operator {
        CompareOp::Eq => "eq",
        CompareOp::Ne => "ne",
        CompareOp::LtS => "lt_s",
        CompareOp::LtU => "lt_u",
        CompareOp::GtS => "gt_s",
        CompareOp::GtU => "gt_u",
        CompareOp::LeS => "le_s",
        CompareOp::LeU => "le_u",
        CompareOp::GeS => "ge_s",
        CompareOp::GeU => "ge_u",
    }
}

fn unary_name(operator: UnaryOp) -> &'static str
    ensures { result.now ≡ unary_name operator }
{
    match operator {
        UnaryOp::Clz => "clz",
        UnaryOp::Ctz => "ctz",
        UnaryOp::Popcnt => "popcnt",
        UnaryOp::Extend8S => "extend8_s",
        UnaryOp::Extend16S => "extend16_s",
        UnaryOp::Extend32S => "extend32_s",
    }
}

fn binary_name(operator: BinaryOp) -> &'static str
    ensures { result.now ≡ binary_name operator }
{
    match operator {
        BinaryOp::Add => "add",
        BinaryOp::Sub => "sub",
        BinaryOp::Mul => "mul",
        BinaryOp::DivS => "div_s",
        BinaryOp::DivU => "div_u",
        BinaryOp::RemS => "rem_s",
        BinaryOp::RemU => "rem_u",
        BinaryOp::And => "and",
        BinaryOp::Or => "or",
        BinaryOp::Xor => "xor",
        BinaryOp::Shl => "shl",
        BinaryOp::ShrS => "shr_s",
        BinaryOp::ShrU => "shr_u",
        BinaryOp::Rotl => "rotl",
        BinaryOp::Rotr => "rotr",
    }
}
