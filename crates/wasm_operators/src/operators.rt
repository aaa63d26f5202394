//! The opcodes of operators on integers and of accesses to memory (WebAssembly Core 1.0, sections
//! 5.4.4 and 5.4.5), and of the sign extensions of Core 2.0.

ghost use Rattle.std.specs.Prelude.{◌≡◌, [], ◌∷◌, option_map};
ghost use Rattle.grammar.specs.Table.{row_at};
ghost use Rattle.wasm_ast.specs.View.{code_of};
ghost use Rattle.wasm_operators.specs.Operators.{alone, load_rows, store_rows, comparison_rows, arithmetic_32_rows, arithmetic_64_rows, conversion_rows, sign_extension_rows, operator_rows};

use wasm_ast::{BinaryOp, CompareOp, ConvertOp, Instr, LoadOp, StoreOp, UnaryOp};
use wasm_profile::Profile;

/// The load of an opcode.
#[tactic(auto, unfolding(crate::specs::Operators::load_rows))]
pub fn load(byte: u8) -> Option<LoadOp>
    ensures { result ≡ row_at load_rows byte }
{
    match byte {
        0x28 => Some(LoadOp::I32),
        0x29 => Some(LoadOp::I64),
        0x2c => Some(LoadOp::I32From8S),
        0x2d => Some(LoadOp::I32From8U),
        0x2e => Some(LoadOp::I32From16S),
        0x2f => Some(LoadOp::I32From16U),
        0x30 => Some(LoadOp::I64From8S),
        0x31 => Some(LoadOp::I64From8U),
        0x32 => Some(LoadOp::I64From16S),
        0x33 => Some(LoadOp::I64From16U),
        0x34 => Some(LoadOp::I64From32S),
        0x35 => Some(LoadOp::I64From32U),
        _ => None,
    }
}

/// The store of an opcode.
#[tactic(auto, unfolding(crate::specs::Operators::store_rows))]
pub fn store(byte: u8) -> Option<StoreOp>
    ensures { result ≡ row_at store_rows byte }
{
    match byte {
        0x36 => Some(StoreOp::I32),
        0x37 => Some(StoreOp::I64),
        0x3a => Some(StoreOp::I32To8),
        0x3b => Some(StoreOp::I32To16),
        0x3c => Some(StoreOp::I64To8),
        0x3d => Some(StoreOp::I64To16),
        0x3e => Some(StoreOp::I64To32),
        _ => None,
    }
}

/// The test or comparison of an opcode.
#[tactic(auto, unfolding(crate::specs::Operators::comparison_rows))]
fn comparison(byte: u8) -> Option<Instr>
    ensures { option_map (λ i. code_of (i ∷ [])) result
        ≡ option_map alone (row_at comparison_rows byte) }
{
    match byte {
        0x45 => Some(Instr::I32Eqz),
        0x46 => Some(Instr::I32Compare(CompareOp::Eq)),
        0x47 => Some(Instr::I32Compare(CompareOp::Ne)),
        0x48 => Some(Instr::I32Compare(CompareOp::LtS)),
        0x49 => Some(Instr::I32Compare(CompareOp::LtU)),
        0x4a => Some(Instr::I32Compare(CompareOp::GtS)),
        0x4b => Some(Instr::I32Compare(CompareOp::GtU)),
        0x4c => Some(Instr::I32Compare(CompareOp::LeS)),
        0x4d => Some(Instr::I32Compare(CompareOp::LeU)),
        0x4e => Some(Instr::I32Compare(CompareOp::GeS)),
        0x4f => Some(Instr::I32Compare(CompareOp::GeU)),
        0x50 => Some(Instr::I64Eqz),
        0x51 => Some(Instr::I64Compare(CompareOp::Eq)),
        0x52 => Some(Instr::I64Compare(CompareOp::Ne)),
        0x53 => Some(Instr::I64Compare(CompareOp::LtS)),
        0x54 => Some(Instr::I64Compare(CompareOp::LtU)),
        0x55 => Some(Instr::I64Compare(CompareOp::GtS)),
        0x56 => Some(Instr::I64Compare(CompareOp::GtU)),
        0x57 => Some(Instr::I64Compare(CompareOp::LeS)),
        0x58 => Some(Instr::I64Compare(CompareOp::LeU)),
        0x59 => Some(Instr::I64Compare(CompareOp::GeS)),
        0x5a => Some(Instr::I64Compare(CompareOp::GeU)),
        _ => None,
    }
}

/// The operator on words of 32 bits of an opcode.
#[tactic(auto, unfolding(crate::specs::Operators::arithmetic_32_rows))]
fn arithmetic_32(byte: u8) -> Option<Instr>
    ensures { option_map (λ i. code_of (i ∷ [])) result
        ≡ option_map alone (row_at arithmetic_32_rows byte) }
{
    match byte {
        0x67 => Some(Instr::I32Unary(UnaryOp::Clz)),
        0x68 => Some(Instr::I32Unary(UnaryOp::Ctz)),
        0x69 => Some(Instr::I32Unary(UnaryOp::Popcnt)),
        0x6a => Some(Instr::I32Binary(BinaryOp::Add)),
        0x6b => Some(Instr::I32Binary(BinaryOp::Sub)),
        0x6c => Some(Instr::I32Binary(BinaryOp::Mul)),
        0x6d => Some(Instr::I32Binary(BinaryOp::DivS)),
        0x6e => Some(Instr::I32Binary(BinaryOp::DivU)),
        0x6f => Some(Instr::I32Binary(BinaryOp::RemS)),
        0x70 => Some(Instr::I32Binary(BinaryOp::RemU)),
        0x71 => Some(Instr::I32Binary(BinaryOp::And)),
        0x72 => Some(Instr::I32Binary(BinaryOp::Or)),
        0x73 => Some(Instr::I32Binary(BinaryOp::Xor)),
        0x74 => Some(Instr::I32Binary(BinaryOp::Shl)),
        0x75 => Some(Instr::I32Binary(BinaryOp::ShrS)),
        0x76 => Some(Instr::I32Binary(BinaryOp::ShrU)),
        0x77 => Some(Instr::I32Binary(BinaryOp::Rotl)),
        0x78 => Some(Instr::I32Binary(BinaryOp::Rotr)),
        _ => None,
    }
}

/// The operator on words of 64 bits of an opcode.
#[tactic(auto, unfolding(crate::specs::Operators::arithmetic_64_rows))]
fn arithmetic_64(byte: u8) -> Option<Instr>
    ensures { option_map (λ i. code_of (i ∷ [])) result
        ≡ option_map alone (row_at arithmetic_64_rows byte) }
{
    match byte {
        0x79 => Some(Instr::I64Unary(UnaryOp::Clz)),
        0x7a => Some(Instr::I64Unary(UnaryOp::Ctz)),
        0x7b => Some(Instr::I64Unary(UnaryOp::Popcnt)),
        0x7c => Some(Instr::I64Binary(BinaryOp::Add)),
        0x7d => Some(Instr::I64Binary(BinaryOp::Sub)),
        0x7e => Some(Instr::I64Binary(BinaryOp::Mul)),
        0x7f => Some(Instr::I64Binary(BinaryOp::DivS)),
        0x80 => Some(Instr::I64Binary(BinaryOp::DivU)),
        0x81 => Some(Instr::I64Binary(BinaryOp::RemS)),
        0x82 => Some(Instr::I64Binary(BinaryOp::RemU)),
        0x83 => Some(Instr::I64Binary(BinaryOp::And)),
        0x84 => Some(Instr::I64Binary(BinaryOp::Or)),
        0x85 => Some(Instr::I64Binary(BinaryOp::Xor)),
        0x86 => Some(Instr::I64Binary(BinaryOp::Shl)),
        0x87 => Some(Instr::I64Binary(BinaryOp::ShrS)),
        0x88 => Some(Instr::I64Binary(BinaryOp::ShrU)),
        0x89 => Some(Instr::I64Binary(BinaryOp::Rotl)),
        0x8a => Some(Instr::I64Binary(BinaryOp::Rotr)),
        _ => None,
    }
}

/// The conversion of an opcode.
#[tactic(auto, unfolding(crate::specs::Operators::conversion_rows))]
fn conversion(byte: u8) -> Option<Instr>
    ensures { option_map (λ i. code_of (i ∷ [])) result
        ≡ option_map alone (row_at conversion_rows byte) }
{
    match byte {
        0xa7 => Some(Instr::Convert(ConvertOp::WrapI64)),
        0xac => Some(Instr::Convert(ConvertOp::ExtendI32S)),
        0xad => Some(Instr::Convert(ConvertOp::ExtendI32U)),
        _ => None,
    }
}

/// The sign extension of an opcode.
#[tactic(auto, unfolding(crate::specs::Operators::sign_extension_rows))]
fn sign_extension(byte: u8) -> Option<Instr>
    ensures { option_map (λ i. code_of (i ∷ [])) result
        ≡ option_map alone (row_at sign_extension_rows byte) }
{
    match byte {
        0xc0 => Some(Instr::I32Unary(UnaryOp::Extend8S)),
        0xc1 => Some(Instr::I32Unary(UnaryOp::Extend16S)),
        0xc2 => Some(Instr::I64Unary(UnaryOp::Extend8S)),
        0xc3 => Some(Instr::I64Unary(UnaryOp::Extend16S)),
        0xc4 => Some(Instr::I64Unary(UnaryOp::Extend32S)),
        _ => None,
    }
}

/// The operator of an opcode, which the profile has.
pub fn operator(byte: u8, profile: Profile) -> Option<Instr>
    ensures { option_map (λ i. code_of (i ∷ [])) result
        ≡ option_map alone (row_at (operator_rows profile) byte) }
{
    if let Some(operator) = comparison(byte) {
        return Some(operator);
    }
    if let Some(operator) = arithmetic_32(byte) {
        return Some(operator);
    }
    if let Some(operator) = arithmetic_64(byte) {
        return Some(operator);
    }
    if let Some(operator) = conversion(byte) {
        return Some(operator);
    }
    match profile {
        Profile::Core1 => None,
        Profile::SignExtension => sign_extension(byte),
    }
}
