//! Bodies: instructions in order (Core 1.0, section 2.4).

ghost use Rattle.std.specs.Prelude.{◌≡◌};
ghost use Rattle.wasm_ast.specs.View.{code_of};

use crate::operators::{BinaryOp, CompareOp, ConvertOp, LoadOp, StoreOp, UnaryOp};
use crate::types::BlockType;
use seq::Seq;
use std::marker::Model;

/// An instruction. Indices and constants are words; a constant's sign is the operators' reading.
#[cycle(code)]
#[derive(Debug, Drop)]
pub enum Instr {
    Unreachable,
    Nop,
    Block(Box<Block>),
    Loop(Box<Block>),
    If(Box<Conditional>),
    Br(u32),
    BrIf(u32),
    BrTable(Box<BranchTable>),
    Return,
    Call(u32),
    /// Of a function of the type at this index, which an operand chooses from the table.
    CallIndirect(u32),
    Drop,
    Select,
    LocalGet(u32),
    LocalSet(u32),
    LocalTee(u32),
    GlobalGet(u32),
    GlobalSet(u32),
    Load(LoadOp, MemoryArgument),
    Store(StoreOp, MemoryArgument),
    MemorySize,
    MemoryGrow,
    I32Const(u32),
    I64Const(u64),
    /// Whether a word is 0.
    I32Eqz,
    I64Eqz,
    I32Compare(CompareOp),
    I64Compare(CompareOp),
    I32Unary(UnaryOp),
    I64Unary(UnaryOp),
    I32Binary(BinaryOp),
    I64Binary(BinaryOp),
    Convert(ConvertOp),
}

/// Where a load or a store accesses the memory: at its operand plus `offset`. The address is said
/// to be a multiple of 2 to the power of `align`; this is a hint without effect.
#[derive(Clone, Copy, Debug, PartialEq, Eq)]
pub struct MemoryArgument {
    pub align: u32,
    pub offset: u32,
}

/// The body of a `block` or a `loop`, and what the block leaves.
#[cycle(code)]
#[derive(Debug, Drop)]
pub struct Block {
    pub result: BlockType,
    pub body: Body,
}

/// The two bodies of an `if`, and what either leaves. Without `else` the second is empty.
#[cycle(code)]
#[derive(Debug, Drop)]
pub struct Conditional {
    pub result: BlockType,
    pub yes: Body,
    pub no: Body,
}

/// The labels of a `br_table`, and the one for operands past them.
#[derive(Debug, Drop)]
pub struct BranchTable {
    pub labels: Seq<u32>,
    pub default: u32,
}

/// Instructions, one after another.
#[cycle(code)]
#[derive(Debug, Drop)]
pub struct Body {
    items: Vec<Instr>,
}

impl Model for Body {
    ghost use Rattle.wasm_ast.specs.Code.{Code, code_code, code_size};

    ghost Value = { Code };

    ghost coded = { code_code };

    ghost use Rattle.wasm_ast.specs.View.{code_of};

    ghost view = { λ b. code_of b.items.items };

    ghost size = { code_size };

    ghost use Rattle.wasm_ast.specs.Laws.Smaller.{most_le-code_size};
    ghost use Rattle.std.proofs.Common.{arith};

    ghost size_decreases = { λ b h. omega (arith, most_le-code_size b.items.items) };
}

impl Body {
    /// The body of these instructions.
    pub fn new(items: Vec<Instr>) -> Body
        ensures { result ≡ code_of items.items }
    {
        Body { items }
    }

    /// The instructions.
    pub fn items(&self) -> &[Instr]
        ensures { code_of result.now ≡ self.now }
    {
        &self.items
    }
}

// An instruction is small, so that a body lies close together in memory.
const _: () = prove!(std::mem::size_of::<Instr>() <= 16);
