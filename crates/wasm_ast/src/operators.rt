//! Operators on integers (Core 1.0, section 2.4.1), each for 32 and for 64 bits, and accesses to
//! memory (section 2.4.4).

ghost use Rattle.std.specs.Prelude.{◌≡◌};
ghost use Rattle.wasm_ast.specs.Access.{load_type, load_width, store_type, store_width};

use crate::types::ValueType;

/// An operator on two words of one width, which gives a word of that width.
#[derive(Clone, Copy, Debug, PartialEq, Eq)]
pub enum BinaryOp {
    Add,
    Sub,
    Mul,
    DivS,
    DivU,
    RemS,
    RemU,
    And,
    Or,
    Xor,
    Shl,
    ShrS,
    ShrU,
    Rotl,
    Rotr,
}

/// An operator on one word, which gives a word of its width.
#[derive(Clone, Copy, Debug, PartialEq, Eq)]
pub enum UnaryOp {
    Clz,
    Ctz,
    Popcnt,
    /// The word with the signed reading of the low 8 bits (Core 2.0).
    Extend8S,
    /// The word with the signed reading of the low 16 bits (Core 2.0).
    Extend16S,
    /// The word with the signed reading of the low 32 bits (Core 2.0): of a word of 32 bits itself.
    Extend32S,
}

/// A comparison of two words of one width, which gives 1 or 0 as a word of 32 bits.
#[derive(Clone, Copy, Debug, PartialEq, Eq)]
pub enum CompareOp {
    Eq,
    Ne,
    LtS,
    LtU,
    GtS,
    GtU,
    LeS,
    LeU,
    GeS,
    GeU,
}

/// A conversion between the widths.
#[derive(Clone, Copy, Debug, PartialEq, Eq)]
pub enum ConvertOp {
    /// The low 32 bits of a word of 64.
    WrapI64,
    /// The word of 64 bits with the signed reading of a word of 32.
    ExtendI32S,
    /// The word of 64 bits with the unsigned reading of a word of 32.
    ExtendI32U,
}

/// A load from memory: the type of the word, and the bits that are read where they are fewer, which
/// a signed load extends by their sign and an unsigned one by zeros.
#[derive(Clone, Copy, Debug, PartialEq, Eq)]
pub enum LoadOp {
    I32,
    I64,
    I32From8S,
    I32From8U,
    I32From16S,
    I32From16U,
    I64From8S,
    I64From8U,
    I64From16S,
    I64From16U,
    I64From32S,
    I64From32U,
}

/// A store to memory: the type of the word, and its low bits that are written where they are fewer.
#[derive(Clone, Copy, Debug, PartialEq, Eq)]
pub enum StoreOp {
    I32,
    I64,
    I32To8,
    I32To16,
    I64To8,
    I64To16,
    I64To32,
}

impl LoadOp {
    /// The type of the word that it gives.
    pub fn value_type(self) -> ValueType
        ensures { result ≡ load_type self }
    {
        match self {
            LoadOp::I32
            | LoadOp::I32From8S
            | LoadOp::I32From8U
            | LoadOp::I32From16S
            | LoadOp::I32From16U => ValueType::I32,
            LoadOp::I64
            | LoadOp::I64From8S
            | LoadOp::I64From8U
            | LoadOp::I64From16S
            | LoadOp::I64From16U
            | LoadOp::I64From32S
            | LoadOp::I64From32U => ValueType::I64,
        }
    }

    /// How many bytes it reads: 1, 2, 4 or 8.
    pub fn width(self) -> u32
        ensures { result ≡ load_width self }
    {
        match self {
            LoadOp::I32From8S | LoadOp::I32From8U | LoadOp::I64From8S | LoadOp::I64From8U => 1,
            LoadOp::I32From16S | LoadOp::I32From16U | LoadOp::I64From16S | LoadOp::I64From16U => 2,
            LoadOp::I32 | LoadOp::I64From32S | LoadOp::I64From32U => 4,
            LoadOp::I64 => 8,
        }
    }
}

impl StoreOp {
    /// The type of the word that it takes.
    pub fn value_type(self) -> ValueType
        ensures { result ≡ store_type self }
    {
        match self {
            StoreOp::I32 | StoreOp::I32To8 | StoreOp::I32To16 => ValueType::I32,
            StoreOp::I64 | StoreOp::I64To8 | StoreOp::I64To16 | StoreOp::I64To32 => ValueType::I64,
        }
    }

    /// How many bytes it writes: 1, 2, 4 or 8.
    pub fn width(self) -> u32
        ensures { result ≡ store_width self }
    {
        match self {
            StoreOp::I32To8 | StoreOp::I64To8 => 1,
            StoreOp::I32To16 | StoreOp::I64To16 => 2,
            StoreOp::I32 | StoreOp::I64To32 => 4,
            StoreOp::I64 => 8,
        }
    }
}
