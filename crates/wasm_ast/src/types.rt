//! Types (Core 1.0, section 2.3).

use crate::functions::Parameters;

/// A type of values: words of 32 or of 64 bits. Floats are not in the profile.
#[derive(Clone, Copy, Debug, PartialEq, Eq)]
pub enum ValueType {
    I32,
    I64,
}

/// What a block leaves on the stack: nothing, or one value.
pub type BlockType = Option<ValueType>;

/// The type of a function. A function of Core 1.0 has at most one result.
#[derive(Debug, Drop)]
pub struct FuncType {
    pub params: Parameters,
    pub result: Option<ValueType>,
}

/// The least size of a memory or a table, and the greatest where one is declared.
///
/// A memory counts pages of 65,536 bytes, a table its entries.
#[derive(Clone, Copy, Debug, PartialEq, Eq)]
pub struct Limits {
    pub least: u32,
    pub greatest: Option<u32>,
}

/// The type of a global.
#[derive(Clone, Copy, Debug, PartialEq, Eq)]
pub struct GlobalType {
    pub value_type: ValueType,
    pub is_variable: bool,
}
