//! The opcodes of operators on integers and of accesses to memory, of each profile
//! (`specs/Operators.antt`).
//!
//! A further opcode is a row of a table there and an arm of a `match` here. The profiles differ by
//! the rows of the sign extensions, which profile 2 has and profile 1 has not.
#![tactic(auto)]

mod operators;

pub use operators::{load, operator, store};
