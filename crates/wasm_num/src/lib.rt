//! The operators on integers of WebAssembly (Core 1.0, sections 4.3.2 and 4.3.4, and the sign
//! extensions of Core 2.0), on words of 32 and of 64 bits.
//!
//! `specs/Operators.antt` writes each operator as the standard does, on whole numbers, through the
//! unsigned and the signed reading of a word, once for both widths. The functions here are proved
//! equal to those definitions: `word32` and `word64` have `binary`, `unary`, `compare` and `eqz`,
//! and `convert` goes between the widths. Each is inlined, so that a call with a constant operator
//! is that operator alone. Nothing takes memory.
//!
//! Three laws are proved of the definitions, so that they are not taken on trust: results are words
//! of their types, division traps by zero and at the least number by -1 and nothing else traps, and
//! a quotient times its divisor with the remainder is the dividend (`specs/Laws.antt`).
#![tactic(auto)]

mod conversion;
mod laws;
pub mod word32;
pub mod word64;

pub use conversion::convert;
pub use laws::{quotients, results_are_words, traps};
