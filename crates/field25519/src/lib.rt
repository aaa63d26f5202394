//! Arithmetic modulo p = 2^255 - 19, the field of Curve25519 and edwards25519 (RFC 8032, section
//! 5.1), and numbers below 2^256 as bytes and words. No memory is taken.
#![tactic(auto)]

mod choice;
mod field;
mod number;

pub use field::Field;
pub use number::{Number, Sum};
