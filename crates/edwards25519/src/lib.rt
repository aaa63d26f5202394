//! Points of the curve edwards25519 (RFC 8032, section 5.1): sums, multiples and encodings.
#![tactic(auto)]

mod choice;
mod comb;
mod extended;
mod point;
mod prepared;
mod table;

pub use choice::chosen;
pub use point::Point;
