//! Envelopes given to an orderer one after another, with a count of those that it refuses, and the
//! cut of what waits.
#![tactic(auto)]

mod giving;

pub use giving::{cut, give};
