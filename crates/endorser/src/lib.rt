//! What a peer does with the payload of a simulation before it hands it out: it looks once more
//! whether all that was read is as it was, and puts its organisation's tag on it.
#![tactic(auto)]

mod endorsing;
mod rechecking;
mod sealing;

pub use endorsing::Endorser;
pub use rechecking::{recheck, recheck_behind};
pub use sealing::{seal, seal_in};
