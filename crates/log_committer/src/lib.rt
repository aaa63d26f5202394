//! The committer of a log of blocks on a machine of its own: its state, and its step.
//!
//! A [`Committer`] puts the blocks of a log at the end of a peer's chain; a block that the chain
//! has already is compared with it. Who receives one list of blocks has one chain ([`peers_agree`]).
#![tactic(auto)]

mod laws;
mod receiving;
mod refusal;

pub use laws::peers_agree;
pub use receiving::{Committer, Received};
pub use refusal::ReceiveRefusal;
