//! Checkpoints: what is kept of a chain behind its last block, as bytes that each who has the chain
//! and the genesis file writes alike.
//!
//! [`write_checkpoint`] writes one, in pieces that it hashes on the way, and gives its digest, the
//! 32 bytes at its end. [`checkpoint_digest`] gives the digest alone. `specs/Checkpoint.antt` says
//! what the bytes are, and [`checkpoints_agree`] that there is one spelling.
#![tactic(auto)]

mod fault;
mod hashing;
mod item;
mod laws;
mod nowhere;
mod writing;

pub use fault::CheckpointFault;
pub use laws::{checkpoints_agree, checkpoints_differ};
pub use writing::{checkpoint_digest, write_checkpoint};
