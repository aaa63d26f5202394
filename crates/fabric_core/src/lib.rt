//! The ledger as a pure state machine over events.
//!
//! A `System` is peers with seats, a queue and an orderer. Each event replies and leaves what
//! `specs/System.antt` says of an abstract world of heights, seats, the queue and the orderer:
//! contracts see a system as that world. `run` is a run of those steps, and on it stands the
//! theorem of the ledger: where of each VALID transaction a right tag was handed out by a finish of
//! the run, for this very payload, each VALID transaction, executed again alone on the plain state
//! just before its place, makes the same reads, result and writes, and each peer's state is that of
//! this serial run. `audit` tests that of one chain, and [`Auditing`] that of one whose blocks come
//! one after another.
//!
//! Chaincode is run by `simulator`, payloads are rechecked and sealed by `endorser`, envelopes are
//! checked by `endorsement_policy`, ordered by `orderer`, and blocks committed by `committer`.
//! Who checks them, one thread or several workers, changes no answer.
#![tactic(auto)]

mod auditing;
mod checks;
mod event;
mod laws;
mod peer;
mod running;
mod system;

pub use auditing::{Auditing, audit};
pub use event::{Event, Reply};
pub use laws::{honest_chains_pass_the_audit, runs_are_honest};
pub use ledger_setting::Audit;
pub use running::{Ran, run};
pub use system::System;
