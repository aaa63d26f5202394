//! The command `run` of the ledger's program: the events of a file, on the system that a genesis
//! opens.
//!
//! [`run`] prints what each line comes to, then the state of the first peer and the audit of its
//! chain, and writes that chain to a store where one is named.
#![tactic(auto)]

mod explaining;
mod lines;
mod placing;
mod reading;
mod replacing;
mod replies;
mod session;
mod storing;
mod verdict;

pub use session::{RunFiles, run};
