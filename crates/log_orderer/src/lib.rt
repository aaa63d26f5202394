//! A replica of the orderer: it reads a log line by line and cuts the log's blocks.
//!
//! Each line of a log is an envelope in hex or the word `tick`. [`Replica::read`] does what the
//! line asks for, or skips the line (`specs/Log.antt`). What is skipped depends on the line and on
//! what was read before it alone, so that all who read one log make one chain ([`log_laws`]). Where
//! the log is lost, the marks of the chain make it again ([`a_chain_is_cut_again`]).
#![tactic(auto)]

mod asked;
mod batch;
mod laws;
mod replica;
mod skip;

pub use batch::LogBatch;
pub use laws::{a_chain_is_cut_again, a_cut_log_reads_on, log_laws};
pub use replica::{LineReport, Replica};
pub use skip::Skip;
