//! The simulator: what a proposal reads, writes and answers, before it is ordered.
//!
//! `specs/Execution.antt` has the execution that a proposal is by a book of chaincodes and modules,
//! on a plain state, and `specs/Answers.antt` the payload, the record or the refusal that follows
//! from how it ended. A call is executed by the definition that the state has of its chaincode,
//! else by the genesis. An execution depends on nothing but what it read. Who has fewer modules at
//! hand comes to the same, or to 406.
#![tactic(auto)]

mod executable;
mod laws;
mod refusal;
mod simulation;

pub use chaincode_book::{Book, Chaincode};
pub use laws::{parts_answer_alike, reads_alone};
pub use refusal::SimRefusal;
pub use simulation::{given_by, is_at_hand, rerun, simulate, simulate_in};
