//! What a genesis installs, the chaincodes that it defines and more modules, and what else is at
//! hand.
//!
//! `specs/Books.antt` has the rules of a book. It stands below the simulator, so that who reads,
//! keeps or prints a genesis does not wait for the machine.
#![tactic(auto)]

mod book;

pub use book::{Book, Chaincode, Held};
