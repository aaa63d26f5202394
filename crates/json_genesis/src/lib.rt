//! The genesis file: what a ledger begins with, as one JSON object; and the modules file: what a
//! process has at hand beside it, as a JSON list.
//!
//! `read_genesis` gives the genesis that a text spells (`specs/Spelling.antt`), with modules
//! decoded and validated and policies parsed; `read_genesis_holding` with modules of a modules file
//! at hand in its book. What its organisations, peers and policies have to do
//! with one another (`specs/Opening.antt`) holds of each that is read. `read_modules` gives the
//! modules that a text spells, each as one of a genesis file's `modules`.
#![tactic(auto)]

mod book;
mod chaincodes;
mod definition;
mod each;
mod fields;
mod laws;
mod lists;
mod modules;
mod modules_file;
mod numbers;
mod organisations;
mod peers;
mod read;
mod refusal;

pub use laws::{modules_spelled_once, spelled_once};
pub use modules_file::read_modules;
pub use read::{read_genesis, read_genesis_holding};
pub use refusal::GenesisRefusal;
