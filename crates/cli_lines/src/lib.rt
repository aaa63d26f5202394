//! What every command of the ledger's program stands on: the files that it is given, the lines that
//! it prints, and why it ends with a failure.
//!
//! [`Files`] is where files are read and written, [`MemoryFiles`] such files in memory,
//! [`genesis_in`] reads what a system begins with, [`modules_in`] the modules at hand beside its own,
//! and [`signers_in`] the seeds at hand.
//! What [`explain`] and its like say on the standard error stands beside a line that refuses.
//! [`write_whole`] writes a file that is the new one to its end, or stays as it was.
//! [`Printer`] is where lines are printed: contracts see of it how many texts were printed, whether
//! one could not be, and what its writer holds, where that is known. [`Failure`] says why a command
//! was not done.
#![tactic(auto)]

mod committed;
mod explaining;
mod failure;
mod files;
mod keys;
mod lines;
mod meanings;
mod memory_files;
mod memory_store;
mod missing;
mod opening;
mod printer;
mod verdict;
mod whole;

pub use committed::CommittedText;
pub use explaining::{
    Location, STANDARD_INPUT, explain, explain_bad_line, explain_failure, explain_number,
    explain_numbered, explain_read, explain_trouble, read_all_explained, read_explained,
};
pub use failure::Failure;
pub use files::{Access, FileFault, Files, Target, read_all, read_at_most};
pub use keys::{keys_in, need_seeds, signers_in};
pub use lines::{hex_of, id_of, print_committed, print_line, print_payload, version_of};
pub use meanings::{TAKE_AGAIN, block_words, flags_words, number_words, simulation_words};
pub use memory_files::MemoryFiles;
pub use memory_store::MemoryStore;
pub use missing::{block_needs_module, explain_missing, explain_missing_in, first_missing};
pub use opening::{genesis_holding, genesis_in, modules_in};
pub use printer::Printer;
pub use verdict::{print_audit, print_missing};
pub use whole::{Content, explain_target, part_of, write_whole};
