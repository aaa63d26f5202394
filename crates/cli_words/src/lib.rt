//! The words of the program's command line: [`parse`] gives the [`Task`] that they name, and
//! [`Usage`] is the text that tells of them; [`words_reason`] says why words name none. All go by one
//! table of commands (`table.rt`).
#![tactic(auto)]

mod commands;
mod reason;
mod table;
mod task;
mod usage;
mod values;

pub use reason::words_reason;
pub use task::{Beginning, StatePart, Task, WordsFault, Work, parse};
pub use usage::Usage;
