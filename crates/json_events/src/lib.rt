//! The events of a run, line by line, and proposals by themselves.
//!
//! `read_event` gives the action that a line spells, over the data that `serde_json` reads in it,
//! and `read_proposal` the proposal, which has the fields of a begin but for `do`, `peer` and
//! `seat`. A line spells at most one (`a_line_spells_one_action`, `a_line_spells_one_proposal`).
//! `Bindings` keeps what a run's finishes gave under the names of their `as`, and makes the
//! envelope that a `use` asks for. `value_of`, `take_argument`, `argument`, `bytes_of` and `name`
//! read what lines of other forms have too.
#![tactic(auto)]

mod action;
mod bindings;
mod fields;
mod laws;
mod line;
mod members;
mod values;

pub use action::{Action, BadLine};
pub use bindings::{Bindings, Endorsed};
pub use fields::take_argument;
pub use laws::{a_line_spells_one_action, a_line_spells_one_proposal};
pub use line::{read_event, read_proposal, value_of};
pub use values::{argument, bytes_of, name};
