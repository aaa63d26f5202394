//! Questions about a ledger, a line each, and their answers as JSON.
//!
//! [`read_question`] gives the [`Question`] that a line spells, over the data that `serde_json`
//! reads in it; a line spells at most one ([`a_line_spells_one_question`]). [`answer_text`] gives the
//! answer by a genesis and a chain (`specs/Answers.antt`): a state is the one after the chain, and a
//! policy the one in that state. Blocks are read where they lie (`store_devices::Blocks`).
#![tactic(auto)]

mod answer;
mod asked_orgs;
mod calling;
mod entries;
mod fields;
mod laws;
mod line;
mod orgs;
mod policies;
mod question;
mod standing;
mod transactions;
mod values;
mod writes;

pub use answer::answer_text;
pub use asked_orgs::AskedOrgs;
pub use laws::a_line_spells_one_question;
pub use line::read_question;
pub use question::Question;
