//! What the ledger's program tells by numbers and names: what each number and flag stands for, how
//! large values may be, and how names are spelled.
//!
//! Each of the four tables is a `static` of rows in its module, and all texts of it stand there
//! alone: `cli_lines` takes its words from it, and [`table_of`] is all of it as JSON, of which the
//! node, the scripts, the page and the documents have theirs.
#![tactic(auto)]

mod flags;
mod json;
mod limits;
mod names;
mod numbers;

pub use flags::{FlagRow, flag_rows};
pub use json::table_of;
pub use limits::{LimitRow, limit_rows};
pub use names::{NameRow, name_rows};
pub use numbers::{Meaning, NumberRow, meaning_of, number_rows};
