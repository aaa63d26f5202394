//! The cell of the newest snapshot: one writer, and seats that never wait.
//!
//! A list is the blocks of a snapshot with their flags. The writer publishes a snapshot that has
//! one block more, in one step. What a seat takes begins with all that this seat has seen or was
//! told of.
#![tactic(auto)]

mod history;
mod kept;
mod knowledge;
mod opening;
mod reader;
mod refusal;
mod writer;

pub use opening::open;
pub use reader::Reader;
pub use refusal::{OpenRefusal, TakeRefusal};
pub use writer::{Told, Writer};
