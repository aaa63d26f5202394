//! The commands of the ledger's program that show a module ([`check`], [`digest`]), a call
//! ([`simulate`], and [`trace`] step by step) or a store ([`audit`], [`show`], [`state`] and
//! [`marks`]), whose chain is committed again. [`version`] tells which program it is.
//!
//! None of them holds a block. What `show`, `marks` and `state --key` print of the blocks is held
//! as text until the store was read to its end (`texts`).
//!
//! `show` and `state` print that chain, and the state after it, as lines of JSON (`json_chain`).
//! [`print_ending`] prints what is found of the blocks. Contracts say which lines the writer has
//! then (`specs/Lines.antt`).
#![tactic(auto)]

mod auditing;
mod chain;
mod checking;
mod entries;
mod explaining;
mod findings;
mod laws;
mod marking;
mod members;
mod replaying;
mod showing;
mod simulation;
mod sinks;
mod sought;
mod span;
mod texts;
mod tracing;
mod versioning;
mod writes;

pub use auditing::audit;
pub use checking::{check, digest};
pub use findings::print_ending;
pub use laws::stores_hold_chains;
pub use marking::marks;
pub use showing::{Asked, Part, Shown, show, state};
pub use simulation::{Simulated, simulate};
pub use span::Span;
pub use tracing::trace;
pub use versioning::version;
