//! Early abort and reordering: which transactions of a batch read an older version of a key than
//! another one, and an order of the others in which none sees a key that an earlier one writes.
#![tactic(auto)]

mod counting;
mod edges;
mod laws;
mod matrix;
mod pick;
mod picking;
mod plan;
mod stale;
mod writes;

pub use laws::plan_laws;
pub use pick::Pick;
pub use plan::{Plan, reorder};
pub use stale::early_abort;
