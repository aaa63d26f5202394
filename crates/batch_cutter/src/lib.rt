//! Cuts messages into batches, by their count, their sizes and timeouts. It knows nothing of what a
//! message is but its size.
#![tactic(auto)]

mod cut;
mod cutter;
mod laws;

pub use cut::{Cause, Cut, Offered, Weigh};
pub use cutter::Cutter;
pub use laws::division_laws;
