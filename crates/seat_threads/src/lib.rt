//! Seats of a peer at work on threads: each endorses on a thread of its own and submits to the
//! intake, while one thread takes what was submitted, orders it, and commits each block as it
//! comes.
#![tactic(auto)]

mod committing;
mod counts;
mod crew;
mod desk;
mod endorsing;
mod refusal;
mod running;
mod worker;

pub use refusal::SeatsRefusal;
pub use running::{Report, run_seats};
