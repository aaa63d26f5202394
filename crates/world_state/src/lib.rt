//! `Snapshot`: the blocks of a chain with their flags, and the state after them.
//!
//! Contracts see a snapshot as its chain. What it answers of a key is what the last VALID writer in
//! that chain left there, with that writer's version: this is the invariant of its map. It also
//! keeps the ids of the chain's transactions, each with the block where it stands first, and for
//! each block the last one up to it that has a VALID amendment. The snapshot of a longer chain
//! shares the blocks, and the pages of the map and of the ids that its last block does not change.
#![tactic(auto)]

mod ids;
mod index;
mod judged;
mod past;
mod ranges;
mod shared_blocks;
mod snapshot;
mod within;
mod writes;

pub use ids::{TxIds, add_id, tx_ids};
pub use judged::Judged;
pub use past::Past;
pub use ranges::{first_entries, range_in, range_of};
pub use snapshot::Snapshot;
pub use writes::{StateMap, apply_block};
