//! A chain in a store on the disk, as it grows.
//!
//! [`StoredChain`] is the `Committer` of `log_committer` over a file: each block of a log is on the
//! disk before it is told as committed, and is read there when it is asked for. [`LogPeer`] reads
//! the lines of a log, and commits the blocks that they make. [`StoreRefusal`] says why a store, or
//! a block for it, is refused; [`Unopened`] hands back the file of a store that is not opened.
#![tactic(auto)]

mod opening;
mod peering;
mod refusal;
mod storing;

pub use opening::recommit_all;
pub use peering::{LogPeer, PeerBatch, PeerReport};
pub use refusal::{StoreRefusal, Unopened};
pub use storing::StoredChain;
