//! A store's chain, committed again from the empty state on.
//!
//! [`replay_store`] reads a store to its end, or to damage, and commits its whole blocks one after
//! another, as a peer would: headers are tested, envelopes are checked by the rules of the genesis,
//! and flags are computed anew. It trusts neither the flags in the store nor whoever wrote it. It
//! holds no block, and hands each to a [`BlockSink`].
//! [`recommit`] does so with blocks that were loaded, and takes them only if all of them fit and
//! have the flags of the table. [`Recommit`] does so with those of a store that is read, and holds
//! none. Who checks the tags is told by [`TagChecks`], and who watches by
//! [`Watch`].
#![tactic(auto)]

mod block_sink;
mod pending;
mod pushing;
mod rechecking;
mod recommitting;
mod refusal;
mod replaying;
mod tags;
mod watch;

pub use block_sink::{BlockSink, Unheld};
pub use rechecking::Recommit;
pub use recommitting::recommit;
pub use refusal::RecommitRefusal;
pub use replaying::{Replayed, replay_store};
pub use tags::TagChecks;
pub use watch::{Unwatched, Watch};
