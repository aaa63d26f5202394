//! The commands `peer` and `checkpoint` of the ledger's program. `peer` is one process over lines,
//! which an organisation runs on a machine of its own beside a replicated log.
//!
//! [`peer`] reads the lines of a log, commits the blocks that they make to its store, and answers
//! between them what it is asked: it endorses proposals, answers questions, and says which blocks
//! it has. It answers each line once, in its order, by the blocks of its store and what the lines
//! of the log before it made of them, and by nothing else. What stands behind the last line's end
//! is not read: it may be a part of a line.
//!
//! [`checkpoint`] writes what is kept of the chain of such a store to a file.
//!
//! The state of a peer is [`LogPeer`](log_peer::LogPeer) of `log_peer`. What it answers is what
//! `peer_answers` says.
#![tactic(auto)]

mod aborted;
mod checkpointing;
mod explaining;
mod filter;
mod forks;
mod input;
mod joined;
mod laws;
mod logged;
mod marks;
mod opening;
mod peering;
mod round;

pub use checkpointing::{Checkpointing, checkpoint};
pub use laws::a_line_has_one_answer;
pub use peering::{Peering, peer};
