//! A peer on threads: one writer that commits blocks, and seats that endorse and read.
//!
//! A list is a chain of whole blocks with their flags. Each seat keeps the list that it has seen or
//! was told of, and answers by the state after a list that begins with it; no seat waits. The
//! writer puts one whole block after its list in one step.
#![tactic(auto)]

mod refusal;
mod seat;
mod writer;

pub use refusal::{FinishRefusal, ReopenRefusal};
pub use seat::{Begun, Seat};
pub use snapshot_cell::{OpenRefusal, TakeRefusal, Told};
pub use writer::{Peer, PeerWriter};
