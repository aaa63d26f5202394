//! The orderer: it cuts envelopes into batches, thins and orders each batch where that is asked
//! for, and makes a chain of blocks of them, each linked to the one before by its hash.
#![tactic(auto)]

mod arrangement;
mod chain;
mod laws;
mod maker;
mod making;
mod orderer;
mod report;

pub use arrangement::AbortCause;
pub use laws::ordering_laws;
pub use maker::BlockMaker;
pub use making::Made;
pub use orderer::Orderer;
pub use report::{BatchReport, OrderCause, OrderRefusal};
