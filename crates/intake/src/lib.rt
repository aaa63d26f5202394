//! The intake: a bounded queue of envelopes from several senders to one receiver.
//!
//! Each envelope that was put is taken at most once, and those of one sender in its order. Once
//! each sender is retired and `take` has then answered None, none is missing.
#![tactic(auto)]

mod opening;
mod receiver;
mod rule;
mod sender;

pub use opening::Intake;
pub use receiver::ReceiverSeat;
pub use rule::{Parcel, View};
pub use sender::{Full, SenderSeat};
