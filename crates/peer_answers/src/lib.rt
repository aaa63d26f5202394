//! What a peer answers to a line that asks it for something: it endorses a call on the state after
//! its chain, or refuses it; it answers a question of that chain; it says which block it has.
//!
//! [`answer_each`] answers lines by workers at once. [`Line`] says what a line asks for, and
//! [`Seen`] what organisations say of blocks.
#![tactic(auto)]

mod ahead;
mod answer;
mod answering;
mod laws;
mod line;
mod log_genesis;
mod numbers;
mod place;
mod seen;
mod words;

pub use ahead::answer_each;
pub use answer::{Answer, CallRefusal};
pub use answering::{Answering, place_in};
pub use laws::{seen_is_no_payload, what_is_endorsed_is_right};
pub use line::{Asked, Entry, Line, Request};
pub use log_genesis::LogGenesis;
pub use numbers::number_in;
pub use place::Place;
pub use seen::{Seen, SignedSeen, has_public_key, is_signed, seen_in, signed_seen_in};
pub use words::parted;
