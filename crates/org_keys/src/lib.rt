//! Keys of organisations: which tags are right under them, and the tags that a process makes.
//!
//! An organisation has a shared key, which everybody knows who checks its tags, or a public key of
//! Ed25519, whose seed it keeps. Under rules 2 each public key is bound to its ledger: what is
//! signed under it begins with the genesis file's digest (`specs/Ledgers.antt`). The seeds that a
//! process has at hand are its [`Signers`].
#![tactic(auto)]

mod front;
mod organisation;
mod public_key;
mod signers;
mod tag_key;

pub use organisation::{OrgKey, Organisation};
pub use public_key::{PublicKey, is_public_key};
pub use signers::Signers;
pub use tag_key::TagKey;
