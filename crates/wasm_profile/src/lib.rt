//! Profiles of modules: which instructions a module may have.
//!
//! A definition of a chaincode names the profile by its number, and the decoder reads by it.
#![tactic(auto)]

mod profile;

pub use profile::Profile;
