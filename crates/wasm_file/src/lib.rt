//! The valid module of a profile that the bytes of a file spell: the decoder and the validator, one
//! after the other.
#![tactic(auto)]

mod module;

pub use module::{ModuleRefusal, defined_functions, valid_module};
