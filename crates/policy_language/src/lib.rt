//! The language of endorsement policies: policies as trees, and the texts that spell them.
//!
//! A policy is the name of an organisation, or an operator over policies: all of them, any of them,
//! or at least so many of them. Its *good sets* (`specs/GoodSets.antt`) are the sets of
//! organisations that suffice.
//!
//! A text spells a policy by the grammar of `specs/Spelling.antt`, within the limits of
//! `specs/Limits.antt`: [`parse`] reads it.
#![tactic(auto)]

mod fault;
mod laws;
mod names;
mod operator;
mod org_set;
mod policy;
mod reader;
mod reading;

pub use fault::PolicyFault;
pub use laws::{its_own_names_suffice, spelled_once};
pub use names::names_in_text;
pub use org_set::{OrgSet, is_among};
pub use policy::{Policies, Policy};
pub use reading::{parse, policy_in_text};
