//! Whether an envelope is endorsed.
//!
//! A policy (`policy_language`) is satisfied where some good set of it lies within the
//! organisations that endorsed. A definition of a chaincode can be used where its module is
//! installed and its text is a policy, and an open one, which names any module by its digest, where
//! its text is one (`specs/Installed.antt`).
//!
//! Who the organisations are, and which policy upgrades and amendments need, is by the membership
//! in the state before a block where one stands there that can be used, else by the genesis
//! (`specs/Membership.antt`): [`Standing`].
//!
//! A tag is right where it is that of the organisation that it names, on the payload's bytes. An
//! envelope is endorsed where the organisations of which it carries a right tag satisfy a policy
//! (`specs/Endorsed.antt`): for a call the one that its chaincode has in the state, and for an
//! upgrade or an amendment the one that stands. Which tags are right depends on no more of the
//! state than who stands there, so that it can be found for many blocks at once.
#![tactic(auto)]

mod asking;
mod check;
mod evaluate;
mod fault;
mod installed;
mod judge;
mod laws;
mod members;
mod membership;
mod organisations;
mod parallel;
mod payloads;
mod rules;
mod source;
mod standing;
mod tags;
mod workers;

pub use asking::{satisfies, satisfies_in};
pub use check::{
    check_plain, check_plain_in, check_with_right_orgs, check_with_right_orgs_in, is_endorsed,
    is_endorsed_in,
};
pub use evaluate::satisfied;
pub use fault::DefinitionFault;
pub use installed::{Installed, ModuleId, ModulePlace, Usable};
pub use laws::{
    a_signature_is_of_one_ledger, an_endorsed_envelope_carries_a_right_tag, public_keys_differ,
    unamended, usable_definitions_are_spelled,
};
pub use membership::{
    is_next, is_usable, membership_value, usable_membership, value_of_membership,
};
pub use organisations::is_tag;
pub use parallel::{Gate, check_all, check_all_in};
pub use rules::{ChaincodePolicy, Rules};
pub use standing::Standing;
pub use tags::right_orgs_of_blocks;
pub use workers::Workers;
