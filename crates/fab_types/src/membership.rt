//! Memberships: the organisations of a ledger from some block on, and the policy that changes them.

ghost use Rattle.std.specs.Prelude.{◌≡◌, ◌↔◌, IsSome, IfSome};
ghost use Rattle.fab_types.specs.Memberships.{IsMembers};

use crate::definition::PolicyText;
use crate::limits::MOST_ORGANISATIONS;
use crate::ordered::are_ascending;
use crate::org_name::OrgName;
use std::alloc::AllocError;
use std::marker::Model;

/// By which key a member's tags are checked.
#[derive(Clone, Copy, PartialEq, Eq, Debug, Drop)]
pub enum MemberKey {
    /// By the one that the genesis file gives to its name.
    Kept,
    /// By a public key of Ed25519 of its own, which is not checked here to be a point.
    Public([u8; 32]),
}

/// An organisation that is a member.
#[derive(Debug, Drop)]
pub struct Member {
    pub name: OrgName,
    pub key: MemberKey,
}

impl Clone for Member {
    ghost is_clone = { λ a b. b ≡ a };

    fn clone(&self) -> Result<Member, AllocError> {
        Ok(Member {
            name: self.name.clone()?,
            key: self.key,
        })
    }
}

/// The members of a ledger: 1 to 16, each name once, in the names' order.
#[derive(Debug, Drop)]
pub struct Members {
    items: Vec<Member>,
}

impl Model for Members {
    ghost use Rattle.std.specs.Prelude.{List};
    ghost use Rattle.fab_types.specs.declared.membership.Member.{Member};
    ghost use Rattle.fab_types.specs.Memberships.{IsMembers};

    ghost Value = { List Member };

    ghost view = { λ s. s.items.items };

    ghost invariant = { λ s. IsMembers s.items.items };
}

impl Members {
    /// These members. None if there are none or more than 16, or their names do not ascend.
    pub fn new(items: Vec<Member>) -> Option<Members>
        ensures accepted { IsSome result ↔ IsMembers items.items }
        ensures value { IfSome result (λ s. s ≡ items.items) }
    {
        if items.is_empty() || items.len() > MOST_ORGANISATIONS || !are_ascending(&items) {
            return None;
        }
        Some(Members { items })
    }

    /// The members, in the names' order.
    pub fn as_slice(&self) -> &[Member]
        ensures value { result.now ≡ self.now }
        ensures limits { IsMembers self.now }
    {
        &self.items
    }
}

impl Clone for Members {
    ghost is_clone = { λ a b. b ≡ a };

    fn clone(&self) -> Result<Members, AllocError> {
        Ok(Members {
            items: self.items.clone()?,
        })
    }
}

/// Who the organisations of a ledger are, and whose endorsements upgrades and amendments need.
#[derive(Debug, Drop)]
pub struct Membership {
    /// Its number: one more than that of the membership before it, and 0 of the genesis file's. So
    /// of two that were made beside each other one counts.
    pub serial: u32,
    pub members: Members,
    /// Whose endorsements an upgrade or the next membership needs.
    pub policy: PolicyText,
}

impl Clone for Membership {
    ghost is_clone = { λ a b. b ≡ a };

    fn clone(&self) -> Result<Membership, AllocError> {
        Ok(Membership {
            serial: self.serial,
            policy: self.policy.clone()?,
            members: self.members.clone()?,
        })
    }
}
