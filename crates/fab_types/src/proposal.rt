//! What clients propose: calls, upgrades and amendments.

ghost use Rattle.std.specs.Prelude.{◌≡◌};
ghost use Rattle.fab_types.specs.Proposals.{nonce_of};

use crate::definition::Definition;
use crate::membership::Membership;
use crate::name::Name;
use crate::value::Value;
use std::alloc::AllocError;

/// A call of a chaincode.
#[derive(Debug, Drop)]
pub struct Call {
    pub chaincode: Name,
    pub argument: Value,
    /// What tells two proposals of the same call apart.
    pub nonce: [u8; 16],
}

impl Clone for Call {
    ghost is_clone = { λ a b. b ≡ a };

    fn clone(&self) -> Result<Call, AllocError> {
        Ok(Call {
            chaincode: self.chaincode.clone()?,
            argument: self.argument.clone()?,
            nonce: self.nonce,
        })
    }
}

/// A new definition of a chaincode.
#[derive(Debug, Drop)]
pub struct Upgrade {
    pub chaincode: Name,
    pub definition: Definition,
    /// What tells two proposals of the same upgrade apart.
    pub nonce: [u8; 16],
}

impl Clone for Upgrade {
    ghost is_clone = { λ a b. b ≡ a };

    fn clone(&self) -> Result<Upgrade, AllocError> {
        Ok(Upgrade {
            chaincode: self.chaincode.clone()?,
            definition: self.definition.clone()?,
            nonce: self.nonce,
        })
    }
}

/// The next membership.
#[derive(Debug, Drop)]
pub struct Amend {
    pub membership: Membership,
    /// What tells two proposals of the same membership apart.
    pub nonce: [u8; 16],
}

impl Clone for Amend {
    ghost is_clone = { λ a b. b ≡ a };

    fn clone(&self) -> Result<Amend, AllocError> {
        Ok(Amend {
            membership: self.membership.clone()?,
            nonce: self.nonce,
        })
    }
}

/// What a client asks for.
#[derive(Debug, Drop)]
pub enum Proposal {
    Call(Call),
    Upgrade(Upgrade),
    Amend(Amend),
}

impl Proposal {
    /// What tells two proposals of the same apart.
    pub fn nonce(&self) -> [u8; 16]
        ensures { result ≡ nonce_of self.now }
    {
        match self {
            Proposal::Call(call) => call.nonce,
            Proposal::Upgrade(upgrade) => upgrade.nonce,
            Proposal::Amend(amend) => amend.nonce,
        }
    }
}

impl Clone for Proposal {
    ghost is_clone = { λ a b. b ≡ a };

    fn clone(&self) -> Result<Proposal, AllocError> {
        match self {
            Proposal::Call(call) => Ok(Proposal::Call(call.clone()?)),
            Proposal::Upgrade(upgrade) => Ok(Proposal::Upgrade(upgrade.clone()?)),
            Proposal::Amend(amend) => Ok(Proposal::Amend(amend.clone()?)),
        }
    }
}
