//! Definitions of chaincodes, and their parts.

ghost use Rattle.std.specs.Prelude.{◌≡◌, ◌↔◌, IsSome, IfSome};
ghost use Rattle.std.specs.List.{list_all};
ghost use Rattle.fab_types.specs.Limits.{IsFuel, IsPolicyText, is_policy_byte};

use crate::limits::{MOST_FUEL, MOST_POLICY_BYTES};
use std::alloc::AllocError;
use std::marker::Model;
use wasm_profile::Profile;

/// How much fuel a call may spend: 1 to 10,000,000.
#[derive(Clone, Copy, PartialEq, Eq, Debug)]
pub struct Fuel {
    units: u32,
}

impl Model for Fuel {
    ghost use Rattle.std.specs.Prelude.{ℕ};
    ghost use Rattle.fab_types.specs.Limits.{IsFuel};

    ghost Value = { ℕ };

    ghost view = { λ f. f.units };

    ghost invariant = { λ f. IsFuel f.units };

    ghost inverse = { λ n. record { units = n } };
}

impl Fuel {
    /// So much fuel. None unless it is 1 to 10,000,000.
    pub fn new(units: u32) -> Option<Fuel>
        ensures accepted { IsSome result ↔ IsFuel units }
        ensures value { IfSome result (λ f. f ≡ units) }
    {
        if units == 0 || u64::from(units) > MOST_FUEL {
            return None;
        }
        Some(Fuel { units })
    }

    /// How much it is, 1 to 10,000,000.
    pub fn get(self) -> u32
        ensures value { result ≡ self }
        ensures limits { IsFuel self }
    {
        self.units
    }
}

/// Whether each byte is a character that the text of a policy may have.
fn are_policy_bytes(bytes: &[u8]) -> bool
    ensures { result ≡ list_all is_policy_byte bytes.now }
{
    bytes.iter().all(|b| matches!(b, b' '..=b'~'))
}

/// The text of a policy: 1 to 1,024 characters from the space to `~`. Whether it spells a policy is
/// not said here.
#[derive(Debug, Drop)]
pub struct PolicyText {
    bytes: Vec<u8>,
}

impl Model for PolicyText {
    ghost use Rattle.std.specs.Prelude.{List, ℕ};
    ghost use Rattle.fab_types.specs.Limits.{IsPolicyText};

    ghost Value = { List ℕ };

    ghost view = { λ t. t.bytes.items };

    ghost invariant = { λ t. IsPolicyText t.bytes.items };
}

impl PolicyText {
    /// The text of these bytes. None if there are none, more than 1,024 or others than those.
    pub fn new(bytes: Vec<u8>) -> Option<PolicyText>
        ensures accepted { IsSome result ↔ IsPolicyText bytes.items }
        ensures value { IfSome result (λ t. t ≡ bytes.items) }
    {
        if bytes.is_empty() || bytes.len() > MOST_POLICY_BYTES || !are_policy_bytes(&bytes) {
            return None;
        }
        Some(PolicyText { bytes })
    }

    /// The bytes, a character each.
    pub fn as_slice(&self) -> &[u8]
        ensures value { result.now ≡ self.now }
        ensures limits { IsPolicyText self.now }
    {
        &self.bytes
    }
}

impl Clone for PolicyText {
    ghost is_clone = { λ a b. b ≡ a };

    fn clone(&self) -> Result<PolicyText, AllocError> {
        Ok(PolicyText {
            bytes: self.bytes.clone()?,
        })
    }
}

/// How a chaincode is executed, and whose endorsements its calls need.
#[derive(Debug, Drop)]
pub struct Definition {
    /// By which profile the module is read.
    pub profile: Profile,
    /// Whether the module may be any that has the digest and the profile. Else it is one that the
    /// genesis file installs.
    pub is_open: bool,
    /// The SHA-256 of the module's bytes.
    pub digest: [u8; 32],
    /// What a call may spend.
    pub fuel: Fuel,
    /// Whose endorsements a call needs.
    pub policy: PolicyText,
}

impl Clone for Definition {
    ghost use Rattle.std.specs.Prelude.{◌≡◌};

    ghost is_clone = { λ a b. b ≡ a };

    fn clone(&self) -> Result<Definition, AllocError> {
        Ok(Definition {
            profile: self.profile,
            is_open: self.is_open,
            digest: self.digest,
            fuel: self.fuel,
            policy: self.policy.clone()?,
        })
    }
}
