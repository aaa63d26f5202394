//! Organisations and their keys.

ghost use Rattle.std.specs.Prelude.{◌≡◌, option_map};
ghost use Rattle.org_keys.specs.Keys.{is_right_by, point_of};
ghost use Rattle.org_keys.specs.Ledgers.{bound_to, key_in, org_in};
ghost use Rattle.org_keys.specs.Ledgers.{is_bound_to, is_key_of, is_unbound};

use crate::front::tag_front;
use crate::public_key::PublicKey;
use crate::tag_key::TagKey;
use fab_types::{Edition, OrgName, Tag};
use std::alloc::AllocError;

/// The key by which an organisation's tags are checked. It has no `Debug`, so that no shared key is
/// printed.
#[derive(Drop)]
pub enum OrgKey {
    /// Its tags are HMACs under this key, which also makes them.
    Shared(TagKey),
    /// Its tags are signatures, made by the seed of this key.
    Public(PublicKey),
    /// So they are, for one ledger alone: the one whose genesis file has this SHA-256, which is
    /// signed too.
    Bound(PublicKey, [u8; 32]),
}

/// An organisation and its key.
#[derive(Drop)]
pub struct Organisation {
    pub name: OrgName,
    pub key: OrgKey,
}

impl OrgKey {
    /// Whether this is a right tag of these bytes under the key. One of the other kind is not.
    pub fn is_right(&self, bytes: &[u8], tag: &Tag) -> bool
        ensures { result ≡ is_right_by self.now bytes.now tag.now }
    {
        match (self, tag) {
            (OrgKey::Shared(key), Tag::Hmac(tag)) => hmac_tag::check(key.as_slice(), bytes, tag),
            (OrgKey::Public(key), Tag::Ed25519(signature)) => {
                ed25519::verify(key.as_bytes(), bytes, signature)
            }
            (OrgKey::Bound(key, ledger), Tag::Ed25519(signature)) => {
                ed25519::verify_behind(key.as_bytes(), &tag_front(ledger), bytes, signature)
            }
            (OrgKey::Shared(_), Tag::Ed25519(_)) => false,
            (OrgKey::Public(_), Tag::Hmac(_)) => false,
            (OrgKey::Bound(_, _), Tag::Hmac(_)) => false,
        }
    }

    /// The public key, where the key is one.
    pub fn public(&self) -> Option<&PublicKey>
        ensures { option_map (λ k. k.now) result ≡ point_of self.now }
    {
        match self {
            OrgKey::Shared(_) => None,
            OrgKey::Public(key) => Some(key),
            OrgKey::Bound(key, _) => Some(key),
        }
    }

    /// The key as it is in a ledger under the rules of an edition, whose genesis file has this
    /// SHA-256: under rules 2 a public key is bound to it.
    pub fn in_ledger(self, edition: Edition, ledger: &[u8; 32]) -> OrgKey
        ensures { result ≡ key_in edition ledger.now self }
    {
        match edition {
            Edition::First => self,
            Edition::Second => self.bound_to(ledger),
        }
    }

    fn bound_to(self, ledger: &[u8; 32]) -> OrgKey
        ensures { result ≡ bound_to ledger.now self }
    {
        match self {
            OrgKey::Shared(key) => OrgKey::Shared(key),
            OrgKey::Public(key) => OrgKey::Bound(key, *ledger),
            OrgKey::Bound(key, other) => OrgKey::Bound(key, other),
        }
    }

    /// Whether this may be a key of such a ledger: under rules 1 one that is not bound, under
    /// rules 2 a shared one, or one that is bound to it.
    pub fn is_of(&self, edition: Edition, ledger: &[u8; 32]) -> bool
        ensures { result ≡ is_key_of edition ledger.now self.now }
    {
        match edition {
            Edition::First => self.is_unbound(),
            Edition::Second => self.is_bound_to(ledger),
        }
    }

    fn is_unbound(&self) -> bool
        ensures { result ≡ is_unbound self.now }
    {
        match self {
            OrgKey::Shared(_) => true,
            OrgKey::Public(_) => true,
            OrgKey::Bound(_, _) => false,
        }
    }

    fn is_bound_to(&self, ledger: &[u8; 32]) -> bool
        ensures { result ≡ is_bound_to ledger.now self.now }
    {
        match self {
            OrgKey::Shared(_) => true,
            OrgKey::Public(_) => false,
            OrgKey::Bound(_, other) => *other == *ledger,
        }
    }
}

impl Organisation {
    /// The organisation with its key as it is in a ledger under the rules of an edition, whose
    /// genesis file has this SHA-256.
    pub fn in_ledger(self, edition: Edition, ledger: &[u8; 32]) -> Organisation
        ensures { result ≡ org_in edition ledger.now self }
    {
        let Organisation { name, key } = self;
        let key = key.in_ledger(edition, ledger);
        Organisation { name, key }
    }
}

impl Clone for OrgKey {
    ghost is_clone = { λ a b. b ≡ a };

    fn clone(&self) -> Result<OrgKey, AllocError> {
        match self {
            OrgKey::Shared(key) => Ok(OrgKey::Shared(key.clone()?)),
            OrgKey::Public(key) => Ok(OrgKey::Public(key.clone()?)),
            OrgKey::Bound(key, ledger) => Ok(OrgKey::Bound(key.clone()?, *ledger)),
        }
    }
}

impl Clone for Organisation {
    ghost is_clone = { λ a b. b ≡ a };

    fn clone(&self) -> Result<Organisation, AllocError> {
        Ok(Organisation {
            name: self.name.clone()?,
            key: self.key.clone()?,
        })
    }
}
