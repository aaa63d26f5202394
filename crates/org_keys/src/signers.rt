//! The seeds at hand, and the tags that are made by them.

ghost use Rattle.std.specs.Prelude.{◌≡◌, ◌++◌, [], option_map};
ghost use Rattle.org_keys.specs.Signers.{is_at_hand, seed_for, signed, tag_for};

use crate::front::tag_front;
use crate::organisation::OrgKey;
use crate::public_key::PublicKey;
use ed25519::SigningKey;
use fab_types::Tag;
use std::alloc::Global;
use std::marker::Model;

/// The seeds of Ed25519 that a process has at hand, with their public keys. It has no `Debug`, so
/// that none is printed. Contracts see the seeds.
#[derive(Drop)]
pub struct Signers {
    keys: Vec<SigningKey>,
}

impl Model for Signers {
    ghost use Rattle.org_keys.specs.Signers.{Seeds};

    ghost Value = { Seeds };

    ghost view = { λ s. s.keys.items };
}

impl Signers {
    /// These keys.
    pub fn new(keys: Vec<SigningKey>) -> Signers
        ensures { result ≡ keys.items }
    {
        Signers { keys }
    }

    /// No seeds. It takes no memory.
    pub fn none(alloc: Global) -> Signers
        ensures { result ≡ [] }
    {
        Signers {
            keys: Vec::new(alloc),
        }
    }

    /// The first key at hand of which this is the public one.
    fn signing_key(&self, public: &PublicKey) -> Option<&SigningKey>
        ensures { option_map (λ k. k.now) result ≡ seed_for self.now public.now }
    {
        let public = public.as_bytes();
        self.keys.iter().find(|key| key.public_key() == *public)
    }

    /// Whether tags can be made that are right under this key: it is a shared one, or its seed is
    /// at hand.
    pub fn has(&self, key: &OrgKey) -> bool
        ensures { result ≡ is_at_hand self.now key.now }
    {
        match key {
            OrgKey::Shared(_) => true,
            OrgKey::Public(public) => self.signing_key(public).is_some(),
            OrgKey::Bound(public, _) => self.signing_key(public).is_some(),
        }
    }

    /// What is put on some bytes for who has this key: an HMAC under a shared one, a signature by
    /// the seed of a public one, for its ledger alone where it is bound. Where there is no key, or
    /// its seed is not at hand, an HMAC under the empty key, which counts for nothing. No memory is
    /// taken.
    pub fn tag(&self, key: Option<&OrgKey>, bytes: &[u8]) -> Tag
        ensures { result ≡ tag_for self.now (option_map (λ k. k.now) key.entry) bytes.now }
    {
        match key {
            Some(OrgKey::Shared(key)) => Tag::Hmac(hmac_tag::tag(key.as_slice(), bytes)),
            Some(OrgKey::Public(public)) => self.signed(public, &[], bytes),
            Some(OrgKey::Bound(public, ledger)) => self.signed(public, &tag_front(ledger), bytes),
            None => Tag::Hmac(hmac_tag::tag(&[], bytes)),
        }
    }

    /// The signature of some bytes behind a front, by the seed of this public key. Where that is
    /// not at hand, what is nobody's.
    fn signed(&self, public: &PublicKey, front: &[u8], bytes: &[u8]) -> Tag
        ensures { result
            ≡ signed (seed_for self.now public.now) (front.now ++ bytes.now) bytes.now }
    {
        match self.signing_key(public) {
            Some(key) => Tag::Ed25519(key.sign_behind(front, bytes)),
            None => Tag::Hmac(hmac_tag::tag(&[], bytes)),
        }
    }
}
