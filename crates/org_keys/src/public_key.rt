//! Public keys.

ghost use Rattle.std.specs.Prelude.{◌≡◌, ◌↔◌, true, is_some, IsSome, IfSome, length};
ghost use Rattle.ed25519.specs.Signing.{IsPublicKey};
ghost use Rattle.org_keys.specs.Keys.{is_public_key};

use std::alloc::AllocError;
use std::marker::Model;

/// A public key of Ed25519 (RFC 8032, section 5.1.5): the encoding of a point that is not of small
/// order.
#[derive(Debug, Drop)]
pub struct PublicKey {
    bytes: [u8; 32],
}

impl Model for PublicKey {
    ghost use Rattle.std.specs.Prelude.{List, ℕ};
    ghost use Rattle.ed25519.specs.Signing.{IsPublicKey};

    ghost Value = { List ℕ };

    ghost view = { λ k. k.bytes };

    ghost invariant = { λ k. IsPublicKey k.bytes };
}

/// Whether 32 bytes are the encoding of a point that is not of small order.
pub fn is_public_key(bytes: &[u8; 32]) -> bool
    ensures decided { result ≡ is_public_key bytes.now }
    ensures point { result ≡ true ↔ IsPublicKey bytes.now }
{
    ed25519::is_public_key(bytes)
}

impl PublicKey {
    /// The key of these bytes. None where they are no point, or one of small order.
    pub fn new(bytes: [u8; 32]) -> Option<PublicKey>
        ensures accepted { IsSome result ↔ IsPublicKey bytes }
        ensures decided { is_some result ≡ is_public_key bytes }
        ensures value { IfSome result (λ k. k ≡ bytes) }
    {
        if !is_public_key(&bytes) {
            return None;
        }
        Some(PublicKey { bytes })
    }

    /// The bytes.
    pub fn as_bytes(&self) -> &[u8; 32]
        ensures value { result.now ≡ self.now }
        ensures size { length self.now ≡ 32 }
        ensures point { IsPublicKey self.now }
    {
        &self.bytes
    }
}

impl Clone for PublicKey {
    ghost is_clone = { λ a b. b ≡ a };

    fn clone(&self) -> Result<PublicKey, AllocError> {
        Ok(PublicKey { bytes: self.bytes })
    }
}
