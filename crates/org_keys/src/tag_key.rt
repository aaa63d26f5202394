//! Shared keys.

ghost use Rattle.std.specs.Prelude.{◌≡◌, ◌↔◌, IsSome, IfSome};
ghost use Rattle.org_keys.specs.TagKeys.{IsTagKey};

use std::alloc::AllocError;
use std::marker::Model;

/// The shared key under which an organisation makes HMACs: 1 to 128 bytes. It has no `Debug`, so
/// that none is printed.
#[derive(Drop)]
pub struct TagKey {
    bytes: Vec<u8>,
}

impl Model for TagKey {
    ghost use Rattle.std.specs.Prelude.{List, ℕ};
    ghost use Rattle.org_keys.specs.TagKeys.{IsTagKey};

    ghost Value = { List ℕ };

    ghost view = { λ k. k.bytes.items };

    ghost invariant = { λ k. IsTagKey k.bytes.items };
}

impl TagKey {
    /// The key of these bytes. None unless there are 1 to 128.
    pub fn new(bytes: Vec<u8>) -> Option<TagKey>
        ensures accepted { IsSome result ↔ IsTagKey bytes.items }
        ensures value { IfSome result (λ k. k ≡ bytes.items) }
    {
        if bytes.is_empty() || bytes.len() > 128 {
            return None;
        }
        Some(TagKey { bytes })
    }

    /// The bytes.
    pub fn as_slice(&self) -> &[u8]
        ensures value { result.now ≡ self.now }
        ensures limits { IsTagKey self.now }
    {
        &self.bytes
    }
}

impl Clone for TagKey {
    ghost is_clone = { λ a b. b ≡ a };

    fn clone(&self) -> Result<TagKey, AllocError> {
        Ok(TagKey {
            bytes: self.bytes.clone()?,
        })
    }
}
