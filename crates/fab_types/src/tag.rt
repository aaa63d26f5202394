//! Tags: what organisations put on payloads.

ghost use Rattle.std.specs.Prelude.{◌≡◌};
ghost use Rattle.fab_types.specs.Tags.{tag_bytes, IsTag};

/// A tag, by its kind. It may be wrong.
#[derive(Clone, Copy, PartialEq, Eq, Debug, Drop)]
pub enum Tag {
    /// HMAC-SHA-256 under a shared key (RFC 2104).
    Hmac([u8; 32]),
    /// An Ed25519 signature (RFC 8032).
    Ed25519([u8; 64]),
}

impl Tag {
    /// The tag's bytes, without its kind: 32 or 64.
    pub fn as_slice(&self) -> &[u8]
        ensures value { result.now ≡ tag_bytes self.now }
        ensures limits { IsTag self.now }
    {
        match self {
            Tag::Hmac(bytes) => bytes,
            Tag::Ed25519(bytes) => bytes,
        }
    }
}
