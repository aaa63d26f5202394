//! Tags: HMAC with SHA-256 (RFC 2104, FIPS 180-4). No memory is taken.
#![tactic(auto)]

ghost use Rattle.std.specs.Prelude.{◌≡◌, ◌↔◌, true};
ghost use Rattle.hmac_tag.specs.Tag.{padded_key, mask, tag};

use sha2::{Digest, Sha256};

/// The tag of some bytes under a key, which may have any length (RFC 2104, section 2).
pub fn tag(key: &[u8], bytes: &[u8]) -> [u8; 32]
    ensures { result ≡ tag key.now bytes.now }
{
    let key = padded_key(key);
    let mut inner = Sha256::new();
    inner.update(&mask(&key, 0x36));
    inner.update(bytes);
    let mut outer = Sha256::new();
    outer.update(&mask(&key, 0x5c));
    outer.update(&inner.finalize());
    outer.finalize()
}

/// Whether this is the tag of some bytes under a key. No claim ends the comparison early.
pub fn check(key: &[u8], bytes: &[u8], claimed: &[u8; 32]) -> bool
    ensures { result ≡ true ↔ claimed.now ≡ tag key.now bytes.now }
{
    let right = tag(key, bytes);
    let mut difference = 0;
    for place in 0..32 {
        difference |= right[place] ^ claimed[place];
    }
    difference == 0
}

/// The key as one block of the hash: hashed first if it is longer, and followed by zeros.
fn padded_key(key: &[u8]) -> [u8; 64]
    ensures { result ≡ padded_key key.now }
{
    let mut block = [0; 64];
    if key.len() <= 64 {
        block[..key.len()].copy_from_slice(key);
    } else {
        block[..32].copy_from_slice(&Sha256::digest(key));
    }
    block
}

/// Each byte of the key against the pad, by exclusive or.
fn mask(key: &[u8; 64], pad: u8) -> [u8; 64]
    ensures { result ≡ mask pad key.now }
{
    let mut block = *key;
    for place in 0..64 {
        block[place] ^= pad;
    }
    block
}
