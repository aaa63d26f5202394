//! Key files: the seeds with which organisations sign.
//!
//! A key file has a line for each seed: 64 digits of hex, in either case, and the line's end. It has
//! 1 to 16 of them, and nothing else.
#![tactic(auto)]

ghost use Rattle.std.specs.Prelude.{◌≡◌, ℕ, List, Err, IfOk, MatchOption};
ghost use Rattle.key_file.specs.KeyFiles.{BeginsWith, IsKeyFile};
ghost use Rattle.key_file.specs.declared.KeyFault.TheVariants.{Malformed};

mod laws;

use ed25519::SigningKey;
use hex::FromHex;
pub use laws::spelled_once;
use std::alloc::{AllocError, AllocFailed, Global};

/// A key file has 1 to this many seeds, as a ledger has organisations.
const MOST_KEYS: usize = 16;

/// Why no seeds were read.
#[derive(Clone, Copy, Debug, PartialEq, Eq)]
pub enum KeyFault {
    /// The bytes are no key file.
    Malformed,
    /// There was no memory.
    Memory,
}

impl From<AllocError> for KeyFault {
    ghost use Rattle.key_file.specs.declared.KeyFault.TheVariants.{Memory};

    ghost from_gives = { λ _ r. r ≡ Memory };

    fn from(_refused: AllocError) -> KeyFault {
        KeyFault::Memory
    }
}

impl<T: Drop> From<AllocFailed<T>> for KeyFault {
    ghost use Rattle.key_file.specs.declared.KeyFault.TheVariants.{Memory};

    ghost from_gives = { λ _ r. r ≡ Memory };

    fn from(_refused: AllocFailed<T>) -> KeyFault {
        KeyFault::Memory
    }
}

/// The keys of the seeds that the bytes of a key file spell, in order.
///
/// Refused as malformed exactly where they spell none.
pub fn read_keys(alloc: Global, bytes: &[u8]) -> Result<Vec<SigningKey>, KeyFault>
    ensures spelled { IfOk result (λ keys. IsKeyFile bytes.now keys.items) }
    ensures malformed { result ≡ Err Malformed
        → (seeds : List (List ℕ)) → ¬ IsKeyFile bytes.now seeds }
{
    let mut keys = Vec::new(alloc);
    let mut left = bytes;
    while let Some((key, rest)) = first_key(left) {
        keys.push(key)?;
        left = rest;
    }
    if !left.is_empty() {
        return Err(KeyFault::Malformed);
    }
    if keys.is_empty() || keys.len() > MOST_KEYS {
        return Err(KeyFault::Malformed);
    }
    Ok(keys)
}

/// The key of the first line's seed, and what is behind the line. None where it spells none.
fn first_key(bytes: &[u8]) -> Option<(SigningKey, &[u8])>
    ensures { MatchOption result ((seed rest : List ℕ) → ¬ BeginsWith bytes.now seed rest)
        (λ r. BeginsWith bytes.now r.0 r.1.now) }
{
    let Some((digits, rest)) = bytes.split_first_chunk::<64>() else {
        return None;
    };
    let Some((end, rest)) = rest.split_first() else {
        return None;
    };
    if *end != b'\n' {
        return None;
    }
    let Ok(seed) = <[u8; 32]>::from_hex(digits) else {
        return None;
    };
    Some((SigningKey::new(&seed), rest))
}
