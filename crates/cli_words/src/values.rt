//! What the values of words and options may be, by the names of their places.

use crate::task::{WordsFault, argument, block, count, key, nonce_of, profile};
use fab_types::{Name, OrgName};
use std::alloc::{AllocError, Global};

/// What a value of a place has to be.
pub(crate) fn rule_of(name: &str) -> &'static str {
    match name {
        "CHAINCODE" => "1 to 32 lower-case letters, digits, _ and -",
        "org" => "1 to 32 letters, digits and _",
        "ARG" => "hex of up to 4096 bytes, or - for none",
        "ROUNDS" | "steps" => "1 to 1000",
        "profile" => "1 or 2",
        "from" | "to" | "at" => "the number of a block, 0 to 4000000000",
        "nonce" => "hex of 16 bytes",
        "key" => "hex of 1 to 64 bytes",
        _ => "a file",
    }
}

/// Whether a text is a value of a place. Any text is the name of a file.
pub(crate) fn is_right(alloc: Global, name: &str, text: &str) -> Result<bool, AllocError> {
    match name {
        "CHAINCODE" => Ok(Name::from_slice(text.as_bytes()).is_some()),
        "org" => Ok(OrgName::from_slice(text.as_bytes()).is_some()),
        "ARG" => is_read(argument(alloc, text)),
        "ROUNDS" | "steps" => is_read(count(text)),
        "profile" => is_read(profile(text)),
        "from" | "to" | "at" => is_read(block(text)),
        "nonce" => is_read(nonce_of(text)),
        "key" => is_read(key(alloc, text)),
        _ => Ok(true),
    }
}

/// Whether a value was read.
fn is_read<T: Drop>(read: Result<T, WordsFault>) -> Result<bool, AllocError> {
    match read {
        Ok(_) => Ok(true),
        Err(WordsFault::Usage) => Ok(false),
        Err(WordsFault::Memory) => Err(AllocError),
    }
}
