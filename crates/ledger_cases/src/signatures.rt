//! Cases of Ed25519: what a seed or a public key gives.

use crate::bytes::split_word;
use crate::fault::CaseFault;
use ed25519::{is_of_small_order, is_public_key, public_key, sign, verify};
use hex::FromHex;
use std::alloc::Global;

/// What a case gives whose first word is a seed or a key, by its verb.
pub fn ask_key(alloc: Global, verb: &str, rest: &str) -> Result<String, CaseFault> {
    let (first, rest) = split_word(rest);
    let key = <[u8; 32] as FromHex>::from_hex(first)?;
    match verb {
        "sign" => show_signature(alloc, &key, rest),
        "verify" => show_verified(alloc, &key, rest),
        _ if !rest.is_empty() => Err(CaseFault::BadLine),
        "public" => Ok(hex::encode(alloc, &public_key(&key))?),
        "small_order" => show_word(alloc, is_of_small_order(&key), "small", "not small"),
        _ => show_word(alloc, is_public_key(&key), "good", "bad"),
    }
}

/// The signature of the message that the rest is.
fn show_signature(alloc: Global, seed: &[u8; 32], rest: &str) -> Result<String, CaseFault> {
    let message = message_of(alloc, rest)?;
    Ok(hex::encode(alloc, &sign(seed, &message))?)
}

/// Whether the message and the signature that the rest is go with the key.
fn show_verified(alloc: Global, key: &[u8; 32], rest: &str) -> Result<String, CaseFault> {
    let (message, signature) = split_word(rest);
    let message = message_of(alloc, message)?;
    let signature = <[u8; 64] as FromHex>::from_hex(signature)?;
    show_word(alloc, verify(key, &message, &signature), "good", "bad")
}

/// The first word if something is so, else the second.
fn show_word(alloc: Global, is_so: bool, yes: &str, no: &str) -> Result<String, CaseFault> {
    Ok(String::from_str(alloc, if is_so { yes } else { no })?)
}

/// The bytes of a word, which `-` stands for where there are none.
pub fn message_of(alloc: Global, word: &str) -> Result<Vec<u8>, CaseFault> {
    match word {
        "" => Err(CaseFault::BadLine),
        "-" => Ok(Vec::new(alloc)),
        _ => Ok(hex::decode(alloc, word)?),
    }
}
