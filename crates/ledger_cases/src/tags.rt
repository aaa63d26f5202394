//! Organisations of cases, with keys that are made of their names, and their tags.

use crate::bytes::{bytes_of, split_word};
use crate::fault::CaseFault;
use ed25519::{SigningKey, public_key, sign};
use fab_types::{Edition, Endorsement, Endorsements, OrgName, Payload, Tag};
use hmac_tag::tag;
use org_keys::{OrgKey, Organisation, PublicKey, Signers, TagKey};
use std::alloc::Global;

/// The SHA-256 of the genesis file of cases.
pub const LEDGER: [u8; 32] = [7; 32];

/// The SHA-256 of another one.
const OTHER_LEDGER: [u8; 32] = [8; 32];

/// The words between commas. `-` is none.
fn words_of(list: &str) -> &str {
    if list == "-" { "" } else { list }
}

/// The names of the organisations that a word lists, of either kind.
pub fn orgs_of(alloc: Global, list: &str) -> Result<Vec<OrgName>, CaseFault> {
    let mut orgs = Vec::new(alloc);
    for word in words_of(list).split_terminator(',') {
        orgs.push(org_of(split_kind(word).0)?)?;
    }
    Ok(orgs)
}

/// The name of an organisation that a word spells.
pub fn org_of(name: &str) -> Result<OrgName, CaseFault> {
    OrgName::from_slice(name.as_bytes()).ok_or(CaseFault::BadLine)
}

/// A name, and whether a `!` stands behind it, which gives its organisation a public key.
fn split_kind(word: &str) -> (&str, bool) {
    match word.strip_suffix('!') {
        Some(name) => (name, true),
        None => (word, false),
    }
}

/// The organisations that a word lists, with their keys as they are in the ledger of cases under
/// the rules of an edition.
pub fn organisations_of(
    alloc: Global,
    edition: Edition,
    list: &str,
) -> Result<Vec<Organisation>, CaseFault> {
    let mut organisations = Vec::new(alloc);
    for word in words_of(list).split_terminator(',') {
        organisations.push(organisation_of(alloc, word)?.in_ledger(edition, &LEDGER))?;
    }
    Ok(organisations)
}

fn organisation_of(alloc: Global, word: &str) -> Result<Organisation, CaseFault> {
    let (text, is_signed) = split_kind(word);
    let key = if is_signed {
        OrgKey::Public(PublicKey::new(public_of(text)?).ok_or(CaseFault::BadLine)?)
    } else {
        OrgKey::Shared(TagKey::new(text.as_bytes().to_vec(alloc)?).ok_or(CaseFault::BadLine)?)
    };
    let name = org_of(text)?;
    Ok(Organisation { name, key })
}

/// The public key of an organisation's seed.
pub fn public_of(name: &str) -> Result<[u8; 32], CaseFault> {
    Ok(public_key(&seed_of(name)?))
}

/// The seed of an organisation: its name, with zeros behind it.
fn seed_of(name: &str) -> Result<[u8; 32], CaseFault> {
    let bytes = name.as_bytes();
    let mut seed = [0; 32];
    if bytes.len() > seed.len() {
        return Err(CaseFault::BadLine);
    }
    seed[..bytes.len()].copy_from_slice(bytes);
    Ok(seed)
}

/// The endorsements of a payload that a word lists.
pub fn endorsements_of(
    alloc: Global,
    payload: &Payload,
    tags: &str,
) -> Result<Endorsements, CaseFault> {
    let bytes = payload.bytes();
    let mut items = Vec::new(alloc);
    for word in words_of(tags).split_terminator(',') {
        items.push(endorsement_of(bytes, word)?)?;
    }
    Endorsements::new(items).ok_or(CaseFault::BadLine)
}

/// The endorsement by who stands before the sign in a word, with the tag of who stands behind it.
fn endorsement_of(bytes: &[u8], word: &str) -> Result<Endorsement, CaseFault> {
    let (name, tag) = if let Some((name, key)) = word.split_once('/') {
        (name, Tag::Hmac(tag(key.as_bytes(), bytes)))
    } else if let Some((name, signer)) = word.split_once('?') {
        (name, Tag::Hmac(tag(&public_key(&seed_of(signer)?), bytes)))
    } else if let Some((name, signer)) = word.split_once('!') {
        (name, Tag::Ed25519(sign(&seed_of(signer)?, bytes)))
    } else if let Some((name, signer)) = word.split_once('@') {
        (name, Tag::Ed25519(signed_for(&LEDGER, signer, bytes)?))
    } else if let Some((name, signer)) = word.split_once('*') {
        (
            name,
            Tag::Ed25519(signed_for(&OTHER_LEDGER, signer, bytes)?),
        )
    } else if let Some((name, signer)) = word.split_once('~') {
        (name, Tag::Ed25519(turned(sign(&seed_of(signer)?, bytes))))
    } else {
        return Err(CaseFault::BadLine);
    };
    let org = org_of(name)?;
    Ok(Endorsement { org, tag })
}

/// The signature of some bytes for the ledger of this digest, as RULES.md spells what is signed.
fn signed_for(ledger: &[u8; 32], signer: &str, bytes: &[u8]) -> Result<[u8; 64], CaseFault> {
    let mut front = [0; 37];
    front[..5].copy_from_slice(b"\xfftag ");
    front[5..37].copy_from_slice(ledger);
    Ok(SigningKey::new(&seed_of(signer)?).sign_behind(&front, bytes))
}

/// What a seed at hand puts on some bytes for who has its public key under rules 2, in the ledger
/// of this digest.
pub fn show_bound(alloc: Global, pieces: &str) -> Result<String, CaseFault> {
    let (signer, rest) = split_word(pieces);
    let (ledger, text) = split_word(rest);
    let bytes = bytes_of(alloc, text)?;
    let Ok(ledger) = <[u8; 32]>::try_from(bytes_of(alloc, ledger)?) else {
        return Err(CaseFault::BadLine);
    };
    let public = PublicKey::new(public_of(signer)?).ok_or(CaseFault::BadLine)?;
    let key = OrgKey::Public(public).in_ledger(Edition::Second, &ledger);
    let seeds = vec![in alloc; SigningKey::new(&seed_of(signer)?)]?;
    match Signers::new(seeds).tag(Some(&key), &bytes) {
        Tag::Ed25519(signature) => Ok(hex::encode(alloc, &signature)?),
        Tag::Hmac(_) => Err(CaseFault::BadLine),
    }
}

/// A signature with the lowest bit of its last byte turned.
fn turned(signature: [u8; 64]) -> [u8; 64] {
    let mut turned = signature;
    turned[63] ^= 1;
    turned
}
