//! What an organisation says of the blocks that it has, and what it signs of that.

ghost use Rattle.std.specs.Prelude.{◌≡◌, ◌↔◌, IfOk, IsTrue, Some, option_map};
ghost use Rattle.peer_answers.specs.Seen.{AreWords, IsListedPublic, IsPublic, IsSeen, SpellsSeen, SpellsSigned, sighting_of, signature_in};
ghost use Rattle.peer_answers.specs.Seen.{is_signed, seen_bytes};

use crate::words::parted;
use endorsement_policy::{Rules, Standing};
use fab_types::{OrgName, Tag};
use hex::FromHex;
use org_keys::OrgKey;
use std::alloc::{AllocError, Global};

/// A block that an organisation says it has: `seen <organisation> <number> <header hash>`, and
/// behind that a signature, or none.
#[derive(Clone, Copy)]
pub struct Seen<'a> {
    pub org: &'a str,
    pub number: u32,
    pub hash: [u8; 32],
    pub signature: Option<[u8; 64]>,
}

/// The block that a text says was seen. None where the text is another one: so is one with a
/// signature where no organisation can have the name.
pub fn seen_in(text: &str) -> Option<Seen<'_>>
    ensures { IsSeen text.now (option_map sighting_of result) }
{
    let seen = spelled_seen(text)?;
    if seen.signature.is_some() && OrgName::from_slice(seen.org.as_bytes()).is_none() {
        return None;
    }
    Some(seen)
}

/// The block that the words of a text name, whatever the name.
fn spelled_seen(text: &str) -> Option<Seen<'_>>
    ensures { SpellsSeen text.now (option_map sighting_of result) }
{
    match parted(text) {
        ("seen", words) => seen_by(words),
        _ => None,
    }
}

/// The block that these words name: an organisation, a number, a hash and maybe a signature.
fn seen_by(words: &str) -> Option<Seen<'_>>
    ensures { AreWords words.now (option_map sighting_of result) }
{
    let (org, numbered) = parted(words);
    let (number, hashed) = parted(numbered);
    let (digits, _) = parted(hashed);
    let number = number.parse::<u32>().ok()?;
    let hash = <[u8; 32]>::from_hex(digits).ok()?;
    let signature = signature_in(hashed)?;
    Some(Seen {
        org,
        number,
        hash,
        signature,
    })
}

/// The signature that stands behind a hash, if anything does. None where that is no signature.
fn signature_in(hashed: &str) -> Option<Option<[u8; 64]>>
    ensures { result ≡ signature_in hashed.now }
{
    match hashed.split_once(' ') {
        Some((_, digits)) => Some(Some(<[u8; 64]>::from_hex(digits).ok()?)),
        None => Some(None),
    }
}

/// Whether an organisation of this name is listed with a public key.
pub fn has_public_key(rules: &Rules, org: &str) -> bool
    ensures { IsTrue result ↔ IsListedPublic rules.now org.now }
{
    let Some(org) = OrgName::from_slice(org.as_bytes()) else {
        return false;
    };
    match rules.organisation(&org) {
        Some(organisation) => is_public(&organisation.key),
        None => false,
    }
}

fn is_public(key: &OrgKey) -> bool
    ensures { IsTrue result ↔ IsPublic (Some key.now) }
{
    match key {
        OrgKey::Public(_) => true,
        OrgKey::Bound(_, _) => true,
        OrgKey::Shared(_) => false,
    }
}

/// A block that an organisation says it has, with a signature of what it says.
#[derive(Drop)]
pub struct SignedSeen {
    pub org: OrgName,
    pub number: u32,
    pub hash: [u8; 32],
    pub signature: [u8; 64],
}

/// The block that a text says was seen, where it has a signature. None where the text is another
/// one, or no organisation can have the name.
pub fn signed_seen_in(text: &str) -> Option<SignedSeen>
    ensures { SpellsSigned text.now result }
{
    let seen = spelled_seen(text)?;
    let signature = seen.signature?;
    let org = OrgName::from_slice(seen.org.as_bytes())?;
    Some(SignedSeen {
        org,
        number: seen.number,
        hash: seen.hash,
        signature,
    })
}

/// The bytes that an organisation signs where it says which hash the header of its block of this
/// number has, in the ledger whose genesis file has this SHA-256. They are those of no payload.
pub(crate) fn seen_bytes(
    alloc: Global,
    genesis: &[u8; 32],
    number: u32,
    hash: &[u8; 32],
) -> Result<Vec<u8>, AllocError>
    ensures { IfOk result (λ v. v.items ≡ seen_bytes genesis.now number hash.now) }
{
    let mut bytes = Vec::new(alloc);
    bytes.extend_from_slice(b"\xffseen ")?;
    bytes.extend_from_slice(genesis)?;
    bytes.extend_from_slice(&number.to_be_bytes())?;
    bytes.extend_from_slice(hash)?;
    Ok(bytes)
}

/// Whether the organisation that says so stands with a public key, under which its signature is
/// right, in the ledger whose genesis file has this SHA-256.
pub fn is_signed(
    alloc: Global,
    standing: &Standing<'_>,
    genesis: &[u8; 32],
    seen: &SignedSeen,
) -> Result<bool, AllocError>
    ensures { IfOk result (λ signed. signed ≡ is_signed standing.now.orgs genesis.now seen.now) }
{
    let bytes = seen_bytes(alloc, genesis, seen.number, &seen.hash)?;
    match standing.organisation(&seen.org) {
        Some(organisation) => Ok(
            organisation
                .key
                .is_right(&bytes, &Tag::Ed25519(seen.signature)),
        ),
        None => Ok(false),
    }
}
