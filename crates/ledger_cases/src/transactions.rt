//! Transactions from their words.

use crate::fault::CaseFault;
use crate::tags::{org_of, public_of};
use fab_types::{
    Amend, Bound, Call, Definition, Endorsements, Envelope, Fuel, Key, Member, MemberKey, Members,
    Membership, Name, Payload, PayloadParts, PolicyText, Proposal, RangeEntry, RangeItem, Ranges,
    ReadItem, ReadSet, Upgrade, Value, Version, WriteItem, WriteSet,
};
use std::alloc::Global;
use wasm_profile::Profile;

/// The payload of the transaction that the words say. `nonce` stands until a word says another. A
/// bad line where its sets are not within their limits.
pub fn payload_of(alloc: Global, nonce: [u8; 16], words: &str) -> Result<Payload, CaseFault> {
    let mut said = Said {
        reads: Vec::new(alloc),
        ranges: Vec::new(alloc),
        writes: Vec::new(alloc),
        nonce,
        change: None,
    };
    for word in words.split_whitespace() {
        said.add(alloc, word)?;
    }
    let proposal = said.proposal(alloc)?;
    let Said {
        reads,
        ranges,
        writes,
        ..
    } = said;
    let parts = PayloadParts {
        proposal,
        result: empty_value(alloc),
        reads: ReadSet::new(reads).ok_or(CaseFault::BadLine)?,
        ranges: Ranges::new(ranges).ok_or(CaseFault::BadLine)?,
        writes: WriteSet::new(writes).ok_or(CaseFault::BadLine)?,
    };
    Ok(Payload::new(alloc, parts)?)
}

/// What the words of a transaction say, but for whether it is endorsed.
#[derive(Drop)]
struct Said<'a> {
    reads: Vec<ReadItem>,
    ranges: Vec<RangeItem>,
    writes: Vec<WriteItem>,
    nonce: [u8; 16],
    /// The last upgrade or amendment: what stands in front of its colon, and behind that.
    change: Option<(&'a str, &'a str)>,
}

impl<'a> Said<'a> {
    /// Adds what a word says.
    fn add(&mut self, alloc: Global, word: &'a str) -> Result<(), CaseFault> {
        let (kind, text) = word.split_once(':').ok_or(CaseFault::BadLine)?;
        match kind {
            "r" => self.reads.push(read_item(alloc, text)?)?,
            "q" => self.ranges.push(range_item(alloc, text)?)?,
            "w" => self.writes.push(put_item(alloc, text)?)?,
            "d" => self.writes.push(delete_item(alloc, text)?)?,
            "n" => self.nonce = [text.parse::<u8>()?; 16],
            "e" => {}
            _ => self.change = Some((kind, text)),
        }
        Ok(())
    }

    /// The upgrade or the amendment, or else the call with an empty argument.
    fn proposal(&self, alloc: Global) -> Result<Proposal, CaseFault> {
        match self.change {
            Some((kind, text)) => change_of(alloc, self.nonce, kind, text),
            None => call_with(empty_value(alloc), self.nonce),
        }
    }
}

/// The envelope of a payload, without endorsements.
pub fn unendorsed(alloc: Global, payload: Payload) -> Envelope {
    let endorsements = Endorsements::new(Vec::new(alloc)).unwrap();
    Envelope {
        payload,
        endorsements,
    }
}

/// Whether the transaction of these words is endorsed: no word says otherwise, or a later one says
/// that it is.
pub fn is_endorsed(words: &str) -> bool {
    let mut endorsed = true;
    for word in words.split_whitespace() {
        if let Some(text) = word.strip_prefix("e:") {
            endorsed = text != "no";
        }
    }
    endorsed
}

/// The amendment of a word that begins with `a:`, or the upgrade of another one.
pub fn change_of(
    alloc: Global,
    nonce: [u8; 16],
    kind: &str,
    text: &str,
) -> Result<Proposal, CaseFault> {
    if kind == "a" {
        let membership = membership_of(alloc, text)?;
        return Ok(Proposal::Amend(Amend { membership, nonce }));
    }
    let definition = definition_of(alloc, kind, text)?;
    let chaincode = chaincode_name()?;
    Ok(Proposal::Upgrade(Upgrade {
        chaincode,
        definition,
        nonce,
    }))
}

/// `SERIAL,MEMBERS,POLICY`, where `+` stands between the members.
fn membership_of(alloc: Global, text: &str) -> Result<Membership, CaseFault> {
    let (serial, members, policy) = in_three(text).ok_or(CaseFault::BadLine)?;
    let serial = serial.parse::<u32>()?;
    let policy = policy_text_of(alloc, policy)?;
    let members = members_of(alloc, members)?;
    Ok(Membership {
        serial,
        members,
        policy,
    })
}

/// What stands before a comma, between it and the next, and behind that.
fn in_three(text: &str) -> Option<(&str, &str, &str)> {
    let (first, rest) = text.split_once(',')?;
    let (second, third) = rest.split_once(',')?;
    Some((first, second, third))
}

fn members_of(alloc: Global, words: &str) -> Result<Members, CaseFault> {
    let mut members = Vec::new(alloc);
    for word in words.split('+') {
        members.push(member_of(word)?)?;
    }
    Members::new(members).ok_or(CaseFault::BadLine)
}

/// A name, whose key is kept; or a name, `!` and the seed of the member's own public key.
fn member_of(word: &str) -> Result<Member, CaseFault> {
    match word.split_once('!') {
        Some((name, seed)) => {
            let (name, key) = (org_of(name)?, MemberKey::Public(public_of(seed)?));
            Ok(Member { name, key })
        }
        None => {
            let (name, key) = (org_of(word)?, MemberKey::Kept);
            Ok(Member { name, key })
        }
    }
}

/// The call of the chaincode with an argument.
pub fn call_with(argument: Value, nonce: [u8; 16]) -> Result<Proposal, CaseFault> {
    let chaincode = chaincode_name()?;
    Ok(Proposal::Call(Call {
        chaincode,
        argument,
        nonce,
    }))
}

/// Whether a definition is open, and its profile: `u` and `u2` are closed ones of profile 1 and 2,
/// `u17` and `u18` open ones.
fn form_of(kind: &str) -> Result<(bool, Profile), CaseFault> {
    match kind {
        "u" => Ok((false, Profile::Core1)),
        "u2" => Ok((false, Profile::SignExtension)),
        "u17" => Ok((true, Profile::Core1)),
        "u18" => Ok((true, Profile::SignExtension)),
        _ => Err(CaseFault::BadLine),
    }
}

/// `BYTE,FUEL,POLICY` behind such a word, where each byte of the digest is the same.
fn definition_of(alloc: Global, kind: &str, text: &str) -> Result<Definition, CaseFault> {
    let (byte, fuel, policy) = in_three(text).ok_or(CaseFault::BadLine)?;
    let (is_open, profile) = form_of(kind)?;
    let digest = [byte.parse::<u8>()?; 32];
    let fuel = Fuel::new(fuel.parse::<u32>()?).ok_or(CaseFault::BadLine)?;
    let policy = policy_text_of(alloc, policy)?;
    Ok(Definition {
        profile,
        is_open,
        digest,
        fuel,
        policy,
    })
}

fn policy_text_of(alloc: Global, text: &str) -> Result<PolicyText, CaseFault> {
    PolicyText::new(text.as_bytes().to_vec(alloc)?).ok_or(CaseFault::BadLine)
}

/// The chaincode that every case calls: `kv`.
pub fn chaincode_name() -> Result<Name, CaseFault> {
    Name::from_slice(b"kv").ok_or(CaseFault::BadLine)
}

/// The name that a word spells.
pub fn name_of(alloc: Global, text: &str) -> Result<Name, CaseFault> {
    Name::new(word_bytes(alloc, text)?).ok_or(CaseFault::BadLine)
}

/// The key that a word spells.
pub fn key_of(alloc: Global, text: &str) -> Result<Key, CaseFault> {
    Key::new(word_bytes(alloc, text)?).ok_or(CaseFault::BadLine)
}

fn empty_value(alloc: Global) -> Value {
    Value::new(Vec::new(alloc)).unwrap()
}

fn bound_of(alloc: Global, text: &str) -> Result<Bound, CaseFault> {
    Bound::new(word_bytes(alloc, text)?).ok_or(CaseFault::BadLine)
}

/// The bytes of a word: hex behind `0x`, or else its own characters.
fn word_bytes(alloc: Global, text: &str) -> Result<Vec<u8>, CaseFault> {
    match text.strip_prefix("0x") {
        Some(digits) => Ok(hex::decode(alloc, digits)?),
        None => Ok(text.as_bytes().to_vec(alloc)?),
    }
}

/// `KEY@BLOCK.PLACE` or `KEY@-`.
fn read_item(alloc: Global, text: &str) -> Result<ReadItem, CaseFault> {
    let (key, version) = text.split_once('@').ok_or(CaseFault::BadLine)?;
    let version = match version {
        "-" => None,
        version => Some(version_of(version)?),
    };
    let key = key_of(alloc, key)?;
    Ok(ReadItem { key, version })
}

/// `BLOCK.PLACE`.
fn version_of(text: &str) -> Result<Version, CaseFault> {
    let (block, place) = text.split_once('.').ok_or(CaseFault::BadLine)?;
    Version::new(block.parse::<u32>()?, place.parse::<u32>()?).ok_or(CaseFault::BadLine)
}

/// What `w:KEY=VALUE` puts or `d:KEY` deletes.
pub fn write_item(alloc: Global, word: &str) -> Result<WriteItem, CaseFault> {
    let (kind, text) = word.split_once(':').ok_or(CaseFault::BadLine)?;
    match kind {
        "w" => put_item(alloc, text),
        "d" => delete_item(alloc, text),
        _ => Err(CaseFault::BadLine),
    }
}

/// `KEY=VALUE`.
fn put_item(alloc: Global, text: &str) -> Result<WriteItem, CaseFault> {
    let (key, value) = text.split_once('=').ok_or(CaseFault::BadLine)?;
    let key = key_of(alloc, key)?;
    let value = Value::new(word_bytes(alloc, value)?).ok_or(CaseFault::BadLine)?;
    Ok(WriteItem {
        key,
        value: Some(value),
    })
}

fn delete_item(alloc: Global, text: &str) -> Result<WriteItem, CaseFault> {
    let key = key_of(alloc, text)?;
    Ok(WriteItem { key, value: None })
}

/// The words of a range that was read, or is asked for.
#[derive(Drop)]
pub struct Asked {
    pub start: Bound,
    pub end: Bound,
    pub limit: u8,
}

/// `START..END*LIMIT`.
pub fn asked_range(alloc: Global, text: &str) -> Result<Asked, CaseFault> {
    let (start, rest) = text.split_once("..").ok_or(CaseFault::BadLine)?;
    let (end, limit) = rest.split_once('*').ok_or(CaseFault::BadLine)?;
    let limit = limit.parse::<u8>()?;
    let start = bound_of(alloc, start)?;
    let end = bound_of(alloc, end)?;
    Ok(Asked { start, end, limit })
}

/// `START..END*LIMIT`, and the entries seen behind `=`.
fn range_item(alloc: Global, text: &str) -> Result<RangeItem, CaseFault> {
    let (asked, entries) = match text.split_once('=') {
        Some((asked, entries)) => (asked, range_entries(alloc, entries)?),
        None => (text, Vec::new(alloc)),
    };
    let asked = asked_range(alloc, asked)?;
    RangeItem::new(asked.start, asked.end, asked.limit, entries).ok_or(CaseFault::BadLine)
}

/// `KEY@BLOCK.PLACE` with commas between them.
fn range_entries(alloc: Global, text: &str) -> Result<Vec<RangeEntry>, CaseFault> {
    let mut entries = Vec::new(alloc);
    for word in text.split(',') {
        entries.push(range_entry(alloc, word)?)?;
    }
    Ok(entries)
}

fn range_entry(alloc: Global, word: &str) -> Result<RangeEntry, CaseFault> {
    let (key, version) = word.split_once('@').ok_or(CaseFault::BadLine)?;
    let version = version_of(version)?;
    let key = key_of(alloc, key)?;
    Ok(RangeEntry { key, version })
}
