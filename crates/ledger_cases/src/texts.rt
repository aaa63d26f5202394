//! Values as the words of a line.

use fab_types::{
    Definition, Endorsements, Key, Member, MemberKey, Membership, Name, Payload, Proposal,
    RangeEntry, RangeItem, ReadItem, Value, Version, WriteItem, form_of,
};
use std::alloc::AllocError;
use std::fmt::Write;

/// Puts a sign behind what stands there, if anything does.
pub fn separate(answer: &mut String, sign: &str) -> Result<(), AllocError> {
    if answer.is_empty() {
        return Ok(());
    }
    answer.push_str(sign)
}

/// Bytes as they are where all of them are printed characters, and else in hex behind `0x`.
pub fn write_bytes(answer: &mut String, bytes: &[u8]) -> Result<(), AllocError> {
    if bytes.iter().all(|byte| matches!(byte, b' '..=b'~')) {
        write_characters(answer, bytes)
    } else {
        answer.push_str("0x")?;
        write_hex(answer, bytes)
    }
}

/// Bytes as the characters that they are.
pub fn write_characters(answer: &mut String, bytes: &[u8]) -> Result<(), AllocError> {
    for byte in bytes {
        answer.push(char::from(*byte))?;
    }
    Ok(())
}

/// Bytes in hex.
pub fn write_hex(answer: &mut String, bytes: &[u8]) -> Result<(), AllocError> {
    for byte in bytes {
        write!(answer, "{byte:02x}")?;
    }
    Ok(())
}

/// A payload: its proposal, its result, and its words.
pub fn write_payload(answer: &mut String, payload: &Payload) -> Result<(), AllocError> {
    write_proposal(answer, payload.proposal())?;
    write_result(answer, payload.result())?;
    write_reads(answer, payload.reads().as_slice())?;
    write_ranges(answer, payload.ranges().as_slice())?;
    write_writes(answer, payload.writes().as_slice())
}

/// A call as `CHAINCODE(ARGUMENT)`, an upgrade as `CHAINCODE := DEFINITION`, an amendment as
/// `members := MEMBERSHIP`, and the nonce where that is not 0.
fn write_proposal(answer: &mut String, proposal: &Proposal) -> Result<(), AllocError> {
    match proposal {
        Proposal::Call(call) => write_call(answer, &call.chaincode, &call.argument)?,
        Proposal::Upgrade(upgrade) => {
            write_upgrade(answer, &upgrade.chaincode, &upgrade.definition)?
        }
        Proposal::Amend(amend) => write_amendment(answer, &amend.membership)?,
    }
    let nonce = proposal.nonce();
    if nonce == [0; 16] {
        return Ok(());
    }
    answer.push_str(" nonce ")?;
    write_hex(answer, &nonce)
}

/// A chaincode, and its argument in brackets.
fn write_call(answer: &mut String, chaincode: &Name, argument: &Value) -> Result<(), AllocError> {
    write_bytes(answer, chaincode.as_slice())?;
    answer.push('(')?;
    write_bytes(answer, argument.as_slice())?;
    answer.push(')')
}

/// A chaincode, and its new definition.
pub fn write_upgrade(
    answer: &mut String,
    chaincode: &Name,
    definition: &Definition,
) -> Result<(), AllocError> {
    write_bytes(answer, chaincode.as_slice())?;
    write_definition(answer, definition)
}

/// A definition as ` := FORM DIGEST FUEL POLICY`.
pub fn write_definition(answer: &mut String, definition: &Definition) -> Result<(), AllocError> {
    write!(answer, " := {} ", form_of(definition))?;
    write_hex(answer, &definition.digest)?;
    write!(answer, " {} ", definition.fuel.get())?;
    write_bytes(answer, definition.policy.as_slice())
}

/// The next membership.
pub fn write_amendment(answer: &mut String, membership: &Membership) -> Result<(), AllocError> {
    answer.push_str("members := ")?;
    write_membership(answer, membership)
}

/// A membership as `SERIAL MEMBERS POLICY`.
pub fn write_membership(answer: &mut String, membership: &Membership) -> Result<(), AllocError> {
    write!(answer, "{} ", membership.serial)?;
    write_members(answer, membership.members.as_slice())?;
    answer.push(' ')?;
    write_bytes(answer, membership.policy.as_slice())
}

/// The members' names with commas between them, each with its public key behind `=`, if it has one
/// of its own.
fn write_members(answer: &mut String, members: &[Member]) -> Result<(), AllocError> {
    for (place, member) in members.iter().enumerate() {
        if place > 0 {
            answer.push(',')?;
        }
        write_bytes(answer, member.name.as_slice())?;
        if let MemberKey::Public(key) = &member.key {
            answer.push('=')?;
            write_hex(answer, key)?;
        }
    }
    Ok(())
}

/// A result, if it is not empty.
pub fn write_result(answer: &mut String, value: &Value) -> Result<(), AllocError> {
    if value.as_slice().is_empty() {
        return Ok(());
    }
    answer.push_str(" = ")?;
    write_bytes(answer, value.as_slice())
}

/// The keys that were read, each behind a blank.
pub fn write_reads(answer: &mut String, reads: &[ReadItem]) -> Result<(), AllocError> {
    for read in reads {
        answer.push_str(" r:")?;
        write_bytes(answer, read.key.as_slice())?;
        write_version(answer, read.version)?;
    }
    Ok(())
}

/// The ranges that were read, each behind a blank.
pub fn write_ranges(answer: &mut String, ranges: &[RangeItem]) -> Result<(), AllocError> {
    for range in ranges {
        answer.push_str(" q:")?;
        write_bytes(answer, range.start().as_slice())?;
        answer.push_str("..")?;
        write_bytes(answer, range.end().as_slice())?;
        write!(answer, "*{}", range.limit())?;
        write_entries(answer, range.entries())?;
    }
    Ok(())
}

fn write_entries(answer: &mut String, entries: &[RangeEntry]) -> Result<(), AllocError> {
    for (place, entry) in entries.iter().enumerate() {
        answer.push(if place == 0 { '=' } else { ',' })?;
        write_bytes(answer, entry.key.as_slice())?;
        write_version(answer, Some(entry.version))?;
    }
    Ok(())
}

/// A version as `@BLOCK.PLACE`, or `@-` for none.
pub fn write_version(answer: &mut String, version: Option<Version>) -> Result<(), AllocError> {
    match version {
        Some(version) => write!(answer, "@{}.{}", version.block(), version.place()),
        None => answer.push_str("@-"),
    }
}

/// What was written, each word behind a blank.
pub fn write_writes(answer: &mut String, writes: &[WriteItem]) -> Result<(), AllocError> {
    for write in writes {
        match &write.value {
            Some(value) => {
                answer.push_str(" w:")?;
                write_pair(answer, &write.key, value)?;
            }
            None => {
                answer.push_str(" d:")?;
                write_bytes(answer, write.key.as_slice())?;
            }
        }
    }
    Ok(())
}

/// A key and its value as `KEY=VALUE`.
pub fn write_pair(answer: &mut String, key: &Key, value: &Value) -> Result<(), AllocError> {
    write_bytes(answer, key.as_slice())?;
    answer.push('=')?;
    write_bytes(answer, value.as_slice())
}

/// Endorsements, each as ` e:ORGANISATION=TAG`.
pub fn write_endorsements(
    answer: &mut String,
    endorsements: &Endorsements,
) -> Result<(), AllocError> {
    for endorsement in endorsements.as_slice() {
        answer.push_str(" e:")?;
        write_bytes(answer, endorsement.org.as_slice())?;
        answer.push('=')?;
        write_hex(answer, endorsement.tag.as_slice())?;
    }
    Ok(())
}
