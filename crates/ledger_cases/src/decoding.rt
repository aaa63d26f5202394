//! Values that bytes spell, and their hashes.

use crate::bytes::{bytes_of, split_word};
use crate::fault::CaseFault;
use crate::texts::{
    write_definition, write_endorsements, write_hex, write_membership, write_payload,
};
use fab_types::{Block, Definition, Envelope, Membership, Payload};
use hmac_tag::tag;
use std::alloc::{AllocError, Global};
use std::fmt::Write;
use wire::{
    WireFault, data_hash, decode_block, decode_definition, decode_envelope, decode_membership,
    decode_payload, encode_block, encode_definition, encode_envelope, encode_membership,
    encode_payload, header_hash, tx_id,
};

/// What bytes are read as.
#[derive(Clone, Copy)]
pub enum Kind {
    Payload,
    Envelope,
    Block,
    Definition,
    Membership,
}

/// A value of the ledger.
#[derive(Drop)]
enum Value {
    Payload(Payload),
    Envelope(Envelope),
    Block(Block),
    Definition(Definition),
    Membership(Membership),
}

/// The value of a kind that the bytes spell, and whether its own bytes are the same.
pub fn show_value(alloc: Global, kind: Kind, pieces: &str) -> Result<String, CaseFault> {
    let bytes = bytes_of(alloc, pieces)?;
    compared(alloc, &decoded(alloc, kind, &bytes)?, &bytes)
}

fn decoded(alloc: Global, kind: Kind, bytes: &[u8]) -> Result<Value, WireFault> {
    match kind {
        Kind::Payload => Ok(Value::Payload(decode_payload(alloc, bytes)?)),
        Kind::Envelope => Ok(Value::Envelope(decode_envelope(alloc, bytes)?)),
        Kind::Block => Ok(Value::Block(decode_block(alloc, bytes)?)),
        Kind::Definition => Ok(Value::Definition(decode_definition(alloc, bytes)?)),
        Kind::Membership => Ok(Value::Membership(decode_membership(alloc, bytes)?)),
    }
}

/// A value, and whether the bytes that it was read from are its own.
fn compared(alloc: Global, value: &Value, read: &[u8]) -> Result<String, CaseFault> {
    let is_same = encoded(alloc, value)?.as_slice() == read;
    let mut answer = String::new(alloc);
    write_value(&mut answer, value)?;
    let note = if is_same {
        ", same bytes"
    } else {
        ", other bytes"
    };
    answer.push_str(note)?;
    Ok(answer)
}

fn encoded(alloc: Global, value: &Value) -> Result<Vec<u8>, AllocError> {
    match value {
        Value::Payload(payload) => encode_payload(alloc, payload),
        Value::Envelope(envelope) => encode_envelope(alloc, envelope),
        Value::Block(block) => encode_block(alloc, block),
        Value::Definition(definition) => encode_definition(alloc, definition),
        Value::Membership(membership) => encode_membership(alloc, membership),
    }
}

fn write_value(answer: &mut String, value: &Value) -> Result<(), AllocError> {
    match value {
        Value::Payload(payload) => write_payload(answer, payload),
        Value::Envelope(envelope) => write_envelope(answer, envelope),
        Value::Block(block) => write_block(answer, block),
        Value::Definition(definition) => {
            answer.push_str("definition")?;
            write_definition(answer, definition)
        }
        Value::Membership(membership) => write_membership(answer, membership),
    }
}

fn write_envelope(answer: &mut String, envelope: &Envelope) -> Result<(), AllocError> {
    write_payload(answer, &envelope.payload)?;
    write_endorsements(answer, &envelope.endorsements)
}

fn write_block(answer: &mut String, block: &Block) -> Result<(), AllocError> {
    write!(answer, "block {}", block.header.number.get())?;
    for envelope in block.envelopes.as_slice() {
        answer.push_str(" | ")?;
        write_envelope(answer, envelope)?;
    }
    Ok(())
}

/// The id of the transaction that the payload's proposal begins.
pub fn show_id(alloc: Global, pieces: &str) -> Result<String, CaseFault> {
    let bytes = bytes_of(alloc, pieces)?;
    let id = tx_id(alloc, decode_payload(alloc, &bytes)?.proposal());
    Ok(hex::encode(alloc, &id?)?)
}

/// The hashes of the block's header and of its data.
pub fn show_hashes(alloc: Global, pieces: &str) -> Result<String, CaseFault> {
    let bytes = bytes_of(alloc, pieces)?;
    let block = decode_block(alloc, &bytes)?;
    let (header, data) = (
        header_hash(&block.header),
        data_hash(alloc, &block.envelopes),
    );
    drop(block);
    let mut answer = hex::encode(alloc, &header)?;
    answer.push(' ')?;
    write_hex(&mut answer, &data?)?;
    Ok(answer)
}

/// The tag of the bytes under the key, which is the first piece.
pub fn show_tag(alloc: Global, pieces: &str) -> Result<String, CaseFault> {
    let (key, text) = split_word(pieces);
    let key = bytes_of(alloc, key)?;
    let text = bytes_of(alloc, text)?;
    Ok(hex::encode(alloc, &tag(&key, &text))?)
}
