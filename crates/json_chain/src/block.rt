//! Blocks as JSON.

ghost use Rattle.std.specs.Prelude.{◌≡◌, IfOk, OnOk, length};
ghost use Rattle.serde_json.specs.Data.{array};
ghost use Rattle.serde_json.specs.View.{items_of, view};
ghost use Rattle.json_chain.specs.Blocks.{block_json, transactions_json, with_header};
ghost use Rattle.json_chain.specs.Members.{members_in};

use crate::object::Object;
use crate::transaction::transaction_of;
use fab_types::{CommittedBlock, Envelope, Flag, Header};
use org_keys::Organisation;
use serde_json::Value;
use std::alloc::{AllocError, Global};
use wire::header_hash;

/// A block with its hashes, its transactions and their flags, and which of their tags are right
/// under the keys of these organisations. The only error is want of memory.
pub fn block_of(
    alloc: Global,
    organisations: &[Organisation],
    committed: &CommittedBlock,
) -> Result<Value, AllocError>
    ensures { IfOk result (λ v. view v ≡ block_json organisations.now committed.now) }
{
    let mut object = Object::new(alloc);
    put_header(&mut object, &committed.block().header)?;
    let envelopes = committed.block().envelopes.as_slice();
    let transactions = transactions_of(alloc, organisations, envelopes, committed.flags())?;
    object.put("txs", transactions)?;
    Ok(object.into_value())
}

/// Puts in what a header has, and its hash.
fn put_header(object: &mut Object, header: &Header) -> Result<(), AllocError>
    ensures { OnOk result
        (members_in object.new ≡ with_header header.now (members_in object.old)) }
{
    object.put("block", Value::from(header.number.get()))?;
    object.put_hex("data", &header.data_hash)?;
    object.put_hex("hash", &header_hash(header))?;
    object.put_hex("previous", &header.previous_hash)
}

/// The transactions of a block, each with its flag.
fn transactions_of(
    alloc: Global,
    organisations: &[Organisation],
    envelopes: &[Envelope],
    flags: &[Flag],
) -> Result<Value, AllocError>
    requires one_each { length flags.now ≡ length envelopes.now }
    ensures { IfOk result
        (λ v. view v
        ≡ array (items_of (transactions_json organisations.now envelopes.now flags.now))) }
{
    let mut values = Vec::new(alloc);
    for place in 0..envelopes.len() {
        let transaction = transaction_of(alloc, organisations, &envelopes[place], flags[place])?;
        values.push(transaction)?;
    }
    Ok(Value::Array(values))
}
