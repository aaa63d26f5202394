//! Transactions as JSON.

ghost use Rattle.std.specs.Prelude.{◌≡◌, IfOk, OnOk};
ghost use Rattle.serde_json.specs.View.{view};
ghost use Rattle.json_chain.specs.Members.{members_in};
ghost use Rattle.json_chain.specs.Texts.{list_json};
ghost use Rattle.json_chain.specs.Transactions.{definition_json, endorsement_json, endorsements_json, transaction_json};
ghost use Rattle.json_chain.specs.Transactions.{with_amend, with_call, with_payload, with_rest, with_upgrade};
ghost use Rattle.json_chain.specs.Transactions.{payload_json, placed_transaction_json, with_place, with_proposal};
ghost use Rattle.json_chain.specs.Writes.{placed_at};

use crate::object::Object;
use crate::placed::Placed;
use crate::texts::{name_of, policy_of};
use crate::to_json::ToJson;
use endorsement_policy::is_tag;
use fab_types::{
    Amend, Call, Definition, Endorsement, Envelope, Flag, Payload, Proposal, Upgrade, form_of,
};
use org_keys::Organisation;
use serde_json::Value;
use std::alloc::{AllocError, Global};
use wire::payload_id;

/// A transaction, its flag, and which of its tags are right under the keys of these organisations.
/// The only error is want of memory.
pub(crate) fn transaction_of(
    alloc: Global,
    organisations: &[Organisation],
    envelope: &Envelope,
    flag: Flag,
) -> Result<Value, AllocError>
    ensures { IfOk result (λ v. view v ≡ transaction_json organisations.now envelope.now flag) }
{
    let mut object = Object::new(alloc);
    put_proposal(&mut object, envelope.payload.proposal())?;
    put_rest(alloc, &mut object, organisations, envelope, flag)?;
    Ok(object.into_value())
}

/// A transaction as in its block, by the keys of these organisations, with the number of the block
/// and its place there. The only error is want of memory.
pub fn placed_transaction_of(
    alloc: Global,
    organisations: &[Organisation],
    placed: &Placed<'_>,
) -> Result<Value, AllocError>
    ensures { IfOk result
        (λ v. view v
        ≡ placed_transaction_json organisations.now
        (placed_at placed.now.envelope.now placed.now.flag placed.now.block placed.now.place)) }
{
    let mut object = Object::new(alloc);
    put_place(&mut object, placed.block, placed.place)?;
    put_proposal(&mut object, placed.envelope.payload.proposal())?;
    put_rest(
        alloc,
        &mut object,
        organisations,
        placed.envelope,
        placed.flag,
    )?;
    Ok(object.into_value())
}

/// Puts in the number of a block, and a place in it.
fn put_place(object: &mut Object, block: usize, place: usize) -> Result<(), AllocError>
    ensures { OnOk result (members_in object.new ≡ with_place block place (members_in object.old)) }
{
    object.put("block", Value::from(block))?;
    object.put("place", Value::from(place))
}

/// Puts in what a proposal has alone.
fn put_proposal(object: &mut Object, proposal: &Proposal) -> Result<(), AllocError>
    ensures { OnOk result
        (members_in object.new ≡ with_proposal proposal.now (members_in object.old)) }
{
    match proposal {
        Proposal::Call(call) => put_call(object, call),
        Proposal::Upgrade(upgrade) => put_upgrade(object, upgrade),
        Proposal::Amend(amend) => put_amend(object, amend),
    }
}

/// What a payload read, gave and would write. The only error is want of memory.
pub fn payload_of(alloc: Global, payload: &Payload) -> Result<Value, AllocError>
    ensures { IfOk result (λ v. view v ≡ payload_json payload.now) }
{
    let mut object = Object::new(alloc);
    put_payload(&mut object, payload)?;
    Ok(object.into_value())
}

/// Puts in what a call has alone.
fn put_call(object: &mut Object, call: &Call) -> Result<(), AllocError>
    ensures { OnOk result (members_in object.new ≡ with_call call.now (members_in object.old)) }
{
    object.put_hex("arg", call.argument.as_slice())?;
    object.put_text("chaincode", name_of(&call.chaincode))?;
    object.put_hex("nonce", &call.nonce)
}

/// Puts in what an upgrade has alone.
fn put_upgrade(object: &mut Object, upgrade: &Upgrade) -> Result<(), AllocError>
    ensures { OnOk result
        (members_in object.new ≡ with_upgrade upgrade.now (members_in object.old)) }
{
    object.put_text("chaincode", name_of(&upgrade.chaincode))?;
    object.put_hex("nonce", &upgrade.nonce)?;
    object.put_json("upgrade", &upgrade.definition)
}

/// Puts in what an amendment has alone.
fn put_amend(object: &mut Object, amend: &Amend) -> Result<(), AllocError>
    ensures { OnOk result (members_in object.new ≡ with_amend amend.now (members_in object.old)) }
{
    object.put_json("amend", &amend.membership)?;
    object.put_hex("nonce", &amend.nonce)
}

/// Puts in what all transactions have.
fn put_rest(
    alloc: Global,
    object: &mut Object,
    organisations: &[Organisation],
    envelope: &Envelope,
    flag: Flag,
) -> Result<(), AllocError>
    ensures { OnOk result
        (members_in object.new
        ≡ with_rest organisations.now envelope.now flag (members_in object.old)) }
{
    let payload = &envelope.payload;
    object.put(
        "endorsements",
        endorsements_of(alloc, organisations, envelope)?,
    )?;
    object.put("flag", Value::from(flag.number()))?;
    object.put_hex("id", &payload_id(payload))?;
    put_payload(object, payload)
}

/// Puts in what a payload read, gave and wrote.
fn put_payload(object: &mut Object, payload: &Payload) -> Result<(), AllocError>
    ensures { OnOk result
        (members_in object.new ≡ with_payload payload.now (members_in object.old)) }
{
    object.put_list("ranges", payload.ranges().as_slice())?;
    object.put_list("reads", payload.reads().as_slice())?;
    object.put_hex("result", payload.result().as_slice())?;
    object.put_list("writes", payload.writes().as_slice())
}

impl ToJson for Definition {
    ghost json = { definition_json };

    fn to_json(&self, alloc: Global) -> Result<Value, AllocError> {
        let mut object = Object::new(alloc);
        object.put("fuel", Value::from(self.fuel.get()))?;
        object.put_hex("module", &self.digest)?;
        object.put_text("policy", policy_of(&self.policy))?;
        object.put("profile", Value::from(form_of(self)))?;
        Ok(object.into_value())
    }
}

/// The endorsements of a transaction, each with whether its tag is right.
fn endorsements_of(
    alloc: Global,
    organisations: &[Organisation],
    envelope: &Envelope,
) -> Result<Value, AllocError>
    ensures { IfOk result (λ v. view v ≡ endorsements_json organisations.now envelope.now) }
{
    let bytes = envelope.payload.bytes();
    endorsements_over(
        alloc,
        organisations,
        bytes,
        envelope.endorsements.as_slice(),
    )
}

/// The same over a payload of these bytes.
fn endorsements_over(
    alloc: Global,
    organisations: &[Organisation],
    bytes: &[u8],
    items: &[Endorsement],
) -> Result<Value, AllocError>
    ensures { IfOk result
        (λ v. view v ≡ list_json (endorsement_json organisations.now bytes.now) items.now) }
{
    let mut values = Vec::new(alloc);
    for item in items {
        values.push(endorsement_of(alloc, organisations, bytes, item)?)?;
    }
    Ok(Value::Array(values))
}

fn endorsement_of(
    alloc: Global,
    organisations: &[Organisation],
    bytes: &[u8],
    endorsement: &Endorsement,
) -> Result<Value, AllocError>
    ensures { IfOk result
        (λ v. view v ≡ endorsement_json organisations.now bytes.now endorsement.now) }
{
    let mut object = Object::new(alloc);
    object.put_json("org", &endorsement.org)?;
    object.put(
        "right",
        Value::from(is_tag(organisations, endorsement, bytes)),
    )?;
    object.put_hex("tag", endorsement.tag.as_slice())?;
    Ok(object.into_value())
}
