//! A line as a whole.

ghost use Rattle.std.specs.Prelude.{◌≡◌, IfOk, IfErr, Some};
ghost use Rattle.serde_json.specs.Data.{Data};
ghost use Rattle.serde_json.specs.Read.{read};
ghost use Rattle.serde_json.specs.View.{view};
ghost use Rattle.json_events.specs.Refused.{NoneIs};
ghost use Rattle.json_events.specs.Spelling.{IsAction, IsProposal, Spells, SpellsProposal};
ghost use Rattle.json_events.specs.declared.action.Action.TheVariants.{Begin};

use crate::action::{Action, BadLine};
use crate::fields::{
    Place, amend_fields, begun_amend_fields, begun_call_fields, begun_upgrade_fields, call_fields,
    committing_peer, finish_fields, is_word, submitted_hex, upgrade_fields, used_names,
};
use crate::members::amend;
use crate::values::{bytes_of, call, names, upgrade};
use fab_types::Proposal;
use serde_json::Value;
use serde_json::error::Category;
use std::alloc::Global;

/// The action that a line spells.
///
/// `NoForm` only where the line spells none: it is not JSON, has a field too few or too many, or a
/// field holds what it may not. `Memory` where a growth was refused. A text that is not UTF-8 is no
/// line of any form either, which its reader tells before this call.
pub fn read_event(alloc: Global, line: &str) -> Result<Action, BadLine>
    ensures ok { IfOk result (λ a. Spells line.now a) }
    ensures refused { IfErr result (λ r. NoneIs (Spells line.now) r) }
{
    let value = value_of(alloc, line)?;
    action_of(alloc, &value)
}

/// The proposal that a line spells: the fields of a begin of it, without `do`, a peer and a seat.
///
/// `NoForm` only where the line spells none: each of these three fields is one too many, and the
/// rest is as of `read_event`. `Memory` where a growth was refused.
pub fn read_proposal(alloc: Global, line: &str) -> Result<Proposal, BadLine>
    ensures ok { IfOk result (λ p. SpellsProposal line.now p) }
    ensures refused { IfErr result (λ r. NoneIs (SpellsProposal line.now) r) }
{
    let value = value_of(alloc, line)?;
    proposal_of(alloc, &value)
}

/// The JSON value that a line is. `NoForm` only where it is none; `Memory` where a growth was
/// refused.
pub fn value_of(alloc: Global, line: &str) -> Result<Value, BadLine>
    ensures ok { IfOk result (λ v. read line.now ≡ Some (view v)) }
    ensures refused { IfErr result (λ r. NoneIs (λ (d : Data). read line.now ≡ Some d) r) }
{
    match Value::from_str(alloc, line) {
        Ok(value) => Ok(value),
        Err(error) if error.classify() == Category::Memory => Err(BadLine::Memory),
        Err(_) => Err(BadLine::NoForm),
    }
}

/// The proposal that the data of a line spells.
fn proposal_of(alloc: Global, value: &Value) -> Result<Proposal, BadLine>
    ensures ok { IfOk result (λ p. IsProposal (view value.now) p) }
    ensures refused { IfErr result (λ r. NoneIs (IsProposal (view value.now)) r) }
{
    if let Some(fields) = call_fields(value) {
        return Ok(Proposal::Call(call(alloc, &fields)?));
    }
    if let Some(fields) = upgrade_fields(value) {
        return Ok(Proposal::Upgrade(upgrade(alloc, &fields)?));
    }
    if let Some(fields) = amend_fields(value) {
        return Ok(Proposal::Amend(amend(alloc, &fields)?));
    }
    Err(BadLine::NoForm)
}

/// A seat of a peer begins to simulate a proposal.
fn begun(place: Place, proposal: Proposal) -> Action
    ensures { result ≡ Begin place.peer place.seat proposal }
{
    Action::Begin {
        peer: place.peer,
        seat: place.seat,
        proposal,
    }
}

/// The action that the data of a line spells.
fn action_of(alloc: Global, value: &Value) -> Result<Action, BadLine>
    ensures ok { IfOk result (λ a. IsAction (view value.now) a) }
    ensures refused { IfErr result (λ r. NoneIs (IsAction (view value.now)) r) }
{
    if let Some((place, fields)) = begun_call_fields(value) {
        return Ok(begun(place, Proposal::Call(call(alloc, &fields)?)));
    }
    if let Some((place, fields)) = begun_upgrade_fields(value) {
        return Ok(begun(place, Proposal::Upgrade(upgrade(alloc, &fields)?)));
    }
    if let Some((place, fields)) = begun_amend_fields(value) {
        return Ok(begun(place, Proposal::Amend(amend(alloc, &fields)?)));
    }
    if let Some(fields) = finish_fields(value) {
        let name = String::from_str(alloc, fields.name)?;
        let (peer, seat) = (fields.place.peer, fields.place.seat);
        return Ok(Action::Finish { peer, seat, name });
    }
    if let Some(items) = used_names(value) {
        return Ok(Action::SubmitEndorsed(names(alloc, items)?));
    }
    if let Some(hex) = submitted_hex(value) {
        return Ok(Action::SubmitBytes(bytes_of(alloc, hex)?));
    }
    if let Some(peer) = committing_peer(value) {
        return Ok(Action::Commit { peer });
    }
    if is_word(value, "take") {
        return Ok(Action::Take);
    }
    if is_word(value, "tick") {
        return Ok(Action::Tick);
    }
    Err(BadLine::NoForm)
}
