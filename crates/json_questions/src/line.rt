//! A line as a whole.

ghost use Rattle.std.specs.Prelude.{IfOk, IfErr};
ghost use Rattle.serde_json.specs.View.{view};
ghost use Rattle.json_events.specs.Refused.{NoneIs};
ghost use Rattle.json_questions.specs.Spelling.{IsQuestion, SpellsQuestion};

use crate::fields::{
    asked_number, asked_text, asks_alone, call_fields, part_fields, range_fields, satisfied_fields,
};
use crate::question::Question;
use crate::values::{block_number, call, id, key, part, range, satisfied};
use json_events::{BadLine, value_of};
use serde_json::Value;
use std::alloc::Global;

/// The question that a line spells.
///
/// `NoForm` only where the line spells none: it is not JSON, has a field too few or too many, or a
/// field holds what it may not. `Memory` where a growth was refused. A text that is not UTF-8 is no
/// line of any form either, which its reader tells before this call.
pub fn read_question(alloc: Global, line: &str) -> Result<Question, BadLine>
    ensures ok { IfOk result (λ q. SpellsQuestion line.now q) }
    ensures refused { IfErr result (λ r. NoneIs (SpellsQuestion line.now) r) }
{
    let value = value_of(alloc, line)?;
    question_of(alloc, &value)
}

/// The question that the data of a line spells.
fn question_of(alloc: Global, value: &Value) -> Result<Question, BadLine>
    ensures ok { IfOk result (λ q. IsQuestion (view value.now) q) }
    ensures refused { IfErr result (λ r. NoneIs (IsQuestion (view value.now)) r) }
{
    if asks_alone(value, "setting") {
        return Ok(Question::Setting);
    }
    if asks_alone(value, "members") {
        return Ok(Question::Members);
    }
    if let Some(number) = asked_number(value) {
        return Ok(Question::Block(block_number(number)?));
    }
    if let Some(hex) = asked_text(value, "get", "key") {
        return Ok(Question::Get(key(alloc, hex)?));
    }
    if let Some(hex) = asked_text(value, "history", "key") {
        return Ok(Question::History(key(alloc, hex)?));
    }
    if let Some(fields) = part_fields(value) {
        return part(alloc, &fields);
    }
    if let Some(hex) = asked_text(value, "transaction", "id") {
        return Ok(Question::Transaction(id(hex)?));
    }
    if let Some(fields) = range_fields(value) {
        return range(alloc, &fields);
    }
    if let Some(fields) = satisfied_fields(value) {
        return satisfied(alloc, &fields);
    }
    if let Some(fields) = call_fields(value) {
        return call(alloc, &fields);
    }
    Err(BadLine::NoForm)
}
