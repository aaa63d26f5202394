//! The fields of each form of a line, which are taken in the order of their names.

ghost use Rattle.std.specs.Prelude.{◌≡◌, ◌≢◌, ℕ, List, MatchOption, MatchBool};
ghost use Rattle.serde_json.specs.Data.{Data, Items};
ghost use Rattle.serde_json.specs.View.{view, items_view};
ghost use Rattle.json_questions.specs.Spelling.{block_object, call_object, part_object, range_object, satisfied_object, text_object, word_object};

use json_events::take_argument;
use json_fields::{fields, is_end, take_list, take_number, take_text, take_word};
use serde_json::Value;

/// Whether the line asks by this word alone.
pub(crate) fn asks_alone(value: &Value, word: &str) -> bool
    ensures { MatchBool result (view value.now ≡ word_object word.now)
        (view value.now ≢ word_object word.now) }
{
    let Some(mut left) = fields(value) else {
        return false;
    };
    take_word(&mut left, "ask", word) && is_end(&mut left)
}

/// The number of the block that a line asks for. None where the line is of another form.
pub(crate) fn asked_number(value: &Value) -> Option<u64>
    ensures { MatchOption result ((n : ℕ) → view value.now ≢ block_object n)
        (λ n. view value.now ≡ block_object n) }
{
    let mut left = fields(value)?;
    if !take_word(&mut left, "ask", "block") {
        return None;
    }
    let number = take_number(&mut left, "number")?;
    if is_end(&mut left) {
        Some(number)
    } else {
        None
    }
}

/// The text under this name of a line that asks by this word. None where the line is of another
/// form.
pub(crate) fn asked_text<'a>(value: &'a Value, word: &str, name: &str) -> Option<&'a str>
    ensures { MatchOption result
        ((text : List ℕ) → view value.now ≢ text_object word.now name.now text)
        (λ text. view value.now ≡ text_object word.now name.now text.now) }
{
    let mut left = fields(value)?;
    if !take_word(&mut left, "ask", word) {
        return None;
    }
    let text = take_text(&mut left, name)?;
    if is_end(&mut left) { Some(text) } else { None }
}

/// What the fields of a range hold.
#[derive(Clone, Copy)]
pub(crate) struct RangeFields<'a> {
    pub below: &'a str,
    pub limit: u64,
    pub from: &'a str,
}

/// The fields of a range. None where the line is of another form.
pub(crate) fn range_fields(value: &Value) -> Option<RangeFields<'_>>
    ensures { MatchOption result
        ((below : List ℕ) (limit : ℕ) (from : List ℕ) →
        view value.now ≢ range_object below limit from)
        (λ f. view value.now ≡ range_object f.below.now f.limit f.from.now) }
{
    let mut left = fields(value)?;
    if !take_word(&mut left, "ask", "range") {
        return None;
    }
    let below = take_text(&mut left, "end")?;
    let limit = take_number(&mut left, "limit")?;
    let from = take_text(&mut left, "start")?;
    if is_end(&mut left) {
        Some(RangeFields { below, limit, from })
    } else {
        None
    }
}

/// What the fields of a question about writes in some blocks hold.
#[derive(Clone, Copy)]
pub(crate) struct PartFields<'a> {
    pub blocks: u64,
    pub from: u64,
    pub key: &'a str,
}

/// The fields of a question about writes in some blocks. None where the line is of another form.
pub(crate) fn part_fields(value: &Value) -> Option<PartFields<'_>>
    ensures { MatchOption result
        ((blocks from : ℕ) (key : List ℕ) → view value.now ≢ part_object blocks from key)
        (λ f. view value.now ≡ part_object f.blocks f.from f.key.now) }
{
    let mut left = fields(value)?;
    if !take_word(&mut left, "ask", "history") {
        return None;
    }
    let blocks = take_number(&mut left, "blocks")?;
    let from = take_number(&mut left, "from")?;
    let key = take_text(&mut left, "key")?;
    if is_end(&mut left) {
        Some(PartFields { blocks, from, key })
    } else {
        None
    }
}

/// What the fields of a question about a policy hold.
#[derive(Clone, Copy)]
pub(crate) struct SatisfiedFields<'a> {
    pub chaincode: &'a str,
    pub orgs: &'a [Value],
}

/// The fields of a question about a policy. None where the line is of another form.
pub(crate) fn satisfied_fields(value: &Value) -> Option<SatisfiedFields<'_>>
    ensures { MatchOption result
        ((chaincode : List ℕ) (orgs : Items) →
        view value.now ≢ satisfied_object chaincode orgs)
        (λ f. view value.now ≡ satisfied_object f.chaincode.now (items_view f.orgs.now)) }
{
    let mut left = fields(value)?;
    if !take_word(&mut left, "ask", "satisfied") {
        return None;
    }
    let chaincode = take_text(&mut left, "chaincode")?;
    let orgs = take_list(&mut left, "orgs")?;
    if is_end(&mut left) {
        Some(SatisfiedFields { chaincode, orgs })
    } else {
        None
    }
}

/// What the fields of a call hold.
#[derive(Clone, Copy)]
pub(crate) struct CallFields<'a> {
    pub arg: &'a Value,
    pub chaincode: &'a str,
}

/// The fields of a call. None where the line is of another form.
pub(crate) fn call_fields(value: &Value) -> Option<CallFields<'_>>
    ensures { MatchOption result
        ((arg : Data) (chaincode : List ℕ) → view value.now ≢ call_object arg chaincode)
        (λ f. view value.now ≡ call_object (view f.arg.now) f.chaincode.now) }
{
    let mut left = fields(value)?;
    let arg = take_argument(&mut left)?;
    if !take_word(&mut left, "ask", "call") {
        return None;
    }
    let chaincode = take_text(&mut left, "chaincode")?;
    if is_end(&mut left) {
        Some(CallFields { arg, chaincode })
    } else {
        None
    }
}
