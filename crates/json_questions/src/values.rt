//! What the fields of a line hold.

ghost use Rattle.std.specs.Prelude.{◌≡◌, ℕ, IfOk, IfErr, MatchOption, Ok};
ghost use Rattle.serde_json.specs.View.{items_view, view};
ghost use Rattle.hex.specs.Hex.{decode_sized};
ghost use Rattle.fab_types.specs.Limits.{IsBlockNumber};
ghost use Rattle.json_events.specs.Refused.{NoneIs};
ghost use Rattle.json_questions.specs.Spelling.{IsBoundOf, IsKeyOf, IsLimit, IsQuestion};
ghost use Rattle.json_questions.specs.Spelling.{call_object, part_object, range_object, satisfied_object};

use crate::fields::{CallFields, PartFields, RangeFields, SatisfiedFields};
use crate::orgs::orgs;
use crate::question::Question;
use fab_types::{BlockNumber, Bound, Key};
use hex::FromHex;
use json_events::{BadLine, argument, bytes_of, name};
use std::alloc::Global;

/// How many entries, or blocks, may be asked for at most.
const GREATEST_LIMIT: u64 = 1_000;

/// The number of a block.
pub(crate) fn block_number(number: u64) -> Result<BlockNumber, BadLine>
    ensures ok { IfOk result (λ n. (n ≡ number) × IsBlockNumber number) }
    ensures refused { IfErr result
        (λ r. NoneIs (λ (n : ℕ). (n ≡ number) × IsBlockNumber number) r) }
{
    let Ok(number) = u32::try_from(number) else {
        return Err(BadLine::NoForm);
    };
    match BlockNumber::new(number) {
        Some(number) => Ok(number),
        None => Err(BadLine::NoForm),
    }
}

/// The key that a text of hex stands for.
pub(crate) fn key(alloc: Global, text: &str) -> Result<Key, BadLine>
    ensures ok { IfOk result (λ k. IsKeyOf text.now k) }
    ensures refused { IfErr result (λ r. NoneIs (IsKeyOf text.now) r) }
{
    match Key::new(bytes_of(alloc, text)?) {
        Some(key) => Ok(key),
        None => Err(BadLine::NoForm),
    }
}

/// The id that a text of hex stands for.
pub(crate) fn id(text: &str) -> Result<[u8; 32], BadLine>
    ensures ok { IfOk result (λ id. decode_sized text.now 32 ≡ Ok id) }
    ensures refused { IfErr result (λ r. NoneIs (λ id. decode_sized text.now 32 ≡ Ok id) r) }
{
    match <[u8; 32]>::from_hex(text) {
        Ok(id) => Ok(id),
        Err(_) => Err(BadLine::NoForm),
    }
}

/// The bound that a text of hex stands for.
fn bound(alloc: Global, text: &str) -> Result<Bound, BadLine>
    ensures ok { IfOk result (λ b. IsBoundOf text.now b) }
    ensures refused { IfErr result (λ r. NoneIs (IsBoundOf text.now) r) }
{
    match Bound::new(bytes_of(alloc, text)?) {
        Some(bound) => Ok(bound),
        None => Err(BadLine::NoForm),
    }
}

/// How many entries, or blocks, are asked for, where that is within the limits.
fn limit(count: u64) -> Option<usize>
    ensures { MatchOption result (¬ IsLimit count) (λ n. (n ≡ count) × IsLimit count) }
{
    if count == 0 || count > GREATEST_LIMIT {
        return None;
    }
    Some(count as usize)
}

/// The range that these fields ask for.
pub(crate) fn range(alloc: Global, fields: &RangeFields<'_>) -> Result<Question, BadLine>
    ensures ok { IfOk result
        (IsQuestion (range_object fields.now.below.now fields.now.limit fields.now.from.now)) }
    ensures refused { IfErr result
        (λ r. NoneIs
        (IsQuestion (range_object fields.now.below.now fields.now.limit fields.now.from.now)) r) }
{
    let Some(limit) = limit(fields.limit) else {
        return Err(BadLine::NoForm);
    };
    let start = bound(alloc, fields.from)?;
    let end = bound(alloc, fields.below)?;
    Ok(Question::Range { start, end, limit })
}

/// The question about writes in some blocks that these fields ask.
pub(crate) fn part(alloc: Global, fields: &PartFields<'_>) -> Result<Question, BadLine>
    ensures ok { IfOk result
        (IsQuestion (part_object fields.now.blocks fields.now.from fields.now.key.now)) }
    ensures refused { IfErr result
        (λ r. NoneIs
        (IsQuestion (part_object fields.now.blocks fields.now.from fields.now.key.now)) r) }
{
    let Some(blocks) = limit(fields.blocks) else {
        return Err(BadLine::NoForm);
    };
    let from = block_number(fields.from)?;
    let key = key(alloc, fields.key)?;
    Ok(Question::HistoryPart { key, from, blocks })
}

/// The question about a policy that these fields ask.
pub(crate) fn satisfied(alloc: Global, fields: &SatisfiedFields<'_>) -> Result<Question, BadLine>
    ensures ok { IfOk result
        (IsQuestion (satisfied_object fields.now.chaincode.now (items_view fields.now.orgs.now))) }
    ensures refused { IfErr result
        (λ r. NoneIs
        (IsQuestion (satisfied_object fields.now.chaincode.now (items_view fields.now.orgs.now)))
        r) }
{
    let chaincode = name(fields.chaincode)?;
    let orgs = orgs(alloc, fields.orgs)?;
    Ok(Question::Satisfied { chaincode, orgs })
}

/// The call that these fields ask for.
pub(crate) fn call(alloc: Global, fields: &CallFields<'_>) -> Result<Question, BadLine>
    ensures ok { IfOk result
        (IsQuestion (call_object (view fields.now.arg.now) fields.now.chaincode.now)) }
    ensures refused { IfErr result
        (λ r. NoneIs
        (IsQuestion (call_object (view fields.now.arg.now) fields.now.chaincode.now)) r) }
{
    let chaincode = name(fields.chaincode)?;
    let argument = argument(alloc, fields.arg)?;
    Ok(Question::Call {
        chaincode,
        argument,
    })
}
