//! The answer to a question.

ghost use Rattle.std.specs.Prelude.{◌≡◌, ◌≤◌, ◌-◌, ◌⊎◌, IfErr, IfOk, false, length, slice_get, string_bytes, true};
ghost use Rattle.serde_json.specs.View.{view};
ghost use Rattle.kept_state.specs.Keeping.{IsKept, chain_of};
ghost use Rattle.ledger_model.specs.Chain.{Chain, history};
ghost use Rattle.ledger_model.specs.State.{state};
ghost use Rattle.world_state.specs.Writing.{as_state};
ghost use Rattle.store_devices.specs.Placed.{IsOfMemory};
ghost use Rattle.json_chain.specs.Blocks.{block_json};
ghost use Rattle.json_chain.specs.JsonText.{IsJsonText};
ghost use Rattle.json_chain.specs.Standing.{orgs_before};
ghost use Rattle.json_questions.specs.Answers.{AsksBlocks, GivesBack, answer_from, or_null};

use crate::calling::outcome_of;
use crate::entries::{entries_of, entry_at};
use crate::policies::satisfied_of;
use crate::question::Question;
use crate::standing::standing_before;
use crate::transactions::transaction_of;
use crate::writes::{part_of, writes_of};
use endorsement_policy::Rules;
use fab_types::{BlockNumber, CommittedBlock};
use json_chain::{block_of, genesis_of, line_of, standing_of_state};
use kept_state::KeptChain;
use ledger_setting::Genesis;
use serde_json::Value;
use std::alloc::{AllocError, Global};
use store_devices::{BlockFault, Blocks};
use world_state::{Past, StateMap};

/// The answer to a question by a genesis, after a chain whose blocks are read where they lie, as
/// one line of text. Where a block that it asks for is not read back, that is the error; else the
/// only one is want of memory.
pub fn answer_text<B: Blocks>(
    alloc: Global,
    genesis: &Genesis,
    blocks: &B,
    question: &Question,
) -> Result<String, BlockFault>
    requires { B.IsSound blocks.now }
    ensures answered { IfOk result
        (λ s. (read : Chain) × GivesBack B.keeps (B.chain blocks.now) read
        × IsJsonText (answer_from genesis.now question.now (B.chain blocks.now) read)
        (string_bytes s)) }
    ensures lost { IfErr result
        (λ f. IsOfMemory f ⊎ ((B.keeps ≡ false) × AsksBlocks question.now)) }
{
    let answer = answer_of(alloc, genesis, blocks, question)?;
    Ok(line_of(alloc, &answer)?)
}

/// The answer to a question.
fn answer_of<B: Blocks>(
    alloc: Global,
    genesis: &Genesis,
    blocks: &B,
    question: &Question,
) -> Result<Value, BlockFault>
    requires { B.IsSound blocks.now }
    ensures answered { IfOk result
        (λ v. (read : Chain) × GivesBack B.keeps (B.chain blocks.now) read
        × (view v ≡ answer_from genesis.now question.now (B.chain blocks.now) read)) }
    ensures lost { IfErr result
        (λ f. IsOfMemory f ⊎ ((B.keeps ≡ false) × AsksBlocks question.now)) }
{
    let rules: &Rules = &genesis.rules;
    let state = state_of(blocks);
    match question {
        Question::Setting => Ok(genesis_of(alloc, genesis)?),
        Question::Members => Ok(standing_of_state(alloc, rules, state)?),
        Question::Block(number) => block_at(alloc, rules, blocks, *number),
        Question::Get(key) => Ok(entry_at(alloc, state, key)?),
        Question::Range { start, end, limit } => Ok(entries_of(alloc, state, start, end, *limit)?),
        Question::History(key) => writes_of(alloc, blocks, key),
        Question::HistoryPart {
            key,
            from,
            blocks: most,
        } => part_of(alloc, blocks, key, *from, *most),
        Question::Transaction(id) => transaction_of(alloc, rules, blocks, id),
        Question::Satisfied { chaincode, orgs } => {
            Ok(satisfied_of(alloc, rules, state, chaincode, orgs)?)
        }
        Question::Call {
            chaincode,
            argument,
        } => Ok(outcome_of(alloc, &genesis.book, state, chaincode, argument)?),
    }
}

/// The state after a chain.
fn state_of<B: Blocks>(blocks: &B) -> &StateMap
    requires { B.IsSound blocks.now }
    ensures { as_state result.now.entries ≡ state (history (B.chain blocks.now)) }
{
    blocks.kept().map()
}

/// The block of a number, by who stands before it; null where there is none.
fn block_at<B: Blocks>(
    alloc: Global,
    rules: &Rules,
    blocks: &B,
    number: BlockNumber,
) -> Result<Value, BlockFault>
    requires { B.IsSound blocks.now }
    ensures answered { IfOk result
        (λ v. (read : Chain) × GivesBack B.keeps (B.chain blocks.now) read
        × (view v ≡ or_null (block_json (orgs_before rules.now number (B.chain blocks.now)))
        (slice_get read (number - 1)))) }
    ensures lost { B.keeps ≡ true → IfErr result IsOfMemory }
{
    let number = number.get();
    let chain = blocks.kept();
    if number > chain.height() {
        return Ok(Value::Null);
    }
    let block = blocks.block(alloc, number)?;
    Ok(block_behind(alloc, rules, chain, number, &block)?)
}

/// The block of a number, by who stands before it.
fn block_behind(
    alloc: Global,
    rules: &Rules,
    chain: &KeptChain,
    number: u32,
    block: &CommittedBlock,
) -> Result<Value, AllocError>
    requires { IsKept chain.now }
    ensures { IfOk result
        (λ v. view v
        ≡ block_json (orgs_before rules.now number (chain_of chain.now)) block.now) }
{
    let standing = standing_before(alloc, rules, chain, number)?;
    block_of(alloc, standing.organisations(), block)
}
