//! The transaction of an id, as JSON.

ghost use Rattle.std.specs.Prelude.{◌≡◌, ◌⊎◌, IfErr, IfOk, None, Some, option_map, true};
ghost use Rattle.std.specs.List.{find};
ghost use Rattle.serde_json.specs.View.{view};
ghost use Rattle.kept_state.specs.Keeping.{IsKept, chain_of};
ghost use Rattle.ledger_model.specs.Chain.{Chain, Placed as Found, history, transactions_from};
ghost use Rattle.store_devices.specs.Placed.{IsOfMemory};
ghost use Rattle.json_chain.specs.Writes.{placed_at};
ghost use Rattle.json_questions.specs.Answers.{GivesBack, has_id, or_null, placed_json};

use crate::standing::standing_before;
use endorsement_policy::Rules;
use fab_types::CommittedBlock;
use json_chain::{Placed, placed_transaction_of};
use kept_state::KeptChain;
use serde_json::Value;
use std::alloc::Global;
use store_devices::{BlockFault, Blocks};
use wire::payload_id;

/// The first transaction of this id, at its place in the chain, by who stands before its block;
/// null where there is none. It is looked for in the block that has the id first, which is damaged
/// where it has no such transaction.
pub(crate) fn transaction_of<B: Blocks>(
    alloc: Global,
    rules: &Rules,
    blocks: &B,
    id: &[u8; 32],
) -> Result<Value, BlockFault>
    requires { B.IsSound blocks.now }
    ensures answered { IfOk result
        (λ v. (read : Chain) × GivesBack B.keeps (B.chain blocks.now) read
        × (view v ≡ or_null (placed_json rules.now (B.chain blocks.now))
        (find (has_id id.now) (history read)))) }
    ensures lost { B.keeps ≡ true → IfErr result IsOfMemory }
{
    let chain = blocks.kept();
    let Some(number) = chain.block_of(id) else {
        return Ok(Value::Null);
    };
    let committed = blocks.block(alloc, number)?;
    shown_in(alloc, rules, chain, &committed, id, number)
}

/// The first transaction of this id in the block of a number, by who stands before that. The block
/// is damaged where it has none.
fn shown_in(
    alloc: Global,
    rules: &Rules,
    chain: &KeptChain,
    committed: &CommittedBlock,
    id: &[u8; 32],
    number: u32,
) -> Result<Value, BlockFault>
    requires { IsKept chain.now }
    ensures shown { IfOk result
        (λ v. (t : Found) × (find (has_id id.now)
        (transactions_from number 0 committed.now.block.envelopes committed.now.flags) ≡ Some t)
        × (view v ≡ placed_json rules.now (chain_of chain.now) t)) }
    ensures lost { IfErr result
        (λ f. IsOfMemory f ⊎ (find (has_id id.now)
        (transactions_from number 0 committed.now.block.envelopes committed.now.flags) ≡ None)) }
{
    let Some(placed) = first_in(committed, id, number as usize) else {
        return Err(BlockFault::Damaged(number));
    };
    let standing = standing_before(alloc, rules, chain, number)?;
    let shown = placed_transaction_of(alloc, standing.organisations(), &placed)?;
    Ok(shown)
}

/// The first transaction of this id in the block of a number.
fn first_in<'a>(committed: &'a CommittedBlock, id: &[u8; 32], number: usize) -> Option<Placed<'a>>
    ensures { option_map (λ p. placed_at p.envelope.now p.flag p.block p.place) result
        ≡ find (has_id id.now)
        (transactions_from number 0 committed.now.block.envelopes committed.now.flags) }
{
    let envelopes = committed.block().envelopes.as_slice();
    let flags = committed.flags();
    for place in 0..envelopes.len() {
        let envelope = &envelopes[place];
        if payload_id(&envelope.payload) == *id {
            return Some(Placed {
                envelope,
                flag: flags[place],
                block: number,
                place,
            });
        }
    }
    None
}
