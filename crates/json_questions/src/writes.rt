//! What was written to a key, as JSON.

ghost use Rattle.std.specs.Prelude.{◌≡◌, ◌≤◌, ◌+◌, ◌-◌, ◌++◌, IfErr, IfOk, OnOk, length, map, true};
ghost use Rattle.serde_json.specs.Data.{array};
ghost use Rattle.serde_json.specs.View.{items_of, view};
ghost use Rattle.fab_types.specs.Committed.{Committed};
ghost use Rattle.ledger_model.specs.Chain.{Chain, history, placed_from, transactions_from};
ghost use Rattle.store_devices.specs.Blocks.{IsGiven};
ghost use Rattle.store_devices.specs.Placed.{IsOfMemory};
ghost use Rattle.json_chain.specs.Writes.{placed_at, write_json, writes_json};
ghost use Rattle.json_questions.specs.Answers.{AreGiven, GivesBack, part_of};

use fab_types::limits::LAST_BLOCK;
use fab_types::{BlockNumber, CommittedBlock, Key};
use json_chain::{Placed, written_of};
use serde_json::Value;
use std::alloc::{AllocError, Global};
use store_devices::{BlockFault, Blocks};
use world_state::Past;

/// Each write of a VALID transaction to a key, in the order of the chain.
pub(crate) fn writes_of<B: Blocks>(
    alloc: Global,
    blocks: &B,
    key: &Key,
) -> Result<Value, BlockFault>
    requires { B.IsSound blocks.now }
    ensures answered { IfOk result
        (λ v. (read : Chain) × GivesBack B.keeps (B.chain blocks.now) read
        × (view v ≡ array (items_of (writes_json key.now (history read))))) }
    ensures lost { B.keeps ≡ true → IfErr result IsOfMemory }
{
    writes_in(alloc, blocks, key, 1, blocks.kept().height())
}

/// The same of so many blocks at most, from that of a number on.
pub(crate) fn part_of<B: Blocks>(
    alloc: Global,
    blocks: &B,
    key: &Key,
    from: BlockNumber,
    most: usize,
) -> Result<Value, BlockFault>
    requires { B.IsSound blocks.now }
    ensures answered { IfOk result
        (λ v. (read : Chain) × GivesBack B.keeps (B.chain blocks.now) read
        × (view v ≡ array (items_of (writes_json key.now (part_of from most read))))) }
    ensures lost { B.keeps ≡ true → IfErr result IsOfMemory }
{
    let from = from.get();
    let behind = (blocks.kept().height() + 1).saturating_sub(from);
    let count = most.min(behind as usize) as u32;
    writes_in(alloc, blocks, key, from, count)
}

/// The same of so many blocks from that of a number on, which the chain has.
fn writes_in<B: Blocks>(
    alloc: Global,
    blocks: &B,
    key: &Key,
    first: u32,
    count: u32,
) -> Result<Value, BlockFault>
    requires sound { B.IsSound blocks.now }
    requires numbered { 1 ≤ first }
    requires there { count ≤ length (B.chain blocks.now) + 1 - first }
    requires limits { length (B.chain blocks.now) ≤ LAST_BLOCK }
    ensures answered { IfOk result
        (λ v. (read : Chain) × AreGiven B.keeps (B.chain blocks.now) first read
        × (length read ≡ count)
        × (view v ≡ array (items_of (writes_json key.now (placed_from first read))))) }
    ensures lost { B.keeps ≡ true → IfErr result IsOfMemory }
{
    let mut values = Vec::new(alloc);
    for index in 0..count {
        push_read(alloc, blocks, &mut values, key, first + index)?;
    }
    Ok(Value::Array(values))
}

/// Those of the block of a number, as it is read, behind others.
fn push_read<B: Blocks>(
    alloc: Global,
    blocks: &B,
    values: &mut Vec<Value>,
    key: &Key,
    number: u32,
) -> Result<(), BlockFault>
    requires sound { B.IsSound blocks.now }
    requires there { (1 ≤ number) × (number ≤ length (B.chain blocks.now)) }
    ensures pushed { OnOk result
        ((c : Committed) × IsGiven B.keeps (B.chain blocks.now) number c
        × (map view values.new.items
        ≡ map view values.old.items
        ++ writes_json key.now (transactions_from number 0 c.block.envelopes c.flags))) }
    ensures lost { B.keeps ≡ true → IfErr result IsOfMemory }
{
    let block = blocks.block(alloc, number)?;
    push_block(alloc, values, &block, key, number as usize)?;
    Ok(())
}

/// Those of the block of a number, behind others.
fn push_block(
    alloc: Global,
    values: &mut Vec<Value>,
    committed: &CommittedBlock,
    key: &Key,
    number: usize,
) -> Result<(), AllocError>
    ensures { OnOk result
        (map view values.new.items
        ≡ map view values.old.items
        ++ writes_json key.now
        (transactions_from number 0 committed.now.block.envelopes committed.now.flags)) }
{
    let envelopes = committed.block().envelopes.as_slice();
    let flags = committed.flags();
    for place in 0..envelopes.len() {
        let placed = Placed {
            envelope: &envelopes[place],
            flag: flags[place],
            block: number,
            place,
        };
        push_write(alloc, values, &placed, key)?;
    }
    Ok(())
}

/// That of a transaction, if there is one, behind others.
fn push_write(
    alloc: Global,
    values: &mut Vec<Value>,
    placed: &Placed<'_>,
    key: &Key,
) -> Result<(), AllocError>
    ensures { OnOk result
        (map view values.new.items
        ≡ map view values.old.items
        ++ write_json key.now
        (placed_at placed.now.envelope.now placed.now.flag placed.now.block placed.now.place)) }
{
    match written_of(alloc, placed, key)? {
        Some(value) => Ok(values.push(value)?),
        None => Ok(()),
    }
}
