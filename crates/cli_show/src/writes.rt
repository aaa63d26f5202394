//! The lines of writes to a key.

ghost use Rattle.std.specs.Prelude.{Some, OnOk, string_bytes};
ghost use Rattle.json_chain.specs.Writes.{placed_at};
ghost use Rattle.ledger_model.specs.Chain.{transactions_from};
ghost use Rattle.cli_show.specs.Lines.{HasLines, write_json, writes_json};

use crate::texts::push_line;
use fab_types::{CommittedBlock, Key};
use json_chain::{Placed, write_line};
use std::alloc::{AllocError, Global};

/// Puts each write of a VALID transaction to a key, in the block of a number, behind a text, as a
/// line of JSON.
pub(crate) fn push_writes(
    alloc: Global,
    text: &mut String,
    committed: &CommittedBlock,
    key: &Key,
    number: usize,
) -> Result<(), AllocError>
    ensures { OnOk result
        (HasLines
        (writes_json key.now
        (transactions_from number 0 committed.now.block.envelopes committed.now.flags))
        (Some (string_bytes text.old)) (Some (string_bytes text.new))) }
{
    let envelopes = committed.block().envelopes.as_slice();
    let flags = committed.flags();
    for place in 0..envelopes.len() {
        let placed = Placed {
            envelope: &envelopes[place],
            flag: flags[place],
            block: number,
            place,
        };
        push_write(alloc, text, &placed, key)?;
    }
    Ok(())
}

/// The same of a transaction of it.
fn push_write(
    alloc: Global,
    text: &mut String,
    placed: &Placed<'_>,
    key: &Key,
) -> Result<(), AllocError>
    ensures { OnOk result
        (HasLines
        (write_json key.now
        (placed_at placed.now.envelope.now placed.now.flag placed.now.block placed.now.place))
        (Some (string_bytes text.old)) (Some (string_bytes text.new))) }
{
    match write_line(alloc, placed, key)? {
        Some(line) => push_line(text, &line),
        None => Ok(()),
    }
}
