//! What is printed of a block that joined the chain.

ghost use Rattle.std.specs.Prelude.{◌≡◌, IfErr, OnErr, OnOk, Some, length};
ghost use Rattle.std.specs.List.{flat_map};
ghost use Rattle.cli_lines.specs.Told.{IsBrokenOff, Prints, PrintsNothing, PrintsPart, Tells};
ghost use Rattle.ledger_model.specs.Chain.{transactions_from};
ghost use Rattle.cli_peer.specs.Printed.{joined_text, tx_text};

use cli_lines::{Failure, Printer, hex_of, id_of, print_committed};
use fab_types::{CommittedBlock, Envelope, Flag};
use std::alloc::Global;
use std::io::Write;

/// Prints what each transaction of the block of a number came to, and then the block's flags.
pub(crate) fn print_joined<W: Write>(
    alloc: Global,
    number: u32,
    block: &CommittedBlock,
    out: &mut Printer<'_, W>,
) -> Result<(), Failure>
    ensures tells { Tells out.old out.new result }
    ensures prints { OnOk result (Prints out.old out.new (joined_text number (Some block.now))) }
    ensures part { OnErr result (PrintsPart out.old out.new (joined_text number (Some block.now))) }
    ensures lost { IfErr result IsBrokenOff }
{
    let envelopes = block.block().envelopes.as_slice();
    print_transactions(alloc, number, envelopes, block.flags(), out)?;
    print_committed(number as usize, block.flags(), out)
}

/// Prints what each transaction of a block came to, by its flag.
fn print_transactions<W: Write>(
    alloc: Global,
    number: u32,
    envelopes: &[Envelope],
    flags: &[Flag],
    out: &mut Printer<'_, W>,
) -> Result<(), Failure>
    requires { length flags.now ≡ length envelopes.now }
    ensures tells { Tells out.old out.new result }
    ensures prints { OnOk result
        (Prints out.old out.new
        (flat_map tx_text (transactions_from number 0 envelopes.now flags.now))) }
    ensures part { OnErr result
        (PrintsPart out.old out.new
        (flat_map tx_text (transactions_from number 0 envelopes.now flags.now))) }
    ensures lost { IfErr result IsBrokenOff }
{
    for (place, envelope) in envelopes.iter().enumerate() {
        print_transaction(alloc, number, place, envelope, flags[place], out)?;
    }
    Ok(())
}

/// Prints what the transaction at a place of a block came to: its id, its flag and its result.
fn print_transaction<W: Write>(
    alloc: Global,
    number: u32,
    place: usize,
    envelope: &Envelope,
    flag: Flag,
    out: &mut Printer<'_, W>,
) -> Result<(), Failure>
    ensures tells { Tells out.old out.new result }
    ensures prints { OnOk result
        (Prints out.old out.new
        (tx_text
        (record {
          version = record { block = number; place = place };
          envelope = envelope.now;
          flag = flag;
        }))) }
    ensures nothing { OnErr result (PrintsNothing out.old out.new) }
    ensures lost { IfErr result IsBrokenOff }
{
    let id = id_of(alloc, &envelope.payload)?;
    let result = hex_of(alloc, envelope.payload.result().as_slice())?;
    writeln!(out, "tx {number}.{place} {id} {flag} {result}")
}
