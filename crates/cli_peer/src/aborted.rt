//! What a batch leaves out.

ghost use Rattle.std.specs.Prelude.{IfErr, OnErr, OnOk, option_map};
ghost use Rattle.std.specs.List.{flat_map, zip};
ghost use Rattle.cli_lines.specs.Told.{IsBrokenOff, Prints, PrintsNothing, PrintsPart, Tells};
ghost use Rattle.cli_peer.specs.Printed.{left_out_text, left_text};

use cli_lines::{Failure, Printer};
use orderer::AbortCause;
use std::alloc::Global;
use std::io::Write;

/// Prints transactions that are left out of a batch, by their ids, and why.
pub(crate) fn print_aborted<W: Write>(
    alloc: Global,
    ids: &[[u8; 32]],
    causes: &[(u16, AbortCause)],
    out: &mut Printer<'_, W>,
) -> Result<(), Failure>
    ensures prints { OnOk result
        (Prints out.old out.new (flat_map left_out_text (zip ids.now causes.now))) }
    ensures part { OnErr result
        (PrintsPart out.old out.new (flat_map left_out_text (zip ids.now causes.now))) }
    ensures tells { Tells out.old out.new result }
    ensures lost { IfErr result IsBrokenOff }
{
    for (place, id) in ids.iter().enumerate() {
        print_left_out(alloc, id, causes.get(place), out)?;
    }
    Ok(())
}

/// Prints a transaction that is left out of a batch by its id, where it is told why.
fn print_left_out<W: Write>(
    alloc: Global,
    id: &[u8; 32],
    left: Option<&(u16, AbortCause)>,
    out: &mut Printer<'_, W>,
) -> Result<(), Failure>
    ensures prints { OnOk result
        (Prints out.old out.new (left_text id.now (option_map (λ l. l.now) left.entry))) }
    ensures nothing { OnErr result (PrintsNothing out.old out.new) }
    ensures tells { Tells out.old out.new result }
    ensures lost { IfErr result IsBrokenOff }
{
    match left {
        Some(left) => {
            let id = hex::encode(alloc, id)?;
            let cause = left.1;
            writeln!(out, "aborted {id} {cause}")
        }
        None => Ok(()),
    }
}
