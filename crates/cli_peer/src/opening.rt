//! What is printed of a store that was opened.

ghost use Rattle.std.specs.Prelude.{◌≡◌, false, IfErr, OnErr, OnOk};
ghost use Rattle.cli_lines.specs.Told.{IsBrokenOff, Prints, PrintsNothing, PrintsPart, Tells};
ghost use Rattle.cli_peer.specs.Opening.{cut_text, opened_text};

use cli_lines::{Failure, Printer};
use std::io::Write;

/// Prints with how many blocks a store was opened, and how many bytes were cut off, if any.
pub(crate) fn print_opened<W: Write>(
    height: u32,
    cut: usize,
    out: &mut Printer<'_, W>,
) -> Result<(), Failure>
    ensures tells { Tells out.old out.new result }
    ensures prints { OnOk result (Prints out.old out.new (opened_text cut height)) }
    ensures part { OnErr result (PrintsPart out.old out.new (opened_text cut height)) }
    ensures handed_on { OnOk result (out.new.waits ≡ false) }
    ensures lost { IfErr result IsBrokenOff }
{
    print_cut(cut, out)?;
    writeln!(out, "height {height}")?;
    out.flush()
}

/// Prints how many bytes were cut off a store, if any.
fn print_cut<W: Write>(cut: usize, out: &mut Printer<'_, W>) -> Result<(), Failure>
    ensures tells { Tells out.old out.new result }
    ensures prints { OnOk result (Prints out.old out.new (cut_text cut)) }
    ensures nothing { OnErr result (PrintsNothing out.old out.new) }
    ensures lost { IfErr result IsBrokenOff }
{
    match cut {
        0 => Ok(()),
        cut => writeln!(out, "cut {cut}"),
    }
}
