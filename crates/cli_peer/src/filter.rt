//! How the lines are read behind what was printed, and how a run ends.

ghost use Rattle.std.specs.Prelude.{◌≡◌, ℕ, List, [], false, OnErr, OnOk, IfErr, IfOk};
ghost use Rattle.cli_lines.specs.Told.{IsBrokenOff, IsMore, Prints, PrintsNothing, PrintsPart, Says, Tells, Told};
ghost use Rattle.cli_peer.specs.Filters.{IsEndedBy};
ghost use Rattle.cli_peer.specs.Input.{IsNext, is_at_hand};
ghost use Rattle.log_peer.specs.Refusals.{store_text};

use crate::input::InputLines;
use cli_lines::{Failure, Files, Printer};
use log_peer::StoreRefusal;
use std::alloc::Global;
use std::io::{Read, Write};

/// Prints why a store ends the run.
pub(crate) fn end<W: Write>(refusal: StoreRefusal, out: &mut Printer<'_, W>) -> Failure
    ensures more { IsMore out.old out.new }
    ensures says { Says out.old out.new result }
    ensures ends { IsEndedBy (store_text refusal) out.old out.new result }
{
    match writeln!(out, "{refusal}") {
        Ok(()) => Failure::Printed,
        Err(failure) => failure,
    }
}

/// Hands on what was printed, where no further line is at hand.
fn hand_on<R: Read + Drop, W: Write>(
    lines: &InputLines<R>,
    out: &mut Printer<'_, W>,
) -> Result<(), Failure>
    ensures tells { Tells out.old out.new result }
    ensures kept { (before : Told) (text : List ℕ) → Prints before out.old text →
        OnOk result (Prints before out.new text) }
    ensures handed_on { is_at_hand lines.now ≡ false → OnOk result (out.new.waits ≡ false) }
    ensures nothing { OnErr result (PrintsNothing out.old out.new) }
    ensures lost { IfErr result IsBrokenOff }
{
    if lines.is_at_hand() {
        return Ok(());
    }
    out.flush()
}

/// Reads the next line, behind what was printed: where no further line is at hand, that is handed
/// on first, so that nobody waits for it who has to send the next line. Answers whether there is
/// one. Says why the input was not read, if it was not.
pub(crate) fn next_line<F: Files, R: Read + Drop, W: Write>(
    alloc: Global,
    files: &mut F,
    lines: &mut InputLines<R>,
    out: &mut Printer<'_, W>,
) -> Result<bool, Failure>
    ensures next { IfOk result (λ there. IsNext there lines.old lines.new) }
    ensures handed_on { is_at_hand lines.old ≡ false → OnOk result (out.new.waits ≡ false) }
    ensures told { (before : Told) (text : List ℕ) → Prints before out.old text →
        OnOk result (Prints before out.new text) }
    ensures part { OnErr result (PrintsPart out.old out.new []) }
    ensures tells { Tells out.old out.new result }
    ensures lost { IfErr result IsBrokenOff }
    ensures kept { F.bytes files.new ≡ F.bytes files.old }
{
    hand_on(lines, out)?;
    lines.read_explained(alloc, files)
}
