//! What the program prints of an audit, or where none can be made.

ghost use Rattle.std.specs.Prelude.{◌≡◌, ◌<◌, true, false, IfErr, IfOk, OnErr, OnOk};
ghost use Rattle.cli_lines.specs.Lines.{audit_text, does_agree, missing_text};
ghost use Rattle.cli_lines.specs.Told.{IsBrokenOff, Prints, PrintsNothing, Tells};

use crate::failure::Failure;
use crate::printer::Printer;
use ledger_setting::Audit;
use std::io::Write;

/// Prints what an audit says, and answers whether all transactions agree with their reruns.
pub fn print_audit<W: Write>(audit: Audit, out: &mut Printer<'_, W>) -> Result<bool, Failure>
    ensures tells { Tells out.old out.new result }
    ensures lost { IfErr result IsBrokenOff }
    ensures differs { IfOk result (λ good. good ≡ false → out.old.printed < out.new.printed) }
    ensures good { IfOk result (λ good. good ≡ does_agree audit) }
    ensures prints { OnOk result (Prints out.old out.new (audit_text audit)) }
    ensures failed { OnErr result (out.new.failed ≡ true) }
    ensures nothing { OnErr result (PrintsNothing out.old out.new) }
{
    match audit {
        Audit::Agrees { .. } => {
            writeln!(out, "audit agrees")?;
            Ok(true)
        }
        Audit::Differs { block, tx } => {
            writeln!(out, "audit differs {block}.{tx}")?;
            Ok(false)
        }
    }
}

/// Prints that a chain cannot be run again, since the block of this number upgrades to a module that
/// is not at hand.
pub fn print_missing<W: Write>(block: u32, out: &mut Printer<'_, W>) -> Result<(), Failure>
    ensures tells { Tells out.old out.new result }
    ensures lost { IfErr result IsBrokenOff }
    ensures printed { IfOk result (λ _. out.old.printed < out.new.printed) }
    ensures prints { OnOk result (Prints out.old out.new (missing_text block)) }
    ensures nothing { OnErr result (PrintsNothing out.old out.new) }
{
    writeln!(out, "refused 406 block {block}")
}
