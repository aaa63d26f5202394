//! What a run says of the first peer's chain at its end.

ghost use Rattle.std.specs.Prelude.{◌≡◌, ◌<◌, false, IfErr, IfOk, OnErr, OnOk};
ghost use Rattle.cli_lines.specs.Told.{IsBrokenOff, Prints, PrintsNothing, Tells};
ghost use Rattle.cli_session.specs.Verdicts.{IsVerdict, is_good, verdict_text};

use cli_lines::{Failure, Printer, first_missing, print_audit, print_missing};
use fabric_core::audit;
use ledger_setting::{Audit, Genesis};
use std::alloc::{AllocError, Global};
use std::io::Write;
use world_state::Snapshot;

/// What is said of a chain.
#[derive(Clone, Copy)]
pub(crate) enum Verdict {
    /// It cannot be run again: the block of this number upgrades to a module that is not at hand.
    NotAtHand(u32),
    /// What its audit says.
    Audited(Audit),
}

/// What is said of the chain of a snapshot. The only error is want of memory.
pub(crate) fn verdict_of(
    alloc: Global,
    genesis: &Genesis,
    snapshot: &Snapshot,
) -> Result<Verdict, AllocError>
    ensures { IfOk result (IsVerdict genesis.now.book.value snapshot.now) }
{
    if let Some(number) = first_missing(&genesis.book, snapshot.blocks()) {
        return Ok(Verdict::NotAtHand(number));
    }
    Ok(Verdict::Audited(audit(alloc, genesis, snapshot)?))
}

/// Prints it, and answers whether all transactions agree with their reruns.
pub(crate) fn print_verdict<W: Write>(
    verdict: Verdict,
    out: &mut Printer<'_, W>,
) -> Result<bool, Failure>
    ensures tells { Tells out.old out.new result }
    ensures lost { IfErr result IsBrokenOff }
    ensures differs { IfOk result (λ good. good ≡ false → out.old.printed < out.new.printed) }
    ensures good { IfOk result (λ good. good ≡ is_good verdict) }
    ensures prints { OnOk result (Prints out.old out.new (verdict_text verdict)) }
    ensures nothing { OnErr result (PrintsNothing out.old out.new) }
{
    match verdict {
        Verdict::NotAtHand(number) => {
            print_missing(number, out)?;
            Ok(false)
        }
        Verdict::Audited(audit) => print_audit(audit, out),
    }
}
