//! The command `threads`.

ghost use Rattle.std.specs.Prelude.{◌≡◌, ◌<◌, false, IfErr, IfOk, OnErr, OnOk};
ghost use Rattle.cli_lines.specs.Lines.{does_agree};
ghost use Rattle.cli_lines.specs.Told.{Answers, Begins, IsBrokenOff, IsTextOf, Prints, PrintsNothing, PrintsPart, Tells};
ghost use Rattle.ledger_cli.specs.Seats.{RunsSeats, TellsReport, missing_text, report_text};

use crate::verdict::answer_of;
use cli_lines::{Failure, Files, Printer, need_seeds, print_audit};
use fab_types::Name;
use ledger_setting::Genesis;
use seat_threads::{Report, SeatsRefusal, run_seats};
use std::alloc::Global;
use std::io::Write;
use std::sync::Wait;
use std::thread::Threads;

/// Lets each seat of the first peer endorse and submit so many calls of a chaincode on a thread of
/// its own, and prints how many were endorsed and refused, how many of the endorsed ones the
/// orderer refused, if any, how many blocks came of them, and what the audit of the chain says.
///
/// Refused first where the peer's seed is not at hand (808), and as `run_seats` is.
pub(crate) fn threads<R: Threads + Wait + Sync + Send + Copy + 'static, F: Files, W: Write>(
    rt: &R,
    alloc: Global,
    files: &mut F,
    genesis: &Genesis,
    chaincode: &Name,
    rounds: u32,
    out: &mut Printer<'_, W>,
) -> Result<(), Failure>
    ensures tells { Tells out.old out.new result }
    ensures answers { Answers (RunsSeats genesis.now chaincode.now rounds) out.old out.new result }
    ensures begins { Begins (IsTextOf (RunsSeats genesis.now chaincode.now rounds)) out.old out.new
        result }
    ensures kept { F.bytes files.new ≡ F.bytes files.old }
{
    need_seeds(alloc, files, genesis, &genesis.peers[..1])?;
    match run_seats(rt, alloc, genesis, chaincode, rounds) {
        Ok(report) => print_report(report, out),
        Err(SeatsRefusal::Memory) => Err(Failure::Memory),
        Err(SeatsRefusal::NoPlace) => Err(Failure::NoPlace),
        Err(SeatsRefusal::NotEntered) => Err(Failure::NotEntered),
    }
}

/// Prints what seats have done. A difference that their audit finds is an error, which is printed.
fn print_report<W: Write>(report: Report, out: &mut Printer<'_, W>) -> Result<(), Failure>
    ensures tells { Tells out.old out.new result }
    ensures answers { Answers (TellsReport report) out.old out.new result }
    ensures begins { Begins (IsTextOf (TellsReport report)) out.old out.new result }
{
    answer_of(print_seats(report, out))
}

/// Prints what seats have done, and answers whether their audit agrees.
fn print_seats<W: Write>(report: Report, out: &mut Printer<'_, W>) -> Result<bool, Failure>
    ensures tells { Tells out.old out.new result }
    ensures lost { IfErr result IsBrokenOff }
    ensures good { IfOk result (λ good. good ≡ does_agree report.audit) }
    ensures differs { IfOk result (λ good. good ≡ false → out.old.printed < out.new.printed) }
    ensures prints { OnOk result (Prints out.old out.new (report_text report)) }
    ensures part { OnErr result (PrintsPart out.old out.new (report_text report)) }
{
    writeln!(out, "endorsed {}", report.endorsed)?;
    writeln!(out, "refused {}", report.refused)?;
    print_missing(report.missing, out)?;
    writeln!(out, "blocks {}", report.blocks)?;
    print_audit(report.audit, out)
}

/// Prints how many envelopes the orderer refused, where there are any.
fn print_missing<W: Write>(missing: u64, out: &mut Printer<'_, W>) -> Result<(), Failure>
    ensures tells { Tells out.old out.new result }
    ensures lost { IfErr result IsBrokenOff }
    ensures prints { OnOk result (Prints out.old out.new (missing_text missing)) }
    ensures nothing { OnErr result (PrintsNothing out.old out.new) }
{
    if missing == 0 {
        return Ok(());
    }
    writeln!(out, "missing {missing}")
}
