//! The command `audit`.

ghost use Rattle.std.specs.Prelude.{◌≡◌, IfErr, OnErr, OnOk};
ghost use Rattle.cli_lines.specs.Told.{Answers, Begins, IsBrokenOff, IsTextOf, Prints, PrintsNothing, Tells};
ghost use Rattle.ledger_setting.specs.declared.genesis.Genesis.{Genesis};
ghost use Rattle.cli_show.specs.Findings.{Audits, AuditsReplay, Finds, finding_text};

use crate::explaining::explain_findings;
use crate::findings::{ends_with, finding_of, is_good};
use crate::replaying::replayed;
use crate::showing::end_fault;
use crate::sinks::Rerun;
use cli_lines::{Failure, Files, Printer, print_audit, print_missing};
use endorsement_policy::Workers;
use json_chain::Finding;
use ledger_setting::Genesis;
use std::alloc::Global;
use std::io::Write;
use std::thread::Threads;
use store_replay::Replayed;

/// Prints how many blocks a store has, and what is found of them: the first with other flags than
/// the table's, why one does not fit, the first that upgrades to a module that is not at hand, or
/// what the audit of the chain says. Tags are checked by workers: it is the same for every number
/// of them.
///
/// Refused where the store does not end with its last record (701 to 703). Else what is wrong with
/// its blocks makes it a failure, which is printed.
pub fn audit<T: Threads + Sync, F: Files, W: Write>(
    workers: &Workers<'_, T>,
    alloc: Global,
    files: &mut F,
    genesis: &Genesis,
    store: &str,
    out: &mut Printer<'_, W>,
) -> Result<(), Failure>
    ensures tells { Tells out.old out.new result }
    ensures answers { Answers (Audits genesis.now (F.bytes files.old store.now)) out.old out.new
        result }
    ensures begins { Begins (IsTextOf (Audits genesis.now (F.bytes files.old store.now))) out.old
        out.new result }
    ensures kept { F.bytes files.new ≡ F.bytes files.old }
{
    let rerun = Rerun::new(alloc, &genesis.book);
    let (replayed, rerun) = replayed(workers, alloc, files, genesis, store, rerun)?;
    let finding = finding_of(&replayed, &rerun);
    explain_findings(alloc, files, store, &replayed, rerun.missing);
    print_replayed(&replayed, finding, out)
}

/// Prints how many blocks a store has, and what is found of it.
fn print_replayed<W: Write>(
    replayed: &Replayed,
    finding: Finding,
    out: &mut Printer<'_, W>,
) -> Result<(), Failure>
    ensures tells { Tells out.old out.new result }
    ensures answers { (g : Genesis) → Finds g replayed.now finding →
        Answers (AuditsReplay g replayed.now) out.old out.new result }
    ensures begins { (g : Genesis) → Finds g replayed.now finding →
        Begins (IsTextOf (AuditsReplay g replayed.now)) out.old out.new result }
{
    let blocks = replayed.blocks;
    writeln!(out, "blocks {blocks}")?;
    print_finding(finding, out)?;
    ends_with(is_good(finding, replayed.end), end_fault(replayed.end))
}

/// Prints the first thing that is wrong with the blocks of a store, or what their audit says.
fn print_finding<W: Write>(finding: Finding, out: &mut Printer<'_, W>) -> Result<(), Failure>
    ensures tells { Tells out.old out.new result }
    ensures lost { IfErr result IsBrokenOff }
    ensures prints { OnOk result (Prints out.old out.new (finding_text finding)) }
    ensures nothing { OnErr result (PrintsNothing out.old out.new) }
{
    match finding {
        Finding::FlagsDiffer(block) => writeln!(out, "flags differ {block}"),
        Finding::Unfit(refusal) => writeln!(out, "{refusal}"),
        Finding::NotAtHand(block) => print_missing(block, out),
        Finding::Audited(audit) => {
            print_audit(audit, out)?;
            Ok(())
        }
    }
}
