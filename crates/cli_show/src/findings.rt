//! What is found of a store.

ghost use Rattle.std.specs.Prelude.{◌≡◌, ◌<◌, IfErr, IfOk, OnErr};
ghost use Rattle.cli_lines.specs.Told.{IsBrokenOff, PrintsNothing, Tells};
ghost use Rattle.kept_state.specs.Keeping.{IsKept, chain_of};
ghost use Rattle.ledger_setting.specs.declared.genesis.Genesis.{Genesis};
ghost use Rattle.cli_show.specs.Findings.{EndsBy, Finds, ends_with, is_good};
ghost use Rattle.cli_show.specs.Reruns.{IsRerun};

use crate::sinks::Rerun;
use block_store::End;
use cli_lines::{Failure, Printer, print_line};
use fabric_core::Audit;
use json_chain::{Finding, ending_line};
use std::alloc::Global;
use std::io::Write;
use store_replay::Replayed;
use world_state::Past;

/// Prints what is found of a store as a line of JSON, and answers whether nothing is wrong with it.
pub fn print_ending<W: Write>(
    alloc: Global,
    replayed: &Replayed,
    finding: Finding,
    out: &mut Printer<'_, W>,
) -> Result<bool, Failure>
    requires kept { IsKept replayed.now.chain }
    ensures tells { Tells out.old out.new result }
    ensures lost { IfErr result IsBrokenOff }
    ensures printed { IfOk result (λ _. out.old.printed < out.new.printed) }
    ensures line { (g : Genesis) → Finds g replayed.now finding →
        IfOk result (EndsBy g replayed.now out.old.bytes out.new.bytes) }
    ensures nothing { OnErr result (PrintsNothing out.old out.new) }
{
    let height = replayed.chain.height() as usize;
    let line = ending_line(alloc, finding, height, replayed.end)?;
    print_line(&line, out)?;
    Ok(is_good(finding, replayed.end))
}

/// The first thing that is wrong with the blocks of a store, or what their audit says.
pub(crate) fn finding_of(replayed: &Replayed, rerun: &Rerun<'_>) -> Finding
    ensures { (g : Genesis) →
        IsRerun g.book.value rerun.now.audit rerun.now.missing (chain_of replayed.now.chain) →
        Finds g replayed.now result }
{
    if let Some(number) = replayed.differs {
        return Finding::FlagsDiffer(number);
    }
    if let Some(refusal) = replayed.refused {
        return Finding::Unfit(refusal);
    }
    if let Some(number) = rerun.missing {
        return Finding::NotAtHand(number);
    }
    Finding::Audited(rerun.audit.finding())
}

/// Whether all transactions agree with their reruns, and the store ends with its last record.
pub(crate) fn is_good(finding: Finding, end: End) -> bool
    ensures { result ≡ is_good finding end }
{
    matches!(
        (finding, end),
        (Finding::Audited(Audit::Agrees { .. }), End::Clean)
    )
}

/// How a task ends that told what it found: by a failure, or by whether nothing is wrong.
pub(crate) fn ends_with(is_good: bool, failure: Option<Failure>) -> Result<(), Failure>
    ensures { result ≡ ends_with is_good failure }
{
    match failure {
        Some(failure) => Err(failure),
        None if is_good => Ok(()),
        None => Err(Failure::Printed),
    }
}
