//! The commands `show` and `state`.

ghost use Rattle.std.specs.Prelude.{◌≡◌, None, IfErr, IfSome, OnErr, OnOk, string_bytes};
ghost use Rattle.cli_lines.specs.Told.{Answers, Begins, IsBrokenOff, Tells};
ghost use Rattle.cli_show.specs.Answers.{IsSought, StateBegins, States, block_fault, end_fault, fault_of, part_json};
ghost use Rattle.kept_state.specs.Keeping.{IsKept, chain_of};
ghost use Rattle.cli_show.specs.Findings.{Finds, ShowBegins, Shows, ShowsReplay};
ghost use Rattle.cli_show.specs.Lines.{AreFirstLines, HasLines, IsShown, PrintsFirst, chain_json};

use crate::chain::{ShownChain, print_chain};
use crate::entries::print_state;
use crate::explaining::{explain_asked, explain_shown};
use crate::findings::{ends_with, finding_of, print_ending};
use crate::members::print_members;
use crate::replaying::replayed;
use crate::sought::Sought;
use crate::span::Span;
use crate::texts::print_text;
use block_store::End;
use cli_lines::{Failure, Files, Printer};
use endorsement_policy::{Rules, Workers};
use fab_types::Key;
use json_chain::Finding;
use ledger_setting::Genesis;
use std::alloc::Global;
use std::io::Write;
use std::thread::Threads;
use store_replay::Replayed;

/// What `show` is asked for: these blocks of the store in the file of a name.
#[derive(Clone, Copy)]
pub struct Shown<'a> {
    pub store: &'a str,
    pub span: Span,
}

/// What of a state is asked for.
#[derive(Clone, Copy)]
pub enum Part<'a> {
    /// Its entries.
    Entries,
    /// Each write to this key up to it.
    Writes(&'a Key),
    /// Who stands there.
    Members,
}

/// What `state` is asked for: this part of the state after the block of this number of the store in
/// the file of a name.
#[derive(Clone, Copy)]
pub struct Asked<'a> {
    pub store: &'a str,
    pub at: usize,
    pub part: Part<'a>,
}

/// Prints what the genesis sets, the blocks of a store from one number to another, and what is
/// found of the store, as lines of JSON. What is wrong with the store makes it a failure, which is
/// printed.
pub fn show<T: Threads + Sync, F: Files, W: Write>(
    workers: &Workers<'_, T>,
    alloc: Global,
    files: &mut F,
    genesis: &Genesis,
    shown: &Shown<'_>,
    out: &mut Printer<'_, W>,
) -> Result<(), Failure>
    ensures tells { Tells out.old out.new result }
    ensures answers { Answers
        (Shows genesis.now shown.now.span.from shown.now.span.to
        (F.bytes files.old shown.now.store.now)) out.old out.new result }
    ensures begins { Begins
        (ShowBegins genesis.now shown.now.span.from shown.now.span.to
        (F.bytes files.old shown.now.store.now)) out.old out.new result }
    ensures kept { F.bytes files.new ≡ F.bytes files.old }
{
    let chain = ShownChain::new(alloc, genesis, shown.span);
    let (replayed, chain) = replayed(workers, alloc, files, genesis, shown.store, chain)?;
    let finding = finding_of(&replayed, &chain.rerun);
    explain_shown(alloc, files, shown, &replayed, chain.rerun.missing);
    print_shown(alloc, genesis, &replayed, &chain, finding, out)
}

/// Prints the chain of a store, and what is found of it.
fn print_shown<W: Write>(
    alloc: Global,
    genesis: &Genesis,
    replayed: &Replayed,
    chain: &ShownChain<'_>,
    finding: Finding,
    out: &mut Printer<'_, W>,
) -> Result<(), Failure>
    requires kept { IsKept replayed.now.chain }
    requires shown { IsShown genesis.now.rules.value chain.now.span.from chain.now.span.to
        chain.now.membership (string_bytes chain.now.lines) (chain_of replayed.now.chain) }
    requires found { Finds genesis.now replayed.now finding }
    ensures tells { Tells out.old out.new result }
    ensures answers { Answers
        (ShowsReplay genesis.now chain.now.span.from chain.now.span.to replayed.now) out.old
        out.new result }
    ensures begins { Begins
        (AreFirstLines (chain_json genesis.now chain.now.span.from chain.now.span.to
        (chain_of replayed.now.chain))) out.old out.new result }
{
    print_chain(alloc, genesis, &chain.lines, out)?;
    let is_good = print_ending(alloc, replayed, finding, out)?;
    ends_with(is_good, None)
}

/// Prints the state after the block of a number, each write to a key up to it, or who stands there,
/// as lines of JSON.
///
/// Refused where a block is stored with other flags than the table's (711), where one does not fit
/// (601 to 604), and where the store does not end with its last record (701 to 703).
pub fn state<T: Threads + Sync, F: Files, W: Write>(
    workers: &Workers<'_, T>,
    alloc: Global,
    files: &mut F,
    genesis: &Genesis,
    asked: &Asked<'_>,
    out: &mut Printer<'_, W>,
) -> Result<(), Failure>
    ensures tells { Tells out.old out.new result }
    ensures answers { Answers
        (States genesis.now asked.now.part asked.now.at (F.bytes files.old asked.now.store.now))
        out.old out.new result }
    ensures begins { Begins
        (StateBegins genesis.now asked.now.part asked.now.at
        (F.bytes files.old asked.now.store.now)) out.old out.new result }
    ensures kept { F.bytes files.new ≡ F.bytes files.old }
{
    let sought = Sought::new(alloc, asked);
    let (replayed, sought) = replayed(workers, alloc, files, genesis, asked.store, sought)?;
    explain_asked(alloc, files, asked, &replayed);
    print_asked(alloc, &genesis.rules, &replayed, &sought, out)
}

/// Prints what is asked for of the state after a store, as `state` does.
fn print_asked<W: Write>(
    alloc: Global,
    rules: &Rules,
    replayed: &Replayed,
    sought: &Sought<'_>,
    out: &mut Printer<'_, W>,
) -> Result<(), Failure>
    requires { IsSought sought.now.asked.part sought.now.asked.at sought.now.state.entries
        (string_bytes sought.now.writes) (chain_of replayed.now.chain) }
    ensures tells { Tells out.old out.new result }
    ensures refused { IfSome (fault_of replayed.now) (λ failure.
        (result ≡ Err failure) × (out.new ≡ out.old)) }
    ensures lines { OnOk result
        (HasLines (part_json rules.now sought.now.asked.part sought.now.asked.at
        (chain_of replayed.now.chain)) out.old.bytes out.new.bytes) }
    ensures lost { fault_of replayed.now ≡ None → IfErr result IsBrokenOff }
    ensures first { OnErr result
        (PrintsFirst (part_json rules.now sought.now.asked.part sought.now.asked.at
        (chain_of replayed.now.chain)) out.old out.new) }
{
    if let Some(failure) = fault_of(replayed) {
        return Err(failure);
    }
    match sought.asked.part {
        Part::Entries => print_state(alloc, &sought.state, out),
        Part::Writes(_) => print_text(&sought.writes, out),
        Part::Members => print_members(alloc, rules, &sought.state, out),
    }
}

/// Why the state after a store is not told: what is wrong with the store first. None where it is
/// whole, all its blocks fit, and all have the flags of the table.
pub(crate) fn fault_of(replayed: &Replayed) -> Option<Failure>
    ensures { result ≡ fault_of replayed.now }
{
    if let Some(block) = replayed.differs {
        return Some(Failure::Flags(block));
    }
    chain_fault(replayed)
}

/// Why the chain of a store is not whole: why a block does not fit, or else how the store ends.
pub(crate) fn chain_fault(replayed: &Replayed) -> Option<Failure>
    ensures { result ≡ block_fault replayed.now.refused replayed.now.end }
{
    if let Some(refusal) = replayed.refused {
        return Some(Failure::Commit(refusal));
    }
    end_fault(replayed.end)
}

/// The failure that an end of a store is, unless it is that of its last record.
pub(crate) fn end_fault(end: End) -> Option<Failure>
    ensures { result ≡ end_fault end }
{
    match end {
        End::Clean => None,
        end => Some(Failure::Store(end)),
    }
}
