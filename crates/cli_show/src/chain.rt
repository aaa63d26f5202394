//! The lines of a chain.

ghost use Rattle.std.specs.Prelude.{◌≡◌, [], ◌∷◌, ◌+◌, ◌++◌, List, None, IfErr, IfOk, OnErr, OnOk, length, option_map, string_bytes};
ghost use Rattle.serde_json.specs.Data.{Data};
ghost use Rattle.cli_lines.specs.Told.{IsBrokenOff, Tells};
ghost use Rattle.endorsement_policy.specs.Membership.{standing_by};
ghost use Rattle.ledger_model.specs.Chain.{Chain};
ghost use Rattle.json_chain.specs.Blocks.{block_json};
ghost use Rattle.json_chain.specs.Genesis.{genesis_json};
ghost use Rattle.json_chain.specs.JsonText.{IsJsonText};
ghost use Rattle.json_chain.specs.Standing.{amended_by, blocks_json};
ghost use Rattle.cli_show.specs.Lines.{AreLines, HasLines, IsShown, PrintsFirst};
ghost use Rattle.cli_show.specs.Reruns.{IsRerun};
ghost use Rattle.cli_show.specs.Spans.{within};

use crate::sinks::Rerun;
use crate::span::Span;
use crate::texts::{print_text, push_line};
use cli_lines::{Failure, Printer, print_line};
use endorsement_policy::{Rules, Standing};
use fab_types::{CommittedBlock, Membership};
use json_chain::{amended_by, block_line, genesis_line};
use ledger_setting::Genesis;
use std::alloc::{AllocError, Global};
use std::io::Write;
use store_replay::BlockSink;

/// The lines of the blocks from one number to another, of those that were taken, the membership
/// behind these, and what is known of them. Which tags are right is by who stands before their
/// block.
#[derive(Drop)]
pub(crate) struct ShownChain<'a> {
    alloc: Global,
    rules: &'a Rules,
    pub(crate) span: Span,
    membership: Option<Membership>,
    pub(crate) lines: String,
    pub(crate) rerun: Rerun<'a>,
}

impl<'a> ShownChain<'a> {
    /// Before the first block. It takes no memory.
    pub(crate) fn new(alloc: Global, genesis: &'a Genesis, span: Span) -> ShownChain<'a>
        ensures shown { IsShown result.rules.now result.span.from result.span.to
            result.membership (string_bytes result.lines) [] }
        ensures rerun { IsRerun result.rerun.book.now result.rerun.audit result.rerun.missing [] }
        ensures rules { result.rules.now ≡ genesis.now.rules.value }
        ensures span { result.span ≡ span }
        ensures book { result.rerun.book.now ≡ genesis.now.book.value }
    {
        ShownChain {
            alloc,
            rules: &genesis.rules,
            span,
            membership: None,
            lines: String::new(alloc),
            rerun: Rerun::new(alloc, &genesis.book),
        }
    }

    /// Puts the line of the next block behind the others, where it is one of those that are shown.
    fn show(&mut self, committed: &CommittedBlock) -> Result<(), AllocError>
        ensures shown { (chain : Chain) →
            IsShown self.old.rules.now self.old.span.from self.old.span.to self.old.membership
            (string_bytes self.old.lines) chain →
            committed.now.block.header.number ≡ length chain + 1 →
            OnOk result (IsShown self.new.rules.now self.new.span.from self.new.span.to
            self.new.membership (string_bytes self.new.lines) (chain ++ committed.now ∷ [])) }
        ensures rules { self.new.rules.now ≡ self.old.rules.now }
        ensures span { self.new.span ≡ self.old.span }
        ensures rerun { self.new.rerun ≡ self.old.rerun }
    {
        let membership = self.membership.as_ref();
        let lines = &mut self.lines;
        push_shown(
            self.alloc, self.rules, self.span, membership, committed, lines,
        )?;
        self.membership = membership_behind(membership, committed)?;
        Ok(())
    }
}

impl BlockSink for ShownChain<'_> {
    ghost use Rattle.std.specs.Prelude.{string_bytes};
    ghost use Rattle.chaincode_book.specs.Books.{Book};
    ghost use Rattle.endorsement_policy.specs.Endorsed.{Listed};
    ghost use Rattle.cli_show.specs.Lines.{IsShown};
    ghost use Rattle.cli_show.specs.Reruns.{IsRerun};
    ghost use Rattle.cli_show.specs.declared.span.Span.{Span};

    ghost Context = { Listed × (Span × Book) };

    ghost context = { λ s. (s.rules.now, (s.span, s.rerun.book.now)) };

    ghost Took = { λ s chain. IsShown s.rules.now s.span.from s.span.to s.membership
        (string_bytes s.lines) chain
        × IsRerun s.rerun.book.now s.rerun.audit s.rerun.missing chain };

    fn take(&mut self, committed: CommittedBlock) -> Result<(), AllocError> {
        self.rerun.see(&committed)?;
        self.show(&committed)
    }
}

/// Puts the line of the next block, before which this membership stands, behind those of the blocks
/// before it, where a span holds it.
fn push_shown(
    alloc: Global,
    rules: &Rules,
    span: Span,
    membership: Option<&Membership>,
    committed: &CommittedBlock,
    lines: &mut String,
) -> Result<(), AllocError>
    ensures { (chain : Chain) →
        IsShown rules.now span.from span.to (option_map (λ m. m.now) membership.entry)
        (string_bytes lines.old) chain →
        committed.now.block.header.number ≡ length chain + 1 →
        OnOk result
        (AreLines (within span.from span.to (blocks_json rules.now None (chain ++ committed.now ∷ [])))
        (string_bytes lines.new)) }
{
    let number = committed.block().header.number.get() as usize;
    if number < span.from || span.to < number {
        return Ok(());
    }
    let line = line_behind(alloc, rules, membership, committed)?;
    push_line(lines, &line)
}

/// The membership behind a block, where this one stands before it. The error is of memory.
fn membership_behind(
    was: Option<&Membership>,
    committed: &CommittedBlock,
) -> Result<Option<Membership>, AllocError>
    ensures { IfOk result
        (λ m. m
        ≡ amended_by (option_map (λ s. s.now) was.entry) committed.now.block.envelopes
        committed.now.flags) }
{
    match amended_by(was, committed) {
        Some(membership) => Ok(Some(membership.clone()?)),
        None => Ok(None),
    }
}

/// The line of a block, before which this membership stands, or the genesis' where there is none.
fn line_behind(
    alloc: Global,
    rules: &Rules,
    membership: Option<&Membership>,
    committed: &CommittedBlock,
) -> Result<String, AllocError>
    ensures { IfOk result
        (λ s. IsJsonText
        (block_json (standing_by rules.now (option_map (λ m. m.now) membership.entry)).orgs
        committed.now)
        (string_bytes s)) }
{
    let standing = Standing::after(alloc, rules, membership)?;
    block_line(alloc, standing.organisations(), committed)
}

/// Prints what a genesis sets, as a line of JSON, and then these lines.
pub(crate) fn print_chain<W: Write>(
    alloc: Global,
    genesis: &Genesis,
    lines: &String,
    out: &mut Printer<'_, W>,
) -> Result<(), Failure>
    ensures tells { Tells out.old out.new result }
    ensures lost { IfErr result IsBrokenOff }
    ensures lines { (ds : List Data) → AreLines ds (string_bytes lines.now) →
        OnOk result (HasLines (genesis_json genesis.now ∷ ds) out.old.bytes out.new.bytes) }
    ensures first { (ds : List Data) → AreLines ds (string_bytes lines.now) →
        OnErr result (PrintsFirst (genesis_json genesis.now ∷ ds) out.old out.new) }
{
    let line = genesis_line(alloc, genesis)?;
    print_line(&line, out)?;
    print_text(lines, out)
}
