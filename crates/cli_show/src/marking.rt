//! The command `marks`.

ghost use Rattle.std.specs.Prelude.{◌≡◌, None, Some, IfErr, IfSome, OnErr, OnOk, map, string_bytes};
ghost use Rattle.std.specs.Io.KnownBytes.{Appends};
ghost use Rattle.cli_lines.specs.Told.{Answers, Begins, IsBrokenOff, IsTextOf, PrintsNothing, Tells};
ghost use Rattle.log_orderer.specs.Marks.{block_marks, envelope_mark};
ghost use Rattle.cli_show.specs.Answers.{fault_of};
ghost use Rattle.cli_show.specs.Marks.{HasTexts, Marks};

use crate::explaining::explain_fault;
use crate::replaying::replayed;
use crate::showing::fault_of;
use crate::texts::{print_text, push_line};
use cli_lines::{Failure, Files, Printer};
use endorsement_policy::Workers;
use fab_types::{CommittedBlock, Envelope};
use ledger_setting::Genesis;
use std::alloc::{AllocError, Global};
use std::io::Write;
use std::thread::Threads;
use store_replay::{BlockSink, Replayed};
use wire::encode_envelope;

/// The marks of the blocks that were taken, a line each.
#[derive(Drop)]
struct MarkText {
    alloc: Global,
    text: String,
}

impl BlockSink for MarkText {
    ghost use Rattle.std.specs.Prelude.{◌≡◌, string_bytes};
    ghost use Rattle.std.specs.List.{flat_map};
    ghost use Rattle.cli_lines.specs.Texts.{line};
    ghost use Rattle.cli_show.specs.Marks.{chain_marks};

    ghost Context = { Unit {0} };

    ghost context = { λ _. tt };

    ghost Took = { λ m chain. string_bytes m.text ≡ flat_map line (chain_marks chain) };

    fn take(&mut self, committed: CommittedBlock) -> Result<(), AllocError> {
        push_block(self.alloc, &committed, &mut self.text)
    }
}

/// Prints the marks of a store's chain, a line each: each block's envelopes in hex, in their order,
/// and `tick`. A replica of the orderer that has read nothing cuts the same blocks of them.
///
/// Refused where a block is stored with other flags than the table's (711), where one does not fit
/// (601 to 604), and where the store does not end with its last record (701 to 703).
pub fn marks<T: Threads + Sync, F: Files, W: Write>(
    workers: &Workers<'_, T>,
    alloc: Global,
    files: &mut F,
    genesis: &Genesis,
    store: &str,
    out: &mut Printer<'_, W>,
) -> Result<(), Failure>
    ensures tells { Tells out.old out.new result }
    ensures answers { Answers (Marks genesis.now (F.bytes files.old store.now)) out.old out.new
        result }
    ensures begins { Begins (IsTextOf (Marks genesis.now (F.bytes files.old store.now))) out.old
        out.new result }
    ensures kept { F.bytes files.new ≡ F.bytes files.old }
{
    let text = String::new(alloc);
    let marks = MarkText { alloc, text };
    let (replayed, marks) = replayed(workers, alloc, files, genesis, store, marks)?;
    explain_fault(alloc, files, store, &replayed);
    print_marks(&replayed, &marks.text, out)
}

/// Prints the marks of a chain that was committed again.
fn print_marks<W: Write>(
    replayed: &Replayed,
    text: &String,
    out: &mut Printer<'_, W>,
) -> Result<(), Failure>
    ensures tells { Tells out.old out.new result }
    ensures lost { fault_of replayed.now ≡ None → IfErr result IsBrokenOff }
    ensures refused { IfSome (fault_of replayed.now) (λ failure.
        (result ≡ Err failure) × (out.new ≡ out.old)) }
    ensures text { OnOk result (Appends out.old.bytes out.new.bytes (string_bytes text.now)) }
    ensures nothing { OnErr result (PrintsNothing out.old out.new) }
{
    if let Some(failure) = fault_of(replayed) {
        return Err(failure);
    }
    print_text(text, out)
}

/// Puts the marks of a block behind a text: its envelopes in hex, and `tick`.
fn push_block(
    alloc: Global,
    committed: &CommittedBlock,
    text: &mut String,
) -> Result<(), AllocError>
    ensures { OnOk result
        (HasTexts (block_marks committed.now.block) (Some (string_bytes text.old))
        (Some (string_bytes text.new))) }
{
    push_envelopes(alloc, committed.block().envelopes.as_slice(), text)?;
    text.push_str("tick\n")
}

/// Puts envelopes in hex behind a text.
fn push_envelopes(
    alloc: Global,
    envelopes: &[Envelope],
    text: &mut String,
) -> Result<(), AllocError>
    ensures { OnOk result
        (HasTexts (map envelope_mark envelopes.now) (Some (string_bytes text.old))
        (Some (string_bytes text.new))) }
{
    for envelope in envelopes {
        let mark = hex::encode(alloc, &encode_envelope(alloc, envelope)?)?;
        push_line(text, &mark)?;
    }
    Ok(())
}
