//! Which modules a rerun of a chain needs.

ghost use Rattle.std.specs.Prelude.{◌≡◌, option_map};
ghost use Rattle.std.specs.List.{find};
ghost use Rattle.world_state.specs.Shared.{blocks_in};
ghost use Rattle.cli_lines.specs.Missing.{block_needs_module, first_missing, need_module, needs_module};

use crate::explaining::{Location, explain};
use crate::files::Files;
use chaincode_book::Book;
use fab_types::{CommittedBlock, Envelope, Flag, Proposal};
use simulator::is_at_hand;
use std::alloc::Global;
use std::sync::Arc;

/// The number of the first block with a VALID upgrade to a definition whose module is not at hand.
pub fn first_missing(book: &Book, blocks: &[Arc<CommittedBlock>]) -> Option<u32>
    ensures { result ≡ first_missing book.now (blocks_in blocks.now) }
{
    let committed = first_that_needs(book, blocks)?;
    Some(committed.block().header.number.get())
}

/// The first block with such an upgrade.
fn first_that_needs<'a>(
    book: &Book,
    blocks: &'a [Arc<CommittedBlock>],
) -> Option<&'a CommittedBlock>
    ensures { option_map (λ c. c.now) result
        ≡ find (block_needs_module book.now) (blocks_in blocks.now) }
{
    for committed in blocks {
        if block_needs_module(book, committed) {
            return Some(committed);
        }
    }
    None
}

/// Whether a VALID transaction of the block is an upgrade to a definition whose module is not at
/// hand.
pub fn block_needs_module(book: &Book, committed: &CommittedBlock) -> bool
    ensures { result ≡ block_needs_module book.now committed.now }
{
    need_module(
        book,
        committed.block().envelopes.as_slice(),
        committed.flags(),
    )
}

/// The same of these transactions with their flags.
fn need_module(book: &Book, envelopes: &[Envelope], flags: &[Flag]) -> bool
    ensures { result ≡ need_module book.now envelopes.now flags.now }
{
    let [envelope, envelopes @ ..] = envelopes else {
        return false;
    };
    let [flag, flags @ ..] = flags else {
        return false;
    };
    (matches!(flag, Flag::Valid) && needs_module(book, envelope.payload.proposal()))
        || need_module(book, envelopes, flags)
}

/// Whether a proposal is an upgrade to a definition whose module is not at hand.
fn needs_module(book: &Book, proposal: &Proposal) -> bool
    ensures { result ≡ needs_module book.now proposal.now }
{
    match proposal {
        Proposal::Upgrade(upgrade) => !is_at_hand(book, &upgrade.definition),
        _ => false,
    }
}

/// Says of the file of this name which block of its chain upgrades to a module that is not at hand,
/// if one does.
pub fn explain_missing<F: Files>(
    alloc: Global,
    files: &mut F,
    name: &str,
    book: &Book,
    blocks: &[Arc<CommittedBlock>],
)
    ensures kept { F.bytes files.new ≡ F.bytes files.old }
{
    if let Some(block) = first_missing(book, blocks) {
        explain_missing_in(alloc, files, name, block);
    }
}

/// Says of the file of this name that the block of this number upgrades to a module that is not at
/// hand.
pub fn explain_missing_in<F: Files>(alloc: Global, files: &mut F, name: &str, block: u32)
    ensures kept { F.bytes files.new ≡ F.bytes files.old }
{
    let words = format!(in alloc;
        "block {block} upgrades to a module that is not at hand; give it by --modules (406)"
    );
    explain(alloc, files, &Location::file(name), words);
}
