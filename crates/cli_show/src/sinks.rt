//! What is known of the blocks of a store as they are taken.

ghost use Rattle.std.specs.Prelude.{◌≡◌, [], ◌∷◌, ◌+◌, ◌++◌, OnOk, length};
ghost use Rattle.ledger_model.specs.Chain.{Chain};
ghost use Rattle.chaincode_book.specs.Books.{Book};
ghost use Rattle.cli_lines.specs.Missing.{block_needs_module};
ghost use Rattle.cli_show.specs.Reruns.{IsRerun, next_missing};

use cli_lines::block_needs_module;
use fab_types::CommittedBlock;
use fabric_core::Auditing;
use simulator::Book;
use std::alloc::{AllocError, Global};
use store_replay::BlockSink;

/// What is known of blocks of which none is held: what their audit says, and the number of the first
/// that upgrades to a module that is not at hand.
#[derive(Drop)]
pub(crate) struct Rerun<'a> {
    book: &'a Book,
    pub(crate) audit: Auditing,
    pub(crate) missing: Option<u32>,
}

/// The number of a block that was found, or else that of the next one, where it upgrades to a module
/// that is not at hand.
fn next_missing(book: &Book, found: Option<u32>, committed: &CommittedBlock) -> Option<u32>
    ensures { result ≡ next_missing found (block_needs_module book.now committed.now)
        committed.now.block.header.number }
{
    match found {
        Some(number) => Some(number),
        None => {
            if !block_needs_module(book, committed) {
                return None;
            }
            Some(committed.block().header.number.get())
        }
    }
}

impl<'a> Rerun<'a> {
    /// Before the first block. It takes no memory.
    pub(crate) fn new(alloc: Global, book: &'a Book) -> Rerun<'a>
        ensures none { IsRerun result.book.now result.audit result.missing [] }
        ensures book { result.book.now ≡ book.now }
    {
        Rerun {
            book,
            audit: Auditing::new(alloc),
            missing: None,
        }
    }

    /// Sees the next block. The error is of memory.
    pub(crate) fn see(&mut self, committed: &CommittedBlock) -> Result<(), AllocError>
        requires { (chain : Chain)
            × IsRerun self.old.book.now self.old.audit self.old.missing chain
            × (committed.now.block.header.number ≡ length chain + 1) }
        ensures seen { (chain : Chain) →
            IsRerun self.old.book.now self.old.audit self.old.missing chain →
            committed.now.block.header.number ≡ length chain + 1 →
            OnOk result (IsRerun self.new.book.now self.new.audit self.new.missing
            (chain ++ committed.now ∷ [])) }
        ensures book { self.new.book.now ≡ self.old.book.now }
    {
        self.missing = next_missing(self.book, self.missing, committed);
        self.audit.take(self.book, committed)
    }
}

impl BlockSink for Rerun<'_> {
    ghost use Rattle.chaincode_book.specs.Books.{Book};
    ghost use Rattle.cli_show.specs.Reruns.{IsRerun};

    ghost Context = { Book };

    ghost context = { λ r. r.book.now };

    ghost Took = { λ r chain. IsRerun r.book.now r.audit r.missing chain };

    fn take(&mut self, committed: CommittedBlock) -> Result<(), AllocError> {
        self.see(&committed)
    }
}
