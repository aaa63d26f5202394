//! The chain of a peer that receives the blocks of a log.

ghost use Rattle.std.specs.Prelude.{◌≡◌, ◌≢◌, ◌<◌, ◌++◌, ◌∷◌, [], IfErr, IfNone, IfOk, MatchResult, OnOk, length};
ghost use Rattle.std.specs.Option.{option_to_list};
ghost use Rattle.std.specs.Arc.{arc_value};
ghost use Rattle.committer.specs.Fits.{Fits, blocks_of};
ghost use Rattle.ledger_setting.specs.Judging.{next_by};
ghost use Rattle.ledger_setting.specs.Rule.{table_of};
ghost use Rattle.kept_state.specs.Keeping.{IsKept, chain_of};
ghost use Rattle.log_committer.specs.Committing.{committed_chain, own_hash, received_by};
ghost use Rattle.log_committer.specs.Committing.{rules_of, Receives};
ghost use Rattle.log_committer.specs.declared.refusal.ReceiveRefusal.TheVariants.{Unfit};
ghost use Rattle.committer.specs.declared.refusal.CommitRefusal.TheVariants.{Memory};

use crate::refusal::ReceiveRefusal;
use endorsement_policy::{Rules, Workers};
use fab_types::{Block, CommittedBlock, Header};
use kept_state::KeptChain;
use ledger_setting::judge_behind_by_workers;
use std::alloc::Global;
use std::sync::Arc;
use std::thread::Threads;
use wire::header_hash;

/// What became of a block that was received.
#[derive(Clone, Copy, Debug, Drop, PartialEq, Eq)]
pub enum Received {
    /// It joined the chain, with the table's flags.
    Committed,
    /// The chain has it.
    Known,
}

/// A chain to which the blocks of a log are committed, in their order. Those that it has may come
/// again, as they do where a log is read from its beginning behind a store.
///
/// Contracts see its blocks with their flags (`committed_chain`), which `receive` alone changes,
/// and the rules by which it commits (`rules_of`).
#[derive(Drop)]
pub struct Committer {
    rules: Arc<Rules>,
    chain: KeptChain,
    alloc: Global,
}

impl Committer {
    /// A committer behind the blocks of a chain. It takes no memory.
    pub fn new(alloc: Global, rules: Arc<Rules>, chain: KeptChain) -> Committer
        ensures chain { result.chain ≡ chain }
        ensures rules { rules_of result ≡ arc_value rules }
    {
        Committer {
            rules,
            chain,
            alloc,
        }
    }

    /// Takes the next block of the log, or one that the chain has, and hands out the block that
    /// joins the chain, with its flags. None where the chain has it.
    ///
    /// A block whose number is not above the height is compared with the chain's block of that
    /// number: it is known where their headers have the same hash, and else refused (602). Any
    /// other block is committed, or refused: where the chain is full (604), where the block has not
    /// the next number (601), names another hash than that of the last header (602) or says another
    /// hash of its data (603), and for want of memory (9), behind the first three tests alone. Only
    /// a block that is committed changes the chain; behind want of memory nothing is kept of it any
    /// more. Its tags are checked by workers at once: the answer is the same for every number of
    /// them.
    pub fn receive<T: Threads + Sync>(
        &mut self,
        workers: &Workers<'_, T>,
        block: Block,
    ) -> Result<Option<CommittedBlock>, ReceiveRefusal>
        requires kept { IsKept self.old.chain }
        ensures kept { MatchResult result (λ _. IsKept self.new.chain)
            (λ r. r ≢ Unfit Memory → IsKept self.new.chain) }
        ensures received { Receives (table_of (rules_of self.old)) (committed_chain self.old) block
            (received_by result) (committed_chain self.new) }
        ensures joined { IfOk result (λ joined.
            committed_chain self.new ≡ committed_chain self.old ++ option_to_list joined) }
        ensures same { rules_of self.new ≡ rules_of self.old }
    {
        match own_hash(&self.chain, &block.header) {
            None => Ok(Some(self.commit(workers, block)?)),
            Some(own) if own == header_hash(&block.header) => Ok(None),
            Some(_) => Err(ReceiveRefusal::Forked(block.header.number)),
        }
    }

    /// Commits a block above the height.
    fn commit<T: Threads + Sync>(
        &mut self,
        workers: &Workers<'_, T>,
        block: Block,
    ) -> Result<CommittedBlock, ReceiveRefusal>
        requires kept { IsKept self.old.chain }
        requires above { length (committed_chain self.old) < block.header.number }
        ensures kept { MatchResult result (λ _. IsKept self.new.chain)
            (λ r. r ≢ Unfit Memory → IsKept self.new.chain) }
        ensures fits { OnOk result (Fits (blocks_of (committed_chain self.old)) block) }
        ensures made { IfOk result
            (λ c. c ≡ next_by (table_of (rules_of self.old)) (committed_chain self.old) block) }
        ensures extended { IfOk result
            (λ c. committed_chain self.new ≡ committed_chain self.old ++ c ∷ []) }
        ensures refused { IfErr result
            (λ r. Receives (table_of (rules_of self.old)) (committed_chain self.old) block (Err r)
            (committed_chain self.new)) }
        ensures same { rules_of self.new ≡ rules_of self.old }
    {
        let judged = judge_behind_by_workers(
            workers,
            self.alloc,
            &self.rules,
            &self.chain,
            &block,
        )?;
        Ok(self.chain.extend(self.alloc, block, judged)?)
    }

    /// Its chain, of which a state is kept. It takes no memory.
    pub fn chain(&self) -> &KeptChain
        ensures { result.now ≡ self.now.chain }
    {
        &self.chain
    }
}

/// The hash of the header that a chain has at the number of this one. None where that is above the
/// height. It takes no memory.
fn own_hash(chain: &KeptChain, header: &Header) -> Option<[u8; 32]>
    requires kept { IsKept chain.now }
    ensures hash { result ≡ own_hash (chain_of chain.now) header.now.number }
    ensures above { IfNone result (length (chain_of chain.now) < header.now.number) }
{
    chain.hash(header.number.get())
}
