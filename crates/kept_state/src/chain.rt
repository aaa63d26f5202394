//! A chain that nobody holds.

ghost use Rattle.std.specs.Prelude.{◌≡◌, ◌≤◌, ◌+◌, ◌++◌, ◌∷◌, [], IfOk, OnErr, OnOk, length, option_map};
ghost use Rattle.ledger_model.specs.Chain.{history};
ghost use Rattle.world_state.specs.Judging.{IsOf, flagged};
ghost use Rattle.world_state.specs.Kept.{block_of_id, placed_ids};
ghost use Rattle.kept_state.specs.Asking.{hash_in};
ghost use Rattle.kept_state.specs.Keeping.{IsKept, chain_of};
ghost use Rattle.kept_state.specs.Standing.{membership_before};

use crate::blocks::Blocks;
use crate::state::State;
use fab_types::limits::LAST_BLOCK;
use fab_types::{Block, Bound, CommittedBlock, Key, Membership, Value, Version};
use persist_map::Range;
use std::alloc::{AllocError, Global};
use world_state::{Judged, Past, StateMap};

/// A chain from block 1 on, of which a [`State`] alone is kept, with the hash of each header.
///
/// Contracts see the chain (`chain_of`), and that the state is kept of it (`IsKept`).
#[derive(Drop)]
pub struct KeptChain {
    state: State,
    blocks: Blocks,
}

/// The number of a block is one that a block may have.
fn show_number(block: &Block)
    ensures { block.now.header.number ≤ LAST_BLOCK }
{
    let _number = block.header.number.get();
}

impl KeptChain {
    /// The chain of no blocks. It takes no memory.
    pub fn empty(alloc: Global) -> KeptChain
        ensures kept { IsKept result }
        ensures chain { chain_of result ≡ [] }
    {
        KeptChain {
            state: State::empty(alloc),
            blocks: Blocks::new(),
        }
    }

    /// What is kept of it. It takes no memory.
    pub fn state(&self) -> &State
        ensures { result.now ≡ self.now.state }
    {
        &self.state
    }

    /// The number of the first block that has a transaction of this id, whatever its flag. None
    /// where no block has. It takes no memory.
    pub fn block_of(&self, id: &[u8; 32]) -> Option<u32>
        requires kept { IsKept self.now }
        ensures { result ≡ block_of_id (placed_ids (history (chain_of self.now))) id.now }
    {
        self.state.block_of(id)
    }

    /// The hash of the header of the block of this number. None where there is none, as of 0.
    pub fn hash(&self, number: u32) -> Option<[u8; 32]>
        requires kept { IsKept self.now }
        ensures { result ≡ hash_in (chain_of self.now) number }
    {
        self.state.hash(number)
    }

    /// The membership that stands before the block of a number: that of the last VALID amendment in
    /// the blocks before it. None where there is none, and the genesis stands. It takes no memory.
    pub fn membership_before(&self, number: u32) -> Option<&Membership>
        requires kept { IsKept self.now }
        ensures { option_map (λ m. m.now) result ≡ membership_before number (chain_of self.now) }
    {
        self.state.membership_before(number)
    }

    /// Becomes the chain with one block more, which is the next in number, by what the block was
    /// judged to be, and hands that block out. The error is of memory: then the chain is what it
    /// was, and the state is kept of nothing.
    pub fn extend(
        &mut self,
        alloc: Global,
        block: Block,
        judged: Judged,
    ) -> Result<CommittedBlock, AllocError>
        requires kept { IsKept self.old }
        requires next { block.header.number ≡ length (chain_of self.old) + 1 }
        requires judged { IsOf block judged }
        ensures kept { OnOk result (IsKept self.new) }
        ensures made { IfOk result (λ c. c ≡ flagged block judged) }
        ensures extended { IfOk result (λ c. chain_of self.new ≡ chain_of self.old ++ c ∷ []) }
        ensures unchanged { OnErr result (chain_of self.new ≡ chain_of self.old) }
    {
        show_number(&block);
        self.state.extend(alloc, &block, &judged)?;
        let committed = CommittedBlock::new(block, judged.flags);
        self.blocks = self.blocks.and(&committed);
        Ok(committed)
    }
}

impl Past for KeptChain {
    ghost kept = { λ c. c.state };

    fn map(&self) -> &StateMap {
        self.state.map()
    }

    fn get(&self, key: &Key) -> Option<(&Value, Version)> {
        self.state.get(key)
    }

    fn entries_in(&self, start: &Bound, end: &Bound) -> Range<'_, Key, (Value, Version)> {
        self.state.entries_in(start, end)
    }

    fn has_tx(&self, id: &[u8; 32]) -> bool {
        self.state.has_tx(id)
    }

    fn height(&self) -> u32 {
        self.state.height()
    }

    fn link(&self) -> [u8; 32] {
        self.state.link()
    }
}
