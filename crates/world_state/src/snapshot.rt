//! Snapshots.

ghost use Rattle.std.specs.Prelude.{◌≡◌, ◌≤◌, ◌+◌, ◌-◌, [], ◌∷◌, ◌++◌, None, length, map, take, IfOk, OnOk, OnErr, IfNone, option_map, slice_get};
ghost use Rattle.std.specs.Arc.{arc_value};
ghost use Rattle.std.specs.FinMap.{entries};
ghost use Rattle.std.specs.List.{AllByRecursion};
ghost use Rattle.std.specs.List.Sorted.{IsStrictlySortedBy};
ghost use Rattle.std.specs.Map.{keys_of};
ghost use Rattle.std.specs.Map.Iter.{deref_pair};
ghost use Rattle.fab_types.specs.BlockWithin.{IsBlock};
ghost use Rattle.ledger_model.specs.Chain.{Bytes, history};
ghost use Rattle.ledger_model.specs.Views.{key_cmp, first, entries_within};
ghost use Rattle.ledger_model.specs.State.{state, state_at};
ghost use Rattle.wire.specs.Ids.{id_of};
ghost use Rattle.ledger_model.specs.Flags.{stands_in};
ghost use Rattle.world_state.specs.Amending.{last_amending};
ghost use Rattle.world_state.specs.Ids.{ids_of, placed_ids, block_of_id, block_behind};
ghost use Rattle.world_state.specs.Judging.{IsOf, flagged};
ghost use Rattle.world_state.specs.Shared.{blocks_in};
ghost use Rattle.world_state.specs.Writing.{as_state, put_block};

use crate::ids::tx_ids;
use crate::index::{IdIndex, block_in, index_all};
use crate::judged::Judged;
use crate::ranges::{first_entries, range_in};
use crate::shared_blocks::SharedBlocks;
use crate::within::show_block;
use crate::writes::{StateMap, apply_block};
use fab_types::limits::LAST_BLOCK;
use fab_types::{Block, Bound, CommittedBlock, Flag, Key, Value, Version};
use persist_map::{PMap, Range};
use std::alloc::{AllocError, Global};
use std::marker::Model;
use std::sync::Arc;

/// References to a map's entries, in key order.
fn all_entries(
    alloc: Global,
    entries: &StateMap,
) -> Result<Vec<(&Key, &(Value, Version))>, AllocError>
    ensures all { IfOk result (λ v. map deref_pair v.items ≡ entries.now.entries) }
    ensures ordered { IsStrictlySortedBy key_cmp (keys_of entries.now.entries) }
{
    entries.range(None, None).collect(alloc)
}

/// The state and the ids after one block more, whose transactions have these flags and ids.
fn after_block(
    map: &StateMap,
    known: &IdIndex,
    block: &Block,
    flags: &[Flag],
    ids: &[[u8; 32]],
) -> Result<(StateMap, IdIndex), AllocError>
    requires { length flags.now ≡ length block.now.envelopes }
    ensures limits { OnOk result (block.now.header.number ≤ LAST_BLOCK) }
    ensures within { IsBlock block.now }
    ensures map { IfOk result
        (λ t. as_state t.0.entries
        ≡ put_block (as_state map.now.entries) block.now.header.number 0 block.now.envelopes
        flags.now) }
    ensures ids { IfOk result
        (λ t. (sought : Bytes) →
        block_of_id t.1.entries sought
        ≡ block_behind known.now.entries block.now.header.number ids.now sought) }
{
    show_block(block);
    let mut map = map.clone()?;
    let mut known = known.clone()?;
    apply_block(&mut map, block, flags)?;
    index_all(&mut known, ids, block.header.number.get())?;
    Ok((map, known))
}

/// The blocks of a chain from block 1 on, and the state after them.
#[derive(Drop)]
pub struct Snapshot {
    blocks: SharedBlocks,
    map: StateMap,
    ids: IdIndex,
}

impl Model for Snapshot {
    ghost use Rattle.ledger_model.specs.Chain.{Chain};
    ghost use Rattle.world_state.specs.Inside.{IsRight};

    ghost Value = { Chain };

    ghost view = { λ s. s.blocks };

    ghost invariant = { λ s. IsRight s.blocks s.map.entries s.ids.entries };
}

impl Snapshot {
    /// The snapshot before block 1: no blocks and an empty state. It takes no memory.
    pub fn empty(alloc: Global) -> Snapshot
        ensures { result ≡ [] }
    {
        Snapshot {
            blocks: SharedBlocks::new(alloc),
            map: PMap::new(alloc),
            ids: PMap::new(alloc),
        }
    }

    /// How many blocks there are, at most 4,000,000,000.
    pub fn height(&self) -> usize
        ensures value { result ≡ length self.now }
        ensures limits { length self.now ≤ LAST_BLOCK }
    {
        self.blocks.as_slice().len()
    }

    /// The blocks with their flags, from block 1 on. There are at most 4,000,000,000, each within
    /// the ledger's limits.
    pub fn blocks(&self) -> &[Arc<CommittedBlock>]
        ensures value { blocks_in result.now ≡ self.now }
        ensures limits { length self.now ≤ LAST_BLOCK }
        ensures within { AllByRecursion (λ c. IsBlock c.block) self.now }
    {
        self.blocks.as_slice()
    }

    /// A key's value, and the version of its last writer. None where the key is absent.
    pub fn get(&self, key: &Key) -> Option<(&Value, Version)>
        ensures { option_map (λ e. (e.0.now, e.1)) result ≡ state_at (history self.now) key.now }
    {
        match self.map.get(key) {
            Some(entry) => Some((&entry.0, entry.1)),
            None => None,
        }
    }

    /// Whether a transaction of this id is in the chain, whatever its flag. It takes no memory.
    pub fn has_tx(&self, id: &[u8; 32]) -> bool
        ensures { result ≡ stands_in id_of (history self.now) id.now }
    {
        block_in(&self.ids, id).is_some()
    }

    /// The number of the first block that has a transaction of this id, whatever its flag. None
    /// where no block has. It takes no memory.
    pub fn block_of(&self, id: &[u8; 32]) -> Option<u32>
        ensures { result ≡ block_of_id (placed_ids (history self.now)) id.now }
    {
        block_in(&self.ids, id)
    }

    /// The last block that has a VALID amendment, of so many first blocks. None where none of them
    /// has. It takes no memory, and looks at no other block.
    pub fn last_amending(&self, height: usize) -> Option<&CommittedBlock>
        ensures { option_map (λ c. c.now) result ≡ last_amending None (take height self.now) }
    {
        self.blocks.last_amending(height)
    }

    /// The state as a map. It takes no memory.
    pub fn map(&self) -> &StateMap
        ensures { as_state result.now.entries ≡ state (history self.now) }
    {
        &self.map
    }

    /// Each key of the state with its value and version, in key order. The error is of memory.
    pub fn entries(&self, alloc: Global) -> Result<Vec<(&Key, &(Value, Version))>, AllocError>
        ensures { IfOk result (λ v. map deref_pair v.items ≡ entries (state (history self.now))) }
    {
        all_entries(alloc, &self.map)
    }

    /// The entries of a range, in key order, as far as the caller asks for them. The bounds are as
    /// in `range`. It takes no memory.
    pub fn entries_in(&self, start: &Bound, end: &Bound) -> Range<'_, Key, (Value, Version)>
        ensures { result ≡ entries_within start.now end.now (entries (state (history self.now))) }
    {
        range_in(&self.map, start, end)
    }

    /// The first `n` entries of a range, in key order: from `start` on, or from the first key where
    /// it is empty, and below `end`, or without a bound where it is empty. Keys that begin with the
    /// byte 0 are shown in no range. Nothing else of the state is visited. The error is of memory.
    pub fn range(
        &self,
        alloc: Global,
        start: &Bound,
        end: &Bound,
        n: usize,
    ) -> Result<Vec<(&Key, &(Value, Version))>, AllocError>
        ensures { IfOk result
            (λ v. map deref_pair v.items ≡ first (state (history self.now)) start.now end.now n) }
    {
        first_entries(alloc, &self.map, start, end, n)
    }

    /// The snapshot after one block more, which is the next in number. This one stays as it is, and
    /// both share what the block does not change. The error is of memory.
    pub fn extended(
        &self,
        alloc: Global,
        block: Block,
        flags: Vec<Flag>,
    ) -> Result<Snapshot, AllocError>
        requires next { block.header.number ≡ length self.now + 1 }
        requires one_each { length flags.items ≡ length block.envelopes }
        ensures { IfOk result
            (λ s. s ≡ self.now ++ record { block = block; flags = flags.items } ∷ []) }
    {
        let ids = tx_ids(alloc, &block)?;
        self.followed_by(alloc, block, Judged { flags, ids })
    }

    /// The snapshot after one block more, as `extended` makes it, by what the block was judged to
    /// be. The error is of memory.
    pub fn followed_by(
        &self,
        alloc: Global,
        block: Block,
        judged: Judged,
    ) -> Result<Snapshot, AllocError>
        requires next { block.header.number ≡ length self.now + 1 }
        requires judged { IsOf block judged }
        ensures { IfOk result (λ s. s ≡ self.now ++ flagged block judged ∷ []) }
    {
        let Judged { flags, ids } = judged;
        let (map, ids) = after_block(&self.map, &self.ids, &block, &flags, &ids)?;
        let blocks = self
            .blocks
            .followed_by(alloc, CommittedBlock::new(block, flags))?;
        Ok(Snapshot { blocks, map, ids })
    }

    /// Becomes the snapshot after one block more, which is the next in number, by what the block
    /// was judged to be. Unlike `followed_by` it copies no list of blocks. The error is of memory,
    /// and then nothing is changed.
    pub fn extend(&mut self, alloc: Global, block: Block, judged: Judged) -> Result<(), AllocError>
        requires next { block.header.number ≡ length self.old + 1 }
        requires judged { IsOf block judged }
        ensures extended { OnOk result (self.new ≡ self.old ++ flagged block judged ∷ []) }
        ensures unchanged { OnErr result (self.new ≡ self.old) }
    {
        let Judged { flags, ids } = judged;
        let committed = Arc::new(alloc, CommittedBlock::new(block, flags))?;
        self.put(committed, &ids)
    }

    /// Becomes the snapshot after a block that another one shares, which is the next in number and
    /// keeps its flags. It copies neither the block nor the list of blocks. The error is of memory,
    /// and then nothing is changed.
    pub fn extend_shared(
        &mut self,
        alloc: Global,
        committed: Arc<CommittedBlock>,
    ) -> Result<(), AllocError>
        requires next { (arc_value committed).block.header.number ≡ length self.old + 1 }
        ensures extended { OnOk result (self.new ≡ self.old ++ arc_value committed ∷ []) }
        ensures unchanged { OnErr result (self.new ≡ self.old) }
    {
        let ids = tx_ids(alloc, committed.block())?;
        self.put(committed, &ids)
    }

    /// The same, where these are the ids of the block's transactions.
    fn put(&mut self, committed: Arc<CommittedBlock>, ids: &[[u8; 32]]) -> Result<(), AllocError>
        requires next { (arc_value committed).block.header.number ≡ length self.old + 1 }
        requires ids { ids.now ≡ ids_of (arc_value committed).block.envelopes }
        ensures extended { OnOk result (self.new ≡ self.old ++ arc_value committed ∷ []) }
        ensures unchanged { OnErr result (self.new ≡ self.old) }
    {
        let (map, ids) = after_block(
            &self.map,
            &self.ids,
            committed.block(),
            committed.flags(),
            ids,
        )?;
        self.blocks.push(committed)?;
        self.map = map;
        self.ids = ids;
        Ok(())
    }

    /// The last block with its flags. None where there is no block. It takes no memory.
    pub fn last(&self) -> Option<&CommittedBlock>
        ensures last { option_map (λ c. c.now) result ≡ slice_get self.now (length self.now - 1) }
        ensures none { IfNone result (self.now ≡ []) }
    {
        match self.blocks.as_slice().last() {
            None => None,
            Some(committed) => Some(committed),
        }
    }
}
