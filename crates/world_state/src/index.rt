//! The ids of a chain's transactions, each with its block.

ghost use Rattle.std.specs.Prelude.{◌≡◌, [], ◌∷◌, OnOk};
ghost use Rattle.ledger_model.specs.Chain.{Bytes};
ghost use Rattle.world_state.specs.Ids.{block_of_id, block_behind};

use persist_map::PMap;
use std::alloc::AllocError;

/// The number of a block for each id, in versions that share their pages.
pub type IdIndex = PMap<[u8; 32], u32>;

/// The block of an id. None where the id is not among these. It takes no memory.
pub fn block_in(ids: &IdIndex, id: &[u8; 32]) -> Option<u32>
    ensures { result ≡ block_of_id ids.now.entries id.now }
{
    ids.get(id).copied()
}

/// Adds an id of a block. One that is there keeps its block.
fn index(ids: &mut IdIndex, id: [u8; 32], block: u32) -> Result<(), AllocError>
    ensures { OnOk result
        ((sought : Bytes) →
        block_of_id ids.new.entries sought
        ≡ block_behind ids.old.entries block (id ∷ []) sought) }
{
    if block_in(ids, &id).is_some() {
        return Ok(());
    }
    ids.put(id, block)
}

/// Adds the ids of a block. Each that is there keeps its block.
pub fn index_all(known: &mut IdIndex, ids: &[[u8; 32]], block: u32) -> Result<(), AllocError>
    ensures { OnOk result
        ((sought : Bytes) →
        block_of_id known.new.entries sought
        ≡ block_behind known.old.entries block ids.now sought) }
{
    for id in ids {
        index(known, *id, block)?;
    }
    Ok(())
}
