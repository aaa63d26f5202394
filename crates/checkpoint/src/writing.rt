//! Writing a checkpoint.

ghost use Rattle.std.specs.Prelude.{◌≡◌, ◌<◌, ◌≤◌, ◌+◌, ◌^◌, ◌++◌, List, ℕ, IfOk, Option, OnOk, drop, length, map, slice_index};
ghost use Rattle.std.specs.Int.{w32, w64, to_be_bytes};
ghost use Rattle.std.specs.FinMap.{entries};
ghost use Rattle.std.specs.List.{AllByRecursion, flat_map, zip};
ghost use Rattle.std.specs.Map.Iter.{deref_pair};
ghost use Rattle.ledger_model.specs.Chain.{Chain};
ghost use Rattle.kept_state.specs.Keeping.{IsKept, chain_of};
ghost use Rattle.persist_map.specs.Pages.{shared};
ghost use Rattle.store_devices.specs.Places.{ends_of};
ghost use Rattle.world_state.specs.Writing.{as_state};
ghost use Rattle.checkpoint.specs.Checkpoint.{IsDigestOf, Writes, amendment_bytes, counted_bytes, head_bytes, kept_entry_bytes, placed_id_bytes, sized_hash_bytes, sizes_of};
ghost use Rattle.checkpoint.specs.Hashing.{IsSoFar};
ghost use Rattle.checkpoint.specs.Within.{IsAmendment, IsHash, IsKeptEntry, IsPlacedId};

use crate::fault::CheckpointFault;
use crate::hashing::Hashing;
use crate::item::Item;
use crate::nowhere::Nowhere;
use fab_types::{Key, Value, Version};
use id_runs::Entry;
use kept_state::{Amendment, KeptChain, State};
use std::alloc::{AllocError, Global};
use std::collections::VecDeque;
use std::io::Write;
use std::sync::Arc;
use store_devices::Places;
use world_state::{Past, StateMap};

/// Writes the checkpoint of a chain behind what a writer has, and gives its digest: the 32 bytes
/// that it ends with, the SHA-256 of all before them. `genesis` is the SHA-256 of the genesis file,
/// and `places` are those of the chain's records. The text is never in memory as a whole. The caller
/// flushes the writer.
pub fn write_checkpoint<W: Write>(
    alloc: Global,
    genesis: &[u8; 32],
    chain: &KeptChain,
    places: &Places,
    out: &mut W,
) -> Result<[u8; 32], CheckpointFault>
    ensures written { IsKept chain.now → places.now ≡ ends_of (chain_of chain.now) →
        IfOk result
        (λ digest. Writes genesis.now (chain_of chain.now) digest (W.contents out.old)
        (W.contents out.new)) }
{
    let state = chain.state();
    let mut hashing = Hashing::new(alloc);
    put_head(&mut hashing, genesis, state)?;
    put_hashes(&mut hashing, state.hashes(), places, out)?;
    put_amendments(&mut hashing, state.amendments(), out)?;
    put_entries(alloc, &mut hashing, state.map(), out)?;
    let ids = state.ids_in_order(alloc)?;
    put_ids(&mut hashing, &ids, out)?;
    hashing.finish(out)
}

/// The digest of the checkpoint of a chain, which is written nowhere.
pub fn checkpoint_digest(
    alloc: Global,
    genesis: &[u8; 32],
    chain: &KeptChain,
    places: &Places,
) -> Result<[u8; 32], CheckpointFault>
    ensures { IsKept chain.now → places.now ≡ ends_of (chain_of chain.now) →
        IfOk result (IsDigestOf genesis.now (chain_of chain.now)) }
{
    write_checkpoint(alloc, genesis, chain, places, &mut Nowhere)
}

/// A length as a checkpoint counts it: in eight bytes, or in the last four of these.
fn count_of(len: usize) -> [u8; 8]
    ensures { result ≡ to_be_bytes w64 len }
{
    (len as u64).to_be_bytes()
}

/// How many bytes the record has before which so many others stand; 0 where there is none.
fn size_at(places: &Places, before: usize) -> u64
    requires { before + 1 < 2 ^ 64 }
    ensures { (chain : Chain) → places.now ≡ ends_of chain → before < length chain →
        length chain < 2 ^ 32 → result ≡ slice_index (sizes_of chain) before }
{
    let Ok(number) = u32::try_from(before + 1) else {
        return 0;
    };
    match places.span(number) {
        Some((begin, end)) => end.saturating_sub(begin),
        None => 0,
    }
}

/// Takes the head behind the text.
fn put_head(hashing: &mut Hashing, genesis: &[u8; 32], state: &State) -> Result<(), AllocError>
    ensures text { OnOk result
        ((old now : Option (List ℕ)) (text : List ℕ) → IsSoFar old now hashing.old text →
        IsSoFar old now hashing.new (text ++ head_bytes genesis.now state.now)) }
    ensures within { OnOk result (((state.now).height < 2 ^ 32) × IsHash (state.now).link) }
{
    hashing.put(b"ckpt\x00\x00\x00\x01")?;
    hashing.put(genesis)?;
    hashing.put(&state.height().to_be_bytes())?;
    hashing.put(&state.link())
}

/// Takes a list behind the text, and its count before it.
fn put_listed<T: Item, W: Write>(
    hashing: &mut Hashing,
    count: &[u8],
    items: &[T],
    out: &mut W,
) -> Result<(), CheckpointFault>
    ensures text { OnOk result
        ((old : Option (List ℕ)) (text : List ℕ) →
        IsSoFar old (W.contents out.old) hashing.old text →
        IsSoFar old (W.contents out.new) hashing.new
        (text ++ (count.now ++ flat_map T.spelling items.now))) }
    ensures within { OnOk result (AllByRecursion T.within items.now) }
{
    hashing.put(count)?;
    hashing.put_each(items, out)
}

/// Takes the hashes of headers behind the text, each with the length of the block's record.
fn put_hashes<W: Write>(
    hashing: &mut Hashing,
    hashes: &VecDeque<[u8; 32]>,
    places: &Places,
    out: &mut W,
) -> Result<(), CheckpointFault>
    ensures text { OnOk result
        ((chain : Chain) → places.now ≡ ends_of chain → length hashes.now.items ≡ length chain →
        length chain < 2 ^ 32 → (old : Option (List ℕ)) (text : List ℕ) →
        IsSoFar old (W.contents out.old) hashing.old text →
        IsSoFar old (W.contents out.new) hashing.new
        (text ++ counted_bytes w32 sized_hash_bytes (zip hashes.now.items (sizes_of chain)))) }
    ensures within { OnOk result (AllByRecursion IsHash hashes.now.items) }
{
    let (front, back) = hashes.as_slices();
    let count = count_of(hashes.len());
    hashing.put(&count[4..])?;
    put_sized(hashing, front, places, 0, out)?;
    put_sized(hashing, back, places, front.len(), out)
}

/// Takes the hashes of headers behind the text, each with the length of the block's record. So many
/// blocks stand before the first of them.
fn put_sized<W: Write>(
    hashing: &mut Hashing,
    hashes: &[[u8; 32]],
    places: &Places,
    before: usize,
    out: &mut W,
) -> Result<(), CheckpointFault>
    requires { before + length hashes.now < 2 ^ 64 }
    ensures text { OnOk result
        ((chain : Chain) → places.now ≡ ends_of chain →
        before + length hashes.now ≤ length chain → length chain < 2 ^ 32 →
        (old : Option (List ℕ)) (text : List ℕ) →
        IsSoFar old (W.contents out.old) hashing.old text →
        IsSoFar old (W.contents out.new) hashing.new
        (text ++ flat_map sized_hash_bytes (zip hashes.now (drop before (sizes_of chain))))) }
    ensures within { OnOk result (AllByRecursion IsHash hashes.now) }
{
    for (place, hash) in hashes.iter().enumerate() {
        let size = size_at(places, before + place);
        hashing.put_item(&(hash, size), out)?;
    }
    Ok(())
}

/// Takes the amendments behind the text.
fn put_amendments<W: Write>(
    hashing: &mut Hashing,
    amendments: &[Arc<Amendment>],
    out: &mut W,
) -> Result<(), CheckpointFault>
    ensures text { OnOk result
        ((old : Option (List ℕ)) (text : List ℕ) →
        IsSoFar old (W.contents out.old) hashing.old text →
        IsSoFar old (W.contents out.new) hashing.new
        (text ++ counted_bytes w32 amendment_bytes (shared amendments.now))) }
    ensures within { OnOk result (AllByRecursion IsAmendment (shared amendments.now)) }
{
    let count = count_of(amendments.len());
    put_listed(hashing, &count[4..], amendments, out)
}

/// Takes the entries of a state behind the text, in key order.
fn put_entries<W: Write>(
    alloc: Global,
    hashing: &mut Hashing,
    state: &StateMap,
    out: &mut W,
) -> Result<(), CheckpointFault>
    ensures text { OnOk result
        ((old : Option (List ℕ)) (text : List ℕ) →
        IsSoFar old (W.contents out.old) hashing.old text →
        IsSoFar old (W.contents out.new) hashing.new
        (text ++ counted_bytes w64 kept_entry_bytes (entries (as_state state.now.entries)))) }
    ensures within { OnOk result (let all = entries (as_state state.now.entries) in
        (length all < 2 ^ 64) × AllByRecursion IsKeptEntry all) }
{
    let all = all_entries(alloc, state)?;
    let count = count_of(all.len());
    put_listed(hashing, &count, &all, out)
}

/// The entries of a state, in key order. The error is of memory.
fn all_entries(
    alloc: Global,
    state: &StateMap,
) -> Result<Vec<(&Key, &(Value, Version))>, AllocError>
    ensures { IfOk result
        (λ v. map deref_pair v.items ≡ entries (as_state state.now.entries)) }
{
    state.range(None, None).collect(alloc)
}

/// Takes the ids of a state behind the text, in order.
fn put_ids<W: Write>(
    hashing: &mut Hashing,
    ids: &[Entry],
    out: &mut W,
) -> Result<(), CheckpointFault>
    ensures text { OnOk result
        ((old : Option (List ℕ)) (text : List ℕ) →
        IsSoFar old (W.contents out.old) hashing.old text →
        IsSoFar old (W.contents out.new) hashing.new
        (text ++ counted_bytes w64 placed_id_bytes ids.now)) }
    ensures within { OnOk result (AllByRecursion IsPlacedId ids.now) }
{
    let count = count_of(ids.len());
    put_listed(hashing, &count, ids, out)
}
