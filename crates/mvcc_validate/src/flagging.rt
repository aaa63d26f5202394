//! Flags.

ghost use Rattle.std.specs.Prelude.{◌≡◌, ◌++◌, ◌∷◌, [], ◌&&◌, IfOk, OnOk, List, length};
ghost use Rattle.ledger_model.specs.Chain.{Chain, Placed, history, is_valid};
ghost use Rattle.ledger_model.specs.State.{state};
ghost use Rattle.ledger_model.specs.Flags.{stands_in, since, reads_settled, reads_current, ranges_settled, ranges_current, flag_at, flags_told};
ghost use Rattle.wire.specs.Ids.{id_of};
ghost use Rattle.world_state.specs.Ids.{ids_of};
ghost use Rattle.world_state.specs.Judging.{IsOf};
ghost use Rattle.world_state.specs.Kept.{IsKeptOf, state_in};
ghost use Rattle.mvcc_validate.specs.Overlay.{AreNewIds, AreWritten, IsOver};

use crate::overlay::{Overlay, put_writes};
use crate::phantoms::{are_ranges_current, are_ranges_settled};
use crate::reads::{are_reads_current, are_reads_settled};
use fab_types::{Block, Edition, Flag, Payload, Version};
use std::alloc::{AllocError, Global};
use std::collections::{BTreeMap, BTreeSet};
use world_state::{Judged, Past, Snapshot, TxIds, add_id, tx_ids};

fn is_valid(flag: Flag) -> bool
    ensures { result ≡ is_valid flag }
{
    matches!(flag, Flag::Valid)
}

/// Adds an id to those of the block so far, and says whether it stood among them or in the chain.
fn add_tx<P: Past>(past: &P, ids: &mut TxIds, id: [u8; 32]) -> Result<bool, AllocError>
    ensures stood { IfOk result
        (λ stood. (chain : Chain) (earlier : List Placed) → IsKeptOf (P.kept past.now) chain →
        AreNewIds ids.old.keys (history chain) earlier →
        stood ≡ stands_in id_of earlier id) }
    ensures added { OnOk result
        ((chain : Chain) (earlier : List Placed) (next : Placed) →
        IsKeptOf (P.kept past.now) chain → id ≡ id_of next.envelope.payload.proposal →
        AreNewIds ids.old.keys (history chain) earlier →
        AreNewIds ids.new.keys (history chain) (earlier ++ next ∷ [])) }
{
    if past.has_tx(&id) {
        return Ok(true);
    }
    Ok(!add_id(ids, id)?)
}

/// A transaction that is to be flagged.
#[derive(Clone, Copy)]
struct Transaction<'a> {
    payload: &'a Payload,
    /// Whether its id stands earlier in the chain or in its block.
    stood: bool,
    /// Whether its envelope is endorsed.
    endorsed: bool,
}

/// The flag of the transaction that comes next.
fn flag_of<P: Past>(
    alloc: Global,
    edition: Edition,
    past: &P,
    written: &Overlay,
    next: &Transaction<'_>,
) -> Result<Flag, AllocError>
    ensures { IfOk result
        (λ flag. (chain : Chain) (earlier : List Placed) → IsKeptOf (P.kept past.now) chain →
        next.now.stood ≡ stands_in id_of earlier (id_of next.now.payload.now.proposal) →
        IsOver written.now.entries (state_in (P.kept past.now)) (state earlier) →
        AreWritten written.now.entries (since (history chain) earlier) →
        flag
        ≡ flag_at edition id_of (history chain) earlier next.now.endorsed next.now.payload.now) }
{
    if next.stood {
        return Ok(Flag::DuplicateTxid);
    }
    if !next.endorsed {
        return Ok(Flag::EndorsementPolicyFailure);
    }
    if !reads_hold(edition, past, written, next.payload) {
        return Ok(Flag::MvccReadConflict);
    }
    if !ranges_hold(alloc, edition, past, written, next.payload)? {
        return Ok(Flag::PhantomReadConflict);
    }
    Ok(Flag::Valid)
}

/// Whether the reads of a payload were settled before the block, and are current.
fn reads_hold<P: Past>(edition: Edition, past: &P, written: &Overlay, payload: &Payload) -> bool
    ensures { (before earlier : List Placed) →
        IsOver written.now.entries (state_in (P.kept past.now)) (state earlier) →
        AreWritten written.now.entries (since before earlier) →
        result
        ≡ (reads_settled edition (since before earlier) payload.now.reads
        && reads_current (state earlier) payload.now.reads) }
{
    let reads = payload.reads().as_slice();
    are_reads_settled(edition, written, reads) && are_reads_current(past, written, reads)
}

/// Whether the ranges of a payload were settled before the block, and are current.
fn ranges_hold<P: Past>(
    alloc: Global,
    edition: Edition,
    past: &P,
    written: &Overlay,
    payload: &Payload,
) -> Result<bool, AllocError>
    ensures { IfOk result
        (λ b. (chain : Chain) (earlier : List Placed) → IsKeptOf (P.kept past.now) chain →
        IsOver written.now.entries (state_in (P.kept past.now)) (state earlier) →
        b
        ≡ (ranges_settled edition (history chain) payload.now.ranges
        && ranges_current (state earlier) payload.now.ranges)) }
{
    let ranges = payload.ranges().as_slice();
    let are_settled = are_ranges_settled(alloc, edition, past, ranges)?;
    if !are_settled {
        return Ok(false);
    }
    are_ranges_current(alloc, past, written, ranges)
}

/// What a block that is put on a snapshot is judged to be: a flag for each transaction, and the ids.
/// `endorsed` says of each whether its envelope is endorsed. A flag is the first of these that
/// applies on the state to which all earlier VALID transactions were applied, those of this block
/// included:
///
/// - `DuplicateTxid`: its id stands earlier in the chain or in this block, whatever flag is there.
/// - `EndorsementPolicyFailure`: it is not endorsed.
/// - `MvccReadConflict`: a key that it read has another version, or is absent, or is not absent any
///   more; or, under rules 2, a VALID transaction of this block wrote it, whatever version was seen.
/// - `PhantomReadConflict`: a range that it read has other first keys, up to its limit, or other
///   versions; or, under rules 2, had such before this block.
/// - `Valid`.
///
/// The error is of memory.
pub fn flag_block(
    alloc: Global,
    edition: Edition,
    snapshot: &Snapshot,
    block: &Block,
    endorsed: &[bool],
) -> Result<Judged, AllocError>
    requires one_each { length endorsed.now ≡ length block.now.envelopes }
    ensures flags { IfOk result
        (λ judged. judged.flags.items
        ≡ flags_told edition id_of (history snapshot.now) (history snapshot.now)
        block.now.header.number 0 block.now.envelopes endorsed.now) }
    ensures of { IfOk result (λ judged. IsOf block.now judged) }
{
    flag_behind(alloc, edition, snapshot, block, endorsed)
}

/// What a block that is put behind a chain is judged to be, as `flag_block` says of a snapshot. The
/// error is of memory.
pub fn flag_behind<P: Past>(
    alloc: Global,
    edition: Edition,
    past: &P,
    block: &Block,
    endorsed: &[bool],
) -> Result<Judged, AllocError>
    requires one_each { length endorsed.now ≡ length block.now.envelopes }
    ensures flags { (chain : Chain) → IsKeptOf (P.kept past.now) chain →
        IfOk result
        (λ judged. judged.flags.items
        ≡ flags_told edition id_of (history chain) (history chain) block.now.header.number 0
        block.now.envelopes endorsed.now) }
    ensures of { IfOk result (λ judged. IsOf block.now judged) }
{
    let ids = tx_ids(alloc, block)?;
    let flags = flags_with_ids(alloc, edition, past, block, endorsed, &ids)?;
    Ok(Judged { flags, ids })
}

/// The flags of `flag_block`, where nothing is put on the snapshot. The error is of memory.
pub fn flags(
    alloc: Global,
    edition: Edition,
    snapshot: &Snapshot,
    block: &Block,
    endorsed: &[bool],
) -> Result<Vec<Flag>, AllocError>
    requires one_each { length endorsed.now ≡ length block.now.envelopes }
    ensures { IfOk result
        (λ v. v.items
        ≡ flags_told edition id_of (history snapshot.now) (history snapshot.now)
        block.now.header.number 0 block.now.envelopes endorsed.now) }
{
    let Judged { flags, ids: _ } = flag_block(alloc, edition, snapshot, block, endorsed)?;
    Ok(flags)
}

/// The flags of a block's transactions, whose ids are at hand.
fn flags_with_ids<P: Past>(
    alloc: Global,
    edition: Edition,
    past: &P,
    block: &Block,
    endorsed: &[bool],
    ids: &[[u8; 32]],
) -> Result<Vec<Flag>, AllocError>
    requires one_each { length endorsed.now ≡ length block.now.envelopes }
    requires ids { ids.now ≡ ids_of block.now.envelopes }
    ensures flags { (chain : Chain) → IsKeptOf (P.kept past.now) chain →
        IfOk result
        (λ v. v.items
        ≡ flags_told edition id_of (history chain) (history chain) block.now.header.number 0
        block.now.envelopes endorsed.now) }
    ensures one_each { IfOk result (λ v. length v.items ≡ length block.now.envelopes) }
{
    let number = block.header.number.get();
    let envelopes = block.envelopes.as_slice();
    let mut seen: TxIds = BTreeSet::new(alloc);
    let mut written: Overlay = BTreeMap::new(alloc);
    let mut flags = Vec::with_capacity(alloc, envelopes.len())?;
    for (place, envelope) in envelopes.iter().enumerate() {
        let payload = &envelope.payload;
        let stood = add_tx(past, &mut seen, ids[place])?;
        let next = Transaction {
            payload,
            stood,
            endorsed: endorsed[place],
        };
        let flag = flag_of(alloc, edition, past, &written, &next)?;
        if is_valid(flag) {
            let version = Version::new(number, place as u32).unwrap();
            put_writes(&mut written, payload.writes().as_slice(), version)?;
        }
        flags.push(flag)?;
    }
    Ok(flags)
}
