//! The writer of a peer: it commits blocks, and opens the peer's seats.

ghost use Rattle.std.specs.Prelude.{◌≡◌, ◌<◌, ◌^◌, [], length, All, IfOk, IfErr};
ghost use Rattle.std.specs.Arc.{arc_value};
ghost use Rattle.logbook.specs.Pages.{Book as PeerId};
ghost use Rattle.ledger_model.specs.Chain.{Chain};
ghost use Rattle.committer.specs.Fits.{IsRefused, blocks_of};
ghost use Rattle.ledger_setting.specs.Rule.{table_of};
ghost use Rattle.store_replay.specs.Lawful.{AreLawful};
ghost use Rattle.snapshot_cell.specs.Seats.{EachBegins};
ghost use Rattle.peer_node.specs.Refusals.{IsReopenRefused};
ghost use Rattle.endorser.specs.Endorsing.{endorsing_of};
ghost use Rattle.peer_node.specs.Seats.{IsSeat, IsSeatBehind, endorsing_for};
ghost use Rattle.peer_node.specs.Writers.{published_chain, peer_of_writer, rules_of};

use crate::refusal::ReopenRefusal;
use crate::seat::Seat;
use block_store::Loaded;
use committer::CommitRefusal;
use endorsement_policy::{Rules, Workers};
use endorser::Endorser;
use fab_types::{Block, OrgName};
use ledger_setting::{Genesis, judge_by_workers};
use snapshot_cell::{OpenRefusal, Reader, Told, Writer, open};
use std::alloc::{AllocError, Global};
use std::sync::{Arc, Wait};
use std::thread::Threads;
use store_replay::{TagChecks, Unwatched, recommit};
use world_state::Snapshot;

/// How many workers check the envelopes of a block.
const WORKERS: usize = 4;

/// Opens peers.
pub struct Peer;

/// The writer of a peer. Contracts see the list of whole blocks that it committed
/// (`published_chain`), which `commit` alone changes, and the rules by which it commits
/// (`rules_of`). It is ended by `close`.
pub struct PeerWriter {
    cell: Writer,
    rules: Arc<Rules>,
    alloc: Global,
}

impl Peer {
    /// A peer of an organisation, without blocks, and so many seats, at least 1 and below 2^32.
    /// Tags of one that is no member in the state, or whose seed is not at hand, are made with the
    /// empty key and count for nothing.
    ///
    /// Refused where a seat got no place in the cell (431), and for want of memory (9). The cell
    /// has as many places as seats are asked for, but no contract of `left_right` says that one is
    /// given, and so none says when 431 comes.
    pub fn open<R: Wait>(
        rt: &R,
        alloc: Global,
        genesis: &Genesis,
        org: &OrgName,
        seats: usize,
    ) -> Result<(PeerWriter, Vec<Seat>), OpenRefusal>
        requires seats { (0 < seats) × (seats < 2 ^ 32) }
        ensures writer { IfOk result
            (λ t. (published_chain t.0 ≡ []) ×
            (arc_value (rules_of t.0) ≡ arc_value genesis.now.rules)) }
        ensures length { IfOk result (λ t. length t.1.items ≡ seats) }
        ensures seats { IfOk result
            (λ t. All (IsSeat (endorsing_for genesis.now org.now) (peer_of_writer t.0)) t.1.items) }
    {
        open_with(rt, alloc, genesis, org, seats, Snapshot::empty(alloc))
    }

    /// A peer that comes back with the blocks of its store, whatever the store's end was, and so
    /// many seats, at least 1 and below 2^32. The blocks are committed again from the empty state
    /// on.
    ///
    /// Refused at the first block that does not fit (601 to 604) or is stored with other flags than
    /// the table's (711); where all of them fit with the table's flags and a seat got no place in
    /// the cell (431, as for `open`); and for want of memory (9), behind blocks that fit with the
    /// table's flags.
    pub fn reopen<R: Threads + Wait + Sync>(
        rt: &R,
        alloc: Global,
        genesis: &Genesis,
        org: &OrgName,
        seats: usize,
        loaded: Loaded,
    ) -> Result<(PeerWriter, Vec<Seat>), ReopenRefusal>
        requires seats { (0 < seats) × (seats < 2 ^ 32) }
        ensures writer { IfOk result
            (λ t. (published_chain t.0 ≡ loaded.blocks.items) ×
            (arc_value (rules_of t.0) ≡ arc_value genesis.now.rules)) }
        ensures lawful { IfOk result
            (λ _. AreLawful (table_of (arc_value genesis.now.rules)) [] loaded.blocks.items) }
        ensures length { IfOk result (λ t. length t.1.items ≡ seats) }
        ensures seats { IfOk result
            (λ t. All
            (IsSeatBehind (endorsing_for genesis.now org.now) (peer_of_writer t.0)
            loaded.blocks.items)
            t.1.items) }
        ensures refused { IfErr result
            (λ refusal. IsReopenRefused (table_of (arc_value genesis.now.rules)) loaded.blocks.items
            refusal) }
    {
        let workers = Workers::new(rt, WORKERS);
        let tags = TagChecks::new(&workers, &Unwatched);
        let first = recommit(&tags, alloc, &genesis.rules, loaded.blocks)?;
        let opened = open_with(rt, alloc, genesis, org, seats, first)?;
        Ok(opened)
    }
}

/// A peer that shows this snapshot.
fn open_with<R: Wait>(
    rt: &R,
    alloc: Global,
    genesis: &Genesis,
    org: &OrgName,
    seats: usize,
    first: Snapshot,
) -> Result<(PeerWriter, Vec<Seat>), OpenRefusal>
    requires seats { (0 < seats) × (seats < 2 ^ 32) }
    ensures writer { IfOk result
        (λ t. (published_chain t.0 ≡ first) ×
        (arc_value (rules_of t.0) ≡ arc_value genesis.now.rules)) }
    ensures length { IfOk result (λ t. length t.1.items ≡ seats) }
    ensures seats { IfOk result
        (λ t. All
        (IsSeatBehind (endorsing_for genesis.now org.now) (peer_of_writer t.0) first)
        t.1.items) }
{
    let rules = Arc::try_clone(&genesis.rules)?;
    let (cell, readers) = open(rt, alloc, first, seats)?;
    match seats_of(alloc, genesis, org, readers) {
        Ok(seats) => Ok((PeerWriter { cell, rules, alloc }, seats)),
        Err(error) => {
            cell.close(rt);
            Err(error.into())
        }
    }
}

impl PeerWriter {
    ghost use Rattle.std.specs.Prelude.{◌++◌, ◌∷◌, OnOk, OnErr};
    ghost use Rattle.committer.specs.Fits.{Fits};
    ghost use Rattle.snapshot_cell.specs.Seats.{cell_of_told, told_list};
    ghost use Rattle.peer_node.specs.Writers.{next_by};

    /// The snapshot after the writer's list.
    pub fn newest(&self) -> &Snapshot
        ensures { result.now ≡ published_chain self.now }
    {
        self.cell.newest()
    }

    /// What the writer committed, for seats to learn. It takes no memory.
    pub fn told(&self) -> Told
        ensures { (cell_of_told result ≡ peer_of_writer self.now) ×
            (told_list result ≡ published_chain self.now) }
    {
        self.cell.told()
    }

    /// Puts one whole block, with the flags of its transactions, after the list in one step, and
    /// tells of that list. Four workers check the envelopes on the state after the list.
    ///
    /// Refused as `commit_on` refuses: where the chain is full (604), where the block has not the
    /// next number (601), names another hash than that of the last header (602) or says another
    /// hash of its data (603), and for want of memory (9), behind the first three tests alone. A
    /// refusal leaves the list as it was.
    pub fn commit<R: Threads + Wait + Sync>(
        &mut self,
        rt: &R,
        block: Block,
    ) -> Result<Told, CommitRefusal>
        ensures committed { IfOk result
            (λ _. published_chain self.new
            ≡ published_chain self.old ++
            next_by (arc_value (rules_of self.old)) (published_chain self.old) block ∷ []) }
        ensures told { IfOk result
            (λ t. (cell_of_told t ≡ peer_of_writer self.old) ×
            (told_list t ≡ published_chain self.new)) }
        ensures fits { OnOk result (Fits (blocks_of (published_chain self.old)) block) }
        ensures refused { IfErr result
            (λ refusal. IsRefused refusal (blocks_of (published_chain self.old)) block) }
        ensures unchanged { OnErr result (published_chain self.new ≡ published_chain self.old) }
        ensures same { (peer_of_writer self.new ≡ peer_of_writer self.old) ×
            (rules_of self.new ≡ rules_of self.old) }
    {
        let newest = self.cell.newest();
        let workers = Workers::new(rt, WORKERS);
        let judged = match judge_by_workers(&workers, self.alloc, &self.rules, newest, &block) {
            Ok(judged) => judged,
            Err(refusal) => {
                drop(block);
                return Err(refusal);
            }
        };
        let next = newest.followed_by(self.alloc, block, judged)?;
        Ok(self.cell.publish(rt, next)?)
    }

    /// Ends the peer: its seats enter the cell no more from now on.
    pub fn close<R: Wait>(self, rt: &R) {
        let PeerWriter {
            cell,
            rules: _,
            alloc: _,
        } = self;
        cell.close(rt);
    }
}

/// What a seat of an organisation endorses by.
fn endorser(alloc: Global, genesis: &Genesis, org: &OrgName) -> Result<Endorser, AllocError>
    ensures { IfOk result (λ e. endorsing_of e ≡ endorsing_for genesis.now org.now) }
{
    let org = org.clone()?;
    let signers = Arc::try_clone(&genesis.signers)?;
    let rules = Arc::try_clone(&genesis.rules)?;
    let book = Arc::try_clone(&genesis.book)?;
    Ok(Endorser::new(alloc, book, rules, signers, org))
}

/// A seat on each reader.
fn seats_of(
    alloc: Global,
    genesis: &Genesis,
    org: &OrgName,
    mut readers: Vec<Reader>,
) -> Result<Vec<Seat>, AllocError>
    ensures length { IfOk result (λ v. length v.items ≡ length readers.items) }
    ensures each { IfOk result
        (λ v. (peer : PeerId) (chain : Chain) → EachBegins peer chain readers.items →
        All (IsSeatBehind (endorsing_for genesis.now org.now) peer chain) v.items) }
{
    let mut seats = Vec::with_capacity(alloc, readers.len())?;
    for _seat in 0..readers.len() {
        let endorser = endorser(alloc, genesis, org)?;
        let reader = readers.take_last();
        seats.push_reserved(Seat { reader, endorser });
    }
    Ok(seats)
}
