//! A peer of a log: what cuts the log's blocks, and the chain of its store.

ghost use Rattle.std.specs.Prelude.{◌≡◌, ◌↔◌, [], IfErr, IfOk, IfSome, IsTrue, MatchResult, OnOk, Some};
ghost use Rattle.std.specs.Prelude.{length};
ghost use Rattle.std.specs.List.{AllByRecursion, AllZip};
ghost use Rattle.std.specs.Option.{option_to_list};
ghost use Rattle.std.specs.Arc.{arc_value};
ghost use Rattle.ledger_setting.specs.Rule.{table_of};
ghost use Rattle.log_orderer.specs.Handed.{blocks_of};
ghost use Rattle.orderer.specs.Headers.{hash_at};
ghost use Rattle.log_orderer.specs.declared.replica.LineReport.{LineReport};
ghost use Rattle.orderer.specs.Making.{number_in};
ghost use Rattle.kept_state.specs.Keeping.{IsKept, chain_of};
ghost use Rattle.log_committer.specs.Committing.{ReceivesAll, own_hash};
ghost use Rattle.log_committer.specs.Peering.{ReadsLine};
ghost use Rattle.store_replay.specs.Lawful.{AreLawful};
ghost use Rattle.log_peer.specs.Holding.{Grows, HoldsRecords, IsUntouched, KeepsRecords};
ghost use Rattle.log_peer.specs.Storing.{IsBlamed, IsOpened, IsOpenRefused, IsStored};
ghost use Rattle.log_peer.specs.Storing.{file_of as chain_file, rules_of as chain_rules, stored_chain};
ghost use Rattle.log_peer.specs.Peering.{AreJoined, AreNotReceived, IsBatchOf, IsJoinedAt, IsJoinedIn, IsNotRead};
ghost use Rattle.log_peer.specs.Peering.{HaveNumbers, IsOfBlock, IsPeer, IsReportOf, batches_in};
ghost use Rattle.log_peer.specs.Peering.{file_of, fresh, held_by, rules_of, told_by, told_of};

use crate::refusal::{StoreRefusal, Unopened};
use crate::storing::StoredChain;
use endorsement_policy::Workers;
use fab_types::{Block, CommittedBlock};
use kept_state::KeptChain;
use ledger_setting::Genesis;
use log_committer::Received;
use log_orderer::{LineReport, LogBatch, Replica, Skip};
use orderer::BatchReport;
use seq::Seq;
use std::alloc::Global;
use std::thread::Threads;
use store_devices::StoreFile;
use store_replay::{TagChecks, Watch};

/// A batch that a line of the log ended, and what became of its block.
#[derive(Drop)]
pub struct PeerBatch {
    /// The number of its block, and the places in the batch that are left out of it, and why.
    pub report: BatchReport,
    /// The ids of the transactions that are left out, in the order of `report.aborted`.
    pub aborted: Seq<[u8; 32]>,
    /// What became of its block. None where nothing survived.
    pub received: Option<Received>,
    /// The block that joined the chain, with its flags. None where none did.
    pub joined: Option<CommittedBlock>,
}

/// What became of a line of the log.
#[derive(Drop)]
pub enum PeerReport {
    /// Its envelope was taken.
    Accepted {
        /// The id of the envelope's transaction.
        id: [u8; 32],
        /// The batches that it ended, none to two, in their order.
        batches: Seq<PeerBatch>,
    },
    /// What waited was cut, and this is its batch. None where nothing waited.
    Ticked(Option<PeerBatch>),
    /// It asks for nothing that can be done, and all is as it was.
    Skipped(Skip),
}

/// A peer of a log: the replica that cuts the log's blocks, and the chain of its store, to which
/// they are committed.
///
/// Contracts see what it has (`held_by`), the rules (`rules_of`), its file (`file_of`), and that this
/// has its chain (`IsPeer`).
#[derive(Drop)]
pub struct LogPeer<D: Drop> {
    replica: Replica,
    chain: StoredChain<D>,
    alloc: Global,
}

impl<D: StoreFile> LogPeer<D> {
    /// A peer of a genesis that has read nothing of the log, with the chain of its store, which is
    /// committed again as it stands, and how many bytes were cut off behind its whole records. The
    /// file is read from its first byte on. The answer is the same whoever checks the tags.
    ///
    /// Refused as `StoredChain::open` refuses.
    pub fn open<T: Threads + Sync, V: Watch>(
        tags: &TagChecks<'_, T, V>,
        alloc: Global,
        genesis: &Genesis,
        file: D,
    ) -> Result<(LogPeer<D>, usize), Unopened<D>>
        ensures stored { IfOk result (λ p. IsPeer p.0) }
        ensures lawful { IfOk result
            (λ p. AreLawful (table_of (arc_value genesis.now.rules)) [] (held_by p.0).chain) }
        ensures rules { IfOk result (λ p. rules_of p.0 ≡ arc_value genesis.now.rules) }
        ensures unread { IfOk result (λ p. (held_by p.0).log ≡ fresh genesis.now) }
        ensures opened { IfOk result
            (λ p. IsOpened (D.contents file) (held_by p.0).chain p.1) }
        ensures refused { IfErr result
            (λ u. IsOpenRefused (table_of (arc_value genesis.now.rules)) (D.contents file)
            u.refusal) }
        // What the file holds then.
        ensures holds { IfOk result
            (λ p. IfSome (D.contents file)
            (λ _. HoldsRecords (D.contents (file_of p.0)) (held_by p.0).chain)) }
        ensures keeps { MatchResult result
            (λ p. KeepsRecords (D.contents file) (D.contents (file_of p.0)))
            (λ u. KeepsRecords (D.contents file) (D.contents u.file)) }
        ensures untouched { IfErr result (λ u. IsUntouched u.refusal file u.file) }
    {
        let (count, preferred, absolute) = (genesis.count, genesis.preferred, genesis.absolute);
        let edition = genesis.rules.edition();
        let Ok(rules) = genesis.rules.clone() else {
            let refusal = StoreRefusal::Memory;
            return Err(Unopened { refusal, file });
        };
        let (chain, cut) = StoredChain::open(tags, alloc, rules, file)?;
        let replica = Replica::new(alloc, edition, count, preferred, absolute, genesis.reorder);
        let peer = LogPeer {
            replica,
            chain,
            alloc,
        };
        Ok((peer, cut))
    }

    /// Reads the next line of the log, and receives each block that it makes. A block that joins
    /// the chain is on the disk when this returns.
    ///
    /// Refused exactly where the log has another block of a number than the store (602); where a
    /// call of the file fails (703), and for want of memory (9). Behind a refusal the store has to
    /// be opened again.
    pub fn read<T: Threads + Sync>(
        &mut self,
        workers: &Workers<'_, T>,
        text: &str,
    ) -> Result<PeerReport, StoreRefusal>
        requires stored { IsPeer self.old }
        ensures stored { OnOk result (IsPeer self.new) }
        ensures read { IfOk result (λ told. (report : LineReport) × IsReportOf report told
            × ReadsLine (table_of (rules_of self.old)) (held_by self.old) text.now report
            (told_by told) (held_by self.new)) }
        // A block that joined is the chain's of the number that is told.
        ensures joined { IfOk result
            (λ told. AllByRecursion (IsJoinedIn (held_by self.new).chain) (batches_in told)) }
        ensures refused { IfErr result (IsNotRead (held_by self.old) text.now) }
        // The file is blamed exactly where a call of it failed.
        ensures device { IsBlamed result self.old.chain.file.history.failures
            self.new.chain.file.history.failures }
        ensures rules { rules_of self.new ≡ rules_of self.old }
        // What the file holds then: it keeps what it held.
        ensures holds { HoldsRecords (D.contents (file_of self.old)) (held_by self.old).chain →
            OnOk result (HoldsRecords (D.contents (file_of self.new)) (held_by self.new).chain) }
        ensures grows { Grows (D.contents (file_of self.old)) (D.contents (file_of self.new)) }
    {
        match self.replica.read(text)? {
            LineReport::Accepted { id, batches } => {
                let batches = receive_each(
                    self.alloc,
                    &mut self.chain,
                    workers,
                    batches.into_vec(),
                )?;
                Ok(PeerReport::Accepted {
                    id,
                    batches: Seq::new(batches),
                })
            }
            LineReport::Ticked(None) => Ok(PeerReport::Ticked(None)),
            LineReport::Ticked(Some(batch)) => {
                let batch = receive_batch(&mut self.chain, workers, batch)?;
                Ok(PeerReport::Ticked(Some(batch)))
            }
            LineReport::Skipped(skip) => Ok(PeerReport::Skipped(skip)),
        }
    }

    /// Its chain, of which a state is kept. It takes no memory.
    pub fn chain(&self) -> &KeptChain
        ensures chain { chain_of result.now ≡ (held_by self.now).chain }
        ensures kept { IsPeer self.now → IsKept result.now }
    {
        self.chain.chain()
    }

    /// The chain of the store, by which its blocks are read. It takes no memory.
    pub fn blocks(&self) -> &StoredChain<D>
        ensures { result.now ≡ self.now.chain }
    {
        &self.chain
    }

    /// The hash of the header that the chain has at a number. None where it has none, as of 0.
    pub fn hash(&self, number: u32) -> Option<[u8; 32]>
        requires stored { IsPeer self.now }
        ensures { result ≡ own_hash (held_by self.now).chain number }
    {
        self.chain.chain().hash(number)
    }

    /// How many envelopes wait for their batch.
    pub fn waiting(&self) -> usize
        ensures { result ≡ length (held_by self.now).log.pending }
    {
        self.replica.waiting().len()
    }

    /// Whether the block of this number, from 1 on, that the lines made has a header with this hash.
    pub fn has_header(&self, number: u32, hash: &[u8; 32]) -> bool
        ensures { IsTrue result
            ↔ (hash_at (held_by self.now).log.chain number ≡ Some hash.now) }
    {
        self.replica.has_header(number, hash)
    }

    /// The file of the store, for whoever closes it.
    pub fn into_file(self) -> D
        ensures { result ≡ file_of self }
    {
        self.chain.into_file()
    }
}

/// Receives the blocks of batches, one after another.
fn receive_each<D: StoreFile, T: Threads + Sync>(
    alloc: Global,
    chain: &mut StoredChain<D>,
    workers: &Workers<'_, T>,
    batches: Vec<LogBatch>,
) -> Result<Vec<PeerBatch>, StoreRefusal>
    requires stored { IsStored chain.old }
    ensures stored { OnOk result (IsStored chain.new) }
    ensures batches { IfOk result (λ told. AllZip IsBatchOf batches.items told.items) }
    ensures received { IfOk result
        (λ told. ReceivesAll (table_of (chain_rules chain.old)) (stored_chain chain.old)
        (blocks_of batches.items) (told_of told.items) (stored_chain chain.new)) }
    ensures joined { HaveNumbers batches.items →
        IfOk result
        (λ told. AllByRecursion (IsJoinedIn (stored_chain chain.new)) told.items) }
    ensures refused { IfErr result
        (AreNotReceived (table_of (chain_rules chain.old)) (stored_chain chain.old)
        (blocks_of batches.items)) }
    ensures device { IsBlamed result chain.old.file.history.failures
        chain.new.file.history.failures }
    ensures rules { chain_rules chain.new ≡ chain_rules chain.old }
    ensures holds { HoldsRecords (D.contents (chain_file chain.old)) (stored_chain chain.old) →
        OnOk result (HoldsRecords (D.contents (chain_file chain.new)) (stored_chain chain.new)) }
    ensures grows { Grows (D.contents (chain_file chain.old)) (D.contents (chain_file chain.new)) }
{
    let mut told = Vec::with_capacity(alloc, batches.len())?;
    'batches: for batch in batches {
        let batch = receive_batch(chain, workers, batch)?;
        told.push(batch).unwrap();
    }
    Ok(told)
}

/// Receives the block of a batch, if it has one.
fn receive_batch<D: StoreFile, T: Threads + Sync>(
    chain: &mut StoredChain<D>,
    workers: &Workers<'_, T>,
    batch: LogBatch,
) -> Result<PeerBatch, StoreRefusal>
    requires stored { IsStored chain.old }
    ensures stored { OnOk result (IsStored chain.new) }
    ensures batch { IfOk result (IsBatchOf batch) }
    ensures received { IfOk result
        (λ told. ReceivesAll (table_of (chain_rules chain.old)) (stored_chain chain.old)
        (option_to_list batch.block) (option_to_list told.received) (stored_chain chain.new)) }
    ensures joined { batch.report.block ≡ number_in batch.block →
        IfOk result (IsJoinedIn (stored_chain chain.new)) }
    ensures refused { IfErr result
        (AreNotReceived (table_of (chain_rules chain.old)) (stored_chain chain.old)
        (option_to_list batch.block)) }
    ensures device { IsBlamed result chain.old.file.history.failures
        chain.new.file.history.failures }
    ensures rules { chain_rules chain.new ≡ chain_rules chain.old }
    ensures holds { HoldsRecords (D.contents (chain_file chain.old)) (stored_chain chain.old) →
        OnOk result (HoldsRecords (D.contents (chain_file chain.new)) (stored_chain chain.new)) }
    ensures grows { Grows (D.contents (chain_file chain.old)) (D.contents (chain_file chain.new)) }
{
    let LogBatch {
        report,
        block,
        aborted,
    } = batch;
    let (received, joined) = receive_made(chain, workers, block)?;
    Ok(PeerBatch {
        report,
        aborted,
        received,
        joined,
    })
}

/// Receives a block, if there is one: what became of it, and the block that joined the chain.
fn receive_made<D: StoreFile, T: Threads + Sync>(
    chain: &mut StoredChain<D>,
    workers: &Workers<'_, T>,
    block: Option<Block>,
) -> Result<(Option<Received>, Option<CommittedBlock>), StoreRefusal>
    requires stored { IsStored chain.old }
    ensures stored { OnOk result (IsStored chain.new) }
    ensures block { IfOk result (λ told. IsOfBlock block told.0 × AreJoined told.0 told.1) }
    ensures received { IfOk result
        (λ told. ReceivesAll (table_of (chain_rules chain.old)) (stored_chain chain.old)
        (option_to_list block) (option_to_list told.0) (stored_chain chain.new)) }
    ensures joined { IfOk result
        (λ told. IsJoinedAt (stored_chain chain.new) (number_in block) told.1) }
    ensures refused { IfErr result
        (AreNotReceived (table_of (chain_rules chain.old)) (stored_chain chain.old)
        (option_to_list block)) }
    ensures device { IsBlamed result chain.old.file.history.failures
        chain.new.file.history.failures }
    ensures rules { chain_rules chain.new ≡ chain_rules chain.old }
    ensures holds { HoldsRecords (D.contents (chain_file chain.old)) (stored_chain chain.old) →
        OnOk result (HoldsRecords (D.contents (chain_file chain.new)) (stored_chain chain.new)) }
    ensures grows { Grows (D.contents (chain_file chain.old)) (D.contents (chain_file chain.new)) }
{
    let Some(block) = block else {
        return Ok((None, None));
    };
    match chain.receive(workers, block)? {
        None => Ok((Some(Received::Known), None)),
        Some(joined) => Ok((Some(Received::Committed), Some(joined))),
    }
}
