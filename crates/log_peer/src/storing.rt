//! A chain and the file that it is stored in.

ghost use Rattle.std.specs.Prelude.{◌≡◌, suc, [], ◌∷◌, ◌++◌, IfErr, IfOk, IfSome, MatchResult, Ok, OnErr, OnOk, length};
ghost use Rattle.std.specs.Option.{option_to_list};
ghost use Rattle.std.specs.Io.KnownBytes.{Appends};
ghost use Rattle.std.specs.Arc.{arc_value};
ghost use Rattle.ledger_model.specs.Chain.{Chain};
ghost use Rattle.ledger_setting.specs.Rule.{table_of};
ghost use Rattle.block_store.specs.Record.{IsRecord, record_bytes};
ghost use Rattle.store_devices.specs.History.{cut_back};
ghost use Rattle.store_devices.specs.Places.{ends_of};
ghost use Rattle.store_devices.specs.StoreFile.{CutsBack, MayCutBack};
ghost use Rattle.store_replay.specs.Lawful.{AreLawful};
ghost use Rattle.log_committer.specs.Committing.{Receives, received_of};
ghost use Rattle.log_peer.specs.Holding.{Grows, HoldsRecords, IsUntouched, KeepsRecords};
ghost use Rattle.log_peer.specs.Storing.{IsBlamed, IsOfMachine, IsOpened, IsOpenRefused, IsReceiveRefused, IsStored};
ghost use Rattle.log_peer.specs.Storing.{file_of, rules_of, stored_chain};

use crate::opening::{push_size, recommit_all};
use crate::refusal::{StoreRefusal, Unopened};
use block_store::{DeviceError, append};
use endorsement_policy::{Rules, Workers};
use fab_types::{Block, CommittedBlock};
use kept_state::KeptChain;
use log_committer::Committer;
use std::alloc::Global;
use std::sync::Arc;
use std::thread::Threads;
use store_devices::{BlockFault, Blocks, Counted, Places, StoreFile, StoreReader, read_placed};
use store_replay::{TagChecks, Watch};
use wire::header_hash;

/// A chain to which the blocks of a log are committed, and the file that it is stored in.
///
/// Contracts see the chain with its flags (`stored_chain`), the rules (`rules_of`), the file
/// (`file_of`), the bytes that it has by its calls, and those that it had when it was synced last
/// (`IsStored`).
#[derive(Drop)]
pub struct StoredChain<D: Drop> {
    committer: Committer,
    file: Counted<D>,
    places: Places,
    alloc: Global,
}

impl<D: StoreFile> StoredChain<D> {
    /// The chain of a store, which is committed again as it stands, and how many bytes were cut off
    /// behind its whole records. The file is read from its first byte on. The answer is the same
    /// whoever checks the tags.
    ///
    /// Refused where the store is damaged (702), where a block does not fit (601 to 604) or has
    /// other flags than the table's (711), where a call of the file fails (703), and for want of
    /// memory (9). The file is cut behind all tests, so a refused one stays as it was, but where a
    /// call fails: its whole records stay then.
    pub fn open<T: Threads + Sync, V: Watch>(
        tags: &TagChecks<'_, T, V>,
        alloc: Global,
        rules: Arc<Rules>,
        file: D,
    ) -> Result<(StoredChain<D>, usize), Unopened<D>>
        ensures stored { IfOk result (λ p. IsStored p.0) }
        ensures lawful { IfOk result
            (λ p. AreLawful (table_of (arc_value rules)) [] (stored_chain p.0)) }
        ensures rules { IfOk result (λ p. rules_of p.0 ≡ arc_value rules) }
        ensures opened { IfOk result
            (λ p. IsOpened (D.contents file) (stored_chain p.0) p.1) }
        ensures refused { IfErr result
            (λ u. IsOpenRefused (table_of (arc_value rules)) (D.contents file) u.refusal) }
        // What the file holds then.
        ensures holds { IfOk result
            (λ p. IfSome (D.contents file)
            (λ _. HoldsRecords (D.contents (file_of p.0)) (stored_chain p.0))) }
        ensures keeps { MatchResult result
            (λ p. KeepsRecords (D.contents file) (D.contents (file_of p.0)))
            (λ u. KeepsRecords (D.contents file) (D.contents u.file)) }
        ensures untouched { IfErr result (λ u. IsUntouched u.refusal file u.file) }
    {
        let mut reader = StoreReader::new(&file);
        let read = recommit_all(tags, alloc, &rules, &mut reader);
        let history = reader.into_history();
        match read {
            Ok((chain, places, held)) => {
                let mut file = Counted::with_history(file, history);
                match cut_off(&mut file, held) {
                    Ok(()) => {
                        let committer = Committer::new(alloc, rules, chain);
                        let chain = StoredChain {
                            committer,
                            file,
                            places,
                            alloc,
                        };
                        Ok((chain, held))
                    }
                    Err(_) => {
                        let (refusal, file) = (StoreRefusal::File, file.into_inner());
                        Err(Unopened { refusal, file })
                    }
                }
            }
            Err(refusal) => Err(Unopened { refusal, file }),
        }
    }

    /// Takes the next block of the log, or one that the chain has, and hands out the block that
    /// joins the chain, with its flags. It is on the disk when this returns. None where the chain
    /// has it.
    ///
    /// Refused as `Committer::receive` refuses, which changes nothing; and where a call of the file
    /// fails (703) or memory is wanted (9), behind which the store has to be opened again.
    pub fn receive<T: Threads + Sync>(
        &mut self,
        workers: &Workers<'_, T>,
        block: Block,
    ) -> Result<Option<CommittedBlock>, StoreRefusal>
        requires stored { IsStored self.old }
        ensures stored { OnOk result (IsStored self.new) }
        ensures received { IfOk result
            (λ joined. Receives (table_of (rules_of self.old)) (stored_chain self.old) block
            (Ok (received_of joined)) (stored_chain self.new)) }
        ensures joined { IfOk result
            (λ joined. stored_chain self.new
            ≡ stored_chain self.old ++ option_to_list joined) }
        ensures refused { IfErr result
            (λ refusal. IsReceiveRefused refusal self.old block self.new) }
        // The file is blamed exactly where a call of it failed.
        ensures device { IsBlamed result self.old.file.history.failures
            self.new.file.history.failures }
        ensures rules { rules_of self.new ≡ rules_of self.old }
        // What the file holds then: it keeps what it held.
        ensures holds { HoldsRecords (D.contents (file_of self.old)) (stored_chain self.old) →
            OnOk result (HoldsRecords (D.contents (file_of self.new)) (stored_chain self.new)) }
        ensures grows { Grows (D.contents (file_of self.old)) (D.contents (file_of self.new)) }
    {
        match self.committer.receive(workers, block)? {
            None => Ok(None),
            Some(committed) => {
                append_newest(self.alloc, &committed, &mut self.file, &mut self.places)?;
                Ok(Some(committed))
            }
        }
    }

    /// Its chain, of which a state is kept. It takes no memory.
    pub fn chain(&self) -> &KeptChain
        ensures { result.now ≡ self.now.committer.chain }
    {
        self.committer.chain()
    }

    /// The file, for whoever closes it.
    pub fn into_file(self) -> D
        ensures { result ≡ file_of self }
    {
        self.file.into_inner()
    }
}

impl<D: StoreFile + Sync> Blocks for StoredChain<D> {
    ghost use Rattle.log_peer.specs.Holding.{HoldsIfKnown};

    ghost chain = { λ c. stored_chain c };

    ghost keeps = { D.is_known };

    ghost IsSound = { λ c. IsStored c
        × HoldsIfKnown D.is_known (D.contents (file_of c)) (stored_chain c) };

    fn kept(&self) -> &KeptChain {
        self.committer.chain()
    }

    fn block(&self, alloc: Global, number: u32) -> Result<CommittedBlock, BlockFault> {
        let record = read_placed(alloc, self.file.get_ref(), &self.places, number)?;
        match self.committer.chain().hash(number) {
            None => Err(BlockFault::Damaged(number)),
            Some(own) => {
                if own == header_hash(&record.block().header) {
                    Ok(record)
                } else {
                    Err(BlockFault::Damaged(number))
                }
            }
        }
    }
}

/// Takes so many bytes away from the end of a file, and waits until the others are on the disk.
fn cut_off<D: StoreFile>(file: &mut Counted<D>, count: usize) -> Result<(), DeviceError>
    ensures moved { OnOk result
        (file.new.history.moved ≡ cut_back count file.old.history.moved) }
    ensures synced { OnOk result (file.new.history.synced ≡ file.new.history.moved) }
    ensures cut { OnOk result
        (CutsBack count (D.contents file.old.device) (D.contents file.new.device)) }
    ensures failed { OnErr result
        (MayCutBack count (D.contents file.old.device) (D.contents file.new.device)) }
{
    file.cut_back(count)?;
    file.sync()
}

/// Puts the record of a block that joins the chain at the end of a file, waits until it is on the
/// disk, and keeps where it ends.
fn append_newest<D: StoreFile>(
    alloc: Global,
    committed: &CommittedBlock,
    file: &mut Counted<D>,
    places: &mut Places,
) -> Result<(), StoreRefusal>
    ensures record { OnOk result
        (file.new.history.moved ≡ file.old.history.moved ++ record_bytes committed.now) }
    ensures synced { OnOk result (file.new.history.synced ≡ file.new.history.moved) }
    ensures is_record { OnOk result
        (IsRecord committed.now.block.header.number committed.now) }
    ensures places { (before : Chain) → places.old ≡ ends_of before →
        committed.now.block.header.number ≡ suc (length before) →
        OnOk result (places.new ≡ ends_of (before ++ committed.now ∷ [])) }
    ensures refused { IfErr result IsOfMachine }
    ensures device { IsBlamed result file.old.history.failures file.new.history.failures }
    ensures appended { OnOk result
        (Appends (D.contents file.old.device) (D.contents file.new.device)
        (record_bytes committed.now)) }
    ensures grows { Grows (D.contents file.old.device) (D.contents file.new.device) }
{
    push_size(places, committed)?;
    append(alloc, file, committed.block(), committed.flags())?;
    file.sync()?;
    Ok(())
}
