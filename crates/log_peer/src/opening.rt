//! The records of a store as it is opened.

ghost use Rattle.std.specs.Prelude.{◌≡◌, suc, ℕ, List, [], ◌∷◌, ◌++◌, IfErr, IfOk, MatchResult, OnOk, length};
ghost use Rattle.ledger_model.specs.Chain.{Chain};
ghost use Rattle.ledger_setting.specs.Rule.{table_of};
ghost use Rattle.block_store.specs.Loading.{Holds, IsBehind};
ghost use Rattle.block_store.specs.Record.{IsRecord};
ghost use Rattle.block_store.specs.Store.{AreRecords};
ghost use Rattle.store_devices.specs.Places.{ends_of};
ghost use Rattle.store_replay.specs.Lawful.{AreLawful, IsRecommitRefused};
ghost use Rattle.kept_state.specs.Keeping.{chain_of};
ghost use Rattle.log_peer.specs.Opening.{AreOpened, IsChainOf};
ghost use Rattle.log_peer.specs.Storing.{IsOpened, IsOpenRefused, cut_of};

use crate::refusal::StoreRefusal;
use block_store::{CountedRead, End, RecordSink, StoreEnd, read_into, record_size};
use endorsement_policy::Rules;
use fab_types::CommittedBlock;
use fab_types::limits::LAST_BLOCK;
use kept_state::KeptChain;
use std::alloc::{AllocError, Global};
use std::thread::Threads;
use store_devices::Places;
use store_replay::{Recommit, RecommitRefusal, TagChecks, Watch};

/// A store's blocks as they are committed again, and where the record of each ends.
#[derive(Drop)]
struct Opening<'a, T, V> {
    recommit: Recommit<'a, T, V>,
    places: Places,
}

impl<'a, T, V> Opening<'a, T, V> {
    /// Before the first record. It takes no memory.
    fn new(tags: &'a TagChecks<'a, T, V>, alloc: Global, rules: &'a Rules) -> Self
        ensures opened { AreOpened (table_of result.recommit.rules.now) result.recommit.chain
            result.recommit.refused result.places [] }
        ensures rules { result.recommit.rules.now ≡ rules.now }
    {
        Opening {
            recommit: Recommit::new(tags, alloc, rules),
            places: Places::new(alloc),
        }
    }

    /// The chain of the records that were taken, and where each of them ends; or why one of them is
    /// refused.
    fn finish(self) -> Result<(KeptChain, Places), RecommitRefusal>
        ensures { (cs : Chain) → AreRecords 1 cs →
            AreOpened (table_of self.entry.recommit.rules.now) self.entry.recommit.chain
            self.entry.recommit.refused self.entry.places cs →
            MatchResult result
            (λ p. IsChainOf p.0 p.1 cs
            × AreLawful (table_of self.entry.recommit.rules.now) [] cs)
            (IsRecommitRefused (table_of self.entry.recommit.rules.now) cs) }
    {
        let Opening { recommit, places } = self;
        let chain = recommit.finish()?;
        Ok((chain, places))
    }
}

impl<T: Threads + Sync, V: Watch> RecordSink for Opening<'_, T, V> {
    ghost use Rattle.ledger_setting.specs.Rule.{table_of};
    ghost use Rattle.endorsement_policy.specs.Listed.{Listed};
    ghost use Rattle.log_peer.specs.Opening.{HaveOpened};

    ghost Context = { Listed };

    ghost context = { λ o. o.recommit.rules.now };

    ghost Took = { λ o cs. HaveOpened T.row (table_of o.recommit.rules.now) o.recommit.chain
        o.recommit.refused o.places cs };

    fn take(&mut self, records: Vec<CommittedBlock>) -> Result<(), AllocError> {
        push_sizes(&mut self.places, &records)?;
        self.recommit.take(records)?;
        Ok(())
    }
}

/// Takes the sizes of the next records of a store.
fn push_sizes(places: &mut Places, records: &[CommittedBlock]) -> Result<(), AllocError>
    ensures { (before : Chain) → (AreRecords 1 before → places.old ≡ ends_of before) →
        AreRecords 1 (before ++ records.now) →
        OnOk result (places.new ≡ ends_of (before ++ records.now)) }
{
    'records: for committed in records {
        push_size(places, committed)?;
    }
    Ok(())
}

/// Takes the size of the next record of a store.
pub(crate) fn push_size(places: &mut Places, committed: &CommittedBlock) -> Result<(), AllocError>
    ensures { (before : Chain) → places.old ≡ ends_of before →
        IsRecord (suc (length before)) committed.now →
        OnOk result (places.new ≡ ends_of (before ++ committed.now ∷ [])) }
{
    // A chain has no block more.
    if places.span(LAST_BLOCK).is_some() {
        return Ok(());
    }
    places.push(record_size(committed))?;
    Ok(())
}

/// The chain of all the records of a store, which are committed again as they stand, where each of
/// them ends, and how many bytes stand behind them. Refused as `StoredChain::open` refuses.
pub fn recommit_all<T: Threads + Sync, V: Watch, R: CountedRead>(
    tags: &TagChecks<'_, T, V>,
    alloc: Global,
    rules: &Rules,
    reader: &mut R,
) -> Result<(KeptChain, Places, usize), StoreRefusal>
    requires unread { R.taken reader.old ≡ [] }
    ensures lawful { IfOk result (λ p. AreLawful (table_of rules.now) [] (chain_of p.0)) }
    ensures chain { IfOk result (λ p. IsChainOf p.0 p.1 (chain_of p.0)) }
    ensures opened { IfOk result (λ p. IsOpened (R.remaining reader.old) (chain_of p.0) p.2) }
    ensures behind { IfOk result (λ p. IsBehind [] (R.taken reader.new) (chain_of p.0) p.2) }
    ensures refused { IfErr result
        (IsOpenRefused (table_of rules.now) (R.remaining reader.old)) }
{
    let mut opening = Opening::new(tags, alloc, rules);
    let end = read_into(alloc, reader, &mut opening)?;
    let held = held_of(&end)?;
    let (chain, places) = opening.finish()?;
    Ok((chain, places, held))
}

/// How many bytes stand behind the whole records of a store.
fn held_of(end: &StoreEnd) -> Result<usize, StoreRefusal>
    ensures behind { (before now : List ℕ) (cs : Chain) →
        Holds end.now.end before now cs end.now.held →
        IfOk result (λ held. IsBehind before now cs held) }
    ensures cut { result ≡ cut_of end.now.end end.now.held }
{
    match end.end {
        End::Clean | End::Torn => Ok(end.held),
        End::Damaged(number) => Err(StoreRefusal::Damaged(number)),
        End::DeviceFailed => Err(StoreRefusal::File),
    }
}
