//! A seat of a peer: it endorses and reads, and never waits.

ghost use Rattle.std.specs.Prelude.{◌≡◌, IfOk, IfErr, OnErr, IsSome};
ghost use Rattle.ledger_model.specs.Chain.{history};
ghost use Rattle.ledger_model.specs.State.{state_at};
ghost use Rattle.endorser.specs.Endorsing.{IsEndorsed, endorsing_of as endorsing_by};
ghost use Rattle.peer_node.specs.Seats.{IsNotEndorsed};

use crate::refusal::FinishRefusal;
use endorser::Endorser;
use fab_types::{Endorsement, Key, Payload, Proposal, Value, Version};
use snapshot_cell::{Reader, TakeRefusal, Told};
use std::alloc::{AllocError, Global};
use std::sync::Arc;
use world_state::Snapshot;

/// A seat. Contracts see the list of whole blocks that it has seen or was told of (`seen_chain`),
/// and what it endorses by (`endorsing_of`); its methods alone change the list.
#[derive(Drop)]
pub struct Seat {
    pub(crate) reader: Reader,
    pub(crate) endorser: Endorser,
}

/// A proposal that a seat has begun, and the snapshot that it reads.
#[derive(Drop)]
pub struct Begun {
    pub proposal: Proposal,
    pub snapshot: Arc<Snapshot>,
}

impl Seat {
    ghost use Rattle.std.specs.Prelude.{◌⊎◌, Ok, Err};
    ghost use Rattle.std.specs.Arc.{arc_value};
    ghost use mathlib.Core.List.{IsPrefix};
    ghost use Rattle.fab_types.specs.declared.proposal.Proposal.{Proposal};
    ghost use Rattle.ledger_model.specs.Chain.{Chain};
    ghost use Rattle.snapshot_cell.specs.Seats.{cell_of_told, told_list};
    ghost use Rattle.endorser.specs.Endorsing.{Endorsing};
    ghost use Rattle.peer_node.specs.Seats.{seen_chain, peer_of, endorsing_of, simulated_on, FinishesBy, Endorses, IsReadRefused};

    /// Takes the snapshot on which a proposal is simulated: its blocks begin with all that this
    /// seat has seen or was told of, and are what it has seen afterwards.
    ///
    /// Refused where the cell was not entered, as after its writer's end (432; no contract says
    /// when else), and for want of memory (9).
    pub fn begin(&mut self, proposal: &Proposal) -> Result<Begun, TakeRefusal>
        ensures begun { IfOk result
            (λ b. (b.proposal ≡ proposal.now) ×
            IsPrefix (seen_chain self.old) (arc_value b.snapshot) ×
            (seen_chain self.new ≡ arc_value b.snapshot)) }
        ensures refused { IfErr result (λ _. seen_chain self.new ≡ seen_chain self.old) }
        ensures same { (endorsing_of self.new ≡ endorsing_of self.old) ×
            (peer_of self.new ≡ peer_of self.old) }
    {
        let proposal = proposal.clone()?;
        let snapshot = self.reader.take()?;
        Ok(Begun { proposal, snapshot })
    }

    /// Simulates what was begun on the snapshot taken then, checks on a second one that all that
    /// was read is as it was, and endorses the payload. The blocks of the second snapshot begin
    /// with all that this seat has seen or was told of, and are what it has seen afterwards.
    ///
    /// Refused as the simulation is (401 to 404, 406 to 408); where that gave a payload and the
    /// cell no entry (432), with nothing new seen; where something that was read has changed (405);
    /// and for want of memory (9), which leaves what was seen as it was or comes behind a payload.
    pub fn finish(&mut self, begun: Begun) -> Result<(Payload, Endorsement), FinishRefusal>
        ensures finished { FinishesBy (endorsing_of self.old) begun.proposal
            (arc_value begun.snapshot) (seen_chain self.old) (seen_chain self.new) result }
        ensures same { (endorsing_of self.new ≡ endorsing_of self.old) ×
            (peer_of self.new ≡ peer_of self.old) }
    {
        self.finish_begun(&begun.snapshot, &begun.proposal)
    }

    /// Finishes a proposal that was begun on the first snapshot, as `finish` does.
    fn finish_begun(
        &mut self,
        first: &Snapshot,
        proposal: &Proposal,
    ) -> Result<(Payload, Endorsement), FinishRefusal>
        ensures finished { FinishesBy (endorsing_of self.old) proposal.now first.now
            (seen_chain self.old) (seen_chain self.new) result }
        ensures same { (endorsing_of self.new ≡ endorsing_of self.old) ×
            (peer_of self.new ≡ peer_of self.old) }
    {
        let payload = self.endorser.simulate(first, proposal)?;
        match self.endorse_newest(&payload) {
            Ok(endorsement) => Ok((payload, endorsement)),
            Err(refusal) => {
                drop(payload);
                Err(refusal)
            }
        }
    }

    /// Endorses a payload of which all that was read is as it was on the newest snapshot, which is
    /// then what this seat has seen.
    fn endorse_newest(&mut self, payload: &Payload) -> Result<Endorsement, FinishRefusal>
        ensures endorsed { IfOk result
            (λ tag. IsPrefix (seen_chain self.old) (seen_chain self.new) ×
            IsEndorsed (endorsing_of self.old) (seen_chain self.new) payload.now tag) }
        ensures refused { IfErr result
            (λ r. (e : Endorsing) (p : Proposal) (first : Chain) →
            simulated_on e p first ≡ Ok payload.now →
            FinishesBy e p first (seen_chain self.old) (seen_chain self.new) (Err r)) }
        ensures same { (endorsing_of self.new ≡ endorsing_of self.old) ×
            (peer_of self.new ≡ peer_of self.old) }
    {
        let newest = self.reader.take()?;
        endorse_on(&self.endorser, &newest, payload)
    }

    /// Begins and finishes a proposal. Refused as these are: with nothing new seen where it was not
    /// begun (432 and 9).
    pub fn endorse(&mut self, proposal: &Proposal) -> Result<(Payload, Endorsement), FinishRefusal>
        ensures endorsed { Endorses (endorsing_of self.old) proposal.now (seen_chain self.old)
            (seen_chain self.new) result }
        ensures same { (endorsing_of self.new ≡ endorsing_of self.old) ×
            (peer_of self.new ≡ peer_of self.old) }
    {
        let first = self.reader.take()?;
        self.finish_begun(&first, proposal)
    }

    /// A key's value and version in the state after a list of blocks that begins with all that this
    /// seat has seen or was told of, and is what it has seen afterwards.
    ///
    /// Refused where the cell was not entered (432), with nothing new seen; and for want of memory
    /// (9), with nothing new seen or where the key has an entry.
    pub fn read(&mut self, key: &Key) -> Result<Option<(Value, Version)>, TakeRefusal>
        ensures answer { IfOk result
            (λ entry. IsPrefix (seen_chain self.old) (seen_chain self.new) ×
            (entry ≡ state_at (history (seen_chain self.new)) key.now)) }
        ensures refused { IfErr result
            (λ r. IsReadRefused key.now (seen_chain self.old) (seen_chain self.new) r) }
        ensures same { (endorsing_of self.new ≡ endorsing_of self.old) ×
            (peer_of self.new ≡ peer_of self.old) }
    {
        let snapshot = self.reader.take()?;
        Ok(entry_at(&snapshot, key)?)
    }

    /// What this seat has seen or was told of, for others to learn. It takes no memory.
    pub fn told(&self) -> Told
        ensures { (cell_of_told result ≡ peer_of self.now) ×
            (told_list result ≡ seen_chain self.now) }
    {
        self.reader.told()
    }

    /// Takes in what the peer's writer or a seat of it told. One of the two lists begins with the
    /// other, and the seat has then seen the longer one.
    pub fn learn(&mut self, told: &Told)
        requires { cell_of_told told.now ≡ peer_of self.old }
        ensures longer { (IsPrefix (seen_chain self.old) (told_list told.now) ×
            (seen_chain self.new ≡ told_list told.now)) ⊎
            (IsPrefix (told_list told.now) (seen_chain self.old) ×
            (seen_chain self.new ≡ seen_chain self.old)) }
        ensures same { (endorsing_of self.new ≡ endorsing_of self.old) ×
            (peer_of self.new ≡ peer_of self.old) }
    {
        self.reader.learn(told);
    }
}

/// Endorses a payload of which all that was read is as it is in a snapshot's state.
fn endorse_on(
    endorser: &Endorser,
    newest: &Snapshot,
    payload: &Payload,
) -> Result<Endorsement, FinishRefusal>
    ensures endorsed { IfOk result
        (λ tag. IsEndorsed (endorsing_by endorser.now) newest.now payload.now tag) }
    ensures refused { IfErr result (λ r. IsNotEndorsed newest.now payload.now r) }
{
    Ok(endorser.endorse_payload(newest, payload)?)
}

/// A key's value and version after the blocks of a snapshot. The error is of memory, and comes
/// where the key has an entry.
fn entry_at(snapshot: &Snapshot, key: &Key) -> Result<Option<(Value, Version)>, AllocError>
    ensures entry { IfOk result (λ entry. entry ≡ state_at (history snapshot.now) key.now) }
    ensures memory { OnErr result (IsSome (state_at (history snapshot.now) key.now)) }
{
    match snapshot.get(key) {
        Some((value, version)) => Ok(Some((value.clone()?, version))),
        None => Ok(None),
    }
}
