//! Endorsers.

ghost use Rattle.std.specs.Prelude.{◌≡◌, IfOk, IfErr};
ghost use Rattle.std.specs.Arc.{arc_value};
ghost use Rattle.ledger_model.specs.Chain.{history};
ghost use Rattle.ledger_model.specs.State.{state};
ghost use Rattle.simulator.specs.Answers.{Answers};
ghost use Rattle.endorsement_policy.specs.Endorsed.{seal_of};
ghost use Rattle.endorsement_policy.specs.Judge.{plain_in};
ghost use Rattle.world_state.specs.Kept.{state_in};
ghost use Rattle.world_state.specs.Writing.{as_state};
ghost use Rattle.endorser.specs.Endorsing.{endorsing_of, simulated_in, simulated_on, endorsed_in, endorsed_on, IsEndorsed, IsEndorsedIn};
ghost use Rattle.endorser.specs.Rechecks.{IsRecheckRefused};

use crate::rechecking::recheck_behind;
use crate::sealing::seal_in;
use endorsement_policy::Rules;
use fab_types::{Endorsement, OrgName, Payload, Proposal};
use org_keys::Signers;
use simulator::{Book, SimRefusal, simulate_in};
use std::alloc::{AllocError, Global};
use std::sync::Arc;
use world_state::{Past, Snapshot, StateMap};

/// What an organisation endorses by: the chaincodes, the rules, the seeds at hand and its name.
/// Contracts see them as one (`endorsing_of`); they stay as they are.
#[derive(Drop)]
pub struct Endorser {
    book: Arc<Book>,
    rules: Arc<Rules>,
    signers: Arc<Signers>,
    org: OrgName,
    alloc: Global,
}

impl Endorser {
    /// An endorser of an organisation. Tags of one that is no member in the state, or whose seed is
    /// not at hand, are made with the empty key and count for nothing. It takes no memory.
    pub fn new(
        alloc: Global,
        book: Arc<Book>,
        rules: Arc<Rules>,
        signers: Arc<Signers>,
        org: OrgName,
    ) -> Endorser
        ensures { endorsing_of result
            ≡ record {
              book = arc_value book;
              listed = arc_value rules;
              seal = λ m. seal_of (arc_value rules) (arc_value signers) m org;
            } }
    {
        Endorser {
            book,
            rules,
            signers,
            org,
            alloc,
        }
    }

    /// The rules by which blocks are judged too.
    pub fn rules(&self) -> &Rules
        ensures { result.now ≡ (endorsing_of self.now).listed }
    {
        &self.rules
    }

    /// The payload of a proposal on a snapshot's state, as `simulate` answers it.
    pub fn simulate(&self, snapshot: &Snapshot, proposal: &Proposal) -> Result<Payload, SimRefusal>
        ensures { Answers (simulated_on (endorsing_of self.now) proposal.now snapshot.now) result }
    {
        self.simulate_in(snapshot.map(), proposal)
    }

    /// The payload of a proposal on a state, as `simulate` answers it on a snapshot's.
    pub fn simulate_in(&self, state: &StateMap, proposal: &Proposal) -> Result<Payload, SimRefusal>
        ensures { Answers
            (simulated_in (endorsing_of self.now) proposal.now (as_state state.now.entries))
            result }
    {
        simulate_in(self.alloc, &self.book, state, proposal)
    }

    /// Endorses a payload of which all that was read is as it is in the newest snapshot's state.
    ///
    /// Refused as stale (405) where something is not; and for want of memory (9).
    pub fn endorse_payload(
        &self,
        newest: &Snapshot,
        payload: &Payload,
    ) -> Result<Endorsement, SimRefusal>
        ensures endorsed { IfOk result
            (λ tag. IsEndorsed (endorsing_of self.now) newest.now payload.now tag) }
        ensures refused { IfErr result
            (λ r. IsRecheckRefused (state (history newest.now)) payload.now r) }
    {
        self.endorse_payload_behind(newest, payload)
    }

    /// Endorses a payload of which all that was read is as it is behind a chain, as
    /// `endorse_payload` does in a snapshot's state.
    pub fn endorse_payload_behind<P: Past>(
        &self,
        newest: &P,
        payload: &Payload,
    ) -> Result<Endorsement, SimRefusal>
        ensures endorsed { IfOk result
            (λ tag. IsEndorsedIn (endorsing_of self.now) (state_in (P.kept newest.now)) payload.now
            tag) }
        ensures refused { IfErr result
            (λ r. IsRecheckRefused (state_in (P.kept newest.now)) payload.now r) }
    {
        recheck_behind(self.alloc, payload, newest)?;
        Ok(self.seal(newest.map(), payload)?)
    }

    /// Simulates a proposal on a snapshot's state and endorses the payload there, where nothing is
    /// to be looked at once more.
    ///
    /// Refused as the simulation is (401 to 404, 406 to 408), and for want of memory (9).
    pub fn endorse(
        &self,
        snapshot: &Snapshot,
        proposal: &Proposal,
    ) -> Result<(Payload, Endorsement), SimRefusal>
        ensures { Answers (endorsed_on (endorsing_of self.now) proposal.now snapshot.now) result }
    {
        self.endorse_in(snapshot.map(), proposal)
    }

    /// Simulates a proposal on a state and endorses the payload there, as `endorse` does on a
    /// snapshot's.
    pub fn endorse_in(
        &self,
        state: &StateMap,
        proposal: &Proposal,
    ) -> Result<(Payload, Endorsement), SimRefusal>
        ensures { Answers
            (endorsed_in (endorsing_of self.now) proposal.now (as_state state.now.entries))
            result }
    {
        let payload = self.simulate_in(state, proposal)?;
        let endorsement = self.seal(state, &payload)?;
        Ok((payload, endorsement))
    }

    /// What is put on a payload in a state.
    fn seal(&self, state: &StateMap, payload: &Payload) -> Result<Endorsement, AllocError>
        ensures { IfOk result
            (λ e. e
            ≡ (endorsing_of self.now).seal (plain_in state.now.entries) payload.now) }
    {
        seal_in(
            self.alloc,
            &self.rules,
            &self.signers,
            state,
            &self.org,
            payload,
        )
    }
}
