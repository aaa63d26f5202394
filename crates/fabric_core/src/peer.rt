//! One peer: its snapshot and its seats.

ghost use Rattle.std.specs.Prelude.{◌≡◌, ℕ, [], ◌∷◌, ◌++◌, ◌+◌, ◌<◌, length, slice_get, Ok, IfOk, IfSome, OnErr, None, Some, if◌then◌else◌};
ghost use Rattle.ledger_model.specs.Chain.{Chain, history};
ghost use Rattle.ledger_model.specs.State.{state};
ghost use Rattle.ledger_model.specs.Views.{values_of};
ghost use Rattle.fab_types.specs.declared.proposal.Proposal.{Proposal};
ghost use Rattle.mvcc_validate.specs.Current.{is_current};
ghost use Rattle.committer.specs.Fits.{Fits, blocks_of};
ghost use Rattle.ledger_model.specs.Judged.{judge};
ghost use Rattle.ledger_setting.specs.Judging.{IsJudged};
ghost use Rattle.ledger_setting.specs.Rule.{table_of};
ghost use Rattle.endorsement_policy.specs.Endorsed.{seal_of};
ghost use Rattle.simulator.specs.Answers.{payload_or_refusal};
ghost use Rattle.simulator.specs.Execution.{exec_of};
ghost use Rattle.fabric_core.specs.System.{IsCommitted, fresh, begin, finish_reply, finish};
ghost use Rattle.fabric_core.specs.Inside.{peer_of, IsPeerRight};

use crate::checks::Checks;
use crate::event::Reply;
use chaincode_book::Book;
use endorsement_policy::Rules;
use endorser::{recheck, seal};
use fab_types::{Block, Endorsement, Flag, OrgName, Payload, Proposal};
use ledger_setting::judge_checked;
use org_keys::Signers;
use seq::Seq;
use simulator::{SimRefusal, simulate};
use std::alloc::{AllocError, Global};
use std::sync::Arc;
use world_state::{Judged, Snapshot};

/// A proposal that was begun, and the snapshot that it reads.
#[derive(Drop)]
pub struct Begun {
    pub proposal: Proposal,
    pub snapshot: Arc<Snapshot>,
}

/// A peer's organisation, its newest snapshot, and its seats: free ones are None.
#[derive(Drop)]
pub struct Peer {
    pub org: OrgName,
    pub snapshot: Arc<Snapshot>,
    pub seats: Vec<Option<Begun>>,
}

/// What the next block is judged to be, and its flags once more. The error is of memory.
fn judged<C: Checks>(
    checks: &C,
    alloc: Global,
    rules: &Rules,
    snapshot: &Snapshot,
    block: &Block,
) -> Result<(Judged, Vec<Flag>), AllocError>
    requires ready { C.ready checks.now }
    requires fits { Fits (blocks_of snapshot.now) block.now }
    ensures judged { IfOk result
        (λ t. IsJudged (table_of rules.now) snapshot.now block.now t.0) }
    ensures flags { IfOk result (λ t. t.1.items ≡ t.0.flags.items) }
{
    let endorsed = checks.check(alloc, rules, snapshot, block.envelopes.as_slice())?;
    let judged = judge_checked(alloc, rules, snapshot, block, &endorsed)?;
    let flags = judged.flags.to_vec(alloc)?;
    Ok((judged, flags))
}

/// A simulation, where want of memory is no refusal of the chaincode's.
fn simulate_begun(
    alloc: Global,
    book: &Book,
    snapshot: &Snapshot,
    proposal: &Proposal,
) -> Result<Result<Payload, SimRefusal>, AllocError>
    ensures { IfOk result
        (λ answer. payload_or_refusal (exec_of book.now) proposal.now snapshot.now ≡ answer) }
{
    match simulate(alloc, book, snapshot, proposal) {
        Err(SimRefusal::Memory) => Err(AllocError),
        answer => Ok(answer),
    }
}

impl Peer {
    /// A peer without blocks, all of whose seats are free.
    pub fn new(alloc: Global, org: OrgName, seats: usize) -> Result<Peer, AllocError>
        ensures state { IfOk result (λ p. peer_of p ≡ fresh seats org) }
        ensures right { IfOk result
            (λ p. (chain : ℕ → Chain) → chain 0 ≡ [] → IsPeerRight chain p) }
    {
        let snapshot = Arc::new(alloc, Snapshot::empty(alloc))?;
        let mut free = Vec::new(alloc);
        for _ in 0..seats {
            free.push(None)?;
        }
        Ok(Peer {
            org,
            snapshot,
            seats: free,
        })
    }

    /// Begins a proposal at a seat, on the newest snapshot.
    pub fn begin(&mut self, seat: usize, proposal: Proposal) -> Result<Reply, AllocError>
        ensures step { IfOk result
            (λ reply. begin (peer_of self.old) seat proposal ≡ (reply, peer_of self.new)) }
        ensures right { (chain : ℕ → Chain) → IsPeerRight chain self.old →
            IsPeerRight chain self.new }
        ensures unchanged { OnErr result (self.new ≡ self.old) }
    {
        if let Some(refused) = self.not_free(seat) {
            drop(proposal);
            return Ok(refused);
        }
        let Ok(snapshot) = self.snapshot.clone() else {
            drop(proposal);
            return Err(AllocError);
        };
        let height = snapshot.height();
        self.seats[seat] = Some(Begun { proposal, snapshot });
        Ok(Reply::Begun(height))
    }

    /// The reply where nothing can begin at a seat. None where it is free.
    fn not_free(&self, seat: usize) -> Option<Reply>
        ensures refused { IfSome result
            (λ reply. (proposal : Proposal) →
            begin (peer_of self.now) seat proposal ≡ (reply, peer_of self.now)) }
        ensures free { result ≡ None → slice_get self.now.seats.items seat ≡ Some None }
    {
        match self.seats.get(seat) {
            None => Some(Reply::NoSuchSeat),
            Some(Some(_)) => Some(Reply::SeatBusy),
            Some(None) => None,
        }
    }

    /// The endorsement of a payload: the tag of the peer's organisation, by the key that it has in
    /// the newest state. None where the payload is stale there.
    fn endorsement(
        &self,
        alloc: Global,
        rules: &Rules,
        signers: &Signers,
        payload: &Payload,
    ) -> Result<Option<Endorsement>, AllocError>
        ensures { IfOk result
            (λ endorsement. endorsement
            ≡ (if is_current (state (history self.now.snapshot.value)) payload.now
            then Some (seal_of rules.now signers.now
            (values_of (state (history self.now.snapshot.value))) self.now.org payload.now)
            else None)) }
    {
        let newest: &Snapshot = &self.snapshot;
        match recheck(alloc, payload, newest) {
            Ok(()) => {
                let endorsement = seal(alloc, rules, signers, newest, &self.org, payload)?;
                Ok(Some(endorsement))
            }
            Err(SimRefusal::Stale) => Ok(None),
            // Of memory: there is no other refusal.
            Err(_) => Err(AllocError),
        }
    }

    /// The reply with a payload: with its endorsement, or that it is stale.
    fn endorsed(
        &self,
        alloc: Global,
        rules: &Rules,
        signers: &Signers,
        payload: Payload,
    ) -> Result<Reply, AllocError>
        ensures { IfOk result
            (λ reply. reply
            ≡ finish_reply (state (history self.now.snapshot.value))
            (seal_of rules.now signers.now (values_of (state (history self.now.snapshot.value)))
            self.now.org) (Ok payload)) }
    {
        let Ok(sealed) = self.endorsement(alloc, rules, signers, &payload) else {
            drop(payload);
            return Err(AllocError);
        };
        match sealed {
            Some(endorsement) => Ok(Reply::Endorsed(payload, endorsement)),
            None => {
                drop(payload);
                Ok(Reply::Refused(SimRefusal::Stale))
            }
        }
    }

    /// Simulates what a seat has begun, on the snapshot that it began on, and frees the seat. A
    /// payload that is current on the newest snapshot comes with the tag of the peer's
    /// organisation.
    pub fn finish(
        &mut self,
        alloc: Global,
        book: &Book,
        rules: &Rules,
        signers: &Signers,
        seat: usize,
    ) -> Result<Reply, AllocError>
        ensures step { IfOk result
            (λ reply. (chain : ℕ → Chain) → IsPeerRight chain self.old →
            finish (exec_of book.now) (seal_of rules.now signers.now) chain (peer_of self.old) seat
            ≡ (reply, peer_of self.new)) }
        ensures right { (chain : ℕ → Chain) → IsPeerRight chain self.old →
            IsPeerRight chain self.new }
        ensures unchanged { OnErr result (self.new ≡ self.old) }
    {
        match self.seats.get(seat) {
            None => Ok(Reply::NoSuchSeat),
            Some(None) => Ok(Reply::NothingBegun),
            Some(Some(begun)) => {
                let reply = match simulate_begun(alloc, book, &begun.snapshot, &begun.proposal)? {
                    Ok(payload) => self.endorsed(alloc, rules, signers, payload)?,
                    Err(refusal) => Reply::Refused(refusal),
                };
                self.seats[seat] = None;
                Ok(reply)
            }
        }
    }

    /// Puts the next block on the chain, with its flags.
    pub fn commit<C: Checks>(
        &mut self,
        checks: &C,
        alloc: Global,
        rules: &Rules,
        block: Block,
    ) -> Result<Reply, AllocError>
        requires ready { C.ready checks.now }
        requires next { Fits (blocks_of self.old.snapshot.value) block }
        ensures reply { IfOk result
            (λ reply. reply
            ≡ IsCommitted (length self.old.snapshot.value + 1)
            (judge (table_of rules.now (history self.old.snapshot.value))
            (history self.old.snapshot.value) (length self.old.snapshot.value + 1) 0
            block.envelopes)) }
        ensures chain { IfOk result
            (λ _. self.new.snapshot.value
            ≡ self.old.snapshot.value ++
            record {
              block = block;
              flags = judge (table_of rules.now (history self.old.snapshot.value))
                  (history self.old.snapshot.value) (length self.old.snapshot.value + 1) 0
                  block.envelopes;
            } ∷
            []) }
        ensures seats { self.new.seats ≡ self.old.seats }
        ensures org { self.new.org ≡ self.old.org }
        ensures unchanged { OnErr result (self.new ≡ self.old) }
    {
        let newest: &Snapshot = &self.snapshot;
        let Ok((judged, flags)) = judged(checks, alloc, rules, newest, &block) else {
            drop(block);
            return Err(AllocError);
        };
        let snapshot = newest.followed_by(alloc, block, judged)?;
        let flags = Seq::new(flags);
        let height = snapshot.height();
        self.snapshot = Arc::new(alloc, snapshot)?;
        Ok(Reply::Committed(height, flags))
    }
}
