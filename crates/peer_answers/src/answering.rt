//! How a peer answers a line that asks for something, by its chain.

ghost use Rattle.std.specs.Prelude.{◌≡◌, Ok, Some, IfOk};
ghost use Rattle.kept_state.specs.Keeping.{IsKept, chain_of};
ghost use Rattle.store_devices.specs.Placed.{IsOfMemory};
ghost use Rattle.world_state.specs.Writing.{as_state};
ghost use Rattle.peer_answers.specs.Answering.{IsAnswered, IsLost, IsReply, IsSighted, Says};
ghost use Rattle.peer_answers.specs.Answering.{said_words, seen_at};
ghost use Rattle.peer_answers.specs.Calls.{IsCalled, called_words, endorsed_words, endorses_by};
ghost use Rattle.peer_answers.specs.Calls.{is_passed_over, standing_words};
ghost use Rattle.peer_answers.specs.Placing.{orgs_in, place_among};
ghost use Rattle.peer_answers.specs.Spoken.{answer_text};
ghost use Rattle.peer_answers.specs.Setting.{org_of, peer_of};
ghost use Rattle.endorsement_policy.specs.Endorsed.{key_of};
ghost use Rattle.endorser.specs.Endorsing.{endorsed_in};
ghost use Rattle.org_keys.specs.Signers.{tag_for};
ghost use Rattle.simulator.specs.Answers.{Answers};

use crate::answer::{Answer, CallRefusal};
use crate::line::Request;
use crate::log_genesis::LogGenesis;
use crate::numbers::number_in;
use crate::place::{Place, find_place};
use crate::seen::seen_bytes;
use endorsement_policy::Standing;
use endorser::seal_in;
use fab_types::{Endorsement, OrgName, Payload, Proposal, Spelled, Tag};
use json_events::{BadLine, read_proposal};
use json_questions::{Question, answer_text, read_question};
use kept_state::KeptChain;
use ledger_setting::Genesis;
use org_keys::Signers;
use simulator::{SimRefusal, simulate_in};
use std::alloc::{AllocError, Global};
use store_devices::{BlockFault, Blocks};
use world_state::{Past, StateMap};

/// What a peer answers by: the genesis of its log, and the organisation that it endorses for, if
/// there is one.
#[derive(Clone, Copy)]
pub struct Answering<'a> {
    pub alloc: Global,
    pub log: &'a LogGenesis,
    pub org: Option<&'a OrgName>,
}

impl Answering<'_> {
    /// The answer to what a line asks for in these words, by a chain whose blocks are read where
    /// they lie. The only error is want of memory.
    pub fn answer<B: Blocks>(
        &self,
        blocks: &B,
        request: Request,
        words: &str,
    ) -> Result<Answer, AllocError>
        requires { B.IsSound blocks.now }
        ensures { IfOk result
            (λ a. Says (peer_of B.keeps self.now) (B.chain blocks.now) request words.now
            (answer_text a)) }
    {
        match request {
            Request::Call { agreed } => self.call(blocks.kept(), agreed, words),
            Request::Question => self.question(blocks, words),
            Request::Seen => self.seen(blocks.kept(), words),
        }
    }

    /// The answer to a proposal, which these words spell, if they do.
    fn call(&self, chain: &KeptChain, agreed: bool, words: &str) -> Result<Answer, AllocError>
        requires { IsKept chain.now }
        ensures { IfOk result
            (λ a. IsCalled self.now.log.now.genesis (org_of self.now.org) agreed
            (chain_of chain.now) words.now (answer_text a)) }
    {
        match read_proposal(self.alloc, words) {
            Ok(proposal) => self.endorse(chain, agreed, &proposal),
            Err(BadLine::Memory) => Err(AllocError),
            Err(BadLine::NoForm) => Ok(Answer::Bad),
        }
    }

    /// The answer to a proposal: who does not stand, and whose seed is not at hand, endorses
    /// nothing.
    fn endorse(
        &self,
        chain: &KeptChain,
        agreed: bool,
        proposal: &Proposal,
    ) -> Result<Answer, AllocError>
        requires { IsKept chain.now }
        ensures { IfOk result
            (λ a. answer_text a
            ≡ called_words self.now.log.now.genesis (org_of self.now.org) agreed proposal.now
            (chain_of chain.now)) }
    {
        let Some(org) = self.org else {
            return Ok(Answer::Refused(CallRefusal::Stranger));
        };
        let genesis = &self.log.genesis;
        let state = chain.map();
        match place_in(self.alloc, genesis, state, org)? {
            Place::Stranger => Ok(Answer::Refused(CallRefusal::Stranger)),
            Place::Keyless => Ok(Answer::Refused(CallRefusal::Keyless)),
            Place::Stands => endorsed_or_not(self.alloc, genesis, state, org, agreed, proposal),
        }
    }

    /// The answer to a question, which these words spell, if they do.
    fn question<B: Blocks>(&self, blocks: &B, words: &str) -> Result<Answer, AllocError>
        requires { B.IsSound blocks.now }
        ensures { IfOk result
            (λ a. IsAnswered B.keeps self.now.log.now.genesis (B.chain blocks.now) words.now
            (answer_text a)) }
    {
        match read_question(self.alloc, words) {
            Ok(question) => reply_to(self.alloc, &self.log.genesis, blocks, &question),
            Err(BadLine::Memory) => Err(AllocError),
            Err(BadLine::NoForm) => Ok(Answer::Bad),
        }
    }

    /// What the organisation says of its block whose number these words spell, if they do.
    fn seen(&self, chain: &KeptChain, words: &str) -> Result<Answer, AllocError>
        requires { IsKept chain.now }
        ensures { IfOk result
            (λ a. IsSighted self.now.log.now (org_of self.now.org) (chain_of chain.now) words.now
            (answer_text a)) }
    {
        let Some(org) = self.org else {
            return Ok(Answer::Refused(CallRefusal::Stranger));
        };
        let Some(number) = number_in(words) else {
            return Ok(Answer::Bad);
        };
        match chain.hash(number) {
            Some(hash) => seen_by(self.alloc, self.log, chain.map(), org, number, &hash),
            None => Ok(Answer::Bad),
        }
    }
}

/// The answer to a question, or which block is not read back for it.
fn reply_to<B: Blocks>(
    alloc: Global,
    genesis: &Genesis,
    blocks: &B,
    question: &Question,
) -> Result<Answer, AllocError>
    requires { B.IsSound blocks.now }
    ensures { IfOk result
        (λ a. IsReply B.keeps genesis.now question.now (B.chain blocks.now) (answer_text a)) }
{
    match answer_text(alloc, genesis, blocks, question) {
        Ok(text) => Ok(Answer::Json(text)),
        Err(fault) => lost_answer(fault),
    }
}

/// The answer where a block is not read back.
fn lost_answer(fault: BlockFault) -> Result<Answer, AllocError>
    ensures { IfOk result (λ a. (¬ IsOfMemory fault) × IsLost (answer_text a)) }
{
    match fault {
        BlockFault::Memory => Err(AllocError),
        BlockFault::Device | BlockFault::Damaged(_) => Ok(Answer::Lost(fault)),
    }
}

/// Whether an organisation can endorse in a state. The only error is want of memory.
pub fn place_in(
    alloc: Global,
    genesis: &Genesis,
    state: &StateMap,
    org: &OrgName,
) -> Result<Place, AllocError>
    ensures { IfOk result
        (λ place. place
        ≡ place_among genesis.now.signers.value
        (orgs_in genesis.now.rules.value state.now.entries) org.now) }
{
    let standing = Standing::in_state(alloc, &genesis.rules, state)?;
    Ok(find_place(&genesis.signers, &standing, org))
}

/// The answer to a proposal of an organisation that stands: an amendment is not looked at where it
/// has not agreed to it.
fn endorsed_or_not(
    alloc: Global,
    genesis: &Genesis,
    state: &StateMap,
    org: &OrgName,
    agreed: bool,
    proposal: &Proposal,
) -> Result<Answer, AllocError>
    ensures { IfOk result
        (λ a. answer_text a
        ≡ standing_words (is_passed_over agreed proposal.now)
        (endorsed_in (endorses_by genesis.now org.now) proposal.now
        (as_state state.now.entries))) }
{
    if is_passed_over(agreed, proposal) {
        return Ok(Answer::Refused(CallRefusal::NotAgreed));
    }
    match endorsed(alloc, genesis, state, org, proposal) {
        Ok((payload, endorsement)) => endorsed_answer(alloc, &payload, &endorsement),
        Err(SimRefusal::Memory) => Err(AllocError),
        Err(refusal) => Ok(Answer::Refused(CallRefusal::Simulation(refusal))),
    }
}

/// Whether a proposal is an amendment to which an organisation does not agree.
pub(crate) fn is_passed_over(agrees: bool, proposal: &Proposal) -> bool
    ensures { result ≡ is_passed_over agrees proposal.now }
{
    match proposal {
        Proposal::Call(_) | Proposal::Upgrade(_) => false,
        Proposal::Amend(_) => !agrees,
    }
}

/// Simulates a proposal on a state, and endorses the payload.
///
/// Refused as the simulation is (401 to 404, 406 to 408), and for want of memory (9).
fn endorsed(
    alloc: Global,
    genesis: &Genesis,
    state: &StateMap,
    org: &OrgName,
    proposal: &Proposal,
) -> Result<(Payload, Endorsement), SimRefusal>
    ensures { Answers (endorsed_in (endorses_by genesis.now org.now) proposal.now
        (as_state state.now.entries)) result }
{
    let (rules, signers) = (&*genesis.rules, &*genesis.signers);
    let payload = simulate_in(alloc, &genesis.book, state, proposal)?;
    let endorsement = seal_in(alloc, rules, signers, state, org, &payload)?;
    Ok((payload, endorsement))
}

/// The bytes of a payload and of an endorsement, as they stand in an envelope.
fn endorsed_answer(
    alloc: Global,
    payload: &Payload,
    endorsement: &Endorsement,
) -> Result<Answer, AllocError>
    ensures { IfOk result
        (λ a. answer_text a ≡ endorsed_words (Ok (payload.now, endorsement.now))) }
{
    let mut bytes = Vec::new(alloc);
    endorsement.write(&mut bytes)?;
    Ok(Answer::Endorsed {
        payload: hex::encode(alloc, payload.bytes())?,
        endorsement: hex::encode(alloc, &bytes)?,
    })
}

/// What an organisation says of its block of a number: which hash the header has, signed by the key
/// with which it stands in a state.
fn seen_by(
    alloc: Global,
    log: &LogGenesis,
    state: &StateMap,
    org: &OrgName,
    number: u32,
    hash: &[u8; 32],
) -> Result<Answer, AllocError>
    ensures { IfOk result
        (λ a. answer_text a
        ≡ seen_at log.now org.now (orgs_in log.now.genesis.rules.value state.now.entries) number
        hash.now) }
{
    let standing = Standing::in_state(alloc, &log.genesis.rules, state)?;
    let signed = seen_bytes(alloc, &log.digest, number, hash)?;
    let tag = tag_of(&standing, &log.genesis.signers, org, &signed);
    said_by(alloc, org, number, hash, tag)
}

/// That an organisation says that the header of its block has this hash, and what it put on that,
/// where that is a signature.
fn said_by(
    alloc: Global,
    org: &OrgName,
    number: u32,
    hash: &[u8; 32],
    tag: Tag,
) -> Result<Answer, AllocError>
    ensures { IfOk result (λ a. answer_text a ≡ said_words org.now number hash.now tag) }
{
    let signature = match tag {
        Tag::Hmac(_) => None,
        Tag::Ed25519(signature) => Some(hex::encode(alloc, &signature)?),
    };
    Ok(Answer::Seen {
        org: String::from_utf8_lossy(alloc, org.as_slice())?,
        number,
        hash: hex::encode(alloc, hash)?,
        signature,
    })
}

/// What the seeds at hand put on some bytes for an organisation, by the key with which it stands.
pub(crate) fn tag_of(standing: &Standing<'_>, signers: &Signers, org: &OrgName, bytes: &[u8]) -> Tag
    ensures { result ≡ tag_for signers.now (key_of standing.now.orgs org.now) bytes.now }
{
    let key = match standing.organisation(org) {
        Some(organisation) => Some(&organisation.key),
        None => None,
    };
    signers.tag(key, bytes)
}
