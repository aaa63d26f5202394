//! The system, and its steps.

ghost use Rattle.std.specs.Prelude.{◌≡◌, ◌≤◌, [], IfErr, IfOk, OnErr, OnOk, option_map, length};
ghost use Rattle.std.specs.Option.{option_to_list};
ghost use Rattle.batch_cutter.specs.Division.{timeout};
ghost use Rattle.fab_types.specs.Editions.{last_block};
ghost use Rattle.wire.specs.Links.{AreLinked};
ghost use Rattle.orderer.specs.Ordering.{Takes, IsRefused};
ghost use Rattle.ledger_setting.specs.Limits.{limits_of};
ghost use Rattle.fabric_core.specs.System.{opening, Begin, Finish, Submit, Take, Tick, Commit, chain_of};
ghost use Rattle.simulator.specs.Execution.{exec_of};
ghost use Rattle.fabric_core.specs.Inside.{rules_of, TakesStep, KeepsRules};

use crate::checks::{Alone, Checks};
use crate::event::{Event, Reply};
use crate::peer::Peer;
use chaincode_book::Book;
use endorsement_policy::{Rules, Workers};
use fab_types::limits::LAST_BLOCK;
use fab_types::{Block, Envelope, Proposal};
use ledger_setting::Genesis;
use orderer::{BatchReport, OrderCause, Orderer};
use org_keys::Signers;
use seq::Seq;
use std::alloc::{AllocError, Global};
use std::collections::VecDeque;
use std::fmt::{self, Debug, Formatter, Write};
use std::marker::Model;
use std::sync::Arc;
use std::thread::Threads;
use world_state::Snapshot;

/// Peers, the queue, and the orderer. Contracts see the book, the rules, the seeds at hand, the
/// queue's capacity and the abstract world.
#[derive(Drop)]
pub struct System {
    alloc: Global,
    book: Arc<Book>,
    rules: Arc<Rules>,
    signers: Arc<Signers>,
    capacity: usize,
    peers: Vec<Peer>,
    queue: VecDeque<Envelope>,
    orderer: Orderer,
}

/// How many peers there are, how many envelopes wait, and the height. Shared keys and seeds are not
/// printed.
impl Debug for System {
    fn fmt<W: Write>(&self, f: &mut Formatter<W>) -> fmt::Result {
        f.debug_struct("System")
            .field("peers", &self.peers.len())
            .field("queued", &self.queue.len())
            .field("blocks", &self.orderer.blocks().len())
            .finish_non_exhaustive()
    }
}

impl Model for System {
    ghost use Rattle.fabric_core.specs.Inside.{State, world_of, IsRight};
    ghost use Rattle.chaincode_book.specs.contracts.book.Book as book_type;
    ghost use Rattle.std.specs.Coded.{codes};
    ghost use Rattle.endorsement_policy.specs.contracts.rules.Rules as listed;

    ghost Value = { State };

    ghost coded = { Prim.hlevel (codes, book_type.the_row.coded, listed.the_row.coded) };

    ghost view = { λ s.
        record {
          book = s.book.value;
          rules = s.rules.value;
          seeds = s.signers.value;
          capacity = s.capacity;
          world = world_of s.peers.items s.queue.items s.orderer;
        } };

    ghost invariant = { λ s. IsRight s.rules.value s.peers.items s.orderer.chain };
}

/// The batch that the orderer's timeout ends, or the cause why it does not end.
fn timed_out(orderer: &mut Orderer) -> Result<Option<BatchReport>, OrderCause>
    ensures taken { IfOk result
        (λ report. Takes orderer.old timeout (option_to_list report) orderer.new) }
    ensures numbers { OnOk result (length orderer.new.chain ≤ last_block orderer.old.edition) }
    ensures refused { IfErr result (λ cause. IsRefused cause orderer.old timeout) }
    ensures unchanged { OnErr result (orderer.new ≡ orderer.old) }
{
    match orderer.tick() {
        Ok(report) => Ok(report),
        Err(refusal) => {
            let cause = refusal.cause;
            drop(refusal);
            Err(cause)
        }
    }
}

impl System {
    /// The system at its opening: no blocks, free seats and an empty queue. The only error is want
    /// of memory.
    pub fn new(alloc: Global, genesis: &Genesis) -> Result<System, AllocError>
        ensures { IfOk result
            (λ s. s
            ≡ record {
              book = genesis.now.book.value;
              rules = genesis.now.rules.value;
              seeds = genesis.now.signers.value;
              capacity = genesis.now.queue;
              world = opening genesis.now.rules.value.edition genesis.now.peers.items
                  genesis.now.seats (limits_of genesis.now) genesis.now.reorder;
            }) }
    {
        let mut peers = Vec::new(alloc);
        let orgs = genesis.peers.as_slice();
        for org in orgs {
            peers.push(Peer::new(alloc, org.clone()?, genesis.seats)?)?;
        }
        Ok(System {
            alloc,
            book: genesis.book.clone()?,
            rules: genesis.rules.clone()?,
            signers: genesis.signers.clone()?,
            capacity: genesis.queue,
            peers,
            queue: VecDeque::new(alloc),
            orderer: Orderer::with_edition(
                alloc,
                genesis.rules.edition(),
                genesis.count,
                genesis.preferred,
                genesis.absolute,
                genesis.reorder,
            ),
        })
    }

    fn begin(&mut self, peer: usize, seat: usize, proposal: Proposal) -> Result<Reply, AllocError>
        ensures step { IfOk result
            (λ reply. TakesStep self.old self.new (Begin peer seat proposal) reply) }
        ensures keeps { KeepsRules self.old self.new }
        ensures unchanged { OnErr result (self.new ≡ self.old) }
    {
        if peer >= self.peers.len() {
            drop(proposal);
            return Ok(Reply::NoSuchPeer);
        }
        self.peers[peer].begin(seat, proposal)
    }

    fn finish(&mut self, peer: usize, seat: usize) -> Result<Reply, AllocError>
        ensures step { IfOk result
            (λ reply. TakesStep self.old self.new (Finish peer seat) reply) }
        ensures keeps { KeepsRules self.old self.new }
        ensures unchanged { OnErr result (self.new ≡ self.old) }
    {
        if peer >= self.peers.len() {
            return Ok(Reply::NoSuchPeer);
        }
        self.peers[peer].finish(self.alloc, &*self.book, &*self.rules, &*self.signers, seat)
    }

    fn submit(&mut self, envelope: Envelope) -> Result<Reply, AllocError>
        ensures step { IfOk result
            (λ reply. TakesStep self.old self.new (Submit envelope) reply) }
        ensures keeps { KeepsRules self.old self.new }
        ensures unchanged { OnErr result (self.new ≡ self.old) }
    {
        if self.queue.len() >= self.capacity {
            drop(envelope);
            return Ok(Reply::QueueFull);
        }
        self.queue.push_back(envelope)?;
        Ok(Reply::Queued)
    }

    fn take(&mut self) -> Result<Reply, AllocError>
        ensures step { IfOk result
            (λ reply. TakesStep self.old self.new Take reply) }
        ensures keeps { KeepsRules self.old self.new }
        ensures unchanged { OnErr result (self.new ≡ self.old) }
    {
        let Some(envelope) = self.queue.pop_front() else {
            return Ok(Reply::Nothing);
        };
        match self.orderer.accept(envelope) {
            Ok(reports) => Ok(Reply::Ordered(Seq::new(reports))),
            Err(refusal) => {
                let envelope = refusal.envelope.unwrap();
                match refusal.cause {
                    OrderCause::TooLarge => Ok(Reply::TooLarge(envelope)),
                    OrderCause::NoNumber => Ok(Reply::NoBlockLeft(Some(envelope))),
                    OrderCause::Memory => {
                        self.queue.push_front_reserved(envelope);
                        Err(AllocError)
                    }
                }
            }
        }
    }

    fn tick(&mut self) -> Result<Reply, AllocError>
        ensures step { IfOk result
            (λ reply. TakesStep self.old self.new Tick reply) }
        ensures keeps { KeepsRules self.old self.new }
        ensures unchanged { OnErr result (self.new ≡ self.old) }
    {
        match timed_out(&mut self.orderer) {
            Ok(None) => Ok(Reply::Nothing),
            Ok(Some(report)) => Ok(Reply::Cut(report)),
            Err(cause) => match cause {
                OrderCause::NoNumber => Ok(Reply::NoBlockLeft(None)),
                // Of memory: a timeout is never too large.
                OrderCause::TooLarge | OrderCause::Memory => Err(AllocError),
            },
        }
    }

    fn commit<C: Checks>(&mut self, checks: &C, peer: usize) -> Result<Reply, AllocError>
        requires { C.ready checks.now }
        ensures step { IfOk result
            (λ reply. TakesStep self.old self.new (Commit peer) reply) }
        ensures keeps { KeepsRules self.old self.new }
        ensures unchanged { OnErr result (self.new ≡ self.old) }
    {
        if peer >= self.peers.len() {
            return Ok(Reply::NoSuchPeer);
        }
        let height = self.peers[peer].snapshot.height();
        let blocks = self.orderer.blocks();
        if height >= blocks.len() {
            return Ok(Reply::Nothing);
        }
        let block = blocks[height].clone()?;
        self.peers[peer].commit(checks, self.alloc, &*self.rules, block)
    }

    /// One step. Where memory is refused, nothing changes, and there was no step.
    pub fn step(&mut self, event: Event) -> Result<Reply, AllocError>
        ensures step { IfOk result
            (λ reply. TakesStep self.old self.new event reply) }
        ensures keeps { KeepsRules self.old self.new }
        ensures unchanged { OnErr result (self.new ≡ self.old) }
    {
        self.step_with(&Alone, event)
    }

    /// The same step, where the envelopes of a block that a peer commits are checked by workers at
    /// once.
    pub fn step_by_workers<T: Threads + Sync>(
        &mut self,
        workers: &Workers<'_, T>,
        event: Event,
    ) -> Result<Reply, AllocError>
        ensures step { IfOk result
            (λ reply. TakesStep self.old self.new event reply) }
        ensures keeps { KeepsRules self.old self.new }
        ensures unchanged { OnErr result (self.new ≡ self.old) }
    {
        self.step_with(workers, event)
    }

    fn step_with<C: Checks>(&mut self, checks: &C, event: Event) -> Result<Reply, AllocError>
        requires { C.ready checks.now }
        ensures step { IfOk result
            (λ reply. TakesStep self.old self.new event reply) }
        ensures keeps { KeepsRules self.old self.new }
        ensures unchanged { OnErr result (self.new ≡ self.old) }
    {
        match event {
            Event::Begin {
                peer,
                seat,
                proposal,
            } => self.begin(peer, seat, proposal),
            Event::Finish { peer, seat } => self.finish(peer, seat),
            Event::Submit(envelope) => self.submit(envelope),
            Event::Take => self.take(),
            Event::Tick => self.tick(),
            Event::Commit { peer } => self.commit(checks, peer),
        }
    }

    /// The orderer's blocks. Each has the next header after those before it.
    pub fn blocks(&self) -> &[Block]
        ensures all { result.now ≡ self.now.world.orderer.chain }
        ensures linked { AreLinked [] self.now.world.orderer.chain }
        ensures count { length self.now.world.orderer.chain ≤ LAST_BLOCK }
    {
        self.orderer.blocks()
    }

    /// The newest snapshot of a peer: its chain, with the flags that the rule gives. None where
    /// there is no such peer. It takes no memory.
    pub fn snapshot(&self, peer: usize) -> Option<&Snapshot>
        ensures { option_map (λ s. s.now) result
            ≡ chain_of
            (rules_of (exec_of self.now.book) self.now.rules self.now.seeds self.now.capacity)
            self.now.world peer }
    {
        match self.peers.get(peer) {
            Some(peer) => Some(&*peer.snapshot),
            None => None,
        }
    }
}
