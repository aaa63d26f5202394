//! Seats at work, from the opening of their peer to its end.

ghost use Rattle.std.specs.Prelude.{◌≡◌, ℕ, ◌<◌, ◌+◌, ◌*◌, ◌^◌, [], length, All, IfOk, IfErr, false};
ghost use Rattle.std.specs.Arc.{arc_value};
ghost use Rattle.ledger_model.specs.Chain.{Chain, history};
ghost use Rattle.ledger_model.specs.Judged.{judged_chain};
ghost use Rattle.ledger_model.specs.Serial.{AllHandedOut};
ghost use Rattle.simulator.specs.Execution.{exec_of};
ghost use Rattle.wire.specs.Links.{AreLinked};
ghost use Rattle.intake.specs.Mail.{receiver};
ghost use Rattle.intake.specs.Seats.{knows};
ghost use Rattle.ledger_setting.specs.Rule.{table_of};
ghost use Rattle.ledger_setting.specs.declared.verdict.Audit.TheVariants.{Agrees};
ghost use Rattle.ledger_setting.specs.Limits.{limits_of};
ghost use Rattle.peer_node.specs.Seats.{IsSeat};
ghost use Rattle.peer_node.specs.Writers.{rules_of};
ghost use Rattle.fabric_core.specs.Audit.{AuditSays, valid_count};
ghost use Rattle.seat_threads.specs.Desks.{IsInStep, IsAtWork, home_of};
ghost use Rattle.seat_threads.specs.Reports.{task_of, counts_told, TellsOfSeats, IsSeatsRefused, IsOpeningRefused, IsWorkRefused, IsCountRefused};
ghost use Rattle.seat_threads.specs.Work.{Task, Home, AreSenders, AreWorkersOf};

use crate::counts::Counts;
use crate::crew::Crew;
use crate::desk::{Desk, take_until_ended};
use crate::refusal::SeatsRefusal;
use crate::worker::Worker;
use fab_types::Name;
use fabric_core::{Audit, audit};
use intake::{Intake, SenderSeat};
use ledger_setting::Genesis;
use orderer::Orderer;
use peer_node::{Peer, Seat};
use std::alloc::{AllocError, Global};
use std::sync::Wait;
use std::thread::Threads;

/// What came of the work of seats.
#[derive(Clone, Copy, Debug, PartialEq, Eq)]
pub struct Report {
    /// How many rounds were endorsed.
    pub endorsed: u64,
    /// How many rounds were refused by the chaincode or were stale (401 to 405).
    pub refused: u64,
    /// How many endorsed envelopes the orderer refused (421 and 422), so that they are in no block.
    pub missing: u64,
    /// How many blocks the peer committed.
    pub blocks: usize,
    /// What the audit of their chain says.
    pub audit: Audit,
}

/// Lets each seat of a genesis's first peer work on a thread of its own.
///
/// A seat endorses so many proposals without argument, whose nonces are the numbers of the seat and
/// of the round, 8 bytes each, the highest byte first. It submits each envelope to an intake with
/// as many places as the genesis's queue, again while that is full. This thread takes what was
/// submitted, orders it, and commits each block as it comes, until all seats have ended and nothing
/// is left; then it ticks once. So each envelope is ordered once, those of a seat in the order of
/// its rounds, but for those that the orderer refuses, as too large or for want of a number: they
/// are dropped and counted as missing. Where the tick would need a number past the last one, what
/// waits stays without a block.
///
/// Each round of a seat sees a list of whole blocks that begins with what the round before saw. All
/// these lists and the peer's chain begin one list, and so the audit of the chain agrees.
///
/// Refused for want of memory or of a thread (9), where a seat got no place in the cell as the peer
/// was opened (431; no contract says when that is), and where a round of a seat was given no entry
/// (432). Where no further thread can be made, the seats that have one work to their end, and what
/// they submitted is ordered and committed.
pub fn run_seats<R: Threads + Wait + Sync + Send + Copy + 'static>(
    rt: &R,
    alloc: Global,
    genesis: &Genesis,
    chaincode: &Name,
    rounds: u32,
) -> Result<Report, SeatsRefusal>
    ensures counted { IfOk result (λ r. r.endorsed + r.refused ≡ genesis.now.seats * rounds) }
    ensures tells { IfOk result
        (TellsOfSeats (task_of genesis.now chaincode.now rounds) genesis.now.seats
        genesis.now.reorder (limits_of genesis.now)) }
    ensures refused { IfErr result
        (IsSeatsRefused (task_of genesis.now chaincode.now rounds) genesis.now.seats) }
{
    let (mut workers, mut desk) = opened(rt, alloc, genesis, chaincode)?;
    let report = at_work(rt, alloc, genesis, rounds, &mut workers, &mut desk);
    drop(workers);
    desk.close(rt);
    report
}

/// The workers and the desk of a genesis's first peer.
fn opened<R: Threads + Wait + Sync>(
    rt: &R,
    alloc: Global,
    genesis: &Genesis,
    chaincode: &Name,
) -> Result<(Vec<Worker>, Desk), SeatsRefusal>
    ensures count { IfOk result (λ t. length t.0.items ≡ genesis.now.seats) }
    ensures workers { IfOk result
        (λ t. (rounds : ℕ) → AreWorkersOf (task_of genesis.now chaincode.now rounds)
        (home_of t.1) genesis.now.seats t.0.items) }
    ensures receiver { IfOk result
        (λ t. knows t.1.receiver ≡ receiver genesis.now.seats genesis.now.seats [] []) }
    ensures work { IfOk result (λ t. IsAtWork t.1) }
    ensures ordering { IfOk result
        (λ t. (t.1.orderer.reorder ≡ genesis.now.reorder) ×
        (t.1.orderer.limits ≡ limits_of genesis.now) ×
        (t.1.orderer.edition ≡ (arc_value genesis.now.rules).edition)) }
    ensures rules { IfOk result
        (λ t. arc_value (rules_of t.1.writer) ≡ arc_value genesis.now.rules) }
    ensures refused { IfErr result IsOpeningRefused }
{
    let (senders, receiver) = Intake::open(alloc, genesis.queue, genesis.seats)?;
    let (writer, seats) = Peer::open(rt, alloc, genesis, &genesis.peers[0], genesis.seats)?;
    let desk = Desk::new(receiver, orderer(alloc, genesis), writer);
    match workers(alloc, chaincode, seats, senders) {
        Ok(workers) => Ok((workers, desk)),
        Err(error) => {
            desk.close(rt);
            Err(SeatsRefusal::from(error))
        }
    }
}

/// The orderer of a genesis, without blocks.
fn orderer(alloc: Global, genesis: &Genesis) -> Orderer
    ensures { result
        ≡ record {
          edition = (arc_value genesis.now.rules).edition;
          reorder = genesis.now.reorder;
          limits = limits_of genesis.now;
          pending = [];
          chain = [];
        } }
{
    Orderer::with_edition(
        alloc,
        genesis.rules.edition(),
        genesis.count,
        genesis.preferred,
        genesis.absolute,
        genesis.reorder,
    )
}

/// A worker on each seat, that of the first seat last. The error is of memory.
fn workers(
    alloc: Global,
    chaincode: &Name,
    mut seats: Vec<Seat>,
    mut senders: Vec<SenderSeat>,
) -> Result<Vec<Worker>, AllocError>
    requires { length seats.items ≡ length senders.items }
    ensures length { IfOk result (λ v. length v.items ≡ length senders.items) }
    ensures each { IfOk result
        (λ v. (task : Task) (home : Home) → task.chaincode ≡ chaincode.now →
        All (IsSeat task.endorsing home.peer) seats.items →
        AreSenders home.intake senders.items →
        AreWorkersOf task home (length senders.items) v.items) }
{
    let mut workers = Vec::with_capacity(alloc, seats.len())?;
    for _worker in 0..seats.len() {
        let called = chaincode.clone()?;
        let seat = seats.take_last();
        let sender = senders.take_last();
        let number = senders.len() as u64;
        workers.push_reserved(Worker {
            alloc,
            number,
            chaincode: called,
            seat,
            sender,
            counts: Counts::none(),
        });
    }
    Ok(workers)
}

/// Lets the workers work, each on a thread of its own, while this thread takes, orders and commits
/// what they submit. Where a thread is refused, those that were started work to their end.
fn at_work<R: Threads + Wait + Sync + Send + Copy + 'static>(
    rt: &R,
    alloc: Global,
    genesis: &Genesis,
    rounds: u32,
    workers: &mut Vec<Worker>,
    desk: &mut Desk,
) -> Result<Report, SeatsRefusal>
    requires count { length workers.old.items < 2 ^ 32 }
    requires work { IsAtWork desk.old }
    requires receiver { knows desk.old.receiver
        ≡ receiver (length workers.old.items) (length workers.old.items) [] [] }
    requires workers { (task : Task) × (rounds ≡ task.rounds) ×
        AreWorkersOf task (home_of desk.old) (length workers.old.items) workers.old.items }
    ensures counted { IfOk result
        (λ r. r.endorsed + r.refused ≡ length workers.old.items * rounds) }
    ensures tells { IfOk result
        (λ r. (task : Task) → rounds ≡ task.rounds →
        task.endorsing.book ≡ arc_value genesis.now.book →
        task.endorsing.listed ≡ arc_value genesis.now.rules →
        task.endorsing.listed ≡ arc_value (rules_of desk.old.writer) →
        desk.old.orderer.edition ≡ task.endorsing.listed.edition →
        AreWorkersOf task (home_of desk.old) (length workers.old.items) workers.old.items →
        TellsOfSeats task (length workers.old.items) desk.old.orderer.reorder
        desk.old.orderer.limits r) }
    ensures refused { IfErr result
        (λ r. (task : Task) → rounds ≡ task.rounds →
        AreWorkersOf task (home_of desk.old) (length workers.old.items) workers.old.items →
        IsWorkRefused task (length workers.old.items) r) }
{
    let mut crew = Crew::new(alloc, workers.len())?;
    let started = crew.start_all(rt, workers, rounds);
    take_until_ended(rt, &crew.ended, crew.threads.len() as u64, desk);
    let (counts, mut seen) = crew.retire(rt, desk);
    desk.take_rest(rt);
    desk.tick(rt);
    // For the proof alone: what the seats saw and what was committed begin one list.
    seen.learn(&desk.writer.told());
    started?;
    reported(alloc, genesis, desk, counts)
}

/// What the counts and the committed chain come to.
fn reported(
    alloc: Global,
    genesis: &Genesis,
    desk: &Desk,
    counts: Counts,
) -> Result<Report, SeatsRefusal>
    requires { IsInStep desk.now }
    ensures counted { IfOk result (λ r. counts_told r ≡ counts) }
    ensures starved { IfOk result (λ _. desk.now.starved ≡ false) }
    ensures missing { IfOk result (λ r. r.missing ≡ desk.now.missing) }
    ensures chain { IfOk result
        (λ r. AreLinked [] desk.now.orderer.chain × (r.blocks ≡ length desk.now.orderer.chain) ×
        AuditSays (exec_of (arc_value genesis.now.book))
        (judged_chain (table_of (arc_value (rules_of desk.now.writer))) desk.now.orderer.chain)
        r.audit) }
    // It agrees where each VALID payload was handed out, by the genesis's rules.
    ensures honest { IfOk result
        (λ r. (chain : Chain) →
        chain ≡ judged_chain (table_of (arc_value genesis.now.rules)) desk.now.orderer.chain →
        arc_value (rules_of desk.now.writer) ≡ arc_value genesis.now.rules →
        AllHandedOut (exec_of (arc_value genesis.now.book)) chain (history chain) →
        r.audit ≡ Agrees (valid_count (history chain))) }
    ensures refused { IfErr result (IsCountRefused counts) }
{
    if let Some(refusal) = counts.refusal() {
        return Err(refusal);
    }
    if desk.starved {
        return Err(SeatsRefusal::Memory);
    }
    let blocks = desk.orderer.blocks().len();
    let audit = audit(alloc, genesis, desk.writer.newest())?;
    Ok(Report {
        endorsed: counts.endorsed,
        refused: counts.refused,
        missing: desk.missing,
        blocks,
        audit,
    })
}
