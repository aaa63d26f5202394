//! Workers on threads of their own.

ghost use Rattle.std.specs.Prelude.{◌≡◌, ◌<◌, ◌≤◌, ◌+◌, ◌^◌, [], length, vec_capacity, IfOk, OnOk};
ghost use Rattle.intake.specs.Seats.{knows};
ghost use Rattle.snapshot_cell.specs.Seats.{cell_of_told, told_list};
ghost use Rattle.peer_node.specs.Writers.{peer_of_writer};
ghost use Rattle.seat_threads.specs.Desks.{IsAtWork, IsSameDesk, home_of};
ghost use Rattle.seat_threads.specs.Work.{Task, Home, Works, IsWorkerOf, AreWorkersOf, AllPromise, HasRetired};

use crate::counts::Counts;
use crate::desk::Desk;
use crate::worker::Worker;
use peer_node::Told;
use std::alloc::{AllocError, Global};
use std::snapshot::Snapshot;
use std::sync::atomic::AtomicU64;
use std::sync::{Arc, Wait};
use std::thread::{self, Promise, PromisedHandle, Threads};

/// What a thread promises: this worker after so many rounds.
#[derive(Drop)]
pub struct Rounds {
    pub worker: Snapshot<Worker>,
    pub rounds: u32,
}

impl Promise<Worker> for Rounds {
    ghost kept_by = { λ p w. Works p.rounds p.worker.value w };
}

/// The threads that were started, and how many of their workers have ended. It is ended by
/// `retire`.
pub struct Crew {
    pub threads: Vec<PromisedHandle<Worker, Rounds>>,
    pub ended: Arc<AtomicU64>,
}

impl Crew {
    /// No threads, with room for so many.
    pub fn new(alloc: Global, size: usize) -> Result<Crew, AllocError>
        ensures none { IfOk result (λ c. c.threads.items ≡ []) }
        ensures room { IfOk result (λ c. size ≤ vec_capacity c.threads) }
    {
        let ended = Arc::new(alloc, AtomicU64::new(0))?;
        let threads = Vec::with_capacity(alloc, size)?;
        Ok(Crew { threads, ended })
    }

    /// Starts a thread for each worker, from the first seat on. Where memory or a thread is
    /// refused, no further ones are started: a worker whose thread was refused is dropped, and the
    /// others without one are left.
    pub fn start_all<R: Threads + Wait + Send + Copy + 'static>(
        &mut self,
        rt: &R,
        workers: &mut Vec<Worker>,
        rounds: u32,
    ) -> Result<(), AllocError>
        requires none { self.old.threads.items ≡ [] }
        requires room { length workers.old.items ≤ vec_capacity self.old.threads }
        ensures each { (task : Task) (home : Home) → rounds ≡ task.rounds →
            AreWorkersOf task home (length workers.old.items) workers.old.items →
            AllPromise task home self.new.threads.items }
        ensures all { OnOk result (length self.new.threads.items ≡ length workers.old.items) }
        ensures most { length self.new.threads.items ≤ length workers.old.items }
    {
        for _started in 0..workers.len() {
            let ended = Arc::try_clone(&self.ended)?;
            self.start(rt, workers.take_last(), rounds, ended)?;
        }
        Ok(())
    }

    /// Starts a thread for a worker, which is dropped where that is refused.
    fn start<R: Threads + Wait + Send + Copy + 'static>(
        &mut self,
        rt: &R,
        worker: Worker,
        rounds: u32,
        ended: Arc<AtomicU64>,
    ) -> Result<(), AllocError>
        requires { length self.old.threads.items < vec_capacity self.old.threads }
        ensures each { (task : Task) (home : Home) → rounds ≡ task.rounds →
            IsWorkerOf task home (length self.old.threads.items) worker →
            AllPromise task home self.old.threads.items →
            AllPromise task home self.new.threads.items }
        ensures one { OnOk result
            (length self.new.threads.items ≡ length self.old.threads.items + 1) }
        ensures most { length self.new.threads.items ≤ length self.old.threads.items + 1 }
        ensures room { vec_capacity self.old.threads ≤ vec_capacity self.new.threads }
    {
        let promise = Rounds {
            worker: Snapshot::of(&worker),
            rounds,
        };
        let thread = thread_of(rt, worker, promise, ended)?;
        self.threads.push_reserved(thread);
        Ok(())
    }

    /// Joins the threads, takes in the seats of their workers, adds up what they counted, and tells
    /// of the longest list that one of them or the peer has seen.
    pub fn retire<R: Threads>(self, rt: &R, desk: &mut Desk) -> (Counts, Told)
        requires work { IsAtWork desk.old }
        requires each { (task : Task) × (task.rounds < 2 ^ 32)
            × AllPromise task (home_of desk.old) self.threads.items }
        requires count { length self.threads.items < 2 ^ 32 }
        ensures work { IsAtWork desk.new }
        ensures same { IsSameDesk desk.new desk.old }
        ensures retired { (task : Task)
            → AllPromise task (home_of desk.old) self.threads.items
            → HasRetired task (told_list result.1) (length self.threads.items) result.0
            (knows desk.old.receiver).known (knows desk.new.receiver).known }
        ensures senders { (knows desk.new.receiver).senders ≡ (knows desk.old.receiver).senders }
        ensures seen { cell_of_told result.1 ≡ peer_of_writer desk.old.writer }
    {
        let Crew {
            mut threads,
            ended: _,
        } = self;
        let mut counts = Counts::none();
        let mut seen = desk.writer.told();
        for _joined in 0..threads.len() {
            let thread = threads.take_last();
            let worker = thread.join(rt);
            counts = worker.counts.plus(counts);
            seen.learn(&worker.seat.told());
            desk.retire(worker.sender);
        }
        threads.destroy_empty();
        (counts, seen)
    }
}

/// A thread on which a worker works the rounds that are promised of it. Where none can be made, the
/// worker is dropped.
fn thread_of<R: Threads + Wait + Send + Copy + 'static>(
    rt: &R,
    worker: Worker,
    promise: Rounds,
    ended: Arc<AtomicU64>,
) -> Result<PromisedHandle<Worker, Rounds>, AllocError>
    requires { promise.worker.value ≡ worker }
    ensures { IfOk result (λ t. t.promise ≡ promise) }
{
    let there = *rt;
    let rounds = promise.rounds;
    let work = move || worker.work(&there, rounds, &ended);
    Ok(thread::spawn_with(rt, promise, work)?)
}
