//! Checks by several threads.

ghost use Rattle.std.specs.Prelude.{◌≡◌, ℕ, ◌+◌, ◌*◌, ◌≤◌, ◌<◌, IfOk, length, map, slice_index_or};
ghost use Rattle.ledger_model.specs.Chain.{history};
ghost use Rattle.ledger_model.specs.State.{state};
ghost use Rattle.endorsement_policy.specs.Endorsed.{is_endorsed};
ghost use Rattle.endorsement_policy.specs.Judge.{judges};
ghost use Rattle.endorsement_policy.specs.Shares.{IsShare};
ghost use Rattle.world_state.specs.Writing.{as_state};

use crate::judge::Judge;
use crate::rules::Rules;
use crate::workers::Workers;
use fab_types::Envelope;
use std::alloc::{AllocError, Global};
use std::thread;
use std::thread::Threads;
use world_state::{Snapshot, StateMap};

/// What is called round each check of an envelope, by the thread that makes it.
pub trait Gate: Sync {
    /// Called before the envelope at this place is checked.
    fn before(&self, index: usize);

    /// Called once the envelope at this place is checked.
    fn after(&self, index: usize);
}

/// For each envelope whether it is endorsed, by workers at once, no more than there are envelopes:
/// the same as `check_plain` for every number of them. Worker `w` of `n` checks the envelopes at
/// the places `w`, `w + n`, `w + 2n` and so on, in this order. The caller is one of the workers,
/// and does the checks of one that cannot be started. The only error is want of memory.
pub fn check_all<R: Threads + Sync, G: Gate>(
    workers: &Workers<'_, R>,
    alloc: Global,
    rules: &Rules,
    snapshot: &Snapshot,
    envelopes: &[Envelope],
    gate: &G,
) -> Result<Vec<bool>, AllocError>
    ensures { IfOk result (λ v. v.items
        ≡ map (is_endorsed rules.now (state (history snapshot.now)))
        envelopes.now) }
{
    check_all_in(workers, alloc, rules, snapshot.map(), envelopes, gate)
}

/// The same in a state.
pub fn check_all_in<R: Threads + Sync, G: Gate>(
    workers: &Workers<'_, R>,
    alloc: Global,
    rules: &Rules,
    state: &StateMap,
    envelopes: &[Envelope],
    gate: &G,
) -> Result<Vec<bool>, AllocError>
    ensures { IfOk result (λ v. v.items
        ≡ map (is_endorsed rules.now (as_state state.now.entries)) envelopes.now) }
{
    let rt = workers.rt();
    let count = workers.count().min(envelopes.len().max(1));
    let judge = Judge::new(alloc, rules, state, envelopes)?;
    let answers = check_by(rt, alloc, &judge, envelopes, count, gate);
    drop(judge);
    answers
}

/// The same with a judge whom the workers share.
fn check_by<R: Threads + Sync, G: Gate>(
    rt: &R,
    alloc: Global,
    judge: &Judge<'_>,
    envelopes: &[Envelope],
    workers: usize,
    gate: &G,
) -> Result<Vec<bool>, AllocError>
    requires least { 1 ≤ workers }
    requires greatest { workers ≤ 16 }
    ensures { IfOk result (λ v. v.items ≡ map (judges judge.now) envelopes.now) }
{
    let shares = thread::map_indices(
        rt,
        alloc,
        workers,
        &|worker: usize| -> Result<Vec<bool>, AllocError>
            requires { (worker < workers) × (1 ≤ workers) × (workers ≤ 16) }
            ensures { IfOk result
                (λ v. IsShare (map (judges judge.entry.now) envelopes.entry.now) worker workers
                v.items) }
        { check_share(alloc, judge, envelopes, worker, workers, gate) },
    )?;
    gather(alloc, judge, envelopes, &shares)
}

/// The answers of one worker: for the envelopes whose places are its number modulo the number of
/// workers, in their order.
fn check_share<G: Gate>(
    alloc: Global,
    judge: &Judge<'_>,
    envelopes: &[Envelope],
    worker: usize,
    workers: usize,
    gate: &G,
) -> Result<Vec<bool>, AllocError>
    requires worker { worker < workers }
    requires workers { workers ≤ 16 }
    ensures share { IfOk result
        (λ v. IsShare (map (judges judge.now) envelopes.now) worker workers v.items) }
    ensures no_others { IfOk result
        (λ v. (turn : ℕ) → turn < length v.items → worker + workers * turn < length envelopes.now) }
{
    let mut answers = Vec::new(alloc);
    let mut index = worker;
    while index < envelopes.len() {
        gate.before(index);
        let answer = judge.is_endorsed(alloc, &envelopes[index], None);
        gate.after(index);
        answers.push(answer?)?;
        index += workers;
    }
    Ok(answers)
}

/// The workers' answers by the envelopes' places.
fn gather(
    alloc: Global,
    judge: &Judge<'_>,
    envelopes: &[Envelope],
    shares: &[Result<Vec<bool>, AllocError>],
) -> Result<Vec<bool>, AllocError>
    requires least { 1 ≤ length shares.now }
    requires shares { (worker : ℕ) (none : _) → worker < length shares.now →
        IfOk (slice_index_or shares.now worker none)
        (λ v. IsShare (map (judges judge.now) envelopes.now) worker (length shares.now)
        v.items) }
    ensures { IfOk result (λ v. v.items ≡ map (judges judge.now) envelopes.now) }
{
    let mut answers = Vec::with_capacity(alloc, envelopes.len())?;
    for index in 0..envelopes.len() {
        match &shares[index % shares.len()] {
            Ok(share) => answers.push(share[index / shares.len()])?,
            Err(error) => return Err(*error),
        }
    }
    Ok(answers)
}
