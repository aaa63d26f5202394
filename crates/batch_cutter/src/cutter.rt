//! The cutter.

ghost use Rattle.std.specs.Prelude.{◌≡◌, ℕ, ◌+◌, ◌-◌, ◌^◌, ◌<◌, ◌≤◌, List, [], ◌∷◌, ◌++◌, length, map, IfOk, IfErr, OnOk, OnErr, MatchOption, MatchResult};
ghost use Rattle.std.specs.List.{sum_by};
ghost use Rattle.batch_cutter.specs.Division.{State, message, timeout, IsPending, IsDivision};
ghost use Rattle.batch_cutter.specs.Offers.{IsCause, Offers, Times, batch_of, IsAfterOffer, IsAfterTimeout};

use crate::cut::{Cause, Cut, Offered, Weigh};
use std::alloc::Global;
use std::marker::Model;
use std::mem;

/// Cuts messages into batches, by their count, their sizes and timeouts.
///
/// A message above the preferred size is a batch alone, after one of the messages that wait, if
/// there are any. A message that would take those that wait above the preferred size waits after a
/// batch of them. A batch with the greatest count is cut at once, and a timeout cuts what waits.
#[derive(Drop)]
pub struct Cutter<M: Weigh> {
    /// The messages that wait.
    pending: Vec<M>,
    /// Their sizes together, in bytes.
    size: usize,
    /// The greatest count of messages in a batch.
    count: usize,
    /// The greatest size of a batch of several messages, in bytes.
    preferred: usize,
    /// The greatest size of a message, in bytes.
    absolute: usize,
    alloc: Global,
}

impl<M: Weigh> Model for Cutter<M> {
    ghost use Rattle.std.specs.Prelude.{◌≡◌, ◌<◌, ◌≤◌, length};
    ghost use Rattle.std.specs.List.{sum_by};
    ghost use Rattle.batch_cutter.specs.Division.{State};

    ghost Value = { State M };

    ghost view = { λ c. record {
      limits = record { count = c.count; preferred = c.preferred; absolute = c.absolute };
      pending = c.pending.items;
    } };

    ghost invariant = { λ c. (length c.pending.items < c.count) ×
        (sum_by M.weight c.pending.items ≡ c.size) × (c.size ≤ c.preferred) };
}

impl<M: Weigh + Drop> Cutter<M> {
    /// A cutter of batches of at most `count` messages, one at least. Messages of at most
    /// `preferred` bytes together share a batch; none above `absolute` bytes is taken. Nothing
    /// waits.
    pub fn new(alloc: Global, count: usize, preferred: usize, absolute: usize) -> Self
        requires { 0 < count }
        ensures pending { result.pending ≡ [] }
        ensures limits { result.limits
            ≡ record { count = count; preferred = preferred; absolute = absolute } }
    {
        Cutter {
            pending: Vec::new(alloc),
            size: 0,
            count,
            preferred,
            absolute,
            alloc,
        }
    }

    /// Cuts the messages that wait. None where there are none.
    pub fn timeout(&mut self) -> Option<Vec<M>>
        ensures { Times M.weight self.old (batch_of result) self.new }
    {
        if self.pending.is_empty() {
            return None;
        }
        let empty = Vec::new(self.alloc);
        self.size = 0;
        Some(mem::replace(&mut self.pending, empty))
    }

    /// Takes a message, and cuts the batches that end with it or before it.
    ///
    /// A refusal hands the message back and changes nothing. Its cause is 421 where the message is
    /// above the absolute size, or 9 where a growth of memory was refused.
    pub fn offer(&mut self, given: M) -> Result<Cut<M>, Offered<M>>
        ensures cut { IfOk result (λ cut. Offers M.weight self.old given cut self.new) }
        ensures size { OnOk result (M.weight given ≤ self.old.limits.absolute) }
        ensures handed_back { IfErr result
            (λ o. (o.message ≡ given) × IsCause o.cause self.old.limits (M.weight given)) }
        ensures unchanged { OnErr result (self.new ≡ self.old) }
    {
        let size = given.weight();
        if size > self.absolute {
            return Err(Offered {
                message: given,
                cause: Cause::TooLarge,
            });
        }
        if size <= self.preferred - self.size {
            self.append(given, size)
        } else if size <= self.preferred {
            self.cut_before(given, size)
        } else {
            self.cut_alone(given)
        }
    }

    /// Lets a message wait that fits, and cuts a batch where it has the greatest count then.
    fn append(&mut self, given: M, size: usize) -> Result<Cut<M>, Offered<M>>
        requires size { M.weight given ≡ size }
        requires fits { sum_by M.weight self.old.pending + size ≤ self.old.limits.preferred }
        requires within { size ≤ self.old.limits.absolute }
        ensures cut { IfOk result (λ cut. Offers M.weight self.old given cut self.new) }
        ensures handed_back { IfErr result
            (λ o. (o.message ≡ given) × IsCause o.cause self.old.limits (M.weight given)) }
        ensures unchanged { OnErr result (self.new ≡ self.old) }
    {
        if let Err(failed) = self.pending.push(given) {
            return Err(Offered {
                message: failed.value,
                cause: Cause::Memory,
            });
        }
        if self.pending.len() < self.count {
            self.size += size;
            return Ok(Cut::Nothing);
        }
        let empty = Vec::new(self.alloc);
        self.size = 0;
        Ok(Cut::One(mem::replace(&mut self.pending, empty)))
    }

    /// Cuts the messages that wait, and lets a message wait that would take them above the
    /// preferred size.
    fn cut_before(&mut self, given: M, size: usize) -> Result<Cut<M>, Offered<M>>
        requires size { M.weight given ≡ size }
        requires small { size ≤ self.old.limits.preferred }
        requires stops { self.old.limits.preferred < sum_by M.weight self.old.pending + size }
        requires within { size ≤ self.old.limits.absolute }
        ensures cut { IfOk result (λ cut. Offers M.weight self.old given cut self.new) }
        ensures handed_back { IfErr result
            (λ o. (o.message ≡ given) × IsCause o.cause self.old.limits (M.weight given)) }
        ensures unchanged { OnErr result (self.new ≡ self.old) }
    {
        let mut next = Vec::new(self.alloc);
        if let Err(failed) = next.push(given) {
            return Err(Offered {
                message: failed.value,
                cause: Cause::Memory,
            });
        }
        self.size = size;
        Ok(Cut::One(mem::replace(&mut self.pending, next)))
    }

    /// Cuts the messages that wait, if there are any, and after them a message above the preferred
    /// size.
    fn cut_alone(&mut self, given: M) -> Result<Cut<M>, Offered<M>>
        requires large { self.old.limits.preferred < M.weight given }
        requires within { M.weight given ≤ self.old.limits.absolute }
        ensures cut { IfOk result (λ cut. Offers M.weight self.old given cut self.new) }
        ensures handed_back { IfErr result
            (λ o. (o.message ≡ given) × IsCause o.cause self.old.limits (M.weight given)) }
        ensures unchanged { OnErr result (self.new ≡ self.old) }
    {
        let mut alone = Vec::new(self.alloc);
        if let Err(failed) = alone.push(given) {
            return Err(Offered {
                message: failed.value,
                cause: Cause::Memory,
            });
        }
        if self.pending.is_empty() {
            return Ok(Cut::One(alone));
        }
        let empty = Vec::new(self.alloc);
        self.size = 0;
        Ok(Cut::Two(mem::replace(&mut self.pending, empty), alone))
    }

    /// Takes back the last offer, which cut `cut`: what waited before waits again, and the message
    /// is handed back. No memory is taken. The cutter has to be as that offer left it.
    pub fn undo(&mut self, cut: Cut<M>) -> M
        requires { IsAfterOffer M.weight cut self.old }
        ensures { (old : State M) (given : M) → Offers M.weight old given cut self.old →
            (self.new ≡ old) × (result ≡ given) }
    {
        match cut {
            Cut::Nothing => self.take_last(),
            Cut::One(mut batch) => {
                if self.pending.is_empty() {
                    let given = batch.pop().unwrap();
                    self.restore(batch);
                    return given;
                }
                let given = self.take_last();
                self.restore(batch);
                given
            }
            Cut::Two(batch, mut alone) => {
                let given = alone.pop().unwrap();
                self.restore(batch);
                given
            }
        }
    }

    /// Takes back the last timeout, which cut `batch`: its messages wait again. No memory is taken.
    /// The cutter has to be as that timeout left it.
    pub fn put_back(&mut self, batch: Vec<M>)
        requires { IsAfterTimeout M.weight batch.items self.old }
        ensures { (old : State M) → Times M.weight old (batch.items ∷ []) self.old →
            self.new ≡ old }
    {
        self.restore(batch);
    }

    /// Takes out the message that came last.
    fn take_last(&mut self) -> M
        requires { 0 < length self.old.pending }
        ensures pending { self.old.pending ≡ self.new.pending ++ result ∷ [] }
        ensures limits { self.new.limits ≡ self.old.limits }
    {
        let last = self.pending.pop().unwrap();
        self.size -= last.weight();
        last
    }

    /// Lets the messages of a batch wait again.
    fn restore(&mut self, batch: Vec<M>)
        requires none { self.old.pending ≡ [] }
        requires waited { IsPending M.weight self.old.limits batch.items }
        ensures pending { self.new.pending ≡ batch.items }
        ensures limits { self.new.limits ≡ self.old.limits }
    {
        // For the proof: the sizes together are at most this one, which a word holds.
        let _ = &self.preferred;
        self.size = total(batch.as_slice());
        self.pending = batch;
    }
}

/// The sizes of messages together.
fn total<M: Weigh>(messages: &[M]) -> usize
    requires { sum_by M.weight messages.now < 2 ^ 64 }
    ensures { result ≡ sum_by M.weight messages.now }
{
    let mut sum = 0;
    for message in messages {
        sum += message.weight();
    }
    sum
}
