//! The plan of a batch.

ghost use Rattle.std.specs.Prelude.{◌≡◌, ℕ, ◌<◌, ◌^◌, ◌==◌, true, if◌then◌else◌, length, IfOk, OnOk, ◌++◌, List, ◌∷◌, []};
ghost use Rattle.std.specs.List.{count_by, AllByRecursion};
ghost use Rattle.reorder.specs.Plan.{IsPlanned, IsLegal, IsIn, waits, all_but, order_of, aborts_of};
ghost use Rattle.reorder.specs.Edges.{edge_of};

use crate::edges::edges_between;
use crate::pick::Pick;
use crate::picking::picks;
use fab_types::Envelope;
use std::alloc::{AllocError, Global};

/// What becomes of the transactions of a batch, by their indices in it.
#[derive(Debug, Drop)]
pub struct Plan {
    /// Those that are placed, in their order.
    pub order: Vec<usize>,
    /// Those that are aborted, in the order in which they are picked. The cause of each is 442.
    pub aborted: Vec<usize>,
}

impl Plan {
    /// The plan of no transactions.
    fn new(alloc: Global) -> Plan
        ensures order { result.order.items ≡ [] }
        ensures aborted { result.aborted.items ≡ [] }
    {
        Plan {
            order: Vec::new(alloc),
            aborted: Vec::new(alloc),
        }
    }

    /// Adds the pick that comes next.
    fn add(&mut self, pick: Pick) -> Result<(), AllocError>
        ensures order { OnOk result
            (self.new.order.items ≡ self.old.order.items ++ order_of (pick ∷ [])) }
        ensures aborted { OnOk result
            (self.new.aborted.items ≡ self.old.aborted.items ++ aborts_of (pick ∷ [])) }
    {
        match pick {
            Pick::Place(i) => self.order.push(i)?,
            Pick::Abort(i) => self.aborted.push(i)?,
        }
        Ok(())
    }
}

/// The plan of the transactions of a batch but those at the indices `gone`, which take no part.
///
/// A transaction has to stand before each other one that writes a key that it reads, or that one of
/// its ranges holds: it has an edge to it. Again and again one transaction is picked, as long as
/// any are left. It is the first that no edge comes into from those that are left, and is placed.
/// Where each has such an edge, it is the one with the most edges in and out among those left, of
/// several the last, and is aborted.
///
/// So each transaction that takes part is placed or aborted once, and no other. In the order none
/// sees a key that an earlier one writes. Where some order of all that take part is such, none is
/// aborted.
///
/// The only error is that a growth of memory was refused. With n transactions that see and write k
/// keys in all it takes time for k log k comparisons of keys and for each write that each of them
/// sees, and memory and time for n squared edges.
pub fn reorder(alloc: Global, batch: &[Envelope], gone: &[usize]) -> Result<Plan, AllocError>
    requires size { length batch.now < 2 ^ 32 }
    requires gone { AllByRecursion (λ i. i < length batch.now) gone.now }
    ensures plan { IfOk result
        (λ p. IsPlanned (length batch.now) (edge_of batch.now) (all_but gone.now (length batch.now))
        p.order.items p.aborted.items) }
    ensures once { IfOk result
        (λ p. (k : ℕ) →
        count_by (λ x. x == k) (p.order.items ++ p.aborted.items)
        ≡ (if waits (all_but gone.now (length batch.now)) k then 1 else 0)) }
    ensures legal { IfOk result (λ p. IsLegal (edge_of batch.now) p.order.items) }
    ensures none_aborted { IfOk result
        (λ p. (order : List ℕ) → IsLegal (edge_of batch.now) order →
        ((k : ℕ) → waits (all_but gone.now (length batch.now)) k ≡ true → IsIn k order) →
        p.aborted.items ≡ []) }
{
    let edges = edges_between(alloc, batch)?;
    let picks = picks(alloc, &edges, gone)?;
    let mut plan = Plan::new(alloc);
    for pick in &picks {
        plan.add(*pick)?;
    }
    Ok(plan)
}
