//! The writer of the cell, and what it tells.

ghost use Rattle.std.specs.Prelude.{◌≡◌, List, ◌++◌, ◌∷◌, [], drop, MatchResult};
ghost use Rattle.std.specs.Arc.{arc_value};

use crate::history::{Front, History};
use crate::kept::{Kept, Next, Sees, Tie};
use crate::knowledge::Knowledge;
use core::mem::replace_with;
use left_right::writer;
use std::alloc::{AllocError, Global};
use std::sync::{Arc, Wait};
use std::thread;
use world_state::Snapshot;

/// The writer. Contracts see the list of whole blocks that it published (`published_list`), and
/// which cell it is of; the list is changed by `publish` alone. Whatever a call answered, nothing
/// waits to be shown. It is ended by `close`.
pub struct Writer {
    pub(crate) inner: writer::Writer<Kept, Next, Knowledge, Tie>,
    pub(crate) front: Front,
    pub(crate) history: Arc<History>,
    pub(crate) alloc: Global,
    pub ghost one_history: { (arc_value history).head.book ≡ front.seen.book },
    pub ghost same: { inner.desk.shown.value.front.seen.book ≡ front.seen.book },
    pub ghost shows: { arc_value inner.desk.shown.value.snapshot ≡ front.seen.log },
    pub ghost ready: { drop inner.behind inner.log.items ≡ [] },
}

/// What the writer tells, or a seat: a list of whole blocks that was published (`told_list`). Any
/// number of seats may learn it. Nothing else makes one.
#[derive(Drop)]
pub struct Told {
    pub(crate) front: Front,
}

impl Told {
    ghost use mathlib.Core.List.{IsPrefix};
    ghost use Rattle.snapshot_cell.specs.Seats.{told_list, cell_of_told};

    /// Takes in what another told: this is the longer of the two lists then, with which both begin.
    /// It takes no memory.
    pub fn learn(&mut self, other: &Told)
        requires { cell_of_told other.now ≡ cell_of_told self.old }
        ensures mine { IsPrefix (told_list self.old) (told_list self.new) }
        ensures others { IsPrefix (told_list other.now) (told_list self.new) }
        ensures same { cell_of_told self.new ≡ cell_of_told self.old }
    {
        if self.front.begins(&other.front) {
            self.front = other.front.again();
        }
    }
}

impl Writer {
    ghost use Rattle.std.specs.Prelude.{IfOk, OnErr};
    ghost use Rattle.snapshot_cell.specs.Lists.{OneMore};
    ghost use Rattle.snapshot_cell.specs.Seats.{published_list, told_list, cell_of_writer, cell_of_told};

    /// The published snapshot. It takes no memory.
    pub fn newest(&self) -> &Snapshot
        ensures { result.now ≡ published_list self.now }
    {
        &*self.inner.published().snapshot
    }

    /// What the writer published, for seats to learn. It takes no memory.
    pub fn told(&self) -> Told
        ensures { (cell_of_told result ≡ cell_of_writer self.now) ×
            (told_list result ≡ published_list self.now) }
    {
        Told {
            front: self.front.again(),
        }
    }

    /// Shows the seats the next snapshot, which has one block more, in one step. What is told names
    /// its blocks. It waits for readers inside, and for one more owner of the snapshot.
    ///
    /// The only error is want of memory (9), before anything is to be shown: what is published is
    /// then as it was, and the next call finds nothing that waits.
    pub fn publish<R: Wait>(&mut self, rt: &R, next: Snapshot) -> Result<Told, AllocError>
        requires { OneMore (published_list self.old) next }
        ensures published { IfOk result (λ _. published_list self.new ≡ next) }
        ensures told { IfOk result
            (λ t. (cell_of_told t ≡ cell_of_writer self.old) × (told_list t ≡ next)) }
        ensures refused { OnErr result (published_list self.new ≡ published_list self.old) }
        ensures same { cell_of_writer self.new ≡ cell_of_writer self.old }
    {
        let operation = self.operation(next)?;
        let Ok(()) = self.inner.append(operation) else {
            return Err(AllocError);
        };
        turn(rt, &mut self.inner);
        self.front = shown_front(rt, self.inner.published());
        Ok(self.told())
    }

    /// The operation that puts this snapshot into a copy.
    fn operation(&self, next: Snapshot) -> Result<Next, AllocError>
        requires { OneMore (published_list self.now) next }
        ensures { IfOk result
            (λ o. (arc_value o.snapshot ≡ next) × (o.parent.seen.book ≡ cell_of_writer self.now)) }
    {
        let history = Arc::try_clone(&self.history)?;
        Ok(Next {
            snapshot: Arc::new(self.alloc, next)?,
            parent: self.front.again(),
            history,
        })
    }

    /// Ends the cell: the seats enter it no more from now on.
    pub fn close<R: Wait>(self, rt: &R) {
        let Writer {
            inner,
            front: _,
            history: _,
            alloc: _,
        } = self;
        inner.take(rt);
    }
}

/// Tries to show readers what the last operation has.
fn show<R: Wait>(
    rt: &R,
    inner: writer::Writer<Kept, Next, Knowledge, Tie>,
) -> (
    writer::Writer<Kept, Next, Knowledge, Tie>,
    Result<(), AllocError>,
)
    requires { (xs : List Next) × (op : Next) ×
        (drop inner.behind inner.log.items ≡ xs ++ op ∷ []) ×
        (op.parent.seen.book ≡ inner.desk.shown.value.front.seen.book) }
    ensures shown { (xs : List Next) → (op : Next) →
        drop inner.behind inner.log.items ≡ xs ++ op ∷ [] →
        MatchResult result.1
        (λ _. (arc_value result.0.desk.shown.value.snapshot ≡ arc_value op.snapshot) ×
        (result.0.desk.shown.value.front.seen.book ≡ op.parent.seen.book))
        (λ _. result.0.desk.shown.value ≡ inner.desk.shown.value) }
    ensures left { MatchResult result.1
        (λ _. drop result.0.behind result.0.log.items ≡ [])
        (λ _. drop result.0.behind result.0.log.items ≡ drop inner.behind inner.log.items) }
{
    inner.publish_as::<Sees, R>(rt)
}

/// Shows readers what the last operation has, again until its snapshot has one more owner. One is
/// refused only while it has as many as can be counted.
fn turn<R: Wait>(rt: &R, inner: &mut writer::Writer<Kept, Next, Knowledge, Tie>)
    requires { (xs : List Next) × (op : Next) ×
        (drop inner.old.behind inner.old.log.items ≡ xs ++ op ∷ []) ×
        (op.parent.seen.book ≡ inner.old.desk.shown.value.front.seen.book) }
    ensures shown { (xs : List Next) → (op : Next) →
        drop inner.old.behind inner.old.log.items ≡ xs ++ op ∷ [] →
        (arc_value inner.new.desk.shown.value.snapshot ≡ arc_value op.snapshot) ×
        (inner.new.desk.shown.value.front.seen.book ≡ op.parent.seen.book) }
    ensures left { drop inner.new.behind inner.new.log.items ≡ [] }
{
    'tries: for _ in rt.forever() {
        if replace_with(inner, rt, |inner, rt| show(rt, inner)).is_ok() {
            return;
        }
        thread::yield_now();
    }
    unreachable!()
}

/// The front of a copy that readers are shown. Such a copy is whole: `absorb_first` made it.
fn shown_front<R: Wait>(rt: &R, kept: &Kept) -> Front
    ensures { (result.seen.log ≡ arc_value kept.now.snapshot) ×
        (result.seen.book ≡ kept.now.front.seen.book) }
{
    for _ in rt.forever() {
        if kept.whole {
            return kept.front.again();
        }
    }
    unreachable!()
}
