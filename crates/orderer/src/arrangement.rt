//! Which envelopes of a batch go into its block, and in which order.

ghost use Rattle.std.specs.Prelude.{◌≡◌, ◌≤◌, [], IfOk, length};
ghost use Rattle.std.specs.List.{range_with_len};
ghost use Rattle.reorder.specs.Stale.{indices};
ghost use Rattle.orderer.specs.Arranged.{aborts, IsArranged, arranges_by};
ghost use Rattle.orderer.specs.Numbers.{abort_number};
ghost use Rattle.orderer.specs.Places.{ArePlaces};

use fab_types::Envelope;
use fab_types::limits::MOST_TRANSACTIONS;
use reorder::{early_abort, reorder};
use std::alloc::{AllocError, Global};
use std::fmt::{self, Display, Formatter, Write};

/// Why a transaction is left out of the block of its batch.
#[derive(Clone, Copy, Debug, PartialEq, Eq)]
pub enum AbortCause {
    /// Another one of the batch read a newer version of a key that it read.
    Outdated = 441,
    /// It was taken out where each one left writes a key that another one left sees.
    Conflict = 442,
}

impl AbortCause {
    /// The number of the cause: 441 or 442.
    pub fn number(self) -> u16
        ensures { result ≡ abort_number self }
    {
        self as u16
    }
}

impl Display for AbortCause {
    ghost use Rattle.std.specs.Prelude.{Some};
    ghost use Rattle.std.specs.Fmt.{decimal};

    ghost output = { λ c. Some (decimal (abort_number c)) };

    fn fmt<W: Write>(&self, f: &mut Formatter<W>) -> fmt::Result {
        write!(f, "{}", self.number())
    }
}

/// The places of a batch that survive, in their order, and the others, ascending, with why they do
/// not.
#[derive(Drop)]
pub(crate) struct Arrangement {
    pub order: Vec<usize>,
    pub aborted: Vec<(u16, AbortCause)>,
}

/// The arrangement of a batch that stays as it was cut.
fn as_cut(alloc: Global, batch: &[Envelope]) -> Result<Arrangement, AllocError>
    ensures order { IfOk result (λ p. p.order.items ≡ indices batch.now) }
    ensures aborted { IfOk result (λ p. p.aborted.items ≡ []) }
{
    let mut order = Vec::with_capacity(alloc, batch.len())?;
    for place in 0..batch.len() {
        order.push(place)?;
    }
    Ok(Arrangement {
        order,
        aborted: Vec::new(alloc),
    })
}

/// Which of the first `count` places are aborted, ascending, and why.
fn aborts(
    alloc: Global,
    count: usize,
    outdated: &[usize],
    dropped: &[usize],
) -> Result<Vec<(u16, AbortCause)>, AllocError>
    requires { count ≤ MOST_TRANSACTIONS }
    ensures { IfOk result
        (λ v. v.items ≡ aborts outdated.now dropped.now (range_with_len 0 count)) }
{
    let mut aborted = Vec::new(alloc);
    for place in 0..count {
        if outdated.contains(&place) {
            aborted.push((place as u16, AbortCause::Outdated))?;
        } else if dropped.contains(&place) {
            aborted.push((place as u16, AbortCause::Conflict))?;
        }
    }
    Ok(aborted)
}

/// The arrangement of a batch without its stale transactions, the others in a legal order.
fn arrange(alloc: Global, batch: &[Envelope]) -> Result<Arrangement, AllocError>
    requires { length batch.now ≤ MOST_TRANSACTIONS }
    ensures { IfOk result (λ p. IsArranged batch.now p.order.items p.aborted.items) }
{
    let outdated = early_abort(alloc, batch)?;
    let planned = reorder(alloc, batch, &outdated)?;
    let aborted = aborts(alloc, batch.len(), &outdated, &planned.aborted)?;
    Ok(Arrangement {
        order: planned.order,
        aborted,
    })
}

/// The arrangement of a batch. With `reorder` it is thinned and ordered, else it stays as cut.
pub(crate) fn arrangement_of(
    alloc: Global,
    reorder: bool,
    batch: &[Envelope],
) -> Result<Arrangement, AllocError>
    requires { length batch.now ≤ MOST_TRANSACTIONS }
    ensures arranged { IfOk result
        (λ p. arranges_by reorder batch.now p.order.items p.aborted.items) }
    ensures places { IfOk result (λ p. ArePlaces (length batch.now) p.order.items) }
{
    if reorder {
        arrange(alloc, batch)
    } else {
        as_cut(alloc, batch)
    }
}
