//! How a cell is opened.

ghost use Rattle.std.specs.Prelude.{◌≡◌, ◌<◌, ◌≤◌, ◌^◌, [], length, drop, IfOk};
ghost use Rattle.std.specs.Arc.{arc_value};
ghost use Rattle.left_right.specs.Sides.{view};
ghost use Rattle.world_state.specs.Shared.{blocks_in};
ghost use Rattle.snapshot_cell.specs.Knowing.{knowing};
ghost use Rattle.snapshot_cell.specs.Seats.{seen_list, published_list, cell_of_reader, cell_of_writer, EachBegins};

use crate::history::{Front, History};
use crate::kept::{Kept, Learns, Next, Sees, Tells, Tie};
use crate::knowledge::Knowledge;
use crate::reader::Reader;
use crate::refusal::OpenRefusal;
use crate::writer::Writer;
use fab_types::CommittedBlock;
use fab_types::limits::LAST_BLOCK;
use left_right::writer;
use std::alloc::{AllocError, Global};
use std::sync::{Arc, Wait};
use world_state::Snapshot;

/// A cell that shows this snapshot, with so many seats, at least 1 and below 2^32.
///
/// Refused where a seat got no place in the cell (431), and for want of memory (9).
pub fn open<R: Wait>(
    rt: &R,
    alloc: Global,
    first: Snapshot,
    seats: usize,
) -> Result<(Writer, Vec<Reader>), OpenRefusal>
    requires { (0 < seats) × (seats < 2 ^ 32) }
    ensures writer { IfOk result (λ t. published_list t.0 ≡ first) }
    ensures seats { IfOk result
        (λ t. (length t.1.items ≡ seats) × EachBegins (cell_of_writer t.0) first t.1.items) }
{
    let (history, front) = History::new();
    let front = reach(&history, front, first.blocks())?;
    let snapshot = Arc::new(alloc, first)?;
    let history = Arc::new(alloc, history)?;
    let mut readers = Vec::with_capacity(alloc, seats)?;
    let mut inner = known(rt, alloc, snapshot, &front, seats)?;
    if let Err(refusal) = fill(&mut readers, &mut inner, &front, seats) {
        inner.take(rt);
        return Err(refusal);
    }
    let writer = Writer {
        inner,
        front,
        history,
        alloc,
    };
    Ok((writer, readers))
}

/// A front that has seen these blocks, in a new history.
fn reach(
    history: &History,
    front: Front,
    blocks: &[Arc<CommittedBlock>],
) -> Result<Front, AllocError>
    requires new { (history.now.head.book ≡ front.seen.book) × (front.seen.log ≡ []) }
    requires limit { length blocks.now ≤ LAST_BLOCK }
    ensures { IfOk result
        (λ f. (f.seen.log ≡ blocks_in blocks.now) × (f.seen.book ≡ front.seen.book)) }
{
    let mut front = front;
    for block in blocks {
        if !front.extend(history, &**block) {
            return Err(AllocError);
        }
    }
    Ok(front)
}

/// Two copies of a snapshot, and a writer that knows their history.
fn known<R: Wait>(
    rt: &R,
    alloc: Global,
    snapshot: Arc<Snapshot>,
    front: &Front,
    seats: usize,
) -> Result<writer::Writer<Kept, Next, Knowledge, Tie>, AllocError>
    requires whole { front.now.seen.log ≡ arc_value snapshot }
    requires seats { (0 < seats) × (seats < 2 ^ 32) }
    ensures shows { IfOk result (λ w. arc_value w.desk.shown.value.snapshot ≡ front.now.seen.log) }
    ensures same { IfOk result (λ w. w.desk.shown.value.front.seen.book ≡ front.now.seen.book) }
    ensures knows { IfOk result (λ w. view w.desk.place ≡ knowing front.now.seen.book) }
    ensures ready { IfOk result (λ w. drop w.behind w.log.items ≡ []) }
{
    let one = Kept {
        snapshot: Arc::try_clone(&snapshot)?,
        front: front.again(),
        whole: true,
    };
    let other = Kept {
        snapshot,
        front: front.again(),
        whole: true,
    };
    let inner: writer::Writer<Kept, Next, Knowledge, Tie> = writer::Writer::new(
        alloc, one, other, seats,
    )?;
    let (inner, shown) = inner.publish_as::<Sees, R>(rt);
    if let Err(refusal) = shown {
        inner.take(rt);
        return Err(refusal);
    }
    Ok(inner)
}

/// Makes seats that know the history of the copies.
fn fill(
    readers: &mut Vec<Reader>,
    inner: &mut writer::Writer<Kept, Next, Knowledge, Tie>,
    front: &Front,
    seats: usize,
) -> Result<(), OpenRefusal>
    requires empty { readers.old.items ≡ [] }
    requires knows { view inner.old.desk.place ≡ knowing front.now.seen.book }
    ensures seats { IfOk result
        (λ _. (length readers.new.items ≡ seats) ×
        EachBegins front.now.seen.book front.now.seen.log readers.new.items) }
    ensures shown { inner.new.desk.shown.value ≡ inner.old.desk.shown.value }
    ensures same { (inner.new.log ≡ inner.old.log) × (inner.new.behind ≡ inner.old.behind) }
{
    for _seat in 0..seats {
        let Ok(reader) = seat(inner, front) else {
            return Err(OpenRefusal::NoPlace);
        };
        if readers.push(reader).is_err() {
            return Err(OpenRefusal::Memory);
        }
    }
    Ok(())
}

/// A seat that knows the history of the copies.
fn seat(
    inner: &mut writer::Writer<Kept, Next, Knowledge, Tie>,
    front: &Front,
) -> Result<Reader, AllocError>
    requires { view inner.old.desk.place ≡ knowing front.now.seen.book }
    ensures seat { IfOk result
        (λ r. (cell_of_reader r ≡ front.now.seen.book) × (seen_list r ≡ front.now.seen.log)) }
    ensures knows { view inner.new.desk.place ≡ view inner.old.desk.place }
    ensures shown { inner.new.desk.shown.value ≡ inner.old.desk.shown.value }
    ensures same { (inner.new.log ≡ inner.old.log) × (inner.new.behind ≡ inner.old.behind) }
{
    let mut reader = inner.factory().reader()?;
    reader.learn::<Learns>(inner.tell::<Tells>());
    Ok(Reader {
        inner: Some(reader),
        front: front.again(),
    })
}
