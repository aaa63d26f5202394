//! What is told of the batches that a line ended.

ghost use Rattle.std.specs.Prelude.{◌≡◌, ◌≤◌, ◌+◌, [], IfOk, length, drop, map};
ghost use Rattle.std.specs.Vec.{vec_capacity};
ghost use Rattle.log_orderer.specs.Cutting.{AreAt, ArePlacesBelow, IsCut, IsFront, size_of};
ghost use Rattle.log_orderer.specs.Cutting.{AreCut, AreFront, HaveRoom};
ghost use Rattle.orderer.specs.Headers.{reports_made};

use fab_types::Block;
use orderer::{AbortCause, BatchReport, Made};
use seq::Seq;
use std::alloc::{AllocError, Global};
use std::mem;

/// What became of a batch that a line ended.
#[derive(Debug, Drop)]
pub struct LogBatch {
    /// The number of its block, and the places in the batch that are left out of it, and why.
    pub report: BatchReport,
    /// The block of that number. None where nothing survived.
    pub block: Option<Block>,
    /// The ids of the transactions that are left out, in the order of `report.aborted`.
    pub aborted: Seq<[u8; 32]>,
}

/// The memory for what is told of batches, which is taken before they are cut.
#[derive(Drop)]
pub(crate) struct Room {
    /// For the batches: a line ends at most two.
    pub batches: Vec<LogBatch>,
    /// For the ids that the first tells. A second is of an envelope alone, and tells none.
    pub ids: Vec<[u8; 32]>,
}

impl Room {
    /// Room where the first batch has at most `count` envelopes.
    pub(crate) fn new(alloc: Global, count: usize) -> Result<Room, AllocError>
        ensures batches { IfOk result (λ r. (r.batches.items ≡ [])
            × (2 ≤ vec_capacity r.batches)) }
        ensures ids { IfOk result (λ r. (r.ids.items ≡ []) × (count ≤ vec_capacity r.ids)) }
    {
        Ok(Room {
            batches: Vec::with_capacity(alloc, 2)?,
            ids: Vec::with_capacity(alloc, count)?,
        })
    }
}

/// The ids at the places of a batch that are left out.
fn ids_at(members: &[[u8; 32]], aborted: &[(u16, AbortCause)], room: Vec<[u8; 32]>) -> Vec<[u8; 32]>
    requires places { ArePlacesBelow (length members.now) aborted.now }
    requires empty { room.items ≡ [] }
    requires room { length aborted.now ≤ vec_capacity room }
    ensures { AreAt members.now aborted.now result.items }
{
    let mut ids = room;
    for (place, _) in aborted {
        ids.push(members[*place as usize]).unwrap();
    }
    ids
}

/// Takes the ids of a batch off the front of those that wait.
pub(crate) fn cut(waiting: &mut Vec<[u8; 32]>, made: Made, room: Vec<[u8; 32]>) -> LogBatch
    requires front { IsFront made.report waiting.old.items }
    requires empty { room.items ≡ [] }
    requires room { length made.report.aborted ≤ vec_capacity room }
    ensures batch { IsCut made.report waiting.old.items result }
    ensures block { result.block ≡ made.block }
    ensures rest { waiting.new.items ≡ drop (size_of made.report) waiting.old.items }
{
    let Made { report, block } = made;
    let size = report.count + report.aborted.len();
    let aborted = ids_at(&waiting[..size], report.aborted.as_slice(), room);
    waiting.drain(..size);
    LogBatch {
        report,
        block,
        aborted: Seq::new(aborted),
    }
}

/// Takes the ids of batches, one after another, off the front of those that wait.
pub(crate) fn cut_each(
    alloc: Global,
    waiting: &mut Vec<[u8; 32]>,
    made: Vec<Made>,
    room: Room,
) -> Seq<LogBatch>
    requires front { AreFront (reports_made made.items) waiting.old.items }
    requires two { length made.items ≤ 2 }
    requires batches { (room.batches.items ≡ []) × (2 ≤ vec_capacity room.batches) }
    requires empty { room.ids.items ≡ [] }
    requires room { HaveRoom (reports_made made.items) (vec_capacity room.ids) }
    ensures cut { AreCut (reports_made made.items) waiting.old.items result waiting.new.items }
    ensures blocks { map (λ batch. batch.block) result ≡ map (λ each. each.block) made.items }
{
    let Room {
        mut batches,
        mut ids,
    } = room;
    'made: for each in made {
        let room = mem::replace(&mut ids, Vec::new(alloc));
        batches.push(cut(waiting, each, room)).unwrap();
    }
    Seq::new(batches)
}
