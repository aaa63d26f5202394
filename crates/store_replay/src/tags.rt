//! Whose tags on the envelopes of records are right, before their blocks are judged.

ghost use Rattle.std.specs.Prelude.{◌≡◌, ◌≤◌, IfOk, length, map};
ghost use Rattle.store_replay.specs.Tags.{AreRightTags, orgs_kept, right_in_record};

use crate::watch::Watch;
use endorsement_policy::{Rules, Standing, Workers, right_orgs_of_blocks};
use fab_types::{Block, CommittedBlock};
use policy_language::OrgSet;
use std::alloc::{AllocError, Global};
use std::thread::Threads;
use wire::{data_hash, header_hash};
use world_state::Past;

/// Records are looked at together until they have so many envelopes.
const STRETCH: usize = 8_192;

/// Who checks the tags of records: workers, and who watches them. What is answered for the records
/// is the same for all.
#[derive(Drop)]
pub struct TagChecks<'a, T, V> {
    workers: &'a Workers<'a, T>,
    watch: &'a V,
}

impl<'a, T, V> TagChecks<'a, T, V> {
    /// Checks by these workers: one checks the tags of each block as it is judged, several those of
    /// some thousand envelopes at once before.
    pub fn new(workers: &'a Workers<'a, T>, watch: &'a V) -> TagChecks<'a, T, V> {
        TagChecks { workers, watch }
    }
}

impl<T: Threads + Sync, V: Watch> TagChecks<'_, T, V> {
    /// For the first of these records, in turn, of each envelope of its block those of the
    /// organisations that stand behind the chain of which it carries a right tag. The records are
    /// to be put behind the chain. The answer may be empty: then the tags are checked as the first
    /// one's block is judged.
    pub(crate) fn right_tags<P: Past>(
        &self,
        alloc: Global,
        rules: &Rules,
        past: &P,
        records: &[CommittedBlock],
    ) -> Vec<Vec<OrgSet>>
        ensures { AreRightTags (orgs_kept rules.now (P.kept past.now)) result.items records.now }
    {
        self.watch.reached(past.height() as usize);
        if self.workers.count() == 1 {
            return Vec::new(alloc);
        }
        right_in_stretch(self.workers, alloc, rules, past, records)
    }
}

/// What workers find of the first stretch of records. It ends before a record that does not fit, so
/// that its block is refused before a tag of it is checked; and it is empty where memory is short,
/// so that a record is refused for want of memory only where one thread would refuse it.
fn right_in_stretch<T: Threads + Sync, P: Past>(
    workers: &Workers<'_, T>,
    alloc: Global,
    rules: &Rules,
    past: &P,
    records: &[CommittedBlock],
) -> Vec<Vec<OrgSet>>
    ensures { AreRightTags (orgs_kept rules.now (P.kept past.now)) result.items records.now }
{
    let count = fitting(alloc, past.height(), past.link(), records);
    match right_of_all(workers, alloc, rules, past, &records[..count]) {
        Ok(right) => right,
        Err(_) => Vec::new(alloc),
    }
}

/// How many of the first of these records have blocks that fit behind a chain of this height, whose
/// last header has this hash, one after another: those of one stretch at most. Where memory is
/// short it counts fewer.
fn fitting(alloc: Global, height: u32, link: [u8; 32], records: &[CommittedBlock]) -> usize
    ensures { result ≤ length records.now }
{
    let mut last = (height, link);
    let mut envelopes = 0usize;
    let mut count = 0usize;
    while count < records.len() && envelopes < STRETCH {
        let block = records[count].block();
        if !is_next(alloc, last, block) {
            break;
        }
        envelopes = envelopes.saturating_add(block.envelopes.as_slice().len());
        last = (block.header.number.get(), header_hash(&block.header));
        count += 1;
    }
    count
}

/// Whether a block has the number after the last one's, and names the hash of its header and that
/// of its own data. False where memory is short.
fn is_next(alloc: Global, last: (u32, [u8; 32]), block: &Block) -> bool {
    let (number, link) = last;
    if block.header.number.get() != number.saturating_add(1) || block.header.previous_hash != link {
        return false;
    }
    match data_hash(alloc, &block.envelopes) {
        Ok(hash) => block.header.data_hash == hash,
        Err(_) => false,
    }
}

/// What workers find of each of these records for who stands behind the chain. The error is of
/// memory.
fn right_of_all<T: Threads + Sync, P: Past>(
    workers: &Workers<'_, T>,
    alloc: Global,
    rules: &Rules,
    past: &P,
    records: &[CommittedBlock],
) -> Result<Vec<Vec<OrgSet>>, AllocError>
    ensures { IfOk result
        (λ v. map (λ right. right.items) v.items
        ≡ map (right_in_record (orgs_kept rules.now (P.kept past.now))) records.now) }
{
    let standing = Standing::in_state(alloc, rules, past.map())?;
    let mut envelopes = Vec::with_capacity(alloc, records.len())?;
    for stored in records {
        envelopes.push(stored.block().envelopes.as_slice())?;
    }
    let organisations = standing.organisations();
    right_orgs_of_blocks(workers, alloc, organisations, &envelopes)
}
