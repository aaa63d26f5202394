//! The keys that a batch writes, in key order.

ghost use Rattle.std.specs.Prelude.{◌≡◌, ℕ, ◌≤◌, ◌<◌, ◌||◌, ◌&&◌, not, ◌==◌, ◌++◌, true, false, map, length, slice_index_or, IfOk, OnOk};
ghost use Rattle.std.specs.List.{All, list_any};
ghost use Rattle.std.specs.List.Sorted.{IsPermutation, IsSortedByKey, IsPartitionPoint};
ghost use Rattle.std.specs.Ordering.{is_lt, is_le};
ghost use Rattle.fab_types.specs.Order.{key_cmp, is_within};
ghost use Rattle.fab_types.specs.Touched.{same_key, sees};
ghost use Rattle.reorder.specs.KeyWrites.{written_by, written_from, as_pair, key_of, AreStarts, hits};

use fab_types::{Envelope, Key, Payload, RangeItem, ReadItem, WriteItem};
use std::alloc::{AllocError, Global};

/// A key that a transaction writes.
#[derive(Drop)]
pub struct KeyWrite<'a> {
    pub key: &'a Key,
    pub writer: usize,
}

/// Adds the writes of one transaction.
fn add_writes<'a>(
    index: &mut Vec<KeyWrite<'a>>,
    writes: &'a [WriteItem],
    writer: usize,
) -> Result<(), AllocError>
    ensures { OnOk result
        (map as_pair index.new.items
        ≡ map as_pair index.old.items ++ written_by writer writes.now) }
{
    for write in writes {
        index.push(KeyWrite {
            key: &write.key,
            writer,
        })?;
    }
    Ok(())
}

/// The writes of a batch, in key order.
pub fn writes_of<'a>(alloc: Global, batch: &'a [Envelope]) -> Result<Vec<KeyWrite<'a>>, AllocError>
    ensures all { IfOk result
        (λ v. IsPermutation (written_from 0 batch.now) (map as_pair v.items)) }
    ensures sorted { IfOk result (λ v. IsSortedByKey key_of key_cmp v.items) }
    ensures inside { IfOk result (λ v. All (λ w. w.writer < length batch.now) v.items) }
{
    let mut index = Vec::new(alloc);
    for (writer, envelope) in batch.iter().enumerate() {
        add_writes(&mut index, envelope.payload.writes().as_slice(), writer)?;
    }
    index.sort_unstable_by(|a, b| a.key.cmp(b.key));
    Ok(index)
}

/// Where the keys from a bound on begin.
fn first_from(index: &[KeyWrite<'_>], bound: &[u8]) -> usize
    requires { IsSortedByKey key_of key_cmp index.now }
    ensures within { result ≤ length index.now }
    ensures point { IsPartitionPoint (λ w. is_lt (key_cmp w.key.now bound.now) ≡ true)
        (λ w. is_lt (key_cmp w.key.now bound.now) ≡ false) index.now result }
{
    index.partition_point(|w| w.key.as_slice().cmp(bound).is_lt())
}

/// Where the writes of a key end: behind those of all keys up to it.
fn end_of(index: &[KeyWrite<'_>], key: &Key) -> usize
    requires { IsSortedByKey key_of key_cmp index.now }
    ensures within { result ≤ length index.now }
    ensures point { IsPartitionPoint (λ w. is_le (key_cmp w.key.now key.now) ≡ true)
        (λ w. is_le (key_cmp w.key.now key.now) ≡ false) index.now result }
{
    index.partition_point(|w| w.key.cmp(key).is_le())
}

/// For each write, where the writes of its key begin.
pub fn starts_of(alloc: Global, index: &[KeyWrite<'_>]) -> Result<Vec<usize>, AllocError>
    requires { IsSortedByKey key_of key_cmp index.now }
    ensures { IfOk result (λ v. AreStarts index.now v.items) }
{
    let mut starts = Vec::with_capacity(alloc, index.len())?;
    let mut start = 0;
    for (i, written) in index.iter().enumerate() {
        if index[start].key.cmp(written.key).is_ne() {
            start = i;
        }
        starts.push(start)?;
    }
    Ok(starts)
}

/// Sets the cells of the writers of a stretch.
fn set_writers(row: &mut [bool], stretch: &[KeyWrite<'_>])
    requires { All (λ w. w.writer < length row.old) stretch.now }
    ensures { (j : ℕ) →
        slice_index_or row.new j false
        ≡ (slice_index_or row.old j false || list_any (λ w. w.writer == j) stretch.now) }
{
    for written in stretch {
        row[written.writer] = true;
    }
}

/// Sets the cells of a key's writers. The last write up to the key tells whether it is written.
fn set_for_key(row: &mut [bool], index: &[KeyWrite<'_>], starts: &[usize], key: &Key)
    requires inside { All (λ w. w.writer < length row.old) index.now }
    requires sorted { IsSortedByKey key_of key_cmp index.now }
    requires starts { AreStarts index.now starts.now }
    ensures { (j : ℕ) →
        slice_index_or row.new j false
        ≡ (slice_index_or row.old j false || hits (λ k. same_key key.now k) index.now j) }
{
    let end = end_of(index, key);
    if end == 0 {
        return;
    }
    let last = &index[end - 1];
    if last.key.cmp(key).is_eq() {
        let start = starts[end - 1];
        set_writers(row, &index[start..end]);
    }
}

/// Sets the cells of the writers of the keys that a range holds.
fn set_for_range(row: &mut [bool], index: &[KeyWrite<'_>], range: &RangeItem)
    requires inside { All (λ w. w.writer < length row.old) index.now }
    requires sorted { IsSortedByKey key_of key_cmp index.now }
    ensures { (j : ℕ) →
        slice_index_or row.new j false
        ≡ (slice_index_or row.old j false || hits
        (λ k. is_within range.now.start range.now.end k) index.now j) }
{
    let bound = range.end().as_slice();
    let first = first_from(index, range.start().first_shown());
    let end = if bound.is_empty() {
        index.len()
    } else {
        first_from(index, bound)
    };
    if first < end {
        set_writers(row, &index[first..end]);
    }
}

/// Sets the cells of the writers of the keys that were read.
fn set_for_reads(row: &mut [bool], index: &[KeyWrite<'_>], starts: &[usize], reads: &[ReadItem])
    requires inside { All (λ w. w.writer < length row.old) index.now }
    requires sorted { IsSortedByKey key_of key_cmp index.now }
    requires starts { AreStarts index.now starts.now }
    ensures { (j : ℕ) →
        slice_index_or row.new j false
        ≡ (slice_index_or row.old j false || hits
        (λ k. list_any (λ r. same_key r.key k) reads.now) index.now j) }
{
    for read in reads {
        set_for_key(row, index, starts, &read.key);
    }
}

/// Sets the cells of the writers of the keys that the ranges hold.
fn set_for_ranges(row: &mut [bool], index: &[KeyWrite<'_>], ranges: &[RangeItem])
    requires inside { All (λ w. w.writer < length row.old) index.now }
    requires sorted { IsSortedByKey key_of key_cmp index.now }
    ensures { (j : ℕ) →
        slice_index_or row.new j false
        ≡ (slice_index_or row.old j false || hits
        (λ k. list_any (λ r. is_within r.start r.end k) ranges.now) index.now j) }
{
    for range in ranges {
        set_for_range(row, index, range);
    }
}

/// The writes of a batch, in key order, and for each where those of its key begin.
#[derive(Clone, Copy)]
pub struct Index<'a> {
    pub writes: &'a [KeyWrite<'a>],
    pub starts: &'a [usize],
}

/// Sets the cells of the other transactions of which one sees a write.
pub fn set_row(row: &mut [bool], index: &Index<'_>, payload: &Payload, from: usize)
    requires inside { All (λ w. w.writer < length row.old) index.now.writes.now }
    requires sorted { IsSortedByKey key_of key_cmp index.now.writes.now }
    requires starts { AreStarts index.now.writes.now index.now.starts.now }
    requires from_in { from < length row.old }
    ensures { (j : ℕ) →
        slice_index_or row.new j false
        ≡ (not (from == j) &&
        (slice_index_or row.old j false || hits (sees payload.now) index.now.writes.now j)) }
{
    set_for_reads(row, index.writes, index.starts, payload.reads().as_slice());
    set_for_ranges(row, index.writes, payload.ranges().as_slice());
    row[from] = false;
}
