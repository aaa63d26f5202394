//! Transactions that read an older version of a key than another one of their batch.

ghost use Rattle.std.specs.Prelude.{◌≡◌, ◌<◌, ◌++◌, Some, map, IfOk, OnOk};
ghost use Rattle.std.specs.List.{list_any};
ghost use Rattle.std.specs.List.Sorted.{IsPermutation, IsSortedBy};
ghost use Rattle.reorder.specs.Stale.{stale};
ghost use Rattle.reorder.specs.Seen.{seen_cmp, seen_before, as_seen, with_version, seen_by, seen_in, newer_seen};

use fab_types::{Envelope, Key, ReadItem, Version};
use std::alloc::{AllocError, Global};
use std::cmp::Ordering;

/// A read of a key that was present.
#[derive(Drop)]
pub struct Seen<'a> {
    key: &'a Key,
    version: &'a Version,
}

/// The order of reads: by key, and then by version.
fn order(a: &Seen<'_>, b: &Seen<'_>) -> Ordering
    ensures { result ≡ seen_cmp a.now b.now }
{
    a.key.cmp(b.key).then(a.version.cmp(b.version))
}

/// Adds a read, unless the key was absent.
fn add_read<'a>(index: &mut Vec<Seen<'a>>, read: &'a ReadItem) -> Result<(), AllocError>
    ensures { OnOk result
        (map as_seen index.new.items
        ≡ map as_seen index.old.items ++ with_version read.now.key read.now.version) }
{
    match &read.version {
        None => Ok(()),
        Some(version) => {
            let key = &read.key;
            index.push(Seen { key, version })?;
            Ok(())
        }
    }
}

/// Adds the reads of one transaction.
fn add_reads<'a>(index: &mut Vec<Seen<'a>>, reads: &'a [ReadItem]) -> Result<(), AllocError>
    ensures { OnOk result
        (map as_seen index.new.items ≡ map as_seen index.old.items ++ seen_by reads.now) }
{
    for read in reads {
        add_read(index, read)?;
    }
    Ok(())
}

/// The reads of a batch, in order.
fn reads_of<'a>(alloc: Global, batch: &'a [Envelope]) -> Result<Vec<Seen<'a>>, AllocError>
    ensures all { IfOk result (λ v. IsPermutation (seen_in batch.now) (map as_seen v.items)) }
    ensures sorted { IfOk result (λ v. IsSortedBy seen_before v.items) }
{
    let mut index = Vec::new(alloc);
    for envelope in batch {
        add_reads(&mut index, envelope.payload.reads().as_slice())?;
    }
    index.sort_unstable_by(|a, b| order(a, b));
    Ok(index)
}

/// Whether some read of the key saw a newer version. The last one of the key is the newest.
fn is_outdated(index: &[Seen<'_>], key: &Key, version: Version) -> bool
    requires { IsSortedBy seen_before index.now }
    ensures { result ≡ newer_seen key.now (Some version) (map as_seen index.now) }
{
    let key = key.as_slice();
    let end = index.partition_point(|s| s.key.as_slice().cmp(key).is_le());
    if end == 0 {
        return false;
    }
    let last = &index[end - 1];
    last.key.as_slice().cmp(key).is_eq() && version < *last.version
}

/// Whether for some of these reads a newer version of the key was seen.
fn are_outdated(index: &[Seen<'_>], reads: &[ReadItem]) -> bool
    requires { IsSortedBy seen_before index.now }
    ensures { result
        ≡ list_any (λ r. newer_seen r.key r.version (map as_seen index.now)) reads.now }
{
    for read in reads {
        if let Some(version) = read.version {
            if is_outdated(index, &read.key, version) {
                return true;
            }
        }
    }
    false
}

/// The transactions of a batch that read an older version of a key than another one of the batch,
/// by their indices, ascending. A key that one of the two read as absent does not count, and ranges
/// take no part.
///
/// Where the newer read was really made, the older one is a conflict in any order. The cause of
/// each is 441. The only error is that a growth of memory was refused.
pub fn early_abort(alloc: Global, batch: &[Envelope]) -> Result<Vec<usize>, AllocError>
    ensures { IfOk result (λ v. v.items ≡ stale batch.now) }
{
    let index = reads_of(alloc, batch)?;
    let mut stale = Vec::new(alloc);
    for (i, envelope) in batch.iter().enumerate() {
        if are_outdated(&index, envelope.payload.reads().as_slice()) {
            stale.push(i)?;
        }
    }
    Ok(stale)
}
