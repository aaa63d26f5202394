//! Whose tags on envelopes are right.

ghost use Rattle.std.specs.Prelude.{◌≡◌, ◌≤◌, [], ◌∷◌, ◌++◌, IfOk, Ok, map};
ghost use Rattle.std.specs.Thread.{IsSync};
ghost use Rattle.endorsement_policy.specs.Endorsed.{right_orgs};

use crate::organisations::is_tag;
use crate::workers::Workers;
use fab_types::Envelope;
use org_keys::Organisation;
use policy_language::OrgSet;
use std::alloc::{AllocError, Global};
use std::thread::{Threads, join};

/// A thread is not worth its start for fewer envelopes.
const FEW: usize = 8;

/// Those of these organisations of which the envelope carries a right tag.
pub(crate) fn right_orgs(
    alloc: Global,
    organisations: &[Organisation],
    envelope: &Envelope,
) -> Result<OrgSet, AllocError>
    ensures { IfOk result (λ orgs. orgs ≡ right_orgs organisations.now envelope.now) }
{
    let bytes = envelope.payload.bytes();
    let mut names = Vec::new(alloc);
    for endorsement in envelope.endorsements.as_slice() {
        if is_tag(organisations, endorsement, bytes) {
            names.push(endorsement.org.clone()?)?;
        }
    }
    Ok(OrgSet::new(names).unwrap())
}

/// The same of each envelope of a block.
fn right_orgs_of_block(
    alloc: Global,
    organisations: &[Organisation],
    envelopes: &[Envelope],
) -> Result<Vec<OrgSet>, AllocError>
    ensures { IfOk result (λ v. v.items ≡ map (right_orgs organisations.now) envelopes.now) }
{
    let mut right = Vec::with_capacity(alloc, envelopes.len())?;
    for envelope in envelopes {
        right.push(right_orgs(alloc, organisations, envelope)?)?;
    }
    Ok(right)
}

/// The same of each envelope of each block, by one thread.
fn right_orgs_in_turn(
    alloc: Global,
    organisations: &[Organisation],
    blocks: &[&[Envelope]],
) -> Result<Vec<Vec<OrgSet>>, AllocError>
    ensures { IfOk result (λ v. map (λ right. right.items) v.items
        ≡ map (λ block. map (right_orgs organisations.now) block.now) blocks.now) }
{
    let mut all = Vec::with_capacity(alloc, blocks.len())?;
    for block in blocks {
        all.push(right_orgs_of_block(alloc, organisations, *block)?)?;
    }
    Ok(all)
}

/// What two workers found, the one's behind the other's.
fn joined<T: Drop>(
    low: Result<Vec<T>, AllocError>,
    high: Result<Vec<T>, AllocError>,
) -> Result<Vec<T>, AllocError>
    ensures { IfOk result (λ all. (front : _) × (back : _) × (low ≡ Ok front) × (high ≡ Ok back)
        × (all.items ≡ front.items ++ back.items)) }
{
    let mut all = low?;
    let mut rest = high?;
    let appended = all.append(&mut rest);
    drop(rest);
    appended?;
    Ok(all)
}

/// The same of each envelope of one block, by 1 to 16 workers at once. Each takes a part of the
/// envelopes, one as large as another.
#[cycle(parts)]
fn right_orgs_by_parts<R: Threads + Sync>(
    rt: &R,
    alloc: Global,
    organisations: &[Organisation],
    envelopes: &[Envelope],
    workers: usize,
) -> Result<Vec<OrgSet>, AllocError>
    requires least { 1 ≤ workers }
    requires greatest { workers ≤ 16 }
    ensures { IfOk result (λ v. v.items ≡ map (right_orgs organisations.now) envelopes.now) }
{
    if workers == 1 || envelopes.len() < FEW {
        return right_orgs_of_block(alloc, organisations, envelopes);
    }
    let front_workers = workers / 2;
    let back_workers = workers - front_workers;
    let cut = (envelopes.len().saturating_mul(front_workers) / workers).min(envelopes.len());
    let (front, back) = envelopes.split_at(cut);
    let front_part = move || -> Result<Vec<OrgSet>, AllocError>
        requires { IsSync R.row × (1 ≤ front_workers) × (front_workers ≤ 16) }
        ensures { IfOk result
            (λ v. v.items ≡ map (right_orgs organisations.entry.now) front.entry.now) }
    { right_orgs_by_parts(rt, alloc, organisations, front, front_workers) };
    let back_part = move || -> Result<Vec<OrgSet>, AllocError>
        requires { IsSync R.row × (1 ≤ back_workers) × (back_workers ≤ 16) }
        ensures { IfOk result
            (λ v. v.items ≡ map (right_orgs organisations.entry.now) back.entry.now) }
    { right_orgs_by_parts(rt, alloc, organisations, back, back_workers) };
    let (low, high) = join(rt, front_part, back_part);
    joined(low, high)
}

/// The same of the one block there is.
fn right_orgs_of_one<R: Threads + Sync>(
    rt: &R,
    alloc: Global,
    organisations: &[Organisation],
    envelopes: &[Envelope],
    workers: usize,
) -> Result<Vec<Vec<OrgSet>>, AllocError>
    requires least { 1 ≤ workers }
    requires greatest { workers ≤ 16 }
    ensures { IfOk result (λ v. map (λ right. right.items) v.items
        ≡ map (right_orgs organisations.now) envelopes.now ∷ []) }
{
    let right = right_orgs_by_parts(rt, alloc, organisations, envelopes, workers)?;
    let mut all = Vec::with_capacity(alloc, 1)?;
    all.push(right)?;
    Ok(all)
}

/// The same of each envelope of each block, by 1 to 16 workers at once. Each takes a share of the
/// blocks, one as large as another, or of one block's envelopes.
#[cycle(shares)]
fn right_orgs_by_shares<R: Threads + Sync>(
    rt: &R,
    alloc: Global,
    organisations: &[Organisation],
    blocks: &[&[Envelope]],
    workers: usize,
) -> Result<Vec<Vec<OrgSet>>, AllocError>
    requires least { 1 ≤ workers }
    requires greatest { workers ≤ 16 }
    ensures { IfOk result (λ v. map (λ right. right.items) v.items
        ≡ map (λ block. map (right_orgs organisations.now) block.now) blocks.now) }
{
    if let [block] = blocks {
        return right_orgs_of_one(rt, alloc, organisations, block, workers);
    }
    if workers == 1 || blocks.is_empty() {
        return right_orgs_in_turn(alloc, organisations, blocks);
    }
    let front_workers = workers / 2;
    let back_workers = workers - front_workers;
    let cut = (blocks.len().saturating_mul(front_workers) / workers).min(blocks.len());
    let (front, back) = blocks.split_at(cut);
    let front_share = move || -> Result<Vec<Vec<OrgSet>>, AllocError>
        requires { IsSync R.row × (1 ≤ front_workers) × (front_workers ≤ 16) }
        ensures { IfOk result (λ v. map (λ right. right.items) v.items
            ≡ map (λ block. map (right_orgs organisations.entry.now) block.now) front.entry.now) }
    { right_orgs_by_shares(rt, alloc, organisations, front, front_workers) };
    let back_share = move || -> Result<Vec<Vec<OrgSet>>, AllocError>
        requires { IsSync R.row × (1 ≤ back_workers) × (back_workers ≤ 16) }
        ensures { IfOk result (λ v. map (λ right. right.items) v.items
            ≡ map (λ block. map (right_orgs organisations.entry.now) block.now) back.entry.now) }
    { right_orgs_by_shares(rt, alloc, organisations, back, back_workers) };
    let (low, high) = join(rt, front_share, back_share);
    joined(low, high)
}

/// For each envelope of each block those of these organisations of which it carries a right tag, by
/// workers at once: the same for every number of them. The caller is one of the workers, and does
/// the share of one that cannot be started. The only error is want of memory.
///
/// What is found depends on no state but by the organisations, so that the tags of many blocks can
/// be judged at once for who stands before the first of them, and each block then by
/// `check_with_right_orgs` on the state before it, as long as they stand.
pub fn right_orgs_of_blocks<R: Threads + Sync>(
    workers: &Workers<'_, R>,
    alloc: Global,
    organisations: &[Organisation],
    blocks: &[&[Envelope]],
) -> Result<Vec<Vec<OrgSet>>, AllocError>
    ensures { IfOk result (λ v. map (λ right. right.items) v.items
        ≡ map (λ block. map (right_orgs organisations.now) block.now) blocks.now) }
{
    right_orgs_by_shares(workers.rt(), alloc, organisations, blocks, workers.count())
}
