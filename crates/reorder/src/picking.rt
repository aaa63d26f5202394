//! The plan, pick by pick.

ghost use Rattle.std.specs.Prelude.{◌≡◌, ℕ, ◌+◌, ◌^◌, ◌<◌, true, false, if◌then◌else◌, length, slice_index, MatchOption, IfOk};
ghost use Rattle.std.specs.List.{All, AllByRecursion};
ghost use Rattle.reorder.specs.Plan.{waits, all_but, IsPlan};
ghost use Rattle.reorder.specs.Counts.{IsAscending, IsListed, IsNext};
ghost use Rattle.reorder.specs.Cells.{edge_at};

use crate::counting::{counts_into, counts_out, lower, lower_out};
use crate::matrix::Matrix;
use crate::pick::Pick;
use std::alloc::{AllocError, Global};

/// Which transactions of a batch of this size take part: all but `gone`.
fn taking_part(alloc: Global, size: usize, gone: &[usize]) -> Result<Vec<bool>, AllocError>
    requires { AllByRecursion (λ i. i < size) gone.now }
    ensures { IfOk result (λ v. v.items ≡ all_but gone.now size) }
{
    let mut left = vec![in alloc; true; size]?;
    for i in gone {
        left[*i] = false;
    }
    Ok(left)
}

/// The indices of those that wait, ascending.
fn indices_of(alloc: Global, left: &[bool]) -> Result<Vec<usize>, AllocError>
    ensures { IfOk result (λ v. IsListed left.now v.items) }
{
    let mut waiting = Vec::with_capacity(alloc, left.len())?;
    for (i, waits) in left.iter().enumerate() {
        if *waits {
            waiting.push(i)?;
        }
    }
    Ok(waiting)
}

/// A pick, and its place among those that wait.
#[derive(Clone, Copy)]
struct Next {
    at: usize,
    pick: Pick,
}

/// The edges in and out of one.
#[inline(always)]
fn weight_of(into: u32, out: u32) -> usize
    ensures { result ≡ into + out }
{
    into as usize + out as usize
}

/// The next pick: the first of those that wait that has no edge into it. Where there is none, the
/// one with the most edges, of these the last.
fn next_pick(waiting: &[usize], into: &[u32], out: &[u32]) -> Option<Next>
    requires inside { All (λ i. i < length into.now) waiting.now }
    requires out_long { length out.now ≡ length into.now }
    ensures { MatchOption result (length waiting.now ≡ 0)
        (λ next. IsNext waiting.now into.now out.now next.at next.pick) }
{
    let mut best = 0;
    let mut most = 0;
    for (at, i) in waiting.iter().enumerate() {
        let i = *i;
        if into[i] == 0 {
            let pick = Pick::Place(i);
            return Some(Next { at, pick });
        }
        let weight = weight_of(into[i], out[i]);
        if weight >= most {
            best = at;
            most = weight;
        }
    }
    if most == 0 {
        return None;
    }
    let pick = Pick::Abort(waiting[best]);
    Some(Next { at: best, pick })
}

/// Takes the edges of one that is gone off the counts of those that wait. Where it has none to
/// them, or none from them, there is nothing to take off.
fn take_out(edges: &Matrix, waiting: &[usize], into: &mut [u32], out: &mut [u32], i: usize)
    requires into_long { length into.old ≡ edges.now.size }
    requires out_long { length out.old ≡ edges.now.size }
    requires ascending { IsAscending waiting.now }
    requires inside { All (λ k. k < edges.now.size) waiting.now }
    requires gone { i < edges.now.size }
    requires into_counted { (k : ℕ) → edge_at edges.now i k ≡ true → 0 < slice_index into.old k }
    requires out_counted { (p : ℕ) → p < length waiting.now →
        edge_at edges.now (slice_index waiting.now p) i ≡ true →
        0 < slice_index out.old (slice_index waiting.now p) }
    ensures into { 0 < slice_index out.old i → (k : ℕ) → k < length into.old →
        slice_index into.new k + (if edge_at edges.now i k then 1 else 0)
        ≡ slice_index into.old k }
    ensures into_stays { slice_index out.old i ≡ 0 → into.new ≡ into.old }
    ensures out { 0 < slice_index into.new i → (p : ℕ) → p < length waiting.now →
        slice_index out.new (slice_index waiting.now p)
        + (if edge_at edges.now (slice_index waiting.now p) i then 1 else 0)
        ≡ slice_index out.old (slice_index waiting.now p) }
    ensures out_stays { slice_index into.new i ≡ 0 → out.new ≡ out.old }
{
    if out[i] > 0 {
        lower(into, edges.row(i));
    }
    if into[i] > 0 {
        lower_out(out, edges, waiting, i);
    }
}

/// The plan of all but `gone`, for edges between these transactions.
pub fn picks(alloc: Global, edges: &Matrix, gone: &[usize]) -> Result<Vec<Pick>, AllocError>
    requires size { edges.now.size < 2 ^ 32 }
    requires gone { AllByRecursion (λ i. i < edges.now.size) gone.now }
    ensures { IfOk result
        (λ v. IsPlan edges.now.size (edge_at edges.now) (all_but gone.now edges.now.size) v.items) }
{
    let left = taking_part(alloc, edges.size, gone)?;
    let mut waiting = indices_of(alloc, &left)?;
    let mut into = counts_into(alloc, edges, &left)?;
    let mut out = counts_out(alloc, edges, &left)?;
    let mut picks = Vec::with_capacity(alloc, waiting.len())?;
    while let Some(next) = next_pick(&waiting, &into, &out) {
        let i = waiting.remove(next.at);
        take_out(edges, &waiting, &mut into, &mut out, i);
        picks.push(next.pick)?;
    }
    Ok(picks)
}
