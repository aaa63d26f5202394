//! Items at the front of a slice.

ghost use Rattle.std.specs.Prelude.{◌≡◌, ◌^◌, ◌<◌, ◌≤◌, ℕ, pos, neg_ℤ, ◌≤ℤ◌, ◌<ℤ◌, ◌∷◌, IfOk, length, MatchOption, true, false};
ghost use Rattle.std.specs.Result.{IfErr};
ghost use Rattle.std.specs.Str.{is_utf8};
ghost use Rattle.wasm_bytes.specs.Reading.{Gives, unsigned_at, signed_at, name_at};
ghost use Rattle.wasm_bytes.specs.Faults.{unsigned_fault, signed_fault, name_fault};

use crate::fault::FaultKind;

/// A number below `bound` at the front, and the bytes after it.
#[cycle(unsigned)]
#[inline(always)]
#[tactic(auto, unfolding(crate::specs::Reading::unsigned_at, crate::specs::Faults::unsigned_fault))]
pub(crate) fn unsigned(bytes: &[u8], bound: u64) -> Result<(u64, &[u8]), FaultKind>
    ensures read { Gives (λ x. (x.0, x.1.now)) result (unsigned_at bound bytes.now) }
    ensures fault { IfErr result (λ kind. kind ≡ unsigned_fault bound bytes.now) }
    ensures shorter { IfOk result (λ x. length x.1.now < length bytes.now) }
    ensures within { IfOk result (λ x. x.0 < bound) }
{
    let [first, rest @ ..] = bytes else {
        return Err(FaultKind::EndedEarly);
    };
    let first = u64::from(*first);
    if first < 128 {
        if first < bound {
            return Ok((first, rest));
        }
        return Err(FaultKind::BadNumber);
    }
    unsigned_on(first, rest, bound)
}

// The same behind a first byte that is not the last. What is called is short, and inlined here.
#[cycle(unsigned)]
#[tactic(auto, unfolding(crate::specs::Reading::unsigned_at, crate::specs::Faults::unsigned_fault))]
fn unsigned_on(first: u64, rest: &[u8], bound: u64) -> Result<(u64, &[u8]), FaultKind>
    requires low { 128 ≤ first }
    requires high { first < 256 }
    ensures read { Gives (λ x. (x.0, x.1.now)) result (unsigned_at bound (first ∷ rest.now)) }
    ensures fault { IfErr result (λ kind. kind ≡ unsigned_fault bound (first ∷ rest.now)) }
    ensures shorter { IfOk result (λ x. length x.1.now < length rest.now) }
    ensures within { IfOk result (λ x. x.0 < bound) }
{
    if bound <= 128 {
        return Err(FaultKind::BadNumber);
    }
    let (high, rest) = unsigned(rest, bound / 128)?;
    Ok(((first - 128) + 128 * high, rest))
}

/// A number from `-half` to `half - 1` at the front, and the bytes after it.
#[cycle(signed)]
#[inline(always)]
#[tactic(auto, unfolding(crate::specs::Reading::signed_at, crate::specs::Faults::signed_fault))]
pub(crate) fn signed(bytes: &[u8], half: u64) -> Result<(i64, &[u8]), FaultKind>
    requires { half ≤ 2 ^ 63 }
    ensures read { Gives (λ x. (x.0, x.1.now)) result (signed_at half bytes.now) }
    ensures fault { IfErr result (λ kind. kind ≡ signed_fault half bytes.now) }
    ensures shorter { IfOk result (λ x. length x.1.now < length bytes.now) }
    ensures low { IfOk result (λ x. neg_ℤ (pos half) ≤ℤ x.0) }
    ensures high { IfOk result (λ x. x.0 <ℤ pos half) }
{
    let [first, rest @ ..] = bytes else {
        return Err(FaultKind::EndedEarly);
    };
    let first = u64::from(*first);
    if first < 64 {
        if first < half {
            return Ok((first as i64, rest));
        }
        return Err(FaultKind::BadNumber);
    }
    if first < 128 {
        if 128 <= first + half {
            return Ok((first as i64 - 128, rest));
        }
        return Err(FaultKind::BadNumber);
    }
    signed_on(first, rest, half)
}

// The same behind a first byte that is not the last. What is called is short, and inlined here.
#[cycle(signed)]
#[tactic(auto, unfolding(crate::specs::Reading::signed_at, crate::specs::Faults::signed_fault))]
fn signed_on(first: u64, rest: &[u8], half: u64) -> Result<(i64, &[u8]), FaultKind>
    requires low { 128 ≤ first }
    requires high { first < 256 }
    requires half { half ≤ 2 ^ 63 }
    ensures read { Gives (λ x. (x.0, x.1.now)) result (signed_at half (first ∷ rest.now)) }
    ensures fault { IfErr result (λ kind. kind ≡ signed_fault half (first ∷ rest.now)) }
    ensures shorter { IfOk result (λ x. length x.1.now < length rest.now) }
    ensures low { IfOk result (λ x. neg_ℤ (pos half) ≤ℤ x.0) }
    ensures high { IfOk result (λ x. x.0 <ℤ pos half) }
{
    if half <= 64 {
        return Err(FaultKind::BadNumber);
    }
    let (high, rest) = signed(rest, half / 128)?;
    Ok(((first - 128) as i64 + 128 * high, rest))
}

#[tactic(auto, using(crate::proofs::Utf8::utf8_true, crate::proofs::Utf8::utf8_false))]
fn text(bytes: &[u8]) -> Option<&str>
    ensures { MatchOption result (is_utf8 bytes.now ≡ false)
        (λ s. (s.now ≡ bytes.now) × (is_utf8 bytes.now ≡ true)) }
{
    str::from_utf8(bytes).ok()
}

/// A name at the front, and the bytes after it.
#[tactic(auto, unfolding(crate::specs::Reading::name_at, crate::specs::Faults::name_fault))]
pub(crate) fn name(bytes: &[u8]) -> Result<(&str, &[u8]), FaultKind>
    ensures read { Gives (λ x. (x.0.now, x.1.now)) result (name_at bytes.now) }
    ensures fault { IfErr result (λ kind. kind ≡ name_fault bytes.now) }
    ensures shorter { IfOk result (λ x. length x.1.now < length bytes.now) }
{
    let (len, rest) = unsigned(bytes, 1 << 32)?;
    let len = len as usize;
    if rest.len() < len {
        return Err(FaultKind::EndedEarly);
    }
    let (name, rest) = rest.split_at(len);
    match text(name) {
        Some(name) => Ok((name, rest)),
        None => Err(FaultKind::NotUtf8),
    }
}
