//! Numbers of blocks, in digits.

ghost use Rattle.std.specs.Prelude.{ℕ, MatchOption};
ghost use Rattle.peer_answers.specs.Numbers.{IsDecimal};

/// The number that digits spell, of which the first is not 0.
pub fn number_in(digits: &str) -> Option<u32>
    ensures { MatchOption result ((n : ℕ) → ¬ IsDecimal digits.now n) (IsDecimal digits.now) }
{
    let first = *digits.as_bytes().first()?;
    if first < b'1' {
        return None;
    }
    digits.parse::<u32>().ok()
}
