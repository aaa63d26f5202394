//! Choices without a branch.

ghost use Rattle.std.specs.Prelude.{◌≡◌, ◌≤◌, if◌then◌else◌};

use field25519::Number;

/// 1 or 0, without a branch.
#[inline(always)]
fn flag(first: bool) -> u64
    ensures flag { result ≡ if first then 1 else 0 }
    ensures below { result ≤ 1 }
{
    u64::from(first)
}

/// One of two numbers, without a branch.
#[inline(always)]
pub fn chosen(first: bool, a: &Number, b: &Number) -> Number
    ensures { result ≡ if first then a.now else b.now }
{
    Number::chosen(flag(first), a, b)
}
