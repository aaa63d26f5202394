//! A choice of two words without a branch.

ghost use Rattle.std.specs.Prelude.{◌≡◌, ◌-◌, ◌*◌, ◌^◌, ◌≤◌, ◌⊎◌, nat_eq, if◌then◌else◌};

/// Ones in each bit where the flag is 1, zeros where it is 0. It is a call of its own: of a mask
/// that LLVM sees computed from a flag it makes a branch on the flag.
#[inline(never)]
pub(crate) fn mask_of(flag: u64) -> u64
    requires { flag ≤ 1 }
    ensures { result ≡ flag * (2 ^ 64 - 1) }
{
    0_u64.wrapping_sub(flag)
}

/// The first word under ones, the second under zeros.
#[inline(always)]
pub(crate) fn under(mask: u64, first: u64, second: u64) -> u64
    requires { (mask ≡ 2 ^ 64 - 1) ⊎ (mask ≡ 0) }
    ensures { result ≡ (if nat_eq mask 0 then second else first) }
{
    (first & mask) + (second & (u64::MAX - mask))
}
