//! Short byte strings, which lie in the value that has them.

ghost use Rattle.std.specs.Prelude.{◌≡◌, ◌≤◌, ◌<◌, ◌^◌, ◌%◌, length};
ghost use Rattle.fab_types.specs.Order.{key_cmp};

use crate::order::compare;
use std::cmp::Ordering;
use std::fmt::{self, Debug, Formatter, Write};
use std::marker::Model;

/// Up to `N` bytes, and no more than 255. It takes no memory, and no byte of it lies elsewhere.
#[derive(Drop)]
pub struct ShortBytes<const N: usize> {
    len: u8,
    /// The bytes, and zeros behind them.
    bytes: [u8; N],
}

impl<const N: usize> Model for ShortBytes<N> {
    ghost use Rattle.std.specs.Prelude.{List, ℕ, take, drop, replicate, ◌≡◌, ◌≤◌, ◌-◌};

    ghost Value = { List ℕ };

    ghost view = { λ s. take s.len s.bytes };

    ghost invariant = { λ s. (s.len ≤ N) × (drop s.len s.bytes ≡ replicate (N - s.len) 0) };
}

impl<const N: usize> ShortBytes<N> {
    /// A copy of these bytes.
    pub fn new(bytes: &[u8]) -> ShortBytes<N>
        requires room { length bytes.now ≤ N }
        requires short { length bytes.now < 2 ^ 8 }
        ensures { result ≡ bytes.now }
    {
        let mut copy = [0; N];
        copy[..bytes.len()].copy_from_slice(bytes);
        ShortBytes {
            len: bytes.len() as u8,
            bytes: copy,
        }
    }

    /// The bytes.
    #[inline]
    pub fn as_slice(&self) -> &[u8]
        ensures { result.now ≡ self.now }
    {
        &self.bytes[..usize::from(self.len)]
    }

    /// How two byte strings compare.
    #[inline]
    pub fn compare(&self, other: &ShortBytes<N>) -> Ordering
        requires { N % 8 ≡ 0 }
        ensures { result ≡ key_cmp self.now other.now }
    {
        let (m, n) = (usize::from(self.len), usize::from(other.len));
        compare(&self.bytes, m, &other.bytes, n)
    }

    /// The same bytes once more.
    #[inline]
    pub fn copy(&self) -> ShortBytes<N>
        ensures { result ≡ self.now }
    {
        ShortBytes {
            len: self.len,
            bytes: self.bytes,
        }
    }
}

impl<const N: usize> Debug for ShortBytes<N> {
    fn fmt<W: Write>(&self, f: &mut Formatter<W>) -> fmt::Result {
        f.debug_list().entries(self.as_slice()).finish()
    }
}
