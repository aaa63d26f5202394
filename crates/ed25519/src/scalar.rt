//! Numbers modulo the order of the base point.

ghost use Rattle.std.specs.Prelude.{◌≡◌, ◌+◌, ◌*◌, ◌%◌, ◌^◌, ◌<◌, nat_lt, if◌then◌else◌};
ghost use Rattle.field25519.specs.Bytes.{number};
ghost use Rattle.edwards_model.specs.Curve.{order};

use edwards25519::chosen;
use field25519::Number;
use std::marker::Model;

/// A number below the order.
#[derive(Drop)]
pub struct Scalar {
    n: Number,
}

impl Model for Scalar {
    ghost use Rattle.std.specs.Prelude.{ℕ, ◌<◌};
    ghost use Rattle.edwards_model.specs.Curve.{order};

    ghost Value = { ℕ };

    ghost view = { λ s. s.n };

    ghost invariant = { λ s. s.n < order };
}

/// 2^256 less the order.
fn complement() -> Number
    ensures { result + order ≡ 2 ^ 256 }
{
    Number::new(
        0xa7ed9ce5a30a2c13,
        0xeb2106215d086329,
        0xffffffffffffffff,
        0xefffffffffffffff,
    )
}

pub fn is_below_order(number: &Number) -> bool
    ensures { result ≡ nat_lt number.now order }
{
    number.plus(&complement()).carry == 0
}

impl Scalar {
    fn zero() -> Scalar
        ensures { result ≡ 0 }
    {
        Scalar {
            n: Number::new(0, 0, 0, 0),
        }
    }

    pub fn number(&self) -> &Number
        ensures { result.now ≡ self.now }
    {
        &self.n
    }

    /// One of two, without a branch.
    #[inline(always)]
    fn chosen(first: bool, a: &Scalar, b: &Scalar) -> Scalar
        ensures { result ≡ if first then a.now else b.now }
    {
        Scalar {
            n: chosen(first, &a.n, &b.n),
        }
    }

    /// The sum modulo the order, without a branch.
    #[inline(always)]
    pub fn plus(&self, other: &Scalar) -> Scalar
        ensures sum { result ≡ (self.now + other.now) % order }
        ensures below { result < order }
    {
        let sum = self.n.plus(&other.n).low;
        let over = sum.plus(&complement());
        Scalar {
            n: chosen(over.carry == 1, &over.low, &sum),
        }
    }

    /// The residue of a byte and this, put above it.
    fn followed_by(&self, byte: u8) -> Scalar
        ensures { result ≡ (byte + 256 * self.now) % order }
    {
        let mut x = self.plus(self);
        for _ in 1..8_usize {
            x = x.plus(&x);
        }
        let byte = Scalar {
            n: Number::new(u64::from(byte), 0, 0, 0),
        };
        byte.plus(&x)
    }

    /// The residue of 64 bytes, low byte first.
    pub fn from_bytes(bytes: &[u8; 64]) -> Scalar
        ensures { result ≡ number bytes.now % order }
    {
        let mut all = Scalar::zero();
        for place in 0..64 {
            all = all.followed_by(bytes[63 - place]);
        }
        all
    }

    /// The product with a number.
    pub fn times(&self, number: &Number) -> Scalar
        ensures { result ≡ self.now * number.now % order }
    {
        let mut bits = number.copy();
        let mut multiple = self.plus(&Scalar::zero());
        let mut sum = Scalar::zero();
        for _ in 0..256_usize {
            let more = sum.plus(&multiple);
            sum = Scalar::chosen(bits.is_odd(), &more, &sum);
            multiple = multiple.plus(&multiple);
            bits = bits.halved();
        }
        sum
    }
}
