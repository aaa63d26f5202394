//! Residues modulo p = 2^255 - 19, in five limbs of 51 bits and a little more, low limb first.

ghost use Rattle.std.specs.Prelude.{◌≡◌, ℕ, ◌+◌, ◌-◌, ◌*◌, ◌/◌, ◌%◌, ◌^◌, ◌<◌, ◌≤◌, nat_eq};
ghost use Rattle.field25519.specs.Modulo.{p, plus, minus, times, power};

use crate::number::Number;
use std::marker::Model;

const RADIX: u64 = 1 << 51;

const WIDE_RADIX: u128 = 1 << 51;

/// A residue modulo p, which contracts see as the number below p.
#[derive(Drop)]
pub struct Field {
    a: u64,
    b: u64,
    c: u64,
    d: u64,
    e: u64,
}

impl Model for Field {
    ghost use Rattle.std.specs.Prelude.{ℕ, ◌+◌, ◌*◌, ◌%◌, ◌^◌, ◌<◌};
    ghost use Rattle.field25519.specs.Modulo.{p};
    ghost use Rattle.field25519.specs.Limbs.{limbs};

    ghost Value = { ℕ };

    ghost view = { λ f. limbs f.a f.b f.c f.d f.e % p };

    ghost invariant = { λ f.
        (f.a < 2 ^ 52) × (f.b < 2 ^ 52) × (f.c < 2 ^ 52) × (f.d < 2 ^ 52) × (f.e < 2 ^ 52) };
}

ghost use Rattle.field25519.specs.Limbs.{limbs};

/// Five factors of a column: limbs, or 19 times limbs.
type Limbs = (u64, u64, u64, u64, u64);

/// Five products and their sum: a column of the product of two residues.
#[inline(always)]
fn column(x: Limbs, y: Limbs) -> u128
    requires left { (x.0 < 2 ^ 52) × (x.1 < 2 ^ 52) × (x.2 < 2 ^ 52) × (x.3 < 2 ^ 52)
        × (x.4 < 2 ^ 52) }
    requires right { (y.0 < 2 ^ 57) × (y.1 < 2 ^ 57) × (y.2 < 2 ^ 57) × (y.3 < 2 ^ 57)
        × (y.4 < 2 ^ 57) }
    ensures sum { result ≡ x.0 * y.0 + x.1 * y.1 + x.2 * y.2 + x.3 * y.3 + x.4 * y.4 }
    ensures small { result < 2 ^ 112 }
{
    product(x.0, y.0)
        + product(x.1, y.1)
        + product(x.2, y.2)
        + product(x.3, y.3)
        + product(x.4, y.4)
}

/// The product of two limbs, of which the second may be 19 times one.
#[inline(always)]
fn product(x: u64, y: u64) -> u128
    requires x { x < 2 ^ 52 }
    requires y { y < 2 ^ 57 }
    ensures product { result ≡ x * y }
    ensures small { result < 2 ^ 109 }
{
    u128::from(x) * u128::from(y)
}

/// The residue of five wide limbs: what is above 51 bits of each goes to the next, and from the
/// last, 19 times, to the first.
#[inline(always)]
fn carried(a: u128, b: u128, c: u128, d: u128, e: u128) -> Field
    requires { (a < 2 ^ 112) × (b < 2 ^ 112) × (c < 2 ^ 112) × (d < 2 ^ 112) × (e < 2 ^ 112) }
    ensures { result ≡ limbs a b c d e % p }
{
    let b = b + above(a);
    let c = c + above(b);
    let d = d + above(c);
    let e = e + above(d);
    let a = a % WIDE_RADIX + 19 * above(e);
    Field {
        a: (a % WIDE_RADIX) as u64,
        b: (b % WIDE_RADIX) as u64 + (a >> 51) as u64,
        c: (c % WIDE_RADIX) as u64,
        d: (d % WIDE_RADIX) as u64,
        e: (e % WIDE_RADIX) as u64,
    }
}

/// What is above the 51 bits of a column, which fits a word.
#[inline(always)]
fn above(column: u128) -> u128
    requires { column < 2 ^ 114 }
    ensures { result ≡ column / 2 ^ 51 }
{
    u128::from((column >> 51) as u64)
}

/// The residue of five limbs below 2^58.
#[inline(always)]
fn settled(a: u64, b: u64, c: u64, d: u64, e: u64) -> Field
    requires { (a < 2 ^ 58) × (b < 2 ^ 58) × (c < 2 ^ 58) × (d < 2 ^ 58) × (e < 2 ^ 58) }
    ensures { result ≡ limbs a b c d e % p }
{
    Field {
        a: a % RADIX + 19 * (e >> 51),
        b: b % RADIX + (a >> 51),
        c: c % RADIX + (b >> 51),
        d: d % RADIX + (c >> 51),
        e: e % RADIX + (d >> 51),
    }
}

impl Field {
    /// The sum.
    #[inline(always)]
    pub fn plus(&self, other: &Field) -> Field
        ensures { result ≡ plus self.now other.now }
    {
        settled(
            self.a + other.a,
            self.b + other.b,
            self.c + other.c,
            self.d + other.d,
            self.e + other.e,
        )
    }

    /// The difference: four times p is added, so that no limb is below zero.
    #[inline(always)]
    pub fn minus(&self, other: &Field) -> Field
        ensures { result ≡ minus self.now other.now }
    {
        settled(
            self.a + (4 * RADIX - 76) - other.a,
            self.b + (4 * RADIX - 4) - other.b,
            self.c + (4 * RADIX - 4) - other.c,
            self.d + (4 * RADIX - 4) - other.d,
            self.e + (4 * RADIX - 4) - other.e,
        )
    }

    /// The product. A column past the fifth comes back 19 times, since 2^255 is 19 modulo p.
    #[inline(always)]
    pub fn times(&self, other: &Field) -> Field
        ensures { result ≡ times self.now other.now }
    {
        let b19 = 19 * other.b;
        let c19 = 19 * other.c;
        let d19 = 19 * other.d;
        let e19 = 19 * other.e;
        let x = (self.a, self.b, self.c, self.d, self.e);
        carried(
            column(x, (other.a, e19, d19, c19, b19)),
            column(x, (other.b, other.a, e19, d19, c19)),
            column(x, (other.c, other.b, other.a, e19, d19)),
            column(x, (other.d, other.c, other.b, other.a, e19)),
            column(x, (other.e, other.d, other.c, other.b, other.a)),
        )
    }

    /// The square.
    #[inline(always)]
    pub fn squared(&self) -> Field
        ensures { result ≡ times self.now self.now }
    {
        let b38 = 38 * self.b;
        let c38 = 38 * self.c;
        let d38 = 38 * self.d;
        let d19 = 19 * self.d;
        let e19 = 19 * self.e;
        let a2 = 2 * self.a;
        let b2 = 2 * self.b;
        carried(
            column3(self.a, b38, c38, self.a, self.e, self.d),
            column3(a2, c38, d19, self.b, self.e, self.d),
            column3(a2, self.b, d38, self.c, self.b, self.e),
            column3(a2, b2, e19, self.d, self.c, self.e),
            column3(a2, b2, self.c, self.e, self.d, self.c),
        )
    }

    /// The residue of a number.
    #[inline(always)]
    pub fn from_number(number: &Number) -> Field
        ensures { result ≡ number.now % p }
    {
        let w0 = number.word0();
        let w1 = number.word1();
        let w2 = number.word2();
        let w3 = number.word3();
        Field {
            a: w0 % (1 << 51),
            b: (w0 >> 51) + w1 % (1 << 38) * (1 << 13),
            c: (w1 >> 38) + w2 % (1 << 25) * (1 << 26),
            d: (w2 >> 25) + w3 % (1 << 12) * (1 << 39),
            e: w3 >> 12,
        }
    }

    /// 2^((p - 1) / 4), whose square is -1.
    pub fn imaginary() -> Field
        ensures { result ≡ power 2 ((p - 1) / 4) }
    {
        Field::from_number(&Number::new(
            0xc4ee1b274a0ea0b0,
            0x2f431806ad2fe478,
            0x2b4d00993dfbd7a7,
            0x2b8324804fc1df0b,
        ))
    }

    /// The residue as a number below p.
    pub fn to_number(&self) -> Number
        ensures { result ≡ self.now }
    {
        let f = self.least();
        Number::new(
            f.a + f.b % (1 << 13) * (1 << 51),
            (f.b >> 13) + f.c % (1 << 26) * (1 << 38),
            (f.c >> 26) + f.d % (1 << 39) * (1 << 25),
            (f.d >> 39) + f.e * (1 << 12),
        )
    }

    /// The least limbs of the residue.
    fn least(&self) -> Least
        ensures { limbs result.a result.b result.c result.d result.e ≡ self.now }
    {
        let b = self.b + (self.a >> 51);
        let c = self.c + (b >> 51);
        let d = self.d + (c >> 51);
        let e = self.e + (d >> 51);
        reduced(
            self.a % RADIX + 19 * (e >> 51),
            b % RADIX,
            c % RADIX,
            d % RADIX,
            e % RADIX,
        )
    }

    /// Whether two residues are the same.
    pub fn is(&self, other: &Field) -> bool
        ensures { result ≡ nat_eq self.now other.now }
    {
        self.to_number().is(&other.to_number())
    }

    /// The same residue.
    #[inline(always)]
    pub fn copy(&self) -> Field
        ensures { result ≡ self.now }
    {
        Field {
            a: self.a,
            b: self.b,
            c: self.c,
            d: self.d,
            e: self.e,
        }
    }

    /// What squaring several times gives.
    fn squared_times(&self, count: u32) -> Field
        requires { 0 < count }
        ensures { result ≡ power self.now (2 ^ count) }
    {
        let mut x = self.squared();
        for _ in 1..count {
            x = x.squared();
        }
        x
    }

    /// The powers with exponents 11 and 2^250 - 1.
    fn chain(&self) -> Chain
        ensures eleven { result.eleven ≡ power self.now 11 }
        ensures ones { result.ones ≡ power self.now (2 ^ 250 - 1) }
    {
        let z2 = self.squared();
        let z9 = self.times(&z2.squared_times(2));
        let z11 = z9.times(&z2);
        let z5 = z11.squared().times(&z9);
        let z10 = z5.squared_times(5).times(&z5);
        let z20 = z10.squared_times(10).times(&z10);
        let z40 = z20.squared_times(20).times(&z20);
        let z50 = z40.squared_times(10).times(&z10);
        let z100 = z50.squared_times(50).times(&z50);
        let z200 = z100.squared_times(100).times(&z100);
        Chain {
            eleven: z11,
            ones: z200.squared_times(50).times(&z50),
        }
    }

    /// The power with exponent p - 2: the inverse, and 0 of 0.
    pub fn inverse(&self) -> Field
        ensures { result ≡ power self.now (p - 2) }
    {
        let chain = self.chain();
        chain.ones.squared_times(5).times(&chain.eleven)
    }

    /// The power with exponent (p - 5) / 8, from which square roots are made (RFC 8032, section
    /// 5.1.3).
    pub fn root_power(&self) -> Field
        ensures { result ≡ power self.now ((p - 5) / 8) }
    {
        let chain = self.chain();
        chain.ones.squared_times(2).times(self)
    }
}

/// Limbs below 2^51 of a number below p.
#[derive(Drop)]
struct Least {
    a: u64,
    b: u64,
    c: u64,
    d: u64,
    e: u64,
    ghost a_small: { a < 2 ^ 51 },
    ghost b_small: { b < 2 ^ 51 },
    ghost c_small: { c < 2 ^ 51 },
    ghost d_small: { d < 2 ^ 51 },
    ghost e_small: { e < 2 ^ 51 },
}

/// Two powers of a residue, from which the others are a few steps.
#[derive(Drop)]
struct Chain {
    eleven: Field,
    ones: Field,
}

/// Three products and their sum: a column of a square.
#[inline(always)]
fn column3(a: u64, b: u64, c: u64, a2: u64, b2: u64, c2: u64) -> u128
    requires left { (a < 2 ^ 58) × (b < 2 ^ 58) × (c < 2 ^ 58) }
    requires right { (a2 < 2 ^ 52) × (b2 < 2 ^ 52) × (c2 < 2 ^ 52) }
    ensures sum { result ≡ a * a2 + b * b2 + c * c2 }
    ensures small { result < 2 ^ 112 }
{
    wider_product(a, a2) + wider_product(b, b2) + wider_product(c, c2)
}

/// The product of two limbs, of which the first may be 38 times one.
#[inline(always)]
fn wider_product(x: u64, y: u64) -> u128
    requires x { x < 2 ^ 58 }
    requires y { y < 2 ^ 52 }
    ensures product { result ≡ x * y }
    ensures small { result < 2 ^ 110 }
{
    u128::from(x) * u128::from(y)
}

/// The least limbs with the residue of these, which stand for a number below 2 p.
fn reduced(a: u64, b: u64, c: u64, d: u64, e: u64) -> Least
    requires { (a < 2 ^ 51 + 2 ^ 10) × (b < 2 ^ 51) × (c < 2 ^ 51) × (d < 2 ^ 51) × (e < 2 ^ 51) }
    ensures { limbs result.a result.b result.c result.d result.e ≡ limbs a b c d e % p }
{
    let over = (a + 19) >> 51;
    let over = (b + over) >> 51;
    let over = (c + over) >> 51;
    let over = (d + over) >> 51;
    let over = (e + over) >> 51;
    let a = a + 19 * over;
    let b = b + (a >> 51);
    let c = c + (b >> 51);
    let d = d + (c >> 51);
    let e = e + (d >> 51);
    Least {
        a: a % RADIX,
        b: b % RADIX,
        c: c % RADIX,
        d: d % RADIX,
        e: e % RADIX,
    }
}
