//! Points, which contracts see as pairs.

ghost use Rattle.std.specs.Prelude.{◌≡◌, ◌↔◌, ℕ, true, get_or, length, nat_lt};
ghost use Rattle.std.specs.Prelude.{◌%◌, ◌/◌, ◌^◌, ◌<◌, ◌+◌, ◌*◌};
ghost use Rattle.field25519.specs.Modulo.{p};
ghost use Rattle.edwards_model.specs.Curve.{d, IsPoint, same, sum, neutral, base, multiple};
ghost use Rattle.edwards_model.specs.Encoding.{encoded, candidate, root, IsRootOf};
ghost use Rattle.edwards_model.specs.Encoding.{with_sign, on_row, decoded};

use crate::comb::times_base;
use crate::extended::{Extended, one, zero};
use crate::prepared::Prepared;
use field25519::{Field, Number};
use std::marker::Model;

/// A point of the curve.
#[derive(Drop)]
pub struct Point {
    at: Extended,
}

impl Model for Point {
    ghost use Rattle.edwards_model.specs.Curve.{Affine};
    ghost use Rattle.edwards_model.specs.Extended.{affine, Represents};
    ghost use Rattle.edwards25519.specs.Coordinates.{coordinates};

    ghost Value = { Affine };

    ghost view = { λ q. affine (coordinates q.at) };

    ghost invariant = { λ q. Represents (coordinates q.at) (affine (coordinates q.at)) };
}

impl Point {
    /// The neutral point (0, 1).
    pub fn neutral() -> Point
        ensures { result ≡ neutral }
    {
        Point {
            at: Extended {
                x: zero(),
                y: one(),
                z: one(),
                t: zero(),
            },
        }
    }

    /// The sum (RFC 8032, section 5.1.4).
    #[inline(always)]
    pub fn plus(&self, other: &Point) -> Point
        ensures { result ≡ sum self.now other.now }
    {
        Point {
            at: self.at.plus(&other.at),
        }
    }

    /// The sum with itself.
    #[inline(always)]
    pub fn doubled(&self) -> Point
        ensures { result ≡ sum self.now self.now }
    {
        Point {
            at: self.at.doubled(),
        }
    }

    /// The sum with a point that is prepared for it.
    #[inline(always)]
    pub(crate) fn plus_prepared(&self, other: &Prepared) -> Point
        ensures { result ≡ sum self.now other.now }
    {
        Point {
            at: self
                .at
                .plus_prepared(&other.difference, &other.sum, &other.product),
        }
    }

    /// The point 16 times.
    #[inline(always)]
    pub(crate) fn times_16(&self) -> Point
        ensures { result ≡ multiple 16 self.now }
    {
        // For the proof alone, here and below: who reads a field knows the invariant.
        let _at = &self.at;
        self.doubled().doubled().doubled().doubled()
    }

    /// Its multiples from 0 to 15 times.
    fn multiples(&self) -> [Point; 16]
        ensures count { length result ≡ 16 }
        ensures each { (k : ℕ) → k < 16 → get_or result k neutral ≡ multiple k self.now }
    {
        let _at = &self.at;
        let p1 = Point::neutral().plus(self);
        let p2 = p1.plus(self);
        let p3 = p2.plus(self);
        let p4 = p3.plus(self);
        let p5 = p4.plus(self);
        let p6 = p5.plus(self);
        let p7 = p6.plus(self);
        let p8 = p7.plus(self);
        let p9 = p8.plus(self);
        let p10 = p9.plus(self);
        let p11 = p10.plus(self);
        let p12 = p11.plus(self);
        let p13 = p12.plus(self);
        let p14 = p13.plus(self);
        let p15 = p14.plus(self);
        [
            Point::neutral(),
            p1,
            p2,
            p3,
            p4,
            p5,
            p6,
            p7,
            p8,
            p9,
            p10,
            p11,
            p12,
            p13,
            p14,
            p15,
        ]
    }

    /// The sum of so many as a number says, which is to be no secret: places of a table are taken
    /// by its digits.
    pub fn times(&self, number: &Number) -> Point
        ensures { result ≡ multiple number.now self.now }
    {
        let _at = &self.at;
        let multiples = self.multiples();
        let bytes = number.copy().to_bytes();
        let mut sum = Point::neutral();
        for place in 0..32 {
            let byte = bytes[31 - place];
            let high = sum.times_16().plus(&multiples[usize::from(byte / 16)]);
            sum = high.times_16().plus(&multiples[usize::from(byte % 16)]);
        }
        sum
    }

    /// The multiple of the base point by a number, of which no branch and no place in a table
    /// tells.
    pub fn times_base(number: &Number) -> Point
        ensures { result ≡ multiple number.now base }
    {
        times_base(number)
    }

    /// Whether the point 8 times is the neutral point.
    pub fn has_small_order(&self) -> bool
        ensures { result ≡ true ↔ multiple 8 self.now ≡ neutral }
    {
        let _at = &self.at;
        self.doubled().doubled().doubled().is(&Point::neutral())
    }

    /// Whether two points are the same.
    pub fn is(&self, other: &Point) -> bool
        ensures { result ≡ same self.now other.now }
    {
        self.at.is(&other.at)
    }

    /// The 32 bytes of the point (RFC 8032, section 5.1.2).
    pub fn encoded(&self) -> [u8; 32]
        ensures { result ≡ encoded self.now }
    {
        let inverse = self.at.z.inverse();
        let x = self.at.x.times(&inverse).to_number();
        let y = self.at.y.times(&inverse).to_number();
        spelled(&x, &y).to_bytes()
    }

    /// The point of 32 bytes, if they are the encoding of one (RFC 8032, section 5.1.3).
    #[tactic(auto, unfolding(edwards_model::specs::Encoding::decoded))]
    pub fn decoded(bytes: &[u8; 32]) -> Option<Point>
        ensures { result ≡ decoded bytes.now }
    {
        let number = Number::from_bytes(bytes);
        let y = without_top_bit(&number);
        if !is_below_p(&y) {
            return None;
        }
        on_row(Field::from_number(&y), top_bit(&number))
    }
}

/// y, and above its 255 bits the low bit of x.
fn spelled(x: &Number, y: &Number) -> Number
    requires { y.now < p }
    ensures { result ≡ y.now + 2 ^ 255 * (x.now % 2) }
{
    Number::new(
        y.word0(),
        y.word1(),
        y.word2(),
        y.word3() + x.word0() % 2 * (1 << 63),
    )
}

fn d() -> Field
    ensures { result ≡ d }
{
    Field::from_number(&Number::new(
        0x75eb4dca135978a3,
        0x00700a4d4141d8ab,
        0x8cc740797779e898,
        0x52036cee2b6ffe73,
    ))
}

/// A root of u / v, if there is one.
#[tactic(auto, unfolding(edwards_model::specs::Encoding::root))]
fn root(u: &Field, v: &Field) -> Option<Field>
    ensures { result ≡ root u.now v.now }
{
    let x = candidate(u, v);
    let square = v.times(&x.squared());
    if square.is(u) {
        Some(x)
    } else if square.is(&zero().minus(u)) {
        Some(x.times(&Field::imaginary()))
    } else {
        None
    }
}

fn candidate(u: &Field, v: &Field) -> Field
    ensures { result ≡ candidate u.now v.now }
{
    let v3 = v.squared().times(v);
    let v7 = v3.squared().times(v);
    u.times(&v3).times(&u.times(&v7).root_power())
}

/// The point with this x and y.
fn at(x: Field, y: Field) -> Point
    requires { IsPoint (record { x = x; y = y }) }
    ensures { result ≡ record { x = x; y = y } }
{
    let t = x.times(&y);
    Point {
        at: Extended { x, y, z: one(), t },
    }
}

/// The point with this y and this root, or its negative, as x.
fn with_sign(y: Field, sign: u64, x: Field) -> Option<Point>
    requires residue_x { x % p ≡ x }
    requires residue_y { y % p ≡ y }
    requires root { IsRootOf y x }
    ensures { result ≡ with_sign y sign x }
{
    let number = x.to_number();
    if number.is(&Number::new(0, 0, 0, 0)) && sign == 1 {
        return None;
    }
    let x = if number.word0() % 2 == sign {
        x
    } else {
        zero().minus(&x)
    };
    Some(at(x, y))
}

/// The point with this y.
fn on_row(y: Field, sign: u64) -> Option<Point>
    requires { y % p ≡ y }
    ensures { result ≡ on_row y sign }
{
    let yy = y.squared();
    match root(&yy.minus(&one()), &d().times(&yy).plus(&one())) {
        None => None,
        Some(x) => with_sign(y, sign, x),
    }
}

fn without_top_bit(number: &Number) -> Number
    ensures { result ≡ number.now % 2 ^ 255 }
{
    Number::new(
        number.word0(),
        number.word1(),
        number.word2(),
        number.word3() % (1 << 63),
    )
}

fn top_bit(number: &Number) -> u64
    ensures { result ≡ number.now / 2 ^ 255 }
{
    number.word3() >> 63
}

fn is_below_p(number: &Number) -> bool
    ensures { result ≡ nat_lt number.now p }
{
    // 2^256 - p
    number.plus(&Number::new(19, 0, 0, 1 << 63)).carry == 0
}
