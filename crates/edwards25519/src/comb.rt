//! Multiples of the base point, by a table that is read whole: neither a branch nor a place in the
//! table tells of the number.

ghost use Rattle.std.specs.Prelude.{◌≡◌, ◌%◌, ◌/◌, ◌<◌, ◌*◌, ◌^◌};
ghost use Rattle.edwards_model.specs.Curve.{base, multiple};
ghost use Rattle.edwards25519.specs.Comb.{tooth};
ghost use Rattle.edwards25519.specs.Prepared.{row_for};

use crate::point::Point;
use crate::prepared::{Prepared, Row};
use crate::table::MULTIPLES;
use field25519::Number;

/// The row of a window that a digit says, or that of the neutral point for 0. All rows are read.
#[inline(always)]
fn row_for(rows: &[[u64; 12]; 15], digit: u64) -> Row
    requires { digit < 16 }
    ensures { result ≡ row_for digit rows.now }
{
    let mut row = Row::neutral();
    for place in 0..15 {
        row = row.or(digit == place as u64 + 1, &rows[place]);
    }
    row
}

/// A multiple, from 0 to 15 times, of the base point of a window.
#[inline(always)]
fn multiple_of_base(window: usize, digit: u64) -> Prepared
    requires window { window < 16 }
    requires digit { digit < 16 }
    ensures { result ≡ multiple (65536 ^ window * digit) base }
{
    row_for(&MULTIPLES[window], digit).prepared()
}

/// The number without its low four bits.
#[inline(always)]
fn without_digit(number: &Number) -> Number
    ensures { result ≡ number.now / 16 }
{
    Number::new(
        (number.word0() >> 4) + number.word1() % 16 * (1 << 60),
        (number.word1() >> 4) + number.word2() % 16 * (1 << 60),
        (number.word2() >> 4) + number.word3() % 16 * (1 << 60),
        number.word3() >> 4,
    )
}

/// The number without its low window.
#[inline(always)]
fn without_window(number: &Number) -> Number
    ensures { result ≡ number.now / 65536 }
{
    Number::new(
        (number.word0() >> 16) + number.word1() % 65536 * (1 << 48),
        (number.word1() >> 16) + number.word2() % 65536 * (1 << 48),
        (number.word2() >> 16) + number.word3() % 65536 * (1 << 48),
        number.word3() >> 16,
    )
}

/// The multiple by the low four bits of each window of a number.
fn tooth(number: &Number) -> Point
    ensures { result ≡ multiple (tooth 16 number.now) base }
{
    let mut rest = number.copy();
    let mut sum = Point::neutral();
    for window in 0..16 {
        sum = sum.plus_prepared(&multiple_of_base(window, rest.word0() % 16));
        rest = without_window(&rest);
    }
    sum
}

/// The multiple of the base point by a number.
pub(crate) fn times_base(number: &Number) -> Point
    ensures { result ≡ multiple number.now base }
{
    let first = number.copy();
    let second = without_digit(&first);
    let third = without_digit(&second);
    let fourth = without_digit(&third);
    let sum = tooth(&fourth).times_16().plus(&tooth(&third));
    let sum = sum.times_16().plus(&tooth(&second));
    sum.times_16().plus(&tooth(&first))
}
