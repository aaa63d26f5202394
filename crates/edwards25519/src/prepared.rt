//! Points prepared for a sum, from rows of a table.

ghost use Rattle.std.specs.Prelude.{◌≡◌, ◌%◌, ◌<◌, ◌≤◌, ◌+◌, ◌*◌, ◌^◌, Bool, true, if◌then◌else◌};
ghost use Rattle.field25519.specs.Modulo.{p};
ghost use Rattle.edwards25519.specs.Prepared.{Prepares, halved, number_at, row_of, IsRow};

use crate::choice::chosen;
use field25519::{Field, Number};
use std::marker::Model;

/// A point by y - x, y + x and 2 d x y.
#[derive(Drop)]
pub(crate) struct Prepared {
    pub(crate) difference: Field,
    pub(crate) sum: Field,
    pub(crate) product: Field,
}

impl Model for Prepared {
    ghost use Rattle.edwards_model.specs.Curve.{Affine};
    ghost use Rattle.edwards25519.specs.Prepared.{Prepares, halved};

    ghost Value = { Affine };

    ghost view = { λ r. halved r.difference r.sum };

    ghost invariant = { λ r. Prepares r.difference r.sum r.product (halved r.difference r.sum) };
}

/// The numbers of a row.
#[derive(Drop)]
pub(crate) struct Row {
    difference: Number,
    sum: Number,
    product: Number,
}

/// The number of four words.
#[inline(always)]
fn number_at(words: &[u64; 12], place: usize) -> Number
    requires { place + 4 ≤ 12 }
    ensures { result ≡ number_at words.now place }
{
    Number::new(
        words[place],
        words[place + 1],
        words[place + 2],
        words[place + 3],
    )
}

impl Row {
    /// The row of the neutral point.
    pub(crate) fn neutral() -> Row
        ensures { result ≡ record { difference = 1; sum = 1; product = 0 } }
    {
        Row {
            difference: Number::new(1, 0, 0, 0),
            sum: Number::new(1, 0, 0, 0),
            product: Number::new(0, 0, 0, 0),
        }
    }

    /// The row of these words, or this, without a branch.
    #[inline(always)]
    pub(crate) fn or(&self, first: bool, words: &[u64; 12]) -> Row
        ensures { result ≡ if first then row_of words.now else self.now }
    {
        Row {
            difference: chosen(first, &number_at(words, 0), &self.difference),
            sum: chosen(first, &number_at(words, 4), &self.sum),
            product: chosen(first, &number_at(words, 8), &self.product),
        }
    }

    /// The point that the row prepares.
    #[inline(always)]
    pub(crate) fn prepared(&self) -> Prepared
        requires { IsRow self.now }
        ensures { result ≡ halved (self.now.difference % p) (self.now.sum % p) }
    {
        Prepared {
            difference: Field::from_number(&self.difference),
            sum: Field::from_number(&self.sum),
            product: Field::from_number(&self.product),
        }
    }
}
