//! The curve edwards25519 (RFC 8032, section 5.1): definitions and laws, which take no time to run.
#![tactic(auto)]

ghost use Rattle.field25519.specs.Modulo.{p};
ghost use Rattle.edwards_model.specs.Curve.{Affine, IsPoint};
ghost use Rattle.edwards_model.specs.Inverses.{IsPrimeByInverses};
ghost use Rattle.edwards_model.specs.Laws.{PointsAreGroup, SumHasDenominators};
ghost use Rattle.edwards_model.specs.Laws.{BaseHasOrder, PointsAreEncoded};

/// 2^255 - 19 is prime.
pub fn p_is_prime()
    ensures { IsPrimeByInverses p }
{}

/// The denominators in a sum of two points are never zero, so the addition has no exceptions.
pub fn sums_have_denominators()
    ensures { (a b : Affine) → IsPoint a → IsPoint b → SumHasDenominators a b }
{}

/// The points are a commutative group: (0, 1) is neutral, and (-x, y) is the opposite of (x, y).
pub fn points_are_group()
    ensures { PointsAreGroup }
{}

/// The base point has the prime order L.
pub fn base_has_order()
    ensures { BaseHasOrder }
{}

/// A point is decoded from its encoding, and what is decoded is a point.
pub fn points_are_encoded()
    ensures { PointsAreEncoded }
{}
