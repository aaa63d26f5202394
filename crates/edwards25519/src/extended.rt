//! Extended homogeneous coordinates (RFC 8032, section 5.1.4).

ghost use Rattle.std.specs.Prelude.{◌≡◌, ◌*◌, ◌%◌};
ghost use Rattle.field25519.specs.Modulo.{p};
ghost use Rattle.edwards_model.specs.Curve.{d};
ghost use Rattle.edwards_model.specs.Extended.{completed, added, doubled, same_point};
ghost use Rattle.edwards25519.specs.Coordinates.{coordinates};
ghost use Rattle.edwards25519.specs.Prepared.{added_prepared};

use field25519::{Field, Number};

/// x / z and y / z, with t = x y / z.
#[derive(Drop)]
pub(crate) struct Extended {
    pub(crate) x: Field,
    pub(crate) y: Field,
    pub(crate) z: Field,
    pub(crate) t: Field,
}

pub(crate) fn zero() -> Field
    ensures { result ≡ 0 }
{
    Field::from_number(&Number::new(0, 0, 0, 0))
}

pub(crate) fn one() -> Field
    ensures { result ≡ 1 }
{
    Field::from_number(&Number::new(1, 0, 0, 0))
}

fn twice_d() -> Field
    ensures { result ≡ 2 * d % p }
{
    Field::from_number(&Number::new(
        0xebd69b9426b2f159,
        0x00e0149a8283b156,
        0x198e80f2eef3d130,
        0x2406d9dc56dffce7,
    ))
}

#[inline(always)]
fn completed(e: &Field, f: &Field, g: &Field, h: &Field) -> Extended
    ensures { coordinates result ≡ completed e.now f.now g.now h.now }
{
    Extended {
        x: e.times(f),
        y: g.times(h),
        z: f.times(g),
        t: e.times(h),
    }
}

impl Extended {
    #[inline(always)]
    pub(crate) fn plus(&self, other: &Extended) -> Extended
        ensures { coordinates result ≡ added (coordinates self.now) (coordinates other.now) }
    {
        let a = self.y.minus(&self.x).times(&other.y.minus(&other.x));
        let b = self.y.plus(&self.x).times(&other.y.plus(&other.x));
        let c = self.t.times(&twice_d()).times(&other.t);
        let d = self.z.plus(&self.z).times(&other.z);
        completed(&b.minus(&a), &d.minus(&c), &d.plus(&c), &b.plus(&a))
    }

    #[inline(always)]
    pub(crate) fn doubled(&self) -> Extended
        ensures { coordinates result ≡ doubled (coordinates self.now) }
    {
        let a = self.x.squared();
        let b = self.y.squared();
        let c = self.z.squared();
        let c = c.plus(&c);
        let s = self.x.plus(&self.y).squared();
        let g = a.minus(&b);
        let h = a.plus(&b);
        completed(&h.minus(&s), &c.plus(&g), &g, &h)
    }

    /// The sum with a point of which y - x, y + x and 2 d x y are given.
    #[inline(always)]
    pub(crate) fn plus_prepared(&self, difference: &Field, sum: &Field, product: &Field) -> Extended
        ensures { coordinates result ≡
            added_prepared (coordinates self.now) difference.now sum.now product.now }
    {
        let a = self.y.minus(&self.x).times(difference);
        let b = self.y.plus(&self.x).times(sum);
        let c = self.t.times(product);
        let d = self.z.plus(&self.z);
        completed(&b.minus(&a), &d.minus(&c), &d.plus(&c), &b.plus(&a))
    }

    pub(crate) fn is(&self, other: &Extended) -> bool
        ensures { result ≡ same_point (coordinates self.now) (coordinates other.now) }
    {
        self.x.times(&other.z).is(&other.x.times(&self.z))
            && self.y.times(&other.z).is(&other.y.times(&self.z))
    }
}
