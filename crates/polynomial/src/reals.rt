// Polynomials with real coefficients, and the roots that count as real.
ghost use Rattle.std.specs.Prelude.{◌≡◌};
ghost use Rattle.polynomial.specs.Roots.{real_parts, real_quartic};

use crate::{Quartic, Vector5};
use array_vec::ArrayVec;
use complex::Complex;

// The polynomial with these real coefficients.
impl From<Vector5> for Quartic {
    ghost from_gives = { λ v p. p ≡ real_quartic v };

    fn from(v: Vector5) -> Quartic {
        Quartic {
            a: Complex { re: v.a, im: 0.0 },
            b: Complex { re: v.b, im: 0.0 },
            c: Complex { re: v.c, im: 0.0 },
            d: Complex { re: v.d, im: 0.0 },
            e: Complex { re: v.e, im: 0.0 },
        }
    }
}

// The real parts of those roots whose imaginary part is smaller than epsilon, in their order. A loop of
// pushes, and not `filter`, `map` and `collect`: that takes an allocator, and may fail.
pub fn real_parts(epsilon: f64, found: &ArrayVec<Complex, 4>) -> ArrayVec<f64, 4>
    ensures { result.items ≡ real_parts epsilon found.now.items }
{
    let mut reals = ArrayVec::new();
    for z in found.iter() {
        if float::abs(z.im) < epsilon {
            reals.push(z.re);
        }
    }
    reals
}
