// The roots of a quadratic with complex coefficients.
ghost use Rattle.std.specs.Prelude.{◌≡◌};
ghost use Rattle.polynomial.specs.Quadratic.{both, solve_quadratic_roots};

use crate::{EPSILON, Quadratic};
use array_vec::ArrayVec;
use complex::Complex;

#[tactic(auto, using(crate::proofs::Literals::two))]
fn both(a: Complex, b: Complex, p: Complex) -> ArrayVec<Complex, 4>
    ensures { result.items ≡ both a b p }
{
    let twice = a * 2.0;
    let mut roots = ArrayVec::new();
    roots.push((-b + p) / twice);
    roots.push((-b - p) / twice);
    roots
}

#[tactic(auto, using(crate::proofs::Literals::four), unfolding(crate::specs::Quadratic::solve_quadratic_roots))]
pub fn solve_quadratic_roots(p: Quadratic) -> ArrayVec<Complex, 4>
    ensures { result.items ≡ solve_quadratic_roots p }
{
    let Quadratic { a, b, c } = p;
    if complex::abs(a) < EPSILON {
        let mut roots = ArrayVec::new();
        if complex::abs(b) < EPSILON {
            return roots;
        }
        roots.push(-c / b);
        return roots;
    }
    both(a, b, complex::sqrt(b * b - a * 4.0 * c))
}
