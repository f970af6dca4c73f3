// The roots of a cubic with complex coefficients, by the general formula.
ghost use Rattle.std.specs.Prelude.{◌≡◌};
ghost use Rattle.complex.specs.Complex.{◌+ᶜ◌, ◌*ᶜ◌, ◌/ᶜ◌};
ghost use Rattle.polynomial.specs.Cubic.{z, p1_of, p2_of, q1_of, q2_of, outer, three_roots, one_root, solve_cubic_roots};

use crate::quadratic_roots::solve_quadratic_roots;
use crate::{Cubic, EPSILON, Quadratic};
use array_vec::ArrayVec;
use complex::Complex;

#[tactic(auto, using(crate::proofs::Literals::three), unfolding(crate::specs::Cubic::z))]
fn z() -> Complex
    ensures { result ≡ z }
{
    let minus = Complex { re: -1.0, im: 0.0 };
    let under = Complex { re: -3.0, im: 0.0 };
    (minus + complex::sqrt(under)) / 2.0
}

#[tactic(auto, using(crate::proofs::Literals::three), unfolding(crate::specs::Cubic::p1_of))]
fn p1(a: Complex, b: Complex, c: Complex) -> Complex
    ensures { result ≡ p1_of a b c }
{
    b * b - a * 3.0 * c
}

#[tactic(auto, using(crate::proofs::Literals::two, crate::proofs::Literals::nine, crate::proofs::Literals::twenty_seven), unfolding(crate::specs::Cubic::p2_of))]
fn p2(a: Complex, b: Complex, c: Complex, d: Complex) -> Complex
    ensures { result ≡ p2_of a b c d }
{
    b * 2.0 * b * b - a * 9.0 * b * c + a * 27.0 * a * d
}

// q1 and q2 differ in the sign before 4.0, which is each one's formula in the Rust: one function with the
// sign as a parameter would be no plainer.
#[tactic(auto, using(crate::proofs::Literals::four), unfolding(crate::specs::Cubic::q1_of))]
fn q1(p1: Complex, p2: Complex) -> Complex
    ensures { result ≡ q1_of p1 p2 }
{
    complex::cbrt((p2 + complex::sqrt(p2 * p2 - p1 * 4.0 * p1 * p1)) / 2.0)
}

#[tactic(auto, using(crate::proofs::Literals::four), unfolding(crate::specs::Cubic::q2_of))]
fn q2(p1: Complex, p2: Complex) -> Complex
    ensures { result ≡ q2_of p1 p2 }
{
    complex::cbrt((p2 + complex::sqrt(p2 * p2 + p1 * 4.0 * p1 * p1)) / 2.0)
}

// -1.0 / (3.0 * a)
#[tactic(auto, using(crate::proofs::Literals::three), unfolding(crate::specs::Cubic::outer))]
fn outer(a: Complex) -> Complex
    ensures { result ≡ outer a }
{
    -1.0 / (a * 3.0)
}

// The root that e gives, with the outer factor worked out before.
fn root(outer: Complex, b: Complex, p1: Complex, e: Complex) -> Complex
    ensures { result ≡ outer *ᶜ (b +ᶜ e +ᶜ p1 /ᶜ e) }
{
    outer * (b + e + p1 / e)
}

#[tactic(auto, unfolding(crate::specs::Cubic::three_roots))]
fn three_roots(a: Complex, b: Complex, p1: Complex, e0: Complex) -> ArrayVec<Complex, 4>
    ensures { result.items ≡ three_roots a b p1 e0 }
{
    let z = z();
    let e1 = e0 * z;
    let e2 = e1 * z;
    let factor = outer(a);
    let mut roots = ArrayVec::new();
    roots.push(root(factor, b, p1, e0));
    roots.push(root(factor, b, p1, e1));
    roots.push(root(factor, b, p1, e2));
    roots
}

#[tactic(auto, unfolding(crate::specs::Cubic::one_root))]
fn one_root(a: Complex, b: Complex) -> ArrayVec<Complex, 4>
    ensures { result.items ≡ one_root a b }
{
    let only = outer(a) * b;
    let mut roots = ArrayVec::new();
    roots.push(only);
    roots.push(only);
    roots.push(only);
    roots
}

// q2 is worked out only where q1 counts as zero.
#[tactic(auto, unfolding(crate::specs::Cubic::solve_cubic_roots))]
pub fn solve_cubic_roots(p: Cubic) -> ArrayVec<Complex, 4>
    ensures { result.items ≡ solve_cubic_roots p }
{
    let Cubic { a, b, c, d } = p;
    if complex::abs(a) < EPSILON {
        return solve_quadratic_roots(Quadratic { a: b, b: c, c: d });
    }
    let p1 = p1(a, b, c);
    let p2 = p2(a, b, c, d);
    let q1 = q1(p1, p2);
    if complex::abs(q1) > EPSILON {
        return three_roots(a, b, p1, q1);
    }
    let q2 = q2(p1, p2);
    if complex::abs(q2) > EPSILON {
        return three_roots(a, b, p1, q2);
    }
    one_root(a, b)
}
