// The roots of a quartic with complex coefficients, by the general formula.
ghost use Rattle.std.specs.Prelude.{◌≡◌};
ghost use Rattle.polynomial.specs.Quartic.{p1_of, q1_of, p2_of, q2_of, p3_of, p4_of, p5_of, p6_over, p6_of, centre, minus_root, plus_root, four_roots, formula, solve_quartic_roots};

use crate::cubic_roots::solve_cubic_roots;
use crate::{Cubic, EPSILON, Quartic};
use array_vec::ArrayVec;
use complex::Complex;

#[tactic(auto, using(crate::proofs::Literals::two, crate::proofs::Literals::nine, crate::proofs::Literals::twenty_seven, crate::proofs::Literals::seventy_two), unfolding(crate::specs::Quartic::p1_of))]
fn p1(a: Complex, b: Complex, c: Complex, d: Complex, e: Complex) -> Complex
    ensures { result ≡ p1_of a b c d e }
{
    c * 2.0 * c * c - b * 9.0 * c * d + a * 27.0 * d * d + b * 27.0 * b * e - a * 72.0 * c * e
}

#[tactic(auto, using(crate::proofs::Literals::three, crate::proofs::Literals::twelve), unfolding(crate::specs::Quartic::q1_of))]
fn q1(a: Complex, b: Complex, c: Complex, d: Complex, e: Complex) -> Complex
    ensures { result ≡ q1_of a b c d e }
{
    c * c - b * 3.0 * d + a * 12.0 * e
}

#[tactic(auto, using(crate::proofs::Literals::four), unfolding(crate::specs::Quartic::p2_of))]
fn p2(p1: Complex, q1: Complex) -> Complex
    ensures { result ≡ p2_of p1 q1 }
{
    p1 + complex::sqrt(q1 * -4.0 * q1 * q1 + p1 * p1)
}

#[tactic(auto, unfolding(crate::specs::Quartic::q2_of))]
fn q2(p2: Complex) -> Complex
    ensures { result ≡ q2_of p2 }
{
    complex::cbrt(p2 / 2.0)
}

#[tactic(auto, using(crate::proofs::Literals::three), unfolding(crate::specs::Quartic::p3_of))]
fn p3(a: Complex, q1: Complex, q2: Complex) -> Complex
    ensures { result ≡ p3_of a q1 q2 }
{
    let thrice = a * 3.0;
    q1 / (thrice * q2) + q2 / thrice
}

#[tactic(auto, using(crate::proofs::Literals::two, crate::proofs::Literals::three, crate::proofs::Literals::four), unfolding(crate::specs::Quartic::p4_of))]
fn p4(a: Complex, b: Complex, c: Complex, p3: Complex) -> Complex
    ensures { result ≡ p4_of a b c p3 }
{
    complex::sqrt(b * b / (a * 4.0 * a) - c * 2.0 / (a * 3.0) + p3)
}

#[tactic(auto, using(crate::proofs::Literals::two, crate::proofs::Literals::three, crate::proofs::Literals::four), unfolding(crate::specs::Quartic::p5_of))]
fn p5(a: Complex, b: Complex, c: Complex, p3: Complex) -> Complex
    ensures { result ≡ p5_of a b c p3 }
{
    b * b / (a * 2.0 * a) - c * 4.0 / (a * 3.0) - p3
}

// What stands over 4.0 * p4.
#[tactic(auto, using(crate::proofs::Literals::four, crate::proofs::Literals::eight), unfolding(crate::specs::Quartic::p6_over))]
fn p6_over(a: Complex, b: Complex, c: Complex, d: Complex) -> Complex
    ensures { result ≡ p6_over a b c d }
{
    -(b * b * b) / (a * a * a) + b * 4.0 * c / (a * a) - d * 8.0 / a
}

#[tactic(auto, using(crate::proofs::Literals::four), unfolding(crate::specs::Quartic::p6_of))]
fn p6(a: Complex, b: Complex, c: Complex, d: Complex, p4: Complex) -> Complex
    ensures { result ≡ p6_of a b c d p4 }
{
    p6_over(a, b, c, d) / (p4 * 4.0)
}

// -b / (4.0 * a)
#[tactic(auto, using(crate::proofs::Literals::four), unfolding(crate::specs::Quartic::centre))]
fn centre(a: Complex, b: Complex) -> Complex
    ensures { result ≡ centre a b }
{
    -b / (a * 4.0)
}

// Two functions of one line each, as the definition has them: they differ in an operator.
// (p5 - p6).sqrt() / 2.0
#[tactic(auto, unfolding(crate::specs::Quartic::minus_root))]
fn minus_root(p5: Complex, p6: Complex) -> Complex
    ensures { result ≡ minus_root p5 p6 }
{
    complex::sqrt(p5 - p6) / 2.0
}

// (p5 + p6).sqrt() / 2.0
#[tactic(auto, unfolding(crate::specs::Quartic::plus_root))]
fn plus_root(p5: Complex, p6: Complex) -> Complex
    ensures { result ≡ plus_root p5 p6 }
{
    complex::sqrt(p5 + p6) / 2.0
}

// The four roots, with what two of them share worked out once.
#[tactic(auto, unfolding(crate::specs::Quartic::four_roots))]
fn four_roots(a: Complex, b: Complex, p4: Complex, p5: Complex, p6: Complex) -> ArrayVec<Complex, 4>
    ensures { result.items ≡ four_roots a b p4 p5 p6 }
{
    let middle = centre(a, b);
    let half = p4 / 2.0;
    let left = middle - half;
    let right = middle + half;
    let near = minus_root(p5, p6);
    let far = plus_root(p5, p6);
    ArrayVec::from([left - near, left + near, right - far, right + far])
}

#[tactic(auto, unfolding(crate::specs::Quartic::formula))]
fn formula(a: Complex, b: Complex, c: Complex, d: Complex, e: Complex) -> ArrayVec<Complex, 4>
    ensures { result.items ≡ formula a b c d e }
{
    let p1 = p1(a, b, c, d, e);
    let q1 = q1(a, b, c, d, e);
    let p2 = p2(p1, q1);
    let q2 = q2(p2);
    let p3 = p3(a, q1, q2);
    let p4 = p4(a, b, c, p3);
    let p5 = p5(a, b, c, p3);
    let p6 = p6(a, b, c, d, p4);
    four_roots(a, b, p4, p5, p6)
}

#[tactic(auto, unfolding(crate::specs::Quartic::solve_quartic_roots))]
pub fn solve_quartic_roots(p: Quartic) -> ArrayVec<Complex, 4>
    ensures { result.items ≡ solve_quartic_roots p }
{
    let Quartic { a, b, c, d, e } = p;
    if complex::abs(a) < EPSILON {
        return solve_cubic_roots(Cubic {
            a: b,
            b: c,
            c: d,
            d: e,
        });
    }
    formula(a, b, c, d, e)
}
