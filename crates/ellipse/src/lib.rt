// The points where two ellipses meet.
#![tactic(auto)]

ghost use Rattle.std.specs.Prelude.{◌≡◌};
ghost use Rattle.ellipse.specs.Ellipse.{coefficients, z0, z1, z2, z3, z4, quartic_in_y, x_of, point, solve_two_ellipse_numeric};

use polynomial::{EPSILON, Matrix2, Quartic, Vector2, Vector5, real_parts, solve_quartic_roots};
use solutionset::{Pair, SolutionSet4};

// The coefficients of an ellipse: a x x + b x y + c y y + d x + e y + f = 0.
#[derive(Clone, Copy)]
pub struct Conic {
    pub a: f64,
    pub b: f64,
    pub c: f64,
    pub d: f64,
    pub e: f64,
    pub f: f64,
}

// The coefficients of the ellipse of xm and xn: of xn' xn, 2 xm' xn and xm' xm - 1.
#[tactic(auto, unfolding(crate::specs::Ellipse::coefficients))]
fn coefficients(xm: Vector2, xn: Matrix2) -> Conic
    ensures { result ≡ coefficients xm xn }
{
    let x = 2.0 * xm.x;
    let y = 2.0 * xm.y;
    Conic {
        a: xn.m00 * xn.m00 + xn.m10 * xn.m10,
        b: 2.0 * (xn.m01 * xn.m00 + xn.m11 * xn.m10),
        c: xn.m01 * xn.m01 + xn.m11 * xn.m11,
        d: x * xn.m00 + y * xn.m10,
        e: x * xn.m01 + y * xn.m11,
        f: xm.x * xm.x + xm.y * xm.y - 1.0,
    }
}

// The coefficients of the quartic in y, of the ellipses g and h: a to f are of g, a1 to e1 and fq of h, the
// names of the Rust's formulas. No struct holds the two: each formula would only take it apart again.
#[tactic(auto, unfolding(crate::specs::Ellipse::z0))]
fn z0(g: Conic, h: Conic) -> f64
    ensures { result ≡ z0 g h }
{
    let Conic { a, d, f, .. } = g;
    let Conic {
        a: a1,
        d: d1,
        f: fq,
        ..
    } = h;
    f * a * d1 * d1 + a * a * fq * fq - d * a * d1 * fq + a1 * a1 * f * f
        - 2.0 * a * fq * a1 * f
        - d * d1 * a1 * f
        + a1 * d * d * fq
}

#[tactic(auto, unfolding(crate::specs::Ellipse::z1))]
fn z1(g: Conic, h: Conic) -> f64
    ensures { result ≡ z1 g h }
{
    let Conic { a, b, d, e, f, .. } = g;
    let Conic {
        a: a1,
        b: b1,
        d: d1,
        e: e1,
        f: fq,
        ..
    } = h;
    e1 * d * d * a1 - fq * d1 * a * b - 2.0 * a * fq * a1 * e - f * a1 * b1 * d
        + 2.0 * d1 * b1 * a * f
        + 2.0 * e1 * fq * a * a
        + d1 * d1 * a * e
        - e1 * d1 * a * d
        - 2.0 * a * e1 * a1 * f
        - f * a1 * d1 * b
        + 2.0 * f * e * a1 * a1
        - fq * b1 * a * d
        - e * a1 * d1 * d
        + 2.0 * fq * b * a1 * d
}

#[tactic(auto, unfolding(crate::specs::Ellipse::z2))]
fn z2(g: Conic, h: Conic) -> f64
    ensures { result ≡ z2 g h }
{
    let Conic { a, b, c, d, e, f } = g;
    let Conic {
        a: a1,
        b: b1,
        c: c1,
        d: d1,
        e: e1,
        f: fq,
    } = h;
    e1 * e1 * a * a + 2.0 * c1 * fq * a * a - e * a1 * d1 * b + fq * a1 * b * b
        - e * a1 * b1 * d
        - fq * b1 * a * b
        - 2.0 * a * e1 * a1 * e
        + 2.0 * d1 * b1 * a * e
        - c1 * d1 * a * d
        - 2.0 * a * c1 * a1 * f
        + b1 * b1 * a * f
        + 2.0 * e1 * b * a1 * d
        + e * e * a1 * a1
        - c * a1 * d1 * d
        - e1 * b1 * a * d
        + 2.0 * f * c * a1 * a1
        - f * a1 * b1 * b
        + c1 * d * d * a1
        + d1 * d1 * a * c
        - e1 * d1 * a * b
        - 2.0 * a * fq * a1 * c
}

#[tactic(auto, unfolding(crate::specs::Ellipse::z3))]
fn z3(g: Conic, h: Conic) -> f64
    ensures { result ≡ z3 g h }
{
    let Conic { a, b, c, d, e, .. } = g;
    let Conic {
        a: a1,
        b: b1,
        c: c1,
        d: d1,
        e: e1,
        ..
    } = h;
    -2.0 * a * a1 * c * e1 + e1 * a1 * b * b + 2.0 * c1 * b * a1 * d - c * a1 * b1 * d
        + b1 * b1 * a * e
        - e1 * b1 * a * b
        - 2.0 * a * c1 * a1 * e
        - e * a1 * b1 * b
        - c1 * b1 * a * d
        + 2.0 * e1 * c1 * a * a
        + 2.0 * e * c * a1 * a1
        - c * a1 * d1 * b
        + 2.0 * d1 * b1 * a * c
        - c1 * d1 * a * b
}

#[tactic(auto, unfolding(crate::specs::Ellipse::z4))]
fn z4(g: Conic, h: Conic) -> f64
    ensures { result ≡ z4 g h }
{
    let Conic { a, b, c, .. } = g;
    let Conic {
        a: a1,
        b: b1,
        c: c1,
        ..
    } = h;
    a * a * c1 * c1 - 2.0 * a * c1 * a1 * c + a1 * a1 * c * c - b * a * b1 * c1 - b * b1 * a1 * c
        + b * b * a1 * c1
        + c * a * b1 * b1
}

#[tactic(auto, unfolding(crate::specs::Ellipse::quartic_in_y))]
fn quartic_in_y(g: Conic, h: Conic) -> Vector5
    ensures { result ≡ quartic_in_y g h }
{
    Vector5 {
        a: z4(g, h),
        b: z3(g, h),
        c: z2(g, h),
        d: z1(g, h),
        e: z0(g, h),
    }
}

// x at a root y.
#[tactic(auto, unfolding(crate::specs::Ellipse::x_of))]
fn x_of(g: Conic, h: Conic, y: f64) -> f64
    ensures { result ≡ x_of g h y }
{
    let Conic { a, b, c, d, e, f } = g;
    let Conic {
        a: a1,
        b: b1,
        c: c1,
        d: d1,
        e: e1,
        f: fq,
    } = h;
    let y_sq = y * y;
    -((a * c1 * y_sq + a * fq - a1 * c * y_sq + a * e1 * y - a1 * e * y + -a1 * f)
        / (a * b1 * y + a * d1 - a1 * b * y + -a1 * d))
}

fn point(g: Conic, h: Conic, y: f64) -> Pair
    ensures { result ≡ point g h y }
{
    Pair {
        first: x_of(g, h, y),
        second: y,
    }
}

pub fn solve_two_ellipse_numeric(
    xm1: Vector2,
    xn1: Matrix2,
    xm2: Vector2,
    xn2: Matrix2,
) -> SolutionSet4<Pair>
    ensures { result ≡ solve_two_ellipse_numeric xm1 xn1 xm2 xn2 }
{
    let g = coefficients(xm1, xn1);
    let h = coefficients(xm2, xn2);
    let found = solve_quartic_roots(Quartic::from(quartic_in_y(g, h)));
    let reals = real_parts(EPSILON, &found);
    SolutionSet4::from_vec(&reals).map(|y| point(g, h, y))
}
