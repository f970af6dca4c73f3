// Subproblem 5.
ghost use Rattle.std.specs.Prelude.{◌≡◌, ◌+◌, ◌<◌, ◌≤◌, ◌++◌};
ghost use mathlib.Core.List.{flat_map};
ghost use Rattle.array_vec.specs.ArrayVec.{array_vec_len};
ghost use Rattle.subproblem5.specs.Port.{circle, sq, point, points, angles, candidate, of_points, at_root};
ghost use Rattle.subproblem5.specs.Subproblem5.{j_transpose_times, eqn_real, h_vec, subproblem5};

use crate::reduced::reduced_solutionset;
use crate::{Circle, Point, Points};
use array_vec::ArrayVec;
use linear::Vector3;
use norms::norms_agree;
use polynomial::{Cone, Quartic, Vector2, Vector5};
use solutionset::{SolutionSet4, Triple};
use subproblems::shared::columns;
use subproblems::{Columns, subproblem1_theta};

// Below it an imaginary part counts as zero.
const EPSILON: f64 = 1e-6;

// j times the transposed matrix, times k2: the zeros count, for infinities and signs.
#[tactic(auto, using(subproblems::proofs::Commute::times_comm), unfolding(crate::specs::Subproblem5::j_transpose_times))]
fn j_transpose_times(a: Columns, k2: Vector3) -> Vector2
    ensures { result ≡ j_transpose_times a k2 }
{
    let u = a.first;
    let w = a.second;
    let over = u * 0.0 + w * 1.0;
    let under = u * -1.0 + w * 0.0;
    Vector2 {
        x: linear::dot(over, k2),
        y: linear::dot(under, k2),
    }
}

// The circle of p about k from p0 on, and how it lies to k2.
#[tactic(auto, unfolding(crate::specs::Port::circle))]
fn circle(p0: Vector3, p: Vector3, k: Vector3, k2: Vector3) -> Circle
    ensures { result ≡ circle p0 p k k2 }
{
    let p_s = p0 + linear::apply(linear::outer(k, k), p);
    let a = columns(k, p);
    let x = linear::dot(a.first, k2);
    let y = linear::dot(a.second, k2);
    let delta = linear::dot(k2, p_s);
    let j_a_k2 = j_transpose_times(a, k2);
    Circle {
        a,
        p_s,
        delta,
        a_k2: Vector2 { x, y },
        norm_sq: x * x + y * y,
        j_a_k2,
    }
}

// The quartic whose real roots are the heights at which the circles can meet.
#[tactic(auto, using(polynomial::proofs::Literals::four), unfolding(crate::specs::Subproblem5::eqn_real))]
fn eqn_real(c1: Cone, c3: Cone) -> Vector5
    ensures { result ≡ eqn_real c1 c3 }
{
    let p_13 = Vector2 {
        x: c1.p.x - c3.p.x,
        y: c1.p.y - c3.p.y,
    };
    let p_13_sq = polynomial::vec_self_convolve_2(p_13);
    let rhs = c3.r - c1.r - p_13_sq;
    let u = polynomial::vec_self_convolve_3(rhs);
    let v = polynomial::vec_convolve_3(p_13_sq, c1.r);
    Vector5 {
        a: u.a - 4.0 * v.a,
        b: u.b - 4.0 * v.b,
        c: u.c - 4.0 * v.c,
        d: u.d - 4.0 * v.d,
        e: u.e - 4.0 * v.e,
    }
}

#[tactic(auto, unfolding(crate::specs::Subproblem5::h_vec))]
fn h_vec(c1: Cone, c3: Cone) -> ArrayVec<f64, 4>
    ensures { result.items ≡ h_vec c1 c3 }
{
    let eqn = Quartic::from(eqn_real(c1, c3));
    polynomial::real_parts(EPSILON, &polynomial::solve_quartic_roots(eqn))
}

fn sq(c: Circle, h: f64) -> f64
    ensures { result ≡ sq c h }
{
    let hd = h - c.delta;
    c.norm_sq - hd * hd
}

// The point of a circle at the height of hk2, of one sign.
#[tactic(auto, unfolding(crate::specs::Port::point))]
fn point(c: Circle, middle: Vector2, pm: Vector2, hk2: Vector3, sign: f64) -> Point
    ensures { result ≡ point c middle pm hk2 sign }
{
    let s = (middle.x + sign * pm.x) / c.norm_sq;
    let t = (middle.y + sign * pm.y) / c.norm_sq;
    let v = c.a.first * s + c.a.second * t + c.p_s;
    let distance_sq = linear::norm_squared(v - hk2);
    Point {
        sc: Vector2 { x: s, y: t },
        v,
        distance_sq,
    }
}

// Both points of a circle at the height h.
#[tactic(auto, unfolding(crate::specs::Port::points))]
fn points(c: Circle, h: f64, square: f64, hk2: Vector3) -> Points
    ensures { result ≡ points c h square hk2 }
{
    let hd = h - c.delta;
    let root = float::sqrt(square);
    let middle = Vector2 {
        x: c.a_k2.x * hd,
        y: c.a_k2.y * hd,
    };
    let pm = Vector2 {
        x: c.j_a_k2.x * root,
        y: c.j_a_k2.y * root,
    };
    Points {
        plus: point(c, middle, pm, hk2, 1.0),
        minus: point(c, middle, pm, hk2, -1.0),
    }
}

#[tactic(auto, unfolding(crate::specs::Port::angles, subproblems::specs::Subproblem1::subproblem1, subproblems::specs::Subproblem1::subproblem1_within))]
fn angles(k2: Vector3, q1: Point, q3: Point) -> Triple
    ensures { result ≡ angles k2 q1 q3 }
{
    Triple {
        first: float::atan2(q1.sc.x, q1.sc.y),
        second: subproblem1_theta(q3.v, q1.v, k2),
        third: float::atan2(q3.sc.x, q3.sc.y),
    }
}

// The candidate of two points, after those found before it.
#[tactic(auto, unfolding(crate::specs::Port::agree))]
fn push(found: &mut ArrayVec<Triple, 16>, k2: Vector3, q1: Point, q3: Point)
    requires { array_vec_len found.old < 16 }
    ensures items { found.new.items ≡ found.old.items ++ candidate k2 q1 q3 }
    ensures one { array_vec_len found.new ≤ array_vec_len found.old + 1 }
{
    if norms_agree(q1.distance_sq, q3.distance_sq) {
        found.push(angles(k2, q1, q3));
    }
}

// The candidates of the points of two circles, the signs of the first going slower.
#[tactic(auto, unfolding(crate::specs::Port::of_points))]
fn of_points(found: &mut ArrayVec<Triple, 16>, k2: Vector3, s1: Points, s3: Points)
    requires { array_vec_len found.old ≤ 12 }
    ensures items { found.new.items ≡ found.old.items ++ of_points k2 s1 s3 }
    ensures four { array_vec_len found.new ≤ array_vec_len found.old + 4 }
{
    push(found, k2, s1.plus, s3.plus);
    push(found, k2, s1.plus, s3.minus);
    push(found, k2, s1.minus, s3.plus);
    push(found, k2, s1.minus, s3.minus);
}

// The candidates at the height h, after those found before them.
#[tactic(auto, unfolding(crate::specs::Port::at_root))]
fn at_root(found: &mut ArrayVec<Triple, 16>, c1: Circle, c3: Circle, k2: Vector3, h: f64)
    requires { array_vec_len found.old ≤ 12 }
    ensures items { found.new.items ≡ found.old.items ++ at_root c1 c3 k2 h }
    ensures four { array_vec_len found.new ≤ array_vec_len found.old + 4 }
{
    let sq1 = sq(c1, h);
    if sq1 < 0.0 {
        return;
    }
    let sq3 = sq(c3, h);
    if sq3 < 0.0 {
        return;
    }
    let hk2 = k2 * h;
    of_points(found, k2, points(c1, h, sq1, hk2), points(c3, h, sq3, hk2));
}

// The candidates at each height, at most four at each.
fn candidates(
    c1: Circle,
    c3: Circle,
    k2: Vector3,
    heights: &ArrayVec<f64, 4>,
) -> ArrayVec<Triple, 16>
    ensures { result.items ≡ flat_map (at_root c1 c3 k2) heights.now.items }
{
    let mut found = ArrayVec::new();
    for h in heights.iter() {
        at_root(&mut found, c1, c3, k2, *h);
    }
    found
}

// The angles that turn p1 about k1, p3 about k3, and both ends about k2 to one point.
#[tactic(auto, using(crate::proofs::Cut::cut))]
pub fn subproblem5(
    p0: Vector3,
    p1: Vector3,
    p2: Vector3,
    p3: Vector3,
    k1: Vector3,
    k2: Vector3,
    k3: Vector3,
) -> SolutionSet4<Triple>
    ensures { result ≡ subproblem5 p0 p1 p2 p3 k1 k2 k3 }
{
    let c1 = circle(p0, p1, k1, k2);
    let c3 = circle(p2, p3, k3, k2);
    let cone1 = polynomial::cone_polynomials(p0, k1, p1, c1.p_s, k2);
    let cone3 = polynomial::cone_polynomials(p2, k3, p3, c3.p_s, k2);
    let heights = h_vec(cone1, cone3);
    reduced_solutionset(&candidates(c1, c3, k2, &heights))
}
