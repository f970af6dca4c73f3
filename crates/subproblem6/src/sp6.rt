// Subproblem 6.
ghost use Rattle.std.specs.Prelude.{◌≡◌};
ghost use Rattle.subproblem6.specs.Subproblem6.{row, entry, plane, unit_points, theta, thetas, subproblem6};

use crate::Plane;
use linear::Vector3;
use polynomial::{Matrix2, Vector2};
use qr::{QrFactors, Vector4};
use solutionset::{Pair, SolutionSet4};
use subproblems::shared::{along, columns};

// A term of an equation: the product of h and of what becomes of p when it turns about k.
#[derive(Clone, Copy)]
struct Term {
    h: Vector3,
    k: Vector3,
    p: Vector3,
}

// A row of the system's matrix.
#[tactic(auto, unfolding(crate::specs::Subproblem6::row))]
fn row(i: Term, j: Term) -> Vector4
    ensures { result ≡ row i.h i.k i.p j.h j.k j.p }
{
    let ai = columns(i.k, i.p);
    let aj = columns(j.k, j.p);
    Vector4 {
        x: linear::dot(i.h, ai.first),
        y: linear::dot(i.h, ai.second),
        z: linear::dot(j.h, aj.first),
        w: linear::dot(j.h, aj.second),
    }
}

// An entry of its right side.
#[tactic(auto, unfolding(crate::specs::Subproblem6::entry))]
fn entry(d: f64, i: Term, j: Term) -> f64
    ensures { result ≡ entry d i.h i.k i.p j.h j.k j.p }
{
    d - along(i.h, i.k, i.p) - along(j.h, j.k, j.p)
}

// The solutions of the two equations in four unknowns.
#[tactic(auto, unfolding(crate::specs::Subproblem6::plane))]
fn plane(a0: Vector4, a1: Vector4, b: Vector2) -> Plane
    ensures { result ≡ plane a0 a1 b }
{
    let QrFactors {
        q0,
        q1,
        q2: x_null_1,
        q3: x_null_2,
        r,
    } = qr::qr(a0, a1);
    let l = Matrix2 {
        m00: r.m00,
        m01: r.m10,
        m10: r.m01,
        m11: r.m11,
    };
    let y = polynomial::solve_lower_triangular_system_2x2(l, b);
    let x_min = Vector4 {
        x: q0.x * y.x + q1.x * y.y,
        y: q0.y * y.x + q1.y * y.y,
        z: q0.z * y.x + q1.z * y.y,
        w: q0.w * y.x + q1.w * y.y,
    };
    Plane {
        x_min,
        x_null_1,
        x_null_2,
    }
}

// The solutions that are two pairs of a sine and a cosine, by their places in the plane.
#[tactic(auto, unfolding(crate::specs::Subproblem6::unit_points))]
fn unit_points(s: Plane) -> SolutionSet4<Pair>
    ensures { result ≡ unit_points s }
{
    let Plane {
        x_min: m,
        x_null_1: n1,
        x_null_2: n2,
    } = s;
    let xm1 = Vector2 { x: m.x, y: m.y };
    let xn1 = Matrix2 {
        m00: n1.x,
        m01: n2.x,
        m10: n1.y,
        m11: n2.y,
    };
    let xm2 = Vector2 { x: m.z, y: m.w };
    let xn2 = Matrix2 {
        m00: n1.z,
        m01: n2.z,
        m10: n1.w,
        m11: n2.w,
    };
    ellipse::solve_two_ellipse_numeric(xm1, xn1, xm2, xn2)
}

// The two angles of a solution.
#[tactic(auto, unfolding(crate::specs::Subproblem6::theta))]
fn theta(s: Plane, xi: Pair) -> Pair
    ensures { result ≡ theta s xi }
{
    let Plane {
        x_min: m,
        x_null_1: n1,
        x_null_2: n2,
    } = s;
    let x0 = m.x + n1.x * xi.first + n2.x * xi.second;
    let x1 = m.y + n1.y * xi.first + n2.y * xi.second;
    let x2 = m.z + n1.z * xi.first + n2.z * xi.second;
    let x3 = m.w + n1.w * xi.first + n2.w * xi.second;
    Pair {
        first: float::atan2(x0, x1),
        second: float::atan2(x2, x3),
    }
}

fn thetas(s: Plane, xi: SolutionSet4<Pair>) -> SolutionSet4<Pair>
    ensures { result ≡ thetas s xi }
{
    xi.map(|pair| theta(s, pair))
}

// The angles that turn p1 and p3 by the first, p2 and p4 by the second, so that both sums of
// products with h are as given. The lists are the Rust's, three of four vectors.
#[tactic(auto, unfolding(crate::specs::Subproblem6::subproblem6))]
pub fn subproblem6(
    h: [Vector3; 4],
    k: [Vector3; 4],
    p: [Vector3; 4],
    d1: f64,
    d2: f64,
) -> SolutionSet4<Pair>
    ensures { result ≡ subproblem6 h k p d1 d2 }
{
    let [h0, h1, h2, h3] = h;
    let [k0, k1, k2, k3] = k;
    let [p0, p1, p2, p3] = p;
    let t0 = Term {
        h: h0,
        k: k0,
        p: p0,
    };
    let t1 = Term {
        h: h1,
        k: k1,
        p: p1,
    };
    let t2 = Term {
        h: h2,
        k: k2,
        p: p2,
    };
    let t3 = Term {
        h: h3,
        k: k3,
        p: p3,
    };
    let b = Vector2 {
        x: entry(d1, t0, t1),
        y: entry(d2, t2, t3),
    };
    let s = plane(row(t0, t1), row(t2, t3), b);
    thetas(s, unit_points(s))
}
