// Matrices, and the rotation about an axis.
ghost use Rattle.std.specs.Prelude.{◌≡◌};
ghost use Rattle.linear.specs.Matrix.{row_product, row_dot, product, apply, row_apply, transpose, identity, hat, outer, rodrigues, rot_unit, rot};

use crate::{Matrix3, Vector3, normalize};

pub fn identity() -> Matrix3
    ensures { result ≡ identity }
{
    [[1.0, 0.0, 0.0], [0.0, 1.0, 0.0], [0.0, 0.0, 1.0]]
}

// The matrix whose product with a vector is the cross product of k and the vector.
pub fn hat(k: Vector3) -> Matrix3
    ensures { result ≡ hat k }
{
    [[0.0, -k.z, k.y], [k.z, 0.0, -k.x], [-k.y, k.x, 0.0]]
}

// The column a times the row b.
pub fn outer(a: Vector3, b: Vector3) -> Matrix3
    ensures { result ≡ outer a b }
{
    [
        [a.x * b.x, a.x * b.y, a.x * b.z],
        [a.y * b.x, a.y * b.y, a.y * b.z],
        [a.z * b.x, a.z * b.y, a.z * b.z],
    ]
}

// A row times a matrix. The sums here and below are written out, with no loop: document 01 fixes their
// order, from the first product to the last, and a sum that began with 0.0 would lose a -0.0.
fn row_product(a: [f64; 3], b: Matrix3) -> [f64; 3]
    ensures { result ≡ row_product a b }
{
    [
        a[0] * b[0][0] + a[1] * b[1][0] + a[2] * b[2][0],
        a[0] * b[0][1] + a[1] * b[1][1] + a[2] * b[2][1],
        a[0] * b[0][2] + a[1] * b[1][2] + a[2] * b[2][2],
    ]
}

#[tactic(auto, unfolding(crate::specs::Matrix::product))]
pub fn product(a: Matrix3, b: Matrix3) -> Matrix3
    ensures { result ≡ product a b }
{
    [
        row_product(a[0], b),
        row_product(a[1], b),
        row_product(a[2], b),
    ]
}

// A row times a column.
fn row_dot(a: [f64; 3], v: Vector3) -> f64
    ensures { result ≡ row_dot a v }
{
    a[0] * v.x + a[1] * v.y + a[2] * v.z
}

#[tactic(auto, unfolding(crate::specs::Matrix::apply))]
pub fn apply(a: Matrix3, v: Vector3) -> Vector3
    ensures { result ≡ apply a v }
{
    Vector3 {
        x: row_dot(a[0], v),
        y: row_dot(a[1], v),
        z: row_dot(a[2], v),
    }
}

// The row v times a matrix.
#[tactic(auto, unfolding(crate::specs::Matrix::row_apply))]
pub fn row_apply(v: Vector3, a: Matrix3) -> Vector3
    ensures { result ≡ row_apply v a }
{
    let r = row_product([v.x, v.y, v.z], a);
    Vector3 {
        x: r[0],
        y: r[1],
        z: r[2],
    }
}

#[tactic(auto, unfolding(crate::specs::Matrix::transpose))]
pub fn transpose(a: Matrix3) -> Matrix3
    ensures { result ≡ transpose a }
{
    [
        [a[0][0], a[1][0], a[2][0]],
        [a[0][1], a[1][1], a[2][1]],
        [a[0][2], a[1][2], a[2][2]],
    ]
}

// The rotation about a normalised axis, by its sine and cosine. A zero of hat times a finite number
// adds nothing but the sign of a zero, which the sums with the identity take in; times an infinity
// it makes a NaN, and so it stays as a part of the factor.
fn rodrigues(k: Vector3, s: f64, c: f64) -> Matrix3
    ensures { result ≡ rodrigues k s c }
{
    let x = k.x;
    let y = k.y;
    let z = k.z;
    let v = 1.0 - c;
    let vx = v + 0.0 * x;
    let vy = v + 0.0 * y;
    let vz = v + 0.0 * z;
    let d = 1.0 + 0.0 * s;
    [
        [
            d + (-z * z + y * -y) * v,
            0.0 + -z * s + y * x * vz,
            0.0 + y * s + -z * -x * vy,
        ],
        [
            0.0 + z * s + -x * -y * vz,
            d + (z * -z + -x * x) * v,
            0.0 + -x * s + z * y * vx,
        ],
        [
            0.0 + -y * s + x * z * vy,
            0.0 + x * s + -y * -z * vx,
            d + (-y * y + x * -x) * v,
        ],
    ]
}

// The rotation by theta about an axis that is already normalised.
#[tactic(auto, unfolding(crate::specs::Matrix::rot_unit, float::specs::Sine::sin_cos))]
pub fn rot_unit(k: Vector3, theta: f64) -> Matrix3
    ensures { result ≡ rot_unit k theta }
{
    let t = float::sin_cos(theta);
    rodrigues(k, t.sin, t.cos)
}

// The rotation by theta about k.
#[tactic(auto, unfolding(crate::specs::Matrix::rot))]
pub fn rot(k: Vector3, theta: f64) -> Matrix3
    ensures { result ≡ rot k theta }
{
    rot_unit(normalize(k), theta)
}
