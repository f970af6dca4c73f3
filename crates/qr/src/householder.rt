// Householder's QR of a matrix of four rows and two columns.
ghost use Rattle.std.specs.Prelude.{◌≡◌, [], ◌∷◌};
ghost use Rattle.std.specs.Float.Ieee.{lt};
ghost use Rattle.float.specs.Num.{◌⊕◌, nought};
ghost use Rattle.qr.specs.Qr.{entries, dot, turned, is_zero, qr};
ghost use Rattle.qr.specs.Port.{vector_4, entries_3, lower, turned_4, reflection_4, reflection_3, reflect_4, reflect_3, both, columns, factors};

use crate::{QrFactors, Vector4};
use linear::Vector3;
use polynomial::Matrix2;

// The parts of four and of three have functions of their own: each sum is written out in document 01's order,
// and over an array of N it would be a loop, which is no plainer.
// A reflection: by v, and by v·v. There is none of a part that is zero. Of four, V is Vector4; of the last
// three of four, Vector3.
#[derive(Clone, Copy)]
pub struct Reflection<V> {
    pub v: V,
    pub vv: f64,
}

#[derive(Clone, Copy)]
pub struct Columns4 {
    pub c0: Vector4,
    pub c1: Vector4,
    pub c2: Vector4,
    pub c3: Vector4,
}

fn vector_4(x: f64, y: f64, z: f64, w: f64) -> Vector4
    ensures { result ≡ vector_4 (x ∷ y ∷ z ∷ w ∷ []) }
{
    Vector4 { x, y, z, w }
}

fn turned(t: bool, x: f64) -> f64
    ensures { result ≡ turned t x }
{
    if t { -x } else { x }
}

fn turned_4(t: bool, a: Vector4) -> Vector4
    ensures { result ≡ turned_4 t a }
{
    if t {
        Vector4 {
            x: -a.x,
            y: -a.y,
            z: -a.z,
            w: -a.w,
        }
    } else {
        a
    }
}

// The leading entry, with the norm added on its side of zero.
fn lead(x: f64, n: f64) -> f64
    ensures { result ≡ x ⊕ turned (lt x nought) n }
{
    x + turned(x < 0.0, n)
}

fn dot_4(a: Vector4, b: Vector4) -> f64
    ensures { result ≡ dot (entries a) (entries b) }
{
    a.x * b.x + a.y * b.y + a.z * b.z + a.w * b.w
}

fn lower(a: Vector4) -> Vector3
    ensures { result ≡ lower a }
{
    Vector3 {
        x: a.y,
        y: a.z,
        z: a.w,
    }
}

fn zero_3(a: Vector3) -> bool
    ensures { result ≡ is_zero (entries_3 a) }
{
    a.x == 0.0 && a.y == 0.0 && a.z == 0.0
}

fn zero_4(a: Vector4) -> bool
    ensures { result ≡ is_zero (entries a) }
{
    a.x == 0.0 && zero_3(lower(a))
}

#[tactic(auto, unfolding(crate::specs::Port::reflection_4))]
fn reflection_4(a: Vector4) -> Option<Reflection<Vector4>>
    ensures { result ≡ reflection_4 a }
{
    if zero_4(a) {
        return None;
    }
    let x = lead(a.x, float::sqrt(dot_4(a, a)));
    let v = Vector4 {
        x,
        y: a.y,
        z: a.z,
        w: a.w,
    };
    Some(Reflection { v, vv: dot_4(v, v) })
}

#[tactic(auto, unfolding(crate::specs::Port::reflect_4))]
fn reflect_4(m: Option<Reflection<Vector4>>, w: Vector4) -> Vector4
    ensures { result ≡ reflect_4 m w }
{
    match m {
        None => w,
        Some(Reflection { v, vv }) => {
            let factor = 2.0 * dot_4(v, w) / vv;
            Vector4 {
                x: w.x - v.x * factor,
                y: w.y - v.y * factor,
                z: w.z - v.z * factor,
                w: w.w - v.w * factor,
            }
        }
    }
}

#[tactic(auto, unfolding(crate::specs::Port::reflection_3, linear::specs::Vector::norm))]
fn reflection_3(a: Vector3) -> Option<Reflection<Vector3>>
    ensures { result ≡ reflection_3 a }
{
    if zero_3(a) {
        return None;
    }
    let x = lead(a.x, linear::norm(a));
    let v = Vector3 { x, y: a.y, z: a.z };
    Some(Reflection {
        v,
        vv: linear::dot(v, v),
    })
}

#[tactic(auto, unfolding(crate::specs::Port::reflect_3))]
fn reflect_3(m: Option<Reflection<Vector3>>, w: Vector4) -> Vector4
    ensures { result ≡ reflect_3 m w }
{
    match m {
        None => w,
        Some(Reflection { v, vv }) => {
            let factor = 2.0 * linear::dot(v, lower(w)) / vv;
            Vector4 {
                x: w.x,
                y: w.y - v.x * factor,
                z: w.z - v.y * factor,
                w: w.w - v.z * factor,
            }
        }
    }
}

// The column x, y, z, w of the identity, by both reflections.
fn both(
    m: Option<Reflection<Vector4>>,
    n: Option<Reflection<Vector3>>,
    x: f64,
    y: f64,
    z: f64,
    w: f64,
) -> Vector4
    ensures { result ≡ both m n (x ∷ y ∷ z ∷ w ∷ []) }
{
    reflect_3(n, reflect_4(m, Vector4 { x, y, z, w }))
}

// The columns of Q: a, b, c and d are those of Q transposed, what the identity becomes.
#[tactic(auto, unfolding(crate::specs::Port::columns))]
fn columns(m: Option<Reflection<Vector4>>, n: Option<Reflection<Vector3>>) -> Columns4
    ensures { result ≡ columns m n }
{
    let a = both(m, n, 1.0, 0.0, 0.0, 0.0);
    let b = both(m, n, 0.0, 1.0, 0.0, 0.0);
    let c = both(m, n, 0.0, 0.0, 1.0, 0.0);
    let d = both(m, n, 0.0, 0.0, 0.0, 1.0);
    Columns4 {
        c0: vector_4(a.x, b.x, c.x, d.x),
        c1: vector_4(a.y, b.y, c.y, d.y),
        c2: vector_4(a.z, b.z, c.z, d.z),
        c3: vector_4(a.w, b.w, c.w, d.w),
    }
}

// The factors, with the diagonal of R made positive.
#[tactic(auto, unfolding(crate::specs::Port::factors))]
fn factors(q: Columns4, r00: f64, r01: f64, r11: f64) -> QrFactors
    ensures { result ≡ factors q r00 r01 r11 }
{
    let first = r00 < 0.0;
    let second = r11 < 0.0;
    QrFactors {
        q0: turned_4(first, q.c0),
        q1: turned_4(second, q.c1),
        q2: q.c2,
        q3: q.c3,
        r: Matrix2 {
            m00: turned(first, r00),
            m01: turned(first, r01),
            m10: 0.0,
            m11: turned(second, r11),
        },
    }
}

// The factors of the matrix whose columns are a0 and a1.
#[tactic(auto, using(crate::proofs::Steps::steps))]
pub fn qr(a0: Vector4, a1: Vector4) -> QrFactors
    ensures { result ≡ qr a0 a1 }
{
    let m = reflection_4(a0);
    let r0 = reflect_4(m, a0);
    let r1 = reflect_4(m, a1);
    let n = reflection_3(lower(r1));
    let s1 = reflect_3(n, r1);
    factors(columns(m, n), r0.x, r1.x, s1.y)
}
