// The QR that document 01 fixes: each function equals its definition in specs/ on every input.
#![tactic(auto)]

mod householder;

pub use householder::qr;
use polynomial::Matrix2;

#[derive(Clone, Copy)]
pub struct Vector4 {
    pub x: f64,
    pub y: f64,
    pub z: f64,
    pub w: f64,
}

// The four columns of Q, of which the last two are the null vectors, and R. (Fields and no list: whoever takes
// one takes it by its name, as the definition does.)
#[derive(Clone, Copy)]
pub struct QrFactors {
    pub q0: Vector4,
    pub q1: Vector4,
    pub q2: Vector4,
    pub q3: Vector4,
    pub r: Matrix2,
}
