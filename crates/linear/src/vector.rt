// Vectors of three dimensions, as document 01 fixes nalgebra's: each function equals its definition in
// specs/ on every input.
ghost use Rattle.std.specs.Prelude.{◌≡◌};
ghost use Rattle.linear.specs.Vector.{dot, cross, norm, norm_squared, normalize, ◌+ᵛ◌, ◌-ᵛ◌, negᵛ, scaleᵛ, overᵛ, column_sum};

use std::ops::{Add, Div, Mul, Neg, Sub};

#[derive(Clone, Copy)]
pub struct Vector3 {
    pub x: f64,
    pub y: f64,
    pub z: f64,
}

pub fn dot(a: Vector3, b: Vector3) -> f64
    ensures { result ≡ dot a b }
{
    a.x * b.x + a.y * b.y + a.z * b.z
}

pub fn cross(a: Vector3, b: Vector3) -> Vector3
    ensures { result ≡ cross a b }
{
    Vector3 {
        x: a.y * b.z - a.z * b.y,
        y: a.z * b.x - a.x * b.z,
        z: a.x * b.y - a.y * b.x,
    }
}

pub fn norm_squared(a: Vector3) -> f64
    ensures { result ≡ norm_squared a }
{
    dot(a, a)
}

#[tactic(auto, unfolding(crate::specs::Vector::norm))]
pub fn norm(a: Vector3) -> f64
    ensures { result ≡ norm a }
{
    root::sqrt(dot(a, a))
}

#[tactic(auto, unfolding(crate::specs::Vector::normalize))]
pub fn normalize(a: Vector3) -> Vector3
    ensures { result ≡ normalize a }
{
    a / norm(a)
}

impl Add for Vector3 {
    type Output = Vector3;

    ghost add_gives = { λ a b sum. sum ≡ a +ᵛ b };

    fn add(self, b: Vector3) -> Vector3 {
        Vector3 {
            x: self.x + b.x,
            y: self.y + b.y,
            z: self.z + b.z,
        }
    }
}

impl Sub for Vector3 {
    type Output = Vector3;

    ghost sub_gives = { λ a b difference. difference ≡ a -ᵛ b };

    fn sub(self, b: Vector3) -> Vector3 {
        Vector3 {
            x: self.x - b.x,
            y: self.y - b.y,
            z: self.z - b.z,
        }
    }
}

impl Neg for Vector3 {
    type Output = Vector3;

    ghost neg_gives = { λ a minus. minus ≡ negᵛ a };

    fn neg(self) -> Vector3 {
        Vector3 {
            x: -self.x,
            y: -self.y,
            z: -self.z,
        }
    }
}

impl Mul<f64> for Vector3 {
    type Output = Vector3;

    ghost mul_gives = { λ a s product. product ≡ scaleᵛ a s };

    fn mul(self, s: f64) -> Vector3 {
        Vector3 {
            x: self.x * s,
            y: self.y * s,
            z: self.z * s,
        }
    }
}

impl Div<f64> for Vector3 {
    type Output = Vector3;

    ghost div_gives = { λ a s quotient. quotient ≡ overᵛ a s };

    fn div(self, s: f64) -> Vector3 {
        Vector3 {
            x: self.x / s,
            y: self.y / s,
            z: self.z / s,
        }
    }
}

// Written out, with no loop: document 01 adds the columns from the first to the last, and a sum that
// began with zeros would lose a -0.0.
pub fn column_sum(a: Vector3, b: Vector3, c: Vector3, d: Vector3) -> Vector3
    ensures { result ≡ column_sum a b c d }
{
    a + b + c + d
}
