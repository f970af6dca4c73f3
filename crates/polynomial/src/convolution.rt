// The convolutions, and the polynomials of a cone.
ghost use Rattle.std.specs.Prelude.{◌≡◌};
ghost use Rattle.polynomial.specs.Convolution.{vec_self_convolve_2, vec_self_convolve_3, vec_convolve_3, cone_polynomials};

use crate::{Cone, Vector2, Vector5};
use linear::Vector3;

#[tactic(auto, unfolding(crate::specs::Convolution::vec_self_convolve_2))]
pub fn vec_self_convolve_2(v: Vector2) -> Vector3
    ensures { result ≡ vec_self_convolve_2 v }
{
    let Vector2 { x: a, y: b } = v;
    Vector3 {
        x: a * a,
        y: 2.0 * a * b,
        z: b * b,
    }
}

#[tactic(auto, unfolding(crate::specs::Convolution::vec_self_convolve_3))]
pub fn vec_self_convolve_3(v: Vector3) -> Vector5
    ensures { result ≡ vec_self_convolve_3 v }
{
    let Vector3 { x: a, y: b, z: c } = v;
    Vector5 {
        a: a * a,
        b: 2.0 * a * b,
        c: 2.0 * a * c + b * b,
        d: 2.0 * b * c,
        e: c * c,
    }
}

#[tactic(auto, unfolding(crate::specs::Convolution::vec_convolve_3))]
pub fn vec_convolve_3(v1: Vector3, v2: Vector3) -> Vector5
    ensures { result ≡ vec_convolve_3 v1 v2 }
{
    let Vector3 { x: a, y: b, z: c } = v1;
    let Vector3 { x, y, z } = v2;
    Vector5 {
        a: a * x,
        b: b * x + a * y,
        c: a * z + b * y + c * x,
        d: b * z + c * y,
        e: c * z,
    }
}

#[tactic(auto, unfolding(crate::specs::Convolution::cone_polynomials))]
pub fn cone_polynomials(
    p0_i: Vector3,
    k_i: Vector3,
    p_i: Vector3,
    p_i_s: Vector3,
    k2: Vector3,
) -> Cone
    ensures { result ≡ cone_polynomials p0_i k_i p_i p_i_s k2 }
{
    let ki_x_k2 = linear::cross(k_i, k2);
    let ki_x_ki_x_k2 = linear::cross(k_i, ki_x_k2);
    let norm_ki_x_k2_sq = linear::norm_squared(ki_x_k2);
    let norm_ki_x_pi_sq = linear::norm_squared(linear::cross(k_i, p_i));
    let alpha = linear::dot(p0_i, ki_x_ki_x_k2) / norm_ki_x_k2_sq;
    let delta = linear::dot(k2, p_i_s);
    let beta = linear::dot(p0_i, ki_x_k2) / norm_ki_x_k2_sq;
    let p_const = norm_ki_x_pi_sq + linear::norm_squared(p_i_s) + 2.0 * alpha * delta;
    let twice = 2.0 * beta;
    let square = twice * twice;
    Cone {
        p: Vector2 {
            x: -2.0 * alpha,
            y: p_const,
        },
        r: Vector3 {
            x: square * -1.0,
            y: square * (2.0 * delta),
            z: square * (-delta * delta + norm_ki_x_pi_sq * norm_ki_x_k2_sq),
        },
    }
}
