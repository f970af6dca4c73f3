// Subproblem 1: the angle, its flag, and both.
ghost use Rattle.std.specs.Prelude.{◌≡◌};
ghost use Rattle.subproblems.specs.Subproblem1.{subproblem1_theta, subproblem1_is_ls, subproblem1_within, subproblem1};

use crate::shared::columns;
use crate::{Solved1, TOLERANCE};
use linear::Vector3;
use norms::norms_differ;

// The angle that turns p1 about k to p2, or nearest to it.
#[tactic(auto, unfolding(crate::specs::Subproblem1::subproblem1_theta))]
pub fn subproblem1_theta(p1: Vector3, p2: Vector3, k: Vector3) -> f64
    ensures { result ≡ subproblem1_theta p1 p2 k }
{
    let a = columns(k, p1);
    let x0 = linear::dot(a.first, p2);
    let x1 = linear::dot(a.second, p2);
    float::atan2(x0, x1)
}

// Whether no angle turns p1 to p2: they differ in length, or in their height along k.
#[tactic(auto, unfolding(crate::specs::Subproblem1::subproblem1_is_ls, linear::specs::Vector::norm))]
pub fn subproblem1_is_ls(p1: Vector3, p2: Vector3, k: Vector3, tolerance: f64) -> bool
    ensures { result ≡ subproblem1_is_ls p1 p2 k tolerance }
{
    norms_differ(
        linear::norm_squared(p1),
        linear::norm_squared(p2),
        tolerance,
    ) || float::abs(linear::dot(k, p1) - linear::dot(k, p2)) > tolerance
}

#[tactic(auto, unfolding(crate::specs::Subproblem1::subproblem1_within))]
pub fn subproblem1_within(p1: Vector3, p2: Vector3, k: Vector3, tolerance: f64) -> Solved1<f64>
    ensures { result ≡ subproblem1_within p1 p2 k tolerance }
{
    Solved1 {
        theta: subproblem1_theta(p1, p2, k),
        is_ls: subproblem1_is_ls(p1, p2, k, tolerance),
    }
}

#[tactic(auto, unfolding(crate::specs::Subproblem1::subproblem1))]
pub fn subproblem1(p1: Vector3, p2: Vector3, k: Vector3) -> Solved1<f64>
    ensures { result ≡ subproblem1 p1 p2 k }
{
    subproblem1_within(p1, p2, k, TOLERANCE)
}
