// Subproblem 3.
ghost use Rattle.std.specs.Prelude.{◌≡◌};
ghost use Rattle.subproblems.specs.Subproblem3.{subproblem3_b, subproblem3};

use crate::Solved2;
use crate::shared::columns;
use crate::sp4::either_side;
use linear::Vector3;
use solutionset::SolutionSet2;

#[tactic(auto, unfolding(crate::specs::Subproblem3::subproblem3_b))]
fn subproblem3_b(p1: Vector3, p2: Vector3, k: Vector3, kxp: Vector3, d: f64) -> f64
    ensures { result ≡ subproblem3_b p1 p2 k kxp d }
{
    let q = p2 - linear::apply(linear::outer(k, k), p1);
    d * d - linear::norm_squared(q) - linear::norm_squared(kxp)
}

// The angles that turn p1 about k to the distance d from p2.
#[tactic(auto, unfolding(crate::specs::Subproblem3::subproblem3))]
pub fn subproblem3(p1: Vector3, p2: Vector3, k: Vector3, d: f64) -> Solved2<f64>
    ensures { result ≡ subproblem3 p1 p2 k d }
{
    let a_1 = columns(k, p1);
    let q = p2 * -2.0;
    let a0 = linear::dot(q, a_1.first);
    let a1 = linear::dot(q, a_1.second);
    let norm_a_sq = a0 * a0 + a1 * a1;
    let b = subproblem3_b(p1, p2, k, a_1.first, d);
    let v = q * b / norm_a_sq;
    let x0 = linear::dot(a_1.first, v);
    let x1 = linear::dot(a_1.second, v);
    if x0 * x0 + x1 * x1 > 1.0 {
        return Solved2 {
            set: SolutionSet2::One(float::atan2(x0, x1)),
            is_ls: true,
        };
    }
    let norm_a = float::sqrt(norm_a_sq);
    let xi = float::sqrt(1.0 - b * b / norm_a_sq);
    Solved2 {
        set: either_side(x0, x1, xi, a1 / norm_a, -a0 / norm_a),
        is_ls: false,
    }
}
