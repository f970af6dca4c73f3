// Subproblem 4.
ghost use Rattle.std.specs.Prelude.{◌≡◌};
ghost use Rattle.subproblems.specs.Subproblem4.{either_side, subproblem4};

use crate::Solved2;
use crate::shared::{along, columns};
use linear::Vector3;
use solutionset::SolutionSet2;

// The angles of the points xi to either side of the nearest one.
#[tactic(auto, unfolding(crate::specs::Subproblem4::either_side))]
pub fn either_side(x0: f64, x1: f64, xi: f64, perp0: f64, perp1: f64) -> SolutionSet2<f64>
    ensures { result ≡ either_side x0 x1 xi perp0 perp1 }
{
    let s = xi * perp0;
    let c = xi * perp1;
    SolutionSet2::Two(float::atan2(x0 + s, x1 + c), float::atan2(x0 - s, x1 - c))
}

// The angles that turn p about k to the plane of the points whose product with h is d.
#[tactic(auto, using(crate::proofs::Commute::dot_comm), unfolding(crate::specs::Subproblem4::subproblem4))]
pub fn subproblem4(h: Vector3, p: Vector3, k: Vector3, d: f64) -> Solved2<f64>
    ensures { result ≡ subproblem4 h p k d }
{
    let a_1 = columns(k, p);
    let a0 = linear::dot(h, a_1.first);
    let a1 = linear::dot(h, a_1.second);
    let b = d - along(h, k, p);
    let norm_a_2 = a0 * a0 + a1 * a1;
    let x0 = a0 * b;
    let x1 = a1 * b;
    if norm_a_2 > b * b {
        let xi = float::sqrt(norm_a_2 - b * b);
        Solved2 {
            set: either_side(x0, x1, xi, a1, -a0),
            is_ls: false,
        }
    } else {
        Solved2 {
            set: SolutionSet2::One(float::atan2(x0, x1)),
            is_ls: true,
        }
    }
}
