// Subproblem 2.
ghost use Rattle.std.specs.Prelude.{◌≡◌, ◌<◌};
ghost use Rattle.solutionset.specs.SolutionSet2.{size};
ghost use Rattle.subproblems.specs.Subproblem2.{crossed, paired, subproblem2};

use crate::Solved2;
use crate::sp4::subproblem4;
use linear::Vector3;
use solutionset::{Pair, SolutionSet2};

// The second angles are reversed, and a single angle stands in both pairs.
fn crossed(theta1: SolutionSet2<f64>, theta2: SolutionSet2<f64>) -> SolutionSet2<Pair>
    requires { (0 < size theta1) × (0 < size theta2) }
    ensures { result ≡ crossed theta1 theta2 }
{
    let (t1, u1) = theta1.duplicated().expect_two();
    let (t2, u2) = theta2.duplicated().expect_two();
    SolutionSet2::Two(
        Pair {
            first: t1,
            second: u2,
        },
        Pair {
            first: u1,
            second: t2,
        },
    )
}

#[tactic(auto, unfolding(crate::specs::Subproblem2::paired))]
fn paired(theta1: SolutionSet2<f64>, theta2: SolutionSet2<f64>) -> SolutionSet2<Pair>
    requires { (0 < size theta1) × (0 < size theta2) }
    ensures { result ≡ paired theta1 theta2 }
{
    if theta1.size() > 1 || theta2.size() > 1 {
        return crossed(theta1, theta2);
    }
    SolutionSet2::One(Pair {
        first: theta1.expect_one(),
        second: theta2.expect_one(),
    })
}

// The angles that turn p1 about k1 and p2 about k2 to one point.
#[tactic(auto, unfolding(crate::specs::Subproblem2::subproblem2, linear::specs::Vector::normalize))]
pub fn subproblem2(p1: Vector3, p2: Vector3, k1: Vector3, k2: Vector3) -> Solved2<Pair>
    ensures { result ≡ subproblem2 p1 p2 k1 k2 }
{
    let norm1 = linear::norm(p1);
    let norm2 = linear::norm(p2);
    let p1_norm = p1 / norm1;
    let p2_norm = p2 / norm2;
    let theta1 = subproblem4(k2, p1_norm, k1, linear::dot(k2, p2_norm));
    let theta2 = subproblem4(k1, p2_norm, k2, linear::dot(k1, p1_norm));
    Solved2 {
        set: paired(theta1.set, theta2.set),
        is_ls: float::abs(norm1 - norm2) > 1e-8 || theta1.is_ls || theta2.is_ls,
    }
}
