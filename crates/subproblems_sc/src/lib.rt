// The forms that give the sine and cosine of an angle in place of the angle. They share no arithmetic with those
// of `subproblems`: the Rust writes them in another order of operations, and each rounds.
#![tactic(auto)]

ghost use Rattle.std.specs.Prelude.{◌≡◌};
ghost use Rattle.float.specs.Num.{◌⊕◌, ◌⊖◌};
ghost use Rattle.solutionset.specs.declared.set2.SolutionSet2.TheVariants.{Two};
ghost use Rattle.subproblems_sc.specs.SinCosForms.{sc, unit, subproblem1_sc, subproblem3_sc, subproblem4_sc};

use float::SinCos;
use linear::Vector3;
use solutionset::SolutionSet2;
use subproblems::shared::columns;
use subproblems::{Solved1, Solved2, TOLERANCE, subproblem1_is_ls};

// The direction of a point, and that of (0, 1) for one that has none.
#[tactic(auto, unfolding(crate::specs::SinCosForms::unit))]
fn unit(x0: f64, x1: f64) -> SinCos
    ensures { result ≡ unit x0 x1 }
{
    let n = float::sqrt(x0 * x0 + x1 * x1);
    if n > 0.0 {
        SinCos {
            sin: x0 / n,
            cos: x1 / n,
        }
    } else {
        SinCos { sin: 0.0, cos: 1.0 }
    }
}

#[tactic(auto, unfolding(crate::specs::SinCosForms::subproblem1_sc))]
pub fn subproblem1_sc(p1: Vector3, p2: Vector3, k: Vector3) -> Solved1<SinCos>
    ensures { result ≡ subproblem1_sc p1 p2 k }
{
    let kxp = linear::cross(k, p1);
    let x0 = linear::dot(kxp, p2);
    let x1 = -linear::dot(linear::cross(k, kxp), p2);
    Solved1 {
        theta: unit(x0, x1),
        is_ls: subproblem1_is_ls(p1, p2, k, TOLERANCE),
    }
}

// The points s and c to either side of the nearest one.
fn either_side(x0: f64, x1: f64, s: f64, c: f64) -> SolutionSet2<SinCos>
    ensures { result ≡ Two (sc (x0 ⊕ s) (x1 ⊕ c)) (sc (x0 ⊖ s) (x1 ⊖ c)) }
{
    SolutionSet2::Two(
        SinCos {
            sin: x0 + s,
            cos: x1 + c,
        },
        SinCos {
            sin: x0 - s,
            cos: x1 - c,
        },
    )
}

#[tactic(auto, unfolding(crate::specs::SinCosForms::subproblem3_sc))]
pub fn subproblem3_sc(p1: Vector3, p2: Vector3, k: Vector3, d: f64) -> Solved2<SinCos>
    ensures { result ≡ subproblem3_sc p1 p2 k d }
{
    let a_1 = columns(k, p1);
    let a0 = -2.0 * linear::dot(p2, a_1.first);
    let a1 = -2.0 * linear::dot(p2, a_1.second);
    let norm_a_sq = a0 * a0 + a1 * a1;
    let q = p2 - k * linear::dot(k, p1);
    let b = d * d - linear::norm_squared(q) - linear::norm_squared(a_1.first);
    let f = b / norm_a_sq;
    let x0 = a0 * f;
    let x1 = a1 * f;
    let norm_x_sq = x0 * x0 + x1 * x1;
    if norm_x_sq > 1.0 {
        let n = float::sqrt(norm_x_sq);
        return Solved2 {
            set: SolutionSet2::One(SinCos {
                sin: x0 / n,
                cos: x1 / n,
            }),
            is_ls: true,
        };
    }
    let xi = float::sqrt(1.0 - b * b / norm_a_sq);
    let norm_a = float::sqrt(norm_a_sq);
    Solved2 {
        set: either_side(x0, x1, xi * (a1 / norm_a), xi * (-a0 / norm_a)),
        is_ls: false,
    }
}

#[tactic(auto, unfolding(crate::specs::SinCosForms::subproblem4_sc))]
pub fn subproblem4_sc(h: Vector3, p: Vector3, k: Vector3, d: f64) -> Solved2<SinCos>
    ensures { result ≡ subproblem4_sc h p k d }
{
    let a_1 = columns(k, p);
    let a0 = linear::dot(h, a_1.first);
    let a1 = linear::dot(h, a_1.second);
    let b = d - linear::dot(h, k) * linear::dot(k, p);
    let norm_a_2 = a0 * a0 + a1 * a1;
    let x0 = a0 * b;
    let x1 = a1 * b;
    if norm_a_2 > b * b {
        let xi = float::sqrt(norm_a_2 - b * b);
        let s = xi * a1;
        let c = xi * -a0;
        Solved2 {
            set: SolutionSet2::Two(
                SinCos {
                    sin: (x0 + s) / norm_a_2,
                    cos: (x1 + c) / norm_a_2,
                },
                SinCos {
                    sin: (x0 - s) / norm_a_2,
                    cos: (x1 - c) / norm_a_2,
                },
            ),
            is_ls: false,
        }
    } else {
        Solved2 {
            set: SolutionSet2::One(unit(x0, x1)),
            is_ls: true,
        }
    }
}
