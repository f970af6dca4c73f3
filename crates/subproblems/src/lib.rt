// Subproblems 1 to 4 of IK-Geo (subproblems/mod.rs): each function equals its definition in specs/
// for every f64, and none of the subproblems asks anything of its caller. So too subproblem5,
// subproblem6 and subproblems_sc, which stand in crates of their own above this one.
#![tactic(auto)]

pub mod shared;
mod sp1;
mod sp2;
mod sp3;
mod sp4;

use linear::Vector3;
use solutionset::SolutionSet2;
pub use sp1::{subproblem1, subproblem1_is_ls, subproblem1_theta, subproblem1_within};
pub use sp2::subproblem2;
pub use sp3::subproblem3;
pub use sp4::subproblem4;

// What subproblem 1 flags by.
pub const TOLERANCE: f64 = 1e-6;

// A 3 by 2 matrix.
#[derive(Clone, Copy)]
pub struct Columns {
    pub first: Vector3,
    pub second: Vector3,
}

// An angle, or its sine and cosine, and whether it is a least-squares solution. It is the answer either
// way, and so no Option: the flag says only how good it is. So too below. The two are not one type: `theta`
// is a value and `set` a set, and solvers and definitions read each by its name.
#[derive(Clone, Copy)]
pub struct Solved1<T> {
    pub theta: T,
    pub is_ls: bool,
}

// A set of angles, of pairs, or of sines and cosines.
#[derive(Clone, Copy)]
pub struct Solved2<T> {
    pub set: SolutionSet2<T>,
    pub is_ls: bool,
}
