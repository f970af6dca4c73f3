// Subproblem 6 (subproblems/mod.rs): each function equals its definition in specs/ for every f64.
#![tactic(auto)]

mod sp6;

use qr::Vector4;
pub use sp6::subproblem6;

// The solutions of subproblem 6's equations: x_min and any multiples of the other two.
#[derive(Clone, Copy)]
pub struct Plane {
    pub x_min: Vector4,
    pub x_null_1: Vector4,
    pub x_null_2: Vector4,
}
