// Subproblem 5 (subproblems/mod.rs), and the choice among its candidates: each function equals its
// definition in specs/ for every f64.
#![tactic(auto)]

mod reduced;
mod sp5;

use linear::Vector3;
use polynomial::Vector2;
pub use reduced::reduced_solutionset;
pub use sp5::subproblem5;
use subproblems::Columns;

// A circle of subproblem 5: p_s and a times the sine and the cosine. With delta its height along k2,
// a_k2 the products of a's columns and k2, norm_sq the square of their norm, and j_a_k2 these times j.
#[derive(Clone, Copy)]
pub struct Circle {
    pub a: Columns,
    pub p_s: Vector3,
    pub delta: f64,
    pub a_k2: Vector2,
    pub norm_sq: f64,
    pub j_a_k2: Vector2,
}

// A point of a circle: its sine and cosine, the point, and the square of its distance from h * k2.
#[derive(Clone, Copy)]
pub struct Point {
    pub sc: Vector2,
    pub v: Vector3,
    pub distance_sq: f64,
}

// The points of both signs.
#[derive(Clone, Copy)]
pub struct Points {
    pub plus: Point,
    pub minus: Point,
}
