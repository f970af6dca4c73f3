// Of the Rust's subproblems/auxiliary.rs: convolutions, the polynomials of a cone, a system of two equations,
// and the roots of polynomials to degree 4. Each function equals its definition in specs/ on every input, and
// none asks anything of its caller.
#![tactic(auto)]

mod convolution;
mod cubic_roots;
mod quadratic_roots;
mod quartic_roots;
mod reals;
mod triangular;

use complex::Complex;
pub use convolution::{cone_polynomials, vec_convolve_3, vec_self_convolve_2, vec_self_convolve_3};
pub use cubic_roots::solve_cubic_roots;
use linear::Vector3;
pub use quadratic_roots::solve_quadratic_roots;
pub use quartic_roots::solve_quartic_roots;
pub use reals::real_parts;
pub use triangular::solve_lower_triangular_system_2x2;

// Below it a leading coefficient counts as zero, and so does an imaginary part.
pub const EPSILON: f64 = 1e-12;

// Vectors have named fields, and not an array of N: each function here is of one size, and its formula
// names the entries.
#[derive(Clone, Copy)]
pub struct Vector2 {
    pub x: f64,
    pub y: f64,
}

// Five numbers, as the coefficients of a quartic from the leading one on.
#[derive(Clone, Copy)]
pub struct Vector5 {
    pub a: f64,
    pub b: f64,
    pub c: f64,
    pub d: f64,
    pub e: f64,
}

// A matrix of two rows: m10 stands in the second row and the first column.
#[derive(Clone, Copy)]
pub struct Matrix2 {
    pub m00: f64,
    pub m01: f64,
    pub m10: f64,
    pub m11: f64,
}

// The polynomials P and R of a cone.
#[derive(Clone, Copy)]
pub struct Cone {
    pub p: Vector2,
    pub r: Vector3,
}

// Polynomials with complex coefficients, from the leading one on. Each degree has a type, and its functions
// take `a` to `e` apart: these are the names that the Rust's formulas give to them.
#[derive(Clone, Copy)]
pub struct Quadratic {
    pub a: Complex,
    pub b: Complex,
    pub c: Complex,
}

#[derive(Clone, Copy)]
pub struct Cubic {
    pub a: Complex,
    pub b: Complex,
    pub c: Complex,
    pub d: Complex,
}

#[derive(Clone, Copy)]
pub struct Quartic {
    pub a: Complex,
    pub b: Complex,
    pub c: Complex,
    pub d: Complex,
    pub e: Complex,
}
