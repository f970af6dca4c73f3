// Vectors and matrices of three dimensions and rotations, as document 01 fixes nalgebra's: each
// function equals its definition in specs/ on every input.
#![tactic(auto)]

mod matrix;
mod vector;

pub use matrix::{apply, hat, identity, outer, product, rot, rot_unit, row_apply, transpose};
pub use vector::{Vector3, column_sum, cross, dot, norm, norm_squared, normalize};

// Three rows.
pub type Matrix3 = [[f64; 3]; 3];
