// search_1d_bracketed of inverse_kinematics/auxiliary.rs and its helpers, over the error of two_parallel.
// Each function equals its definition in the crate search_definition: in the pairs, in their order, and in
// the number of evaluations. A count goes up by one at each call of the error.
#![tactic(auto)]

mod grid;

pub use grid::{search_1d_bracketed, search_two_parallel};
pub use search_pairs::{LentPairs, PairList};
// The grid's angles, for the search in steps.
pub use grid::angle;
// The parts of a search, for the test program search_vectors.
pub use grid::{sample_grid, scan_runs};
