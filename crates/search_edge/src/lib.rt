// The edges of the search's intervals (search_1d_bracketed of inverse_kinematics/auxiliary.rs), over the
// error of two_parallel.
#![tactic(auto)]

pub mod edge;
