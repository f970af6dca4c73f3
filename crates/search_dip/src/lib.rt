// minimise_dip of inverse_kinematics/auxiliary.rs, over the error of two_parallel.
#![tactic(auto)]

pub mod dip;
