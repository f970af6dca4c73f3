// scan_samples of inverse_kinematics/auxiliary.rs, over the error of two_parallel.
#![tactic(auto)]

pub mod scan;
