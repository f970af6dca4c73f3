// refine_bracket of inverse_kinematics/auxiliary.rs, over the error of two_parallel.
#![tactic(auto)]

pub mod refine;

// A sample: an angle and the component's value there.
#[derive(Clone, Copy, Default)]
pub struct Point {
    pub x: f64,
    pub y: f64,
}
