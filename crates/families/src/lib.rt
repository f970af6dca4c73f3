// The families of arms (inverse_kinematics/mod.rs). Each gives its answers as a list, in the Rust's
// order: at most eight. `answers::write` takes them to lists that a caller lends. `tolerance` is what
// subproblem1 flags by: 1e-6 in the Rust.
// Each family is a crate of its own, so that a change or a must-fail edit of one proves that one
// alone. This crate names them together, and has what holds of them all.
#![tactic(auto)]

pub use family1::spherical_two_parallel;
pub use family2::spherical_two_intersecting;
pub use family3::spherical;
pub use family4::three_parallel_two_intersecting;
pub use family5::three_parallel;
