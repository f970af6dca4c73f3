// Solution sets: enums of up to two or four solutions, with the solutions in their cases. Where the Rust
// panics on a case, the method here asks its caller to show that the case does not arise.
// The two enums are the Rust's: the solvers and the definitions name their cases, which an enum of a size N
// could not be. Each has `expect_one` and `expect_two`, which match on its own cases.
#![tactic(auto)]

mod set2;
mod set4;

pub use set2::SolutionSet2;
pub use set4::SolutionSet4;

// The Rust's tuples of two and of three numbers, with names: which angle stands where is said by no type.
#[derive(Clone, Copy, Default)]
pub struct Pair {
    pub first: f64,
    pub second: f64,
}

#[derive(Clone, Copy, Default)]
pub struct Triple {
    pub first: f64,
    pub second: f64,
    pub third: f64,
}
