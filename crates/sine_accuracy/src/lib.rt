// How good the sine and the cosine are: no code, but a theorem about the definitions that `sin` and `cos` of `float` are proved equal to.
// specs/Accuracy.antt states it, proofs/Shown.antt proves it.
#![tactic(auto)]

pub use float::{cos, sin};
