// What the programs run: blocks are read from standard input to its end, and the lines of each are
// printed. What is printed, and how the program goes on after a call of the system, is decided in
// progress.rt and proved there; calls.rt reads and writes. `serve` is proved over any reader and any
// writer: whatever they give, what is written is the lines of what was read, or a beginning of them.
#![tactic(auto)]

mod calls;
mod progress;

pub use calls::{run, serve};
pub use progress::{Limits, Progress, Run};
