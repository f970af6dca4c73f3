// What is printed for a block, as bytes, from its numbers and the two lists of its answers: text.rt
// has numbers and names, lists.rt the lines.
#![tactic(auto)]

mod lists;
mod text;

pub use lists::{head, lines_of, shown};
pub use text::Buffer;
