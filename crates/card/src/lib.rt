// The motion card: registers, and the search of family 6 kept between two evaluations.
#![tactic(auto)]

pub mod registers; // registers.rt: what a write and a read do, and the end
pub mod pairs; // pairs.rt: whether a search's pairs have their answers, and what a search that is over gives
pub mod judge; // judge.rt: whether a block is searched
