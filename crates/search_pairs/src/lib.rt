// The rows of samples that a search reads, and the pairs (q1, i) that it lists.
#![tactic(auto)]

mod lent_pairs;
mod pair_list;
mod row;

pub use lent_pairs::LentPairs;
pub use pair_list::PairList;
pub use row::{Column, Row, Sample, not_a_number};
