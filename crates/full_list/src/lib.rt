// The full list of an arm and a pose, read answer by answer. Families 1 to 5 give their answers, family 6
// leaves the search's pairs, and an answer is made from its pair when it is read. What a call does with
// the answers is its own affair.
#![tactic(auto)]

mod found;
mod list;
mod pairs;
mod task;

pub use family6::PairList;
pub use found::without_search;
pub use list::{FullList, search, with_list};
pub use pairs::Pairs;
pub use task::Task;
