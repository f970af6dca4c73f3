// What the test programs share. A test program reads records from standard input, each a fixed
// number of 64-bit words in little-endian order: the id of a function, its arguments, and the
// results that an outside source gives for them. It runs the port on the arguments and counts, for
// each id, the cases and those whose result is another. What a program has of its own is the table of
// its functions' names and what it runs for an id: a `match` over a number, since in a record a function
// is a number, given out by the reference program (`oracle layout`).
#![tactic(auto)]

mod records;
mod results;
mod tally;

pub use records::{report, run};
pub use results::{agree, argument, gives, same};
pub use tally::{Counts, Tally, count, end, line, next, no_cases};
pub use words::{array_of, numbers, pattern, word};
