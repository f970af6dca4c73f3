// scan_samples in steps: the walk along a row of samples up to the next place that asks.
#![tactic(auto)]

pub mod run;
pub mod scan;
