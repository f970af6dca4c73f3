// minimise_dip in steps.
#![tactic(auto)]

pub mod dip;
pub mod golden;
