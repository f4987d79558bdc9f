// Numbers 3 and 5 of document 01, entry by entry.
#![tactic(auto)]

pub mod measures;
pub mod values;
