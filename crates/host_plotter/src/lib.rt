// The plotter's calls for a host program: each is thin over the proved one, and
// takes any numbers. host/larnt.h declares them, with what its pointers must be.
#![tactic(auto)]

pub mod pens;
pub mod registers;
