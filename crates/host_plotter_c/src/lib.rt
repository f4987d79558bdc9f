// The calls of `host_plotter` for a host program, exported from a static library by their names: each with the clauses of the one that it calls.
#![tactic(auto)]

pub mod pens;
pub mod registers;
