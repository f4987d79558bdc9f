// Lids (document 02, iii): the discs that close a cylinder and a cone, and what a closed cone contains. A closed solid's
// wall is that of the open one, and its hit there is handed in.
#![tactic(auto)]

pub mod closed_cone;
pub mod closed_cylinder;
mod disc;
