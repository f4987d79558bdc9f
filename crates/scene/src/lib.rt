// Scenes: five slices, and what the numbers and marks of their entries stand for.
#![tactic(auto)]

pub mod entry;
