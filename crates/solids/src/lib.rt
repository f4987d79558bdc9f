// The seven kinds of solid: where a ray hits one, its box, and whether it contains a point.
#![tactic(auto)]

pub mod cone;
pub mod cube;
pub mod cylinder;
mod roots;
pub mod solid;
pub mod sphere;
pub mod triangle;
