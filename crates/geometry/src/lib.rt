// Vectors, rays, hits and boxes: structs of f64 that travel by value.
#![tactic(auto)]

pub mod axis;
pub mod bounding_box;
pub mod hit;
pub mod ray;
pub mod vector;
