// A solid: one of seven kinds, each with its own measures.
ghost use Rattle.std.specs.Prelude.{◌≡◌};
ghost use Rattle.solids.specs.Solids.{hit_of, solid_box, contains_of};

use crate::{cone, cube, cylinder, sphere, triangle};
use geometry::bounding_box::BBox;
use geometry::hit::Hit;
use geometry::ray::Ray;
use geometry::vector::Vector;
use solids_lids::{closed_cone, closed_cylinder};

#[derive(Clone, Copy)]
pub enum Solid {
    Sphere { center: Vector, radius: f64 },
    Cylinder { radius: f64, z0: f64, z1: f64 },
    Cone { radius: f64, height: f64 },
    Cube { min: Vector, max: Vector },
    Triangle { v1: Vector, v2: Vector, v3: Vector },
    ClosedCylinder { radius: f64, z0: f64, z1: f64 },
    ClosedCone { radius: f64, height: f64 },
}

impl Solid {
    pub fn bounding_box(self) -> BBox
        ensures { result ≡ solid_box self }
    {
        match self {
            Solid::Sphere { center, radius } => sphere::bounding_box(center, radius),
            Solid::Cylinder { radius, z0, z1 } => cylinder::bounding_box(radius, z0, z1),
            Solid::Cone { radius, height } => cone::bounding_box(radius, height),
            Solid::Cube { min, max } => BBox::new(min, max),
            Solid::Triangle { v1, v2, v3 } => triangle::bounding_box(v1, v2, v3),
            Solid::ClosedCylinder { radius, z0, z1 } => cylinder::bounding_box(radius, z0, z1),
            Solid::ClosedCone { radius, height } => cone::bounding_box(radius, height),
        }
    }

    pub fn contains(self, v: Vector, f: f64) -> bool
        ensures { result ≡ contains_of self v f }
    {
        match self {
            Solid::Sphere { center, radius } => sphere::contains(center, radius, v, f),
            Solid::Cylinder { radius, z0, z1 } => cylinder::contains(radius, z0, z1, v, f),
            Solid::Cone {
                radius: _,
                height: _,
            } => false,
            Solid::Cube { min, max } => cube::contains(min, max, v, f),
            Solid::Triangle {
                v1: _,
                v2: _,
                v3: _,
            } => false,
            Solid::ClosedCylinder { radius, z0, z1 } => cylinder::contains(radius, z0, z1, v, f),
            Solid::ClosedCone { radius, height } => closed_cone::contains(radius, height, v, f),
        }
    }

    pub fn intersect(self, r: Ray) -> Hit
        ensures { result ≡ hit_of self r }
    {
        match self {
            Solid::Sphere { center, radius } => sphere::intersect(center, radius, r.again()),
            Solid::Cylinder { radius, z0, z1 } => cylinder::intersect(radius, z0, z1, r.again()),
            Solid::Cone { radius, height } => cone::intersect(radius, height, r.again()),
            Solid::Cube { min, max } => cube::intersect(min, max, r.again()),
            Solid::Triangle { v1, v2, v3 } => triangle::intersect_vertices(v1, v2, v3, r.again()),
            Solid::ClosedCylinder { radius, z0, z1 } => {
                closed_cylinder::intersect(
                    cylinder::intersect(radius, z0, z1, r.again()),
                    radius,
                    z0,
                    z1,
                    r.again(),
                )
            }
            Solid::ClosedCone { radius, height } => {
                closed_cone::intersect(
                    cone::intersect(radius, height, r.again()),
                    radius,
                    r.again(),
                )
            }
        }
    }
}
