// A cylinder about the Z axis with a disc at either end.
ghost use Rattle.std.specs.Prelude.{◌≡◌};
ghost use Rattle.solids_lids.specs.Closed.{closed_cylinder_hit};

use crate::disc;
use geometry::hit::Hit;
use geometry::ray::Ray;

pub fn intersect(wall: Hit, radius: f64, z0: f64, z1: f64, ray: Ray) -> Hit
    ensures { result ≡ closed_cylinder_hit wall radius z0 z1 ray }
{
    let bottom = disc::intersect(radius, z0, ray);
    let top = disc::intersect(radius, z1, ray);
    disc::answer(wall.min(bottom).min(top))
}
