// A cone about the Z axis with a disc at z = 0.
ghost use Rattle.std.specs.Prelude.{◌≡◌};
ghost use Rattle.solids_lids.specs.Closed.{closed_cone_contains, closed_cone_hit};

use crate::disc;
use geometry::hit::Hit;
use geometry::ray::Ray;
use geometry::vector::Vector;

pub fn intersect(wall: Hit, radius: f64, ray: Ray) -> Hit
    ensures { result ≡ closed_cone_hit wall radius ray }
{
    let base = disc::intersect(radius, 0.0, ray);
    disc::answer(wall.min(base))
}

pub fn contains(radius: f64, height: f64, v: Vector, f: f64) -> bool
    ensures { result ≡ closed_cone_contains radius height v f }
{
    if -f <= v.z {
        if v.z <= height + f {
            let xy = Vector::new(v.x, v.y, 0.0);
            return xy.norm() <= radius * (height - v.z) / height + f;
        }
    }
    false
}
