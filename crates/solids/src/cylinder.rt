// A cylinder about the Z axis, by its radius and the z of its ends. It is a tube: its ends are open.
ghost use Rattle.std.specs.Prelude.{◌≡◌};
ghost use Rattle.solids.specs.Cylinders.{cylinder_box, cylinder_contains, cylinder_hit, on_tube};

use crate::roots::{first, roots};
use geometry::bounding_box::BBox;
use geometry::hit::Hit;
use geometry::ray::Ray;
use geometry::vector::Vector;

pub fn bounding_box(radius: f64, z0: f64, z1: f64) -> BBox
    ensures { result ≡ cylinder_box radius z0 z1 }
{
    BBox::new(
        Vector::new(-radius, -radius, z0),
        Vector::new(radius, radius, z1),
    )
}

pub fn contains(radius: f64, z0: f64, z1: f64, v: Vector, f: f64) -> bool
    ensures { result ≡ cylinder_contains radius z0 z1 v f }
{
    let xy = Vector::new(v.x, v.y, 0.0);
    if xy.norm() > radius + f {
        return false;
    }
    v.z >= z0 - f && v.z <= z1 + f
}

// Whether the root t is ahead, and the ray's z there strictly between the ends.
fn on_tube(z0: f64, z1: f64, t: f64, z: f64) -> bool
    ensures { result ≡ on_tube z0 z1 t z }
{
    if t > 1e-6 {
        return z0 < z && z < z1;
    }
    false
}

pub fn intersect(radius: f64, z0: f64, z1: f64, ray: Ray) -> Hit
    ensures { result ≡ cylinder_hit radius z0 z1 ray }
{
    let o = ray.origin;
    let d = ray.direction;
    let a = d.x * d.x + d.y * d.y;
    let b = 2.0 * o.x * d.x + 2.0 * o.y * d.y;
    let c = o.x * o.x + o.y * o.y - radius * radius;
    let q = b * b - 4.0 * a * c;
    if q < 0.0 {
        return Hit::no_hit();
    }
    let t = roots(a, b, q);
    let near = on_tube(z0, z1, t.tmin, o.z + t.tmin * d.z);
    let far = on_tube(z0, z1, t.tmax, o.z + t.tmax * d.z);
    first(t, near, far)
}
