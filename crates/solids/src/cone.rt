// A cone about the Z axis, by its radius at z = 0 and the height of its tip. It has no base and
// contains nothing.
ghost use Rattle.std.specs.Prelude.{◌≡◌};
ghost use Rattle.solids.specs.Cones.{cone_box, cone_hit, on_cone};

use crate::roots::{first, roots};
use geometry::bounding_box::BBox;
use geometry::hit::Hit;
use geometry::ray::Ray;
use geometry::vector::Vector;

pub fn bounding_box(radius: f64, height: f64) -> BBox
    ensures { result ≡ cone_box radius height }
{
    BBox::new(
        Vector::new(-radius, -radius, 0.0),
        Vector::new(radius, radius, height),
    )
}

// Whether the root t is ahead, and the ray there strictly between base and tip.
fn on_cone(height: f64, ray: Ray, t: f64) -> bool
    ensures { result ≡ on_cone height ray t }
{
    if t > 1e-6 {
        let p = ray.position(t);
        return p.z > 0.0 && p.z < height;
    }
    false
}

pub fn intersect(radius: f64, height: f64, ray: Ray) -> Hit
    ensures { result ≡ cone_hit radius height ray }
{
    let o = ray.origin;
    let d = ray.direction;
    let slope = radius / height;
    let k = slope * slope;
    let a = d.x * d.x + d.y * d.y - k * d.z * d.z;
    let b = 2.0 * (d.x * o.x + d.y * o.y - k * d.z * (o.z - height));
    let c = o.x * o.x + o.y * o.y - k * (o.z - height) * (o.z - height);
    let q = b * b - 4.0 * a * c;
    if q <= 0.0 {
        return Hit::no_hit();
    }
    let t = roots(a, b, q);
    let near = on_cone(height, ray, t.tmin);
    let far = on_cone(height, ray, t.tmax);
    first(t, near, far)
}
