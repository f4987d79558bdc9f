// A sphere, by its centre and radius.
ghost use Rattle.std.specs.Prelude.{◌≡◌};
ghost use Rattle.solids.specs.Spheres.{sphere_box, sphere_contains, sphere_hit};

use geometry::bounding_box::BBox;
use geometry::hit::Hit;
use geometry::ray::Ray;
use geometry::vector::Vector;

pub fn bounding_box(center: Vector, radius: f64) -> BBox
    ensures { result ≡ sphere_box center radius }
{
    BBox::new(center.sub_scalar(radius), center.add_scalar(radius))
}

pub fn contains(center: Vector, radius: f64, v: Vector, f: f64) -> bool
    ensures { result ≡ sphere_contains center radius v f }
{
    v.sub(center).norm() <= radius + f
}

pub fn intersect(center: Vector, radius: f64, r: Ray) -> Hit
    ensures { result ≡ sphere_hit center radius r }
{
    let o = r.origin;
    let d = r.direction;
    let to = o.sub(center);
    let b = to.dot(d);
    let c = to.dot(to) - radius * radius;
    let q = b * b - c;
    if q > 0.0 {
        let s = sqrt::root(q);
        let t1 = -b - s;
        if t1 > 1e-2 {
            return Hit::new(t1);
        }
        let t2 = -b + s;
        if t2 > 1e-2 {
            return Hit::new(t2);
        }
        return Hit::no_hit();
    }
    Hit::no_hit()
}
