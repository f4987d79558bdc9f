// Boxes that a ray misses, shown by products with bounds on the reciprocals of its direction, in place of the six
// divisions of the box test.
#![tactic(auto)]

ghost use Rattle.std.specs.Prelude.{◌≡◌};
ghost use Rattle.tree_beams.specs.Beams.{is_shown, aim_of, greater_f, lesser_f, latest_of, soonest_of, misses_box};

use geometry::bounding_box::BBox;
use geometry::ray::Ray;
use geometry::vector::Vector;

// A ray with a bound on 1 / d on each axis of its direction d: nearer to 0, by less than one part in 4 * 10^14.
#[derive(Clone, Copy)]
pub struct Beam {
    pub ray: Ray,
    pub low: Vector,
    pub sure: bool,
}

// Whether products show that low is such a bound, and no less than 0.7 in size.
fn shown(d: f64, low: f64) -> bool
    ensures { result ≡ is_shown d low }
{
    let p = low * d;
    if 0.999999999999998 < p {
        if p < 1.0 {
            return 0.5 < low * low;
        }
    }
    false
}

// The ray r, whose direction d is v / length: 1 / d is next to length / v, which need not wait for d. Nothing is asked
// of v and length, since the bounds are tested.
pub fn aim(r: Ray, v: Vector, length: f64) -> Beam
    ensures { result ≡ aim_of r v length }
{
    let low = Vector::new(length / v.x, length / v.y, length / v.z).mul_scalar(0.9999999999999996);
    if shown(r.direction.x, low.x) {
        if shown(r.direction.y, low.y) {
            let sure = shown(r.direction.z, low.z);
            return Beam { ray: r, low, sure };
        }
    }
    Beam {
        ray: r,
        low,
        sure: false,
    }
}

// The greater of two numbers; the second where one is a NaN.
fn greater(a: f64, b: f64) -> f64
    ensures { result ≡ greater_f a b }
{
    if a > b { a } else { b }
}

fn lesser(a: f64, b: f64) -> f64
    ensures { result ≡ lesser_f a b }
{
    if a < b { a } else { b }
}

// From the products of two corners of a box: where the last slab is entered, and where the first is left.
fn latest(n: Vector, f: Vector) -> f64
    ensures { result ≡ latest_of n f }
{
    greater(
        greater(lesser(n.x, f.x), lesser(n.y, f.y)),
        lesser(n.z, f.z),
    )
}

fn soonest(n: Vector, f: Vector) -> f64
    ensures { result ≡ soonest_of n f }
{
    lesser(
        lesser(greater(n.x, f.x), greater(n.y, f.y)),
        greater(n.z, f.z),
    )
}

// Whether the box is shown to lie behind the ray, or to be left before it is entered: by the products of its planes
// with the bounds. They are short of the quotients of the box test by less than the factor that the leaving one is made
// longer by, but for what is next to 0.
pub fn misses(bx: BBox, b: Beam) -> bool
    ensures { result ≡ misses_box bx b }
{
    let n = bx.min.sub(b.ray.origin).mul(b.low);
    let f = bx.max.sub(b.ray.origin).mul(b.low);
    let e = latest(n, f);
    let l = soonest(n, f);
    if l <= 0.0 {
        return true;
    }
    greater(l * 1.00000000000001, 1e-290) < e
}
