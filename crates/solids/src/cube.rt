// An axis-aligned box, by its least and greatest corner.
ghost use Rattle.std.specs.Prelude.{◌≡◌, ◌&&◌};
ghost use Rattle.std.specs.Float.Ieee.{lt, le};
ghost use Rattle.floats.specs.Arith.{thousandth};
ghost use Rattle.solids.specs.Cubes.{cube_contains, cube_hit, outside};

use geometry::hit::Hit;
use geometry::ray::Ray;
use geometry::vector::Vector;

// Whether x is farther than f from the room between low and high.
fn is_outside(low: f64, high: f64, x: f64, f: f64) -> bool
    ensures { result ≡ outside low high x f }
{
    x < low - f || x > high + f
}

pub fn contains(min: Vector, max: Vector, v: Vector, f: f64) -> bool
    ensures { result ≡ cube_contains min max v f }
{
    if is_outside(min.x, max.x, v.x, f) {
        return false;
    }
    if is_outside(min.y, max.y, v.y, f) {
        return false;
    }
    if is_outside(min.z, max.z, v.z, f) {
        return false;
    }
    true
}

// Entered before 1e-3 and left after it.
fn starts_inside(t0: f64, t1: f64) -> bool
    ensures { result ≡ (lt t0 thousandth && lt thousandth t1) }
{
    t0 < 1e-3 && t1 > 1e-3
}

// Entered at 1e-3 or later, and before it is left.
fn enters(t0: f64, t1: f64) -> bool
    ensures { result ≡ (le thousandth t0 && lt t0 t1) }
{
    t0 >= 1e-3 && t0 < t1
}

pub fn intersect(min: Vector, max: Vector, r: Ray) -> Hit
    ensures { result ≡ cube_hit min max r }
{
    let o = r.origin;
    let d = r.direction;
    let n = min.sub(o).div(d);
    let f = max.sub(o).div(d);
    let t0 = n.min(f).max_component();
    let t1 = n.max(f).min_component();
    if starts_inside(t0, t1) {
        return Hit::new(t1);
    }
    if enters(t0, t1) {
        return Hit::new(t0);
    }
    Hit::no_hit()
}
