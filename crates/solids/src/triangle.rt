// A triangle, by its three corners. It contains nothing.
ghost use Rattle.std.specs.Prelude.{◌≡◌, ◌&&◌, ◌||◌};
ghost use Rattle.std.specs.Float.Ieee.{lt, le, neg};
ghost use Rattle.floats.specs.Arith.{◌⊕◌, zero_f, one_f, EPS};
ghost use Rattle.solids.specs.Triangles.{triangle_box, triangle_hit};

use geometry::bounding_box::BBox;
use geometry::hit::Hit;
use geometry::ray::Ray;
use geometry::vector::Vector;

pub fn bounding_box(v1: Vector, v2: Vector, v3: Vector) -> BBox
    ensures { result ≡ triangle_box v1 v2 v3 }
{
    BBox::new(v1.min(v2).min(v3), v1.max(v2).max(v3))
}

// In the band about 0 where the ray counts as parallel to the triangle.
fn in_band(det: f64) -> bool
    ensures { result ≡ (lt (neg EPS) det && lt det EPS) }
{
    det > -Vector::EPS && det < Vector::EPS
}

// From 0 to 1: a NaN is not.
fn in_unit(u: f64) -> bool
    ensures { result ≡ (le zero_f u && le u one_f) }
{
    0.0 <= u && u <= 1.0
}

// Beyond one of the other two edges: a NaN is not.
fn is_beyond(u: f64, v: f64) -> bool
    ensures { result ≡ (lt v zero_f || lt one_f (u ⊕ v)) }
{
    v < 0.0 || u + v > 1.0
}

// Möller and Trumbore's test. The point at distance d along the ray is v1 + u e1 + v e2.
pub fn intersect_vertices(v1: Vector, v2: Vector, v3: Vector, r: Ray) -> Hit
    ensures { result ≡ triangle_hit v1 v2 v3 r }
{
    let o = r.origin;
    let w = r.direction;
    let e1 = v2.sub(v1);
    let e2 = v3.sub(v1);
    let p = w.cross(e2);
    let det = e1.dot(p);
    if in_band(det) {
        return Hit::no_hit();
    }
    let inv = 1.0 / det;
    let t = o.sub(v1);
    let u = t.dot(p) * inv;
    if !in_unit(u) {
        return Hit::no_hit();
    }
    let q = t.cross(e1);
    let v = w.dot(q) * inv;
    if is_beyond(u, v) {
        return Hit::no_hit();
    }
    let d = e2.dot(q) * inv;
    if d < Vector::EPS {
        return Hit::no_hit();
    }
    Hit::new(d)
}
