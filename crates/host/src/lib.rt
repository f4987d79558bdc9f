// The calls for a host program, which `host_c` exports: each is thin over the proved one, and takes
// any numbers. host/larnt.h declares them, with what its pointers must be.
#![tactic(auto)]

pub mod covers;
pub mod stages;
pub mod trees;

ghost use Rattle.std.specs.Prelude.{◌≡◌};
ghost use Rattle.sqrt.specs.Root.{sqrt_of, rest_of};
ghost use Rattle.geometry.specs.Vectors.{length_of, length_rest, distance_of, distance_rest};
ghost use Rattle.geometry.specs.Boxes.{box_test};
ghost use Rattle.matrix.specs.Matrices.{mul_position_w};
ghost use Rattle.matrix_inverse.specs.Inverses.{inverted};
ghost use Rattle.rows.specs.Points.{point_of, point_row, box_of_row};
ghost use Rattle.rows.specs.Entries.{numbers_of};
ghost use Rattle.scene.specs.Entries.{simple_of, matrix_of};
ghost use Rattle.scene.specs.Scenes.{scene_of};
ghost use Rattle.query_solid.specs.Own.{own_hit, own_contains};
ghost use Rattle.host.specs.Calls.{ray_of_row, span_row, matrix_row, simple_number, distance_to, strikes, box_numbers, inside_simple, CheckTold, ContainedTold};
ghost use Rattle.host.specs.TreeCalls.{HitTold};

use geometry::bounding_box::BBox;
use geometry::ray::Ray;
use geometry::vector::Vector;
use rows::Numbers;

fn point(p: &[f64; 3]) -> Vector
    ensures { result ≡ point_of p.now }
{
    Vector {
        x: p[0],
        y: p[1],
        z: p[2],
    }
}

fn bounds(b: &[f64; 6]) -> BBox
    ensures { result ≡ box_of_row b.now }
{
    BBox {
        min: Vector {
            x: b[0],
            y: b[1],
            z: b[2],
        },
        max: Vector {
            x: b[3],
            y: b[4],
            z: b[5],
        },
    }
}

fn ray_from(r: &[f64; 6]) -> Ray
    ensures { result ≡ ray_of_row r.now }
{
    Ray {
        origin: Vector {
            x: r[0],
            y: r[1],
            z: r[2],
        },
        direction: Vector {
            x: r[3],
            y: r[4],
            z: r[5],
        },
    }
}

fn sixteen(n: &[f64; 16]) -> Numbers
    ensures { result ≡ numbers_of n.now }
{
    Numbers {
        x00: n[0],
        x01: n[1],
        x02: n[2],
        x03: n[3],
        x10: n[4],
        x11: n[5],
        x12: n[6],
        x13: n[7],
        x20: n[8],
        x21: n[9],
        x22: n[10],
        x23: n[11],
        x30: n[12],
        x31: n[13],
        x32: n[14],
        x33: n[15],
    }
}

// The square root, correctly rounded, and its exact remainder.
pub fn larnt_sqrt(x: f64, rest: &mut i64) -> f64
    ensures answer { result ≡ sqrt_of x }
    ensures lent { rest.new ≡ rest_of x }
{
    let r = sqrt::sqrt(x);
    let left = r.rest;
    *rest = left;
    r.root
}

// The length of a vector, and the remainder of its root.
pub fn larnt_length(v: &[f64; 3], rest: &mut i64) -> f64
    ensures answer { result ≡ length_of (point_of v.now) }
    ensures lent { rest.new ≡ length_rest (point_of v.now) }
{
    let r = point(v).length();
    let left = r.rest;
    *rest = left;
    r.root
}

// The distance of two points, and the remainder of its root.
pub fn larnt_distance(a: &[f64; 3], b: &[f64; 3], rest: &mut i64) -> f64
    ensures answer { result ≡ distance_of (point_of a.now) (point_of b.now) }
    ensures lent { rest.new ≡ distance_rest (point_of a.now) (point_of b.now) }
{
    let r = point(a).distance(point(b));
    let left = r.rest;
    *rest = left;
    r.root
}

// Where a ray (origin, direction) enters and leaves a box (min, max).
pub fn larnt_box_test(b: &[f64; 6], ray: &[f64; 6], span: &mut [f64; 2])
    ensures { span.new ≡ span_row (box_test (box_of_row b.now) (ray_of_row ray.now)) }
{
    let s = bounds(b).intersect(ray_from(ray));
    *span = [s.tmin, s.tmax];
}

// The projection of a point by a matrix (by rows), over the fourth coordinate.
pub fn larnt_project(m: &[f64; 16], p: &[f64; 3], projected: &mut [f64; 3])
    ensures { projected.new ≡ point_row (mul_position_w (matrix_of (numbers_of m.now)) (point_of p.now)) }
{
    let v = scene::entry::matrix_of(sixteen(m)).mul_position_w(point(p));
    *projected = [v.x, v.y, v.z];
}

// The inverse of a matrix (by rows); answers the determinant that it was divided by.
pub fn larnt_inverse(m: &[f64; 16], inverse: &mut [f64; 16]) -> f64
    ensures answer { result ≡ (inverted (matrix_of (numbers_of m.now))).determinant }
    ensures lent { inverse.new ≡ matrix_row (inverted (matrix_of (numbers_of m.now))).inverse }
{
    let i = matrix_inverse::inverse_with_determinant(scene::entry::matrix_of(sixteen(m)));
    let a = i.inverse;
    *inverse = [
        a.x00, a.x01, a.x02, a.x03, a.x10, a.x11, a.x12, a.x13, a.x20, a.x21, a.x22, a.x23, a.x30,
        a.x31, a.x32, a.x33,
    ];
    i.determinant
}

// The hit that a solid of kinds 1 to 5, 8 or 9 gives a ray. Answers 0, or 3 for any other kind.
pub fn larnt_solid_hit(kind: u32, n: &[f64; 16], ray: &[f64; 6], t: &mut f64, ok: &mut bool) -> u32
    ensures answer { result ≡ simple_number (simple_of kind (numbers_of n.now)) }
    ensures lent { t.new ≡ distance_to (simple_of kind (numbers_of n.now)) (ray_of_row ray.now) }
    ensures struck { ok.new ≡ strikes (simple_of kind (numbers_of n.now)) (ray_of_row ray.now) }
{
    match scene::entry::simple_of(kind, sixteen(n)) {
        Some(_) => {
            let h = query_solid::simple::hit(kind, n, ray_from(ray));
            *t = h.t;
            *ok = h.ok;
            0
        }
        None => {
            *t = 0.0;
            *ok = false;
            3
        }
    }
}

// The box of a solid of kinds 1 to 5, 8 or 9. Answers 0, or 3 for any other kind.
pub fn larnt_solid_box(kind: u32, n: &[f64; 16], b: &mut [f64; 6]) -> u32
    ensures answer { result ≡ simple_number (simple_of kind (numbers_of n.now)) }
    ensures lent { b.new ≡ box_numbers (simple_of kind (numbers_of n.now)) }
{
    match scene::entry::simple_of(kind, sixteen(n)) {
        Some(s) => {
            let x = s.bounding_box();
            *b = [x.min.x, x.min.y, x.min.z, x.max.x, x.max.y, x.max.z];
            0
        }
        None => {
            *b = [0.0, 0.0, 0.0, 0.0, 0.0, 0.0];
            3
        }
    }
}

// Whether a solid of kinds 1 to 5, 8 or 9, widened by f, contains a point. Answers 0, or 3 for any other kind.
pub fn larnt_solid_contains(
    kind: u32,
    n: &[f64; 16],
    p: &[f64; 3],
    f: f64,
    inside: &mut bool,
) -> u32
    ensures answer { result ≡ simple_number (simple_of kind (numbers_of n.now)) }
    ensures lent { inside.new ≡ inside_simple (simple_of kind (numbers_of n.now)) (point_of p.now) f }
{
    match scene::entry::simple_of(kind, sixteen(n)) {
        Some(_) => {
            *inside = query_solid::simple::contains(kind, n, point(p), f);
            0
        }
        None => {
            *inside = false;
            3
        }
    }
}

// The check of a scene: numbers 2 to 7 and 14. Of an accepted one `inverses` holds 16 numbers an entry (zeros
// for what is no placing), `boxes` 6 an entry, `drawn` the drawn entries, `count` of them; then zeros.
pub fn larnt_check(
    numbers: &[f64],
    marks: &[u32],
    points: &[f64],
    starts: &[usize],
    owners: &[u32],
    inverses: &mut [f64; 16384],
    boxes: &mut [f64; 6144],
    drawn: &mut [u32; 1024],
    count: &mut usize,
) -> u32
    ensures { CheckTold (scene_of numbers.now marks.now points.now starts.now owners.now) result inverses.new boxes.new drawn.new count.new }
{
    let v = check_scene::check(
        numbers, marks, points, starts, owners, inverses, boxes, drawn,
    );
    *count = query_solid::answers::drawn_count(v);
    refusals::answer_number(v)
}

// The hit that the solid at an entry of a scene gives a ray, with no tree and no other solid: numbers 2
// to 8, then 11.
pub fn larnt_own_hit(
    numbers: &[f64],
    marks: &[u32],
    points: &[f64],
    starts: &[usize],
    owners: &[u32],
    i: usize,
    ray: &[f64; 6],
    t: &mut f64,
    ok: &mut bool,
) -> u32
    ensures { HitTold (own_hit (scene_of numbers.now marks.now points.now starts.now owners.now) i (ray_of_row ray.now)) result t.new ok.new }
{
    let h = query_solid::own_hit(numbers, marks, points, starts, owners, i, ray_from(ray));
    *t = query_solid::answers::distance(h);
    *ok = query_solid::answers::met(h);
    refusals::answer_number(h)
}

// Whether the solid at an entry of a scene, widened by f, contains a point: numbers 2 to 7 and 14.
pub fn larnt_own_contains(
    numbers: &[f64],
    marks: &[u32],
    points: &[f64],
    starts: &[usize],
    owners: &[u32],
    i: usize,
    p: &[f64; 3],
    f: f64,
    inside: &mut bool,
) -> u32
    ensures { ContainedTold (own_contains (scene_of numbers.now marks.now points.now starts.now owners.now) i (point_of p.now) f) result inside.new }
{
    let c = query_solid::own_contains(numbers, marks, points, starts, owners, i, point(p), f);
    *inside = query_solid::answers::inside(c);
    refusals::answer_number(c)
}
