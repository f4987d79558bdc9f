// The calls of `host` for a host program, exported from a static library by their names: each with the clauses of the one that it calls.
#![tactic(auto)]

pub mod covers;
pub mod stages;
pub mod trees;

ghost use Rattle.std.specs.Prelude.{◌≡◌};
ghost use Rattle.sqrt.specs.Root.{sqrt_of, rest_of};
ghost use Rattle.geometry.specs.Vectors.{length_of, length_rest, distance_of, distance_rest};
ghost use Rattle.geometry.specs.Boxes.{box_test};
ghost use Rattle.matrix.specs.Matrices.{mul_position_w};
ghost use Rattle.matrix_inverse.specs.Inverses.{inverted};
ghost use Rattle.rows.specs.Points.{point_of, point_row, box_of_row};
ghost use Rattle.rows.specs.Entries.{numbers_of};
ghost use Rattle.scene.specs.Entries.{simple_of, matrix_of};
ghost use Rattle.scene.specs.Scenes.{scene_of};
ghost use Rattle.query_solid.specs.Own.{own_hit, own_contains};
ghost use Rattle.host.specs.Calls.{ray_of_row, span_row, matrix_row, simple_number, distance_to, strikes, box_numbers, inside_simple, CheckTold, ContainedTold};
ghost use Rattle.host.specs.TreeCalls.{HitTold};

use geometry::ray::Ray;

#[unsafe(no_mangle)]
pub extern "C" fn larnt_sqrt(x: f64, rest: &mut i64) -> f64
    ensures answer { result ≡ sqrt_of x }
    ensures lent { rest.new ≡ rest_of x }
{
    host::larnt_sqrt(x, rest)
}

#[unsafe(no_mangle)]
pub extern "C" fn larnt_length(v: &[f64; 3], rest: &mut i64) -> f64
    ensures answer { result ≡ length_of (point_of v.now) }
    ensures lent { rest.new ≡ length_rest (point_of v.now) }
{
    host::larnt_length(v, rest)
}

#[unsafe(no_mangle)]
pub extern "C" fn larnt_distance(a: &[f64; 3], b: &[f64; 3], rest: &mut i64) -> f64
    ensures answer { result ≡ distance_of (point_of a.now) (point_of b.now) }
    ensures lent { rest.new ≡ distance_rest (point_of a.now) (point_of b.now) }
{
    host::larnt_distance(a, b, rest)
}

#[unsafe(no_mangle)]
pub extern "C" fn larnt_box_test(b: &[f64; 6], ray: &[f64; 6], span: &mut [f64; 2])
    ensures { span.new ≡ span_row (box_test (box_of_row b.now) (ray_of_row ray.now)) }
{
    host::larnt_box_test(b, ray, span)
}

#[unsafe(no_mangle)]
pub extern "C" fn larnt_project(m: &[f64; 16], p: &[f64; 3], projected: &mut [f64; 3])
    ensures { projected.new ≡ point_row (mul_position_w (matrix_of (numbers_of m.now)) (point_of p.now)) }
{
    host::larnt_project(m, p, projected)
}

#[unsafe(no_mangle)]
pub extern "C" fn larnt_inverse(m: &[f64; 16], inverse: &mut [f64; 16]) -> f64
    ensures answer { result ≡ (inverted (matrix_of (numbers_of m.now))).determinant }
    ensures lent { inverse.new ≡ matrix_row (inverted (matrix_of (numbers_of m.now))).inverse }
{
    host::larnt_inverse(m, inverse)
}

#[unsafe(no_mangle)]
pub extern "C" fn larnt_solid_hit(
    kind: u32,
    n: &[f64; 16],
    ray: &[f64; 6],
    t: &mut f64,
    ok: &mut bool,
) -> u32
    ensures answer { result ≡ simple_number (simple_of kind (numbers_of n.now)) }
    ensures lent { t.new ≡ distance_to (simple_of kind (numbers_of n.now)) (ray_of_row ray.now) }
    ensures struck { ok.new ≡ strikes (simple_of kind (numbers_of n.now)) (ray_of_row ray.now) }
{
    host::larnt_solid_hit(kind, n, ray, t, ok)
}

#[unsafe(no_mangle)]
pub extern "C" fn larnt_solid_box(kind: u32, n: &[f64; 16], b: &mut [f64; 6]) -> u32
    ensures answer { result ≡ simple_number (simple_of kind (numbers_of n.now)) }
    ensures lent { b.new ≡ box_numbers (simple_of kind (numbers_of n.now)) }
{
    host::larnt_solid_box(kind, n, b)
}

#[unsafe(no_mangle)]
pub extern "C" fn larnt_solid_contains(
    kind: u32,
    n: &[f64; 16],
    p: &[f64; 3],
    f: f64,
    inside: &mut bool,
) -> u32
    ensures answer { result ≡ simple_number (simple_of kind (numbers_of n.now)) }
    ensures lent { inside.new ≡ inside_simple (simple_of kind (numbers_of n.now)) (point_of p.now) f }
{
    host::larnt_solid_contains(kind, n, p, f, inside)
}

#[unsafe(no_mangle)]
pub extern "C" fn larnt_check(
    numbers: &[f64],
    marks: &[u32],
    points: &[f64],
    starts: &[usize],
    owners: &[u32],
    inverses: &mut [f64; 16384],
    boxes: &mut [f64; 6144],
    drawn: &mut [u32; 1024],
    count: &mut usize,
) -> u32
    ensures { CheckTold (scene_of numbers.now marks.now points.now starts.now owners.now) result inverses.new boxes.new drawn.new count.new }
{
    host::larnt_check(
        numbers, marks, points, starts, owners, inverses, boxes, drawn, count,
    )
}

#[unsafe(no_mangle)]
pub extern "C" fn larnt_own_hit(
    numbers: &[f64],
    marks: &[u32],
    points: &[f64],
    starts: &[usize],
    owners: &[u32],
    i: usize,
    ray: &[f64; 6],
    t: &mut f64,
    ok: &mut bool,
) -> u32
    ensures { HitTold (own_hit (scene_of numbers.now marks.now points.now starts.now owners.now) i (ray_of_row ray.now)) result t.new ok.new }
{
    host::larnt_own_hit(numbers, marks, points, starts, owners, i, ray, t, ok)
}

#[unsafe(no_mangle)]
pub extern "C" fn larnt_own_contains(
    numbers: &[f64],
    marks: &[u32],
    points: &[f64],
    starts: &[usize],
    owners: &[u32],
    i: usize,
    p: &[f64; 3],
    f: f64,
    inside: &mut bool,
) -> u32
    ensures { ContainedTold (own_contains (scene_of numbers.now marks.now points.now starts.now owners.now) i (point_of p.now) f) result inside.new }
{
    host::larnt_own_contains(numbers, marks, points, starts, owners, i, p, f, inside)
}
