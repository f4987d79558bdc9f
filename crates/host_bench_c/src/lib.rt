// The calls of `host_bench` for a host program, exported from a static library by their names: each with the clauses of the one that it calls.
#![tactic(auto)]

ghost use Rattle.std.specs.Prelude.{Float};
ghost use Rattle.geometry.specs.declared.ray.Ray.{Ray};
ghost use Rattle.rows.specs.Points.{point_of};
ghost use Rattle.tree_walk.specs.Walks.{entry_hit, walk_rows};
ghost use Rattle.tree_sight.specs.Sights.{sees};
ghost use Rattle.tree_cover.specs.Seeking.{seek_rows, covered_by};
ghost use Rattle.host.specs.Calls.{ray_of_row};
ghost use Rattle.host.specs.TreeCalls as TreeCalls;

use geometry::ray::Ray;

#[unsafe(no_mangle)]
pub extern "C" fn bench_intersect(
    numbers: &[f64],
    inverses: &[f64],
    marks: &[u32],
    node_boxes: &[f64],
    node_marks: &[u32],
    order: &[u32],
    ray: &[f64; 6],
    t: &mut f64,
    ok: &mut bool,
    entry: &mut u32,
) -> u32
    ensures { TreeCalls.NearestTold (walk_rows (entry_hit numbers.now inverses.now marks.now (ray_of_row ray.now)) (ray_of_row ray.now) node_boxes.now node_marks.now order.now) result t.new ok.new entry.new }
{
    host_bench::bench_intersect(
        numbers, inverses, marks, node_boxes, node_marks, order, ray, t, ok, entry,
    )
}

#[unsafe(no_mangle)]
pub extern "C" fn bench_visible(
    numbers: &[f64],
    inverses: &[f64],
    marks: &[u32],
    node_boxes: &[f64],
    node_marks: &[u32],
    order: &[u32],
    eye: &[f64; 3],
    p: &[f64; 3],
    seen: &mut bool,
) -> u32
    ensures { TreeCalls.SightTold (sees (λ (s : Ray). walk_rows (entry_hit numbers.now inverses.now marks.now s) s node_boxes.now node_marks.now order.now) (point_of eye.now) (point_of p.now)) result seen.new }
{
    host_bench::bench_visible(
        numbers, inverses, marks, node_boxes, node_marks, order, eye, p, seen,
    )
}

#[unsafe(no_mangle)]
pub extern "C" fn bench_covered(
    numbers: &[f64],
    inverses: &[f64],
    marks: &[u32],
    node_boxes: &[f64],
    node_marks: &[u32],
    order: &[u32],
    eye: &[f64; 3],
    p: &[f64; 3],
    seen: &mut bool,
) -> u32
    ensures { TreeCalls.SightTold (covered_by (λ (d : Float) (s : Ray). seek_rows d (entry_hit numbers.now inverses.now marks.now s) s node_boxes.now node_marks.now order.now) (point_of eye.now) (point_of p.now)) result seen.new }
{
    host_bench::bench_covered(
        numbers, inverses, marks, node_boxes, node_marks, order, eye, p, seen,
    )
}
