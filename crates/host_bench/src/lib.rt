// The walks and the eye test on a scene that is checked already: for timing them, and for many rays on one
// scene. No host links this; its calls are those of crate host.
#![tactic(auto)]

ghost use Rattle.std.specs.Prelude.{◌≡◌, Float};
ghost use Rattle.geometry.specs.declared.ray.Ray.{Ray};
ghost use Rattle.rows.specs.Points.{point_of};
ghost use Rattle.tree_walk.specs.Walks.{entry_hit, walk_rows};
ghost use Rattle.tree_sight.specs.Sights.{sees};
ghost use Rattle.tree_cover.specs.Seeking.{seek_rows, covered_by};
ghost use Rattle.host.specs.Calls.{ray_of_row};
ghost use Rattle.host.specs.TreeCalls as TreeCalls;

use geometry::ray::Ray;
use geometry::vector::Vector;

fn ray_from(r: &[f64; 6]) -> Ray
    ensures { result ≡ ray_of_row r.now }
{
    Ray {
        origin: Vector {
            x: r[0],
            y: r[1],
            z: r[2],
        },
        direction: Vector {
            x: r[3],
            y: r[4],
            z: r[5],
        },
    }
}

fn point(p: &[f64; 3]) -> Vector
    ensures { result ≡ point_of p.now }
{
    Vector {
        x: p[0],
        y: p[1],
        z: p[2],
    }
}

// The nearest hit on the rows of a tree with the entry that it names, given the inverses of the scene's placings.
pub fn bench_intersect(
    numbers: &[f64],
    inverses: &[f64],
    marks: &[u32],
    node_boxes: &[f64],
    node_marks: &[u32],
    order: &[u32],
    ray: &[f64; 6],
    t: &mut f64,
    ok: &mut bool,
    entry: &mut u32,
) -> u32
    ensures { TreeCalls.NearestTold (walk_rows (entry_hit numbers.now inverses.now marks.now (ray_of_row ray.now)) (ray_of_row ray.now) node_boxes.now node_marks.now order.now) result t.new ok.new entry.new }
{
    let f = tree_walk::intersect(
        numbers,
        inverses,
        marks,
        node_boxes,
        node_marks,
        order,
        ray_from(ray),
    );
    match f {
        Ok(b) => {
            *t = b.hit.t;
            *ok = b.hit.ok;
            *entry = b.entry;
            0
        }
        Err(k) => {
            *t = 0.0;
            *ok = false;
            *entry = 0;
            k.number()
        }
    }
}

// Whether the eye sees a point, the same way.
pub fn bench_visible(
    numbers: &[f64],
    inverses: &[f64],
    marks: &[u32],
    node_boxes: &[f64],
    node_marks: &[u32],
    order: &[u32],
    eye: &[f64; 3],
    p: &[f64; 3],
    seen: &mut bool,
) -> u32
    ensures { TreeCalls.SightTold (sees (λ (s : Ray). walk_rows (entry_hit numbers.now inverses.now marks.now s) s node_boxes.now node_marks.now order.now) (point_of eye.now) (point_of p.now)) result seen.new }
{
    let s = tree_sight::visible(
        numbers,
        inverses,
        marks,
        node_boxes,
        node_marks,
        order,
        point(eye),
        point(p),
    );
    *seen = host::trees::in_sight(s);
    refusals::answer_number(s)
}

// The same by the walk that stops.
pub fn bench_covered(
    numbers: &[f64],
    inverses: &[f64],
    marks: &[u32],
    node_boxes: &[f64],
    node_marks: &[u32],
    order: &[u32],
    eye: &[f64; 3],
    p: &[f64; 3],
    seen: &mut bool,
) -> u32
    ensures { TreeCalls.SightTold (covered_by (λ (d : Float) (s : Ray). seek_rows d (entry_hit numbers.now inverses.now marks.now s) s node_boxes.now node_marks.now order.now) (point_of eye.now) (point_of p.now)) result seen.new }
{
    let s = tree_cover::covered(
        numbers,
        inverses,
        marks,
        node_boxes,
        node_marks,
        order,
        point(eye),
        point(p),
    );
    *seen = host::trees::in_sight(s);
    refusals::answer_number(s)
}
