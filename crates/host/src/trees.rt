// The calls on the tree of a scene: its build, the nearest hit and the eye test.
ghost use Rattle.std.specs.Prelude.{◌≡◌};
ghost use Rattle.rows.specs.Points.{point_of};
ghost use Rattle.scene.specs.Scenes.{scene_of};
ghost use Rattle.query_scene.specs.Queries.{intersect_of, visible_of, occluder_of};
ghost use Rattle.host.specs.Calls.{ray_of_row};
ghost use Rattle.host.specs.TreeCalls as TreeCalls;

use refusals::Refusal;
use tree_sight::Sight;

fn node_count(b: Result<usize, Refusal>) -> usize
    ensures { result ≡ TreeCalls.node_count b }
{
    match b {
        Ok(n) => n,
        Err(_) => 0,
    }
}

pub fn in_sight(s: Result<Sight, Refusal>) -> bool
    ensures { result ≡ TreeCalls.in_sight s }
{
    match s {
        Ok(Sight::Visible) => true,
        Ok(Sight::Hidden) => false,
        Err(_) => false,
    }
}

// The tree of a scene's drawn entries, of `count` nodes, and then zeros: numbers 2 to 7 and 14, then 13. `node_boxes`
// holds 6 numbers a node, `node_marks` 3 marks a node, `order` the drawn entries in the leaves' order.
pub fn larnt_build(
    numbers: &[f64],
    marks: &[u32],
    points: &[f64],
    starts: &[usize],
    owners: &[u32],
    node_boxes: &mut [f64],
    node_marks: &mut [u32],
    order: &mut [u32],
    count: &mut usize,
) -> u32
    ensures { TreeCalls.TreeTold (scene_of numbers.now marks.now points.now starts.now owners.now) node_boxes.old node_marks.old order.old result node_boxes.new node_marks.new order.new count.new }
{
    let b = query_scene::build(
        numbers, marks, points, starts, owners, node_boxes, node_marks, order,
    );
    *count = node_count(b);
    refusals::answer_number(b)
}

// The nearest hit that the solids of a tree give a ray, with the entry whose t last became the best, FFFFFFFF
// (hexadecimal) where none did: numbers 2 to 8 and 14, then 11 and 12.
pub fn larnt_intersect(
    numbers: &[f64],
    marks: &[u32],
    points: &[f64],
    starts: &[usize],
    owners: &[u32],
    node_boxes: &[f64],
    node_marks: &[u32],
    order: &[u32],
    ray: &[f64; 6],
    t: &mut f64,
    ok: &mut bool,
    entry: &mut u32,
) -> u32
    ensures { TreeCalls.NearestTold (intersect_of (scene_of numbers.now marks.now points.now starts.now owners.now) node_boxes.now node_marks.now order.now (ray_of_row ray.now)) result t.new ok.new entry.new }
{
    let f = query_scene::intersect(
        numbers,
        marks,
        points,
        starts,
        owners,
        node_boxes,
        node_marks,
        order,
        crate::ray_from(ray),
    );
    match f {
        Ok(b) => {
            *t = b.hit.t;
            *ok = b.hit.ok;
            *entry = b.entry;
            0
        }
        Err(k) => {
            *t = 0.0;
            *ok = false;
            *entry = 0;
            k.number()
        }
    }
}

// Whether the eye sees a point past the solids of a tree: numbers 2 to 9 and 14, then 11 and 12.
pub fn larnt_visible(
    numbers: &[f64],
    marks: &[u32],
    points: &[f64],
    starts: &[usize],
    owners: &[u32],
    node_boxes: &[f64],
    node_marks: &[u32],
    order: &[u32],
    eye: &[f64; 3],
    point: &[f64; 3],
    seen: &mut bool,
) -> u32
    ensures { TreeCalls.SightTold (visible_of (scene_of numbers.now marks.now points.now starts.now owners.now) node_boxes.now node_marks.now order.now (point_of eye.now) (point_of point.now)) result seen.new }
{
    let s = query_scene::visible(
        numbers,
        marks,
        points,
        starts,
        owners,
        node_boxes,
        node_marks,
        order,
        crate::point(eye),
        crate::point(point),
    );
    *seen = in_sight(s);
    refusals::answer_number(s)
}

// The entry that hides a point from the eye past the solids of a tree, FFFFFFFF (hexadecimal) where the point is
// visible: numbers 2 to 9 and 14, then 11 and 12.
pub fn larnt_occluder(
    numbers: &[f64],
    marks: &[u32],
    points: &[f64],
    starts: &[usize],
    owners: &[u32],
    node_boxes: &[f64],
    node_marks: &[u32],
    order: &[u32],
    eye: &[f64; 3],
    point: &[f64; 3],
    entry: &mut u32,
) -> u32
    ensures { TreeCalls.NameTold (occluder_of (scene_of numbers.now marks.now points.now starts.now owners.now) node_boxes.now node_marks.now order.now (point_of eye.now) (point_of point.now)) result entry.new }
{
    let o = query_scene::occluder(
        numbers,
        marks,
        points,
        starts,
        owners,
        node_boxes,
        node_marks,
        order,
        crate::point(eye),
        crate::point(point),
    );
    match o {
        Ok(None) => {
            *entry = 0xffffffff;
            0
        }
        Ok(Some(i)) => {
            *entry = i;
            0
        }
        Err(k) => {
            *entry = 0;
            k.number()
        }
    }
}
