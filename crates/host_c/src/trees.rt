// The calls on the tree of a scene: its build, the nearest hit and the eye test.

ghost use Rattle.rows.specs.Points.{point_of};
ghost use Rattle.scene.specs.Scenes.{scene_of};
ghost use Rattle.query_scene.specs.Queries.{intersect_of, visible_of, occluder_of};
ghost use Rattle.host.specs.Calls.{ray_of_row};
ghost use Rattle.host.specs.TreeCalls as TreeCalls;

#[unsafe(no_mangle)]
pub extern "C" fn larnt_build(
    numbers: &[f64],
    marks: &[u32],
    points: &[f64],
    starts: &[usize],
    owners: &[u32],
    node_boxes: &mut [f64],
    node_marks: &mut [u32],
    order: &mut [u32],
    count: &mut usize,
) -> u32
    ensures { TreeCalls.TreeTold (scene_of numbers.now marks.now points.now starts.now owners.now) node_boxes.old node_marks.old order.old result node_boxes.new node_marks.new order.new count.new }
{
    host::trees::larnt_build(
        numbers, marks, points, starts, owners, node_boxes, node_marks, order, count,
    )
}

#[unsafe(no_mangle)]
pub extern "C" fn larnt_intersect(
    numbers: &[f64],
    marks: &[u32],
    points: &[f64],
    starts: &[usize],
    owners: &[u32],
    node_boxes: &[f64],
    node_marks: &[u32],
    order: &[u32],
    ray: &[f64; 6],
    t: &mut f64,
    ok: &mut bool,
    entry: &mut u32,
) -> u32
    ensures { TreeCalls.NearestTold (intersect_of (scene_of numbers.now marks.now points.now starts.now owners.now) node_boxes.now node_marks.now order.now (ray_of_row ray.now)) result t.new ok.new entry.new }
{
    host::trees::larnt_intersect(
        numbers, marks, points, starts, owners, node_boxes, node_marks, order, ray, t, ok, entry,
    )
}

#[unsafe(no_mangle)]
pub extern "C" fn larnt_visible(
    numbers: &[f64],
    marks: &[u32],
    points: &[f64],
    starts: &[usize],
    owners: &[u32],
    node_boxes: &[f64],
    node_marks: &[u32],
    order: &[u32],
    eye: &[f64; 3],
    point: &[f64; 3],
    seen: &mut bool,
) -> u32
    ensures { TreeCalls.SightTold (visible_of (scene_of numbers.now marks.now points.now starts.now owners.now) node_boxes.now node_marks.now order.now (point_of eye.now) (point_of point.now)) result seen.new }
{
    host::trees::larnt_visible(
        numbers, marks, points, starts, owners, node_boxes, node_marks, order, eye, point, seen,
    )
}

#[unsafe(no_mangle)]
pub extern "C" fn larnt_occluder(
    numbers: &[f64],
    marks: &[u32],
    points: &[f64],
    starts: &[usize],
    owners: &[u32],
    node_boxes: &[f64],
    node_marks: &[u32],
    order: &[u32],
    eye: &[f64; 3],
    point: &[f64; 3],
    entry: &mut u32,
) -> u32
    ensures { TreeCalls.NameTold (occluder_of (scene_of numbers.now marks.now points.now starts.now owners.now) node_boxes.now node_marks.now order.now (point_of eye.now) (point_of point.now)) result entry.new }
{
    host::trees::larnt_occluder(
        numbers, marks, points, starts, owners, node_boxes, node_marks, order, eye, point, entry,
    )
}
