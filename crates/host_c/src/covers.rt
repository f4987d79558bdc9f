// The calls that say whether a point is covered at all.

ghost use Rattle.rows.specs.Points.{point_of};
ghost use Rattle.scene.specs.Scenes.{scene_of};
ghost use Rattle.query_cover.specs.Covered.{covered_of};
ghost use Rattle.host.specs.TreeCalls.{SightTold};
ghost use Rattle.host.specs.CoverCalls as CoverCalls;

#[unsafe(no_mangle)]
pub extern "C" fn larnt_covered(
    numbers: &[f64],
    marks: &[u32],
    points: &[f64],
    starts: &[usize],
    owners: &[u32],
    node_boxes: &[f64],
    node_marks: &[u32],
    order: &[u32],
    eye: &[f64; 3],
    point: &[f64; 3],
    seen: &mut bool,
) -> u32
    ensures { SightTold (covered_of (scene_of numbers.now marks.now points.now starts.now owners.now) node_boxes.now node_marks.now order.now (point_of eye.now) (point_of point.now)) result seen.new }
{
    host::covers::larnt_covered(
        numbers, marks, points, starts, owners, node_boxes, node_marks, order, eye, point, seen,
    )
}

#[unsafe(no_mangle)]
pub extern "C" fn larnt_covered_all(
    numbers: &[f64],
    marks: &[u32],
    points: &[f64],
    starts: &[usize],
    owners: &[u32],
    node_boxes: &[f64],
    node_marks: &[u32],
    order: &[u32],
    eye: &[f64; 3],
    tested: &[f64],
    told: &mut [u8],
) -> u32
    ensures { CoverCalls.BatchTold (scene_of numbers.now marks.now points.now starts.now owners.now) node_boxes.now node_marks.now order.now (point_of eye.now) tested.now told.old result told.new }
{
    host::covers::larnt_covered_all(
        numbers, marks, points, starts, owners, node_boxes, node_marks, order, eye, tested, told,
    )
}
