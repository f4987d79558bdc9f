// The calls that say whether a point is covered at all.
ghost use Rattle.std.specs.Prelude.{◌≡◌};
ghost use Rattle.rows.specs.Points.{point_of};
ghost use Rattle.scene.specs.Scenes.{scene_of};
ghost use Rattle.query_cover.specs.Covered.{covered_of};
ghost use Rattle.host.specs.TreeCalls.{SightTold};
ghost use Rattle.host.specs.CoverCalls as CoverCalls;

use refusals::Refusal;

// Whether the eye sees a point past the solids of a tree, by a walk that stops at the first solid that falls
// short: numbers 2 to 9 and 14, then 11 and 12.
pub fn larnt_covered(
    numbers: &[f64],
    marks: &[u32],
    points: &[f64],
    starts: &[usize],
    owners: &[u32],
    node_boxes: &[f64],
    node_marks: &[u32],
    order: &[u32],
    eye: &[f64; 3],
    point: &[f64; 3],
    seen: &mut bool,
) -> u32
    ensures { SightTold (covered_of (scene_of numbers.now marks.now points.now starts.now owners.now) node_boxes.now node_marks.now order.now (point_of eye.now) (point_of point.now)) result seen.new }
{
    let s = query_cover::covered(
        numbers,
        marks,
        points,
        starts,
        owners,
        node_boxes,
        node_marks,
        order,
        crate::point(eye),
        crate::point(point),
    );
    *seen = crate::trees::in_sight(s);
    refusals::answer_number(s)
}

// The same of many points, three numbers each: a byte a point, 1 yes, 2 no, or the point's number 9, 11 or
// 12, then zeros. Numbers 2 to 8 and 14, then 13; the slice is then zeros throughout.
pub fn larnt_covered_all(
    numbers: &[f64],
    marks: &[u32],
    points: &[f64],
    starts: &[usize],
    owners: &[u32],
    node_boxes: &[f64],
    node_marks: &[u32],
    order: &[u32],
    eye: &[f64; 3],
    tested: &[f64],
    told: &mut [u8],
) -> u32
    ensures { CoverCalls.BatchTold (scene_of numbers.now marks.now points.now starts.now owners.now) node_boxes.now node_marks.now order.now (point_of eye.now) tested.now told.old result told.new }
{
    let b = query_cover::covered_all(
        numbers,
        marks,
        points,
        starts,
        owners,
        node_boxes,
        node_marks,
        order,
        crate::point(eye),
        tested,
        told,
    );
    refusals::answer_number(b)
}
