// The calls on paths: the adaptive chop, the simplification and the draw.
ghost use Rattle.std.specs.Prelude.{◌≡◌, length};
ghost use Rattle.floats.specs.Arith.{zero_f};
ghost use Rattle.paths.specs.Ends.{places, Zeroed};
ghost use Rattle.path_chop.specs.Chop.{chop_call};
ghost use Rattle.rows.specs.Points.{point_of};
ghost use Rattle.rows.specs.Entries.{numbers_of};
ghost use Rattle.scene.specs.Entries.{simple_of};
ghost use Rattle.draw_outlines.specs.Calls.{outline_call};
ghost use Rattle.path_simplify.specs.Simplify.{simplify_call};
ghost use Rattle.host.specs.StageCalls as StageCalls;

use geometry::vector::Vector;
use matrix::Matrix;
use refusals::Refusal;
use view::View;

pub fn point_count(c: Result<(usize, usize), Refusal>) -> usize
    ensures { result ≡ StageCalls.points_told c }
{
    match c {
        Ok((n, _)) => n,
        Err(_) => 0,
    }
}

pub fn path_count(c: Result<(usize, usize), Refusal>) -> usize
    ensures { result ≡ StageCalls.paths_told c }
{
    match c {
        Ok((_, m)) => m,
        Err(_) => 0,
    }
}

pub fn view_from(v: &[f64; 22]) -> View
    ensures { result ≡ StageCalls.view_of_row v.now }
{
    View {
        matrix: Matrix {
            x00: v[0],
            x01: v[1],
            x02: v[2],
            x03: v[3],
            x10: v[4],
            x11: v[5],
            x12: v[6],
            x13: v[7],
            x20: v[8],
            x21: v[9],
            x22: v[10],
            x23: v[11],
            x30: v[12],
            x31: v[13],
            x32: v[14],
            x33: v[15],
        },
        eye: Vector {
            x: v[16],
            y: v[17],
            z: v[18],
        },
        width: v[19],
        height: v[20],
        step: v[21],
    }
}

// The paths chopped for a view (matrix by rows, eye, width, height, step): numbers 2, 4, 8 and 9, then 13.
// `out` holds their points and `begins` their starts, then zeros; `points_out` and `paths_out` are how many
// there are.
pub fn larnt_chop(
    view: &[f64; 22],
    points: &[f64],
    starts: &[usize],
    out: &mut [f64],
    begins: &mut [usize],
    points_out: &mut usize,
    paths_out: &mut usize,
) -> u32
    ensures { StageCalls.PathsTold (chop_call (StageCalls.view_of_row view.now) points.now starts.now (places out.old) (length begins.old)) (length out.old) (length begins.old) result out.new begins.new points_out.new paths_out.new }
{
    let c = path_chop::chop_adaptive(view_from(view), points, starts, out, begins);
    *points_out = point_count(c);
    *paths_out = path_count(c);
    refusals::answer_number(c)
}

// The outline that step 1 of a draw adds for a solid of kinds 1 to 5, 8 or 9 without lines of its own, in the
// solid's own coordinates, by the eye there and the placings, innermost first, 16 numbers each by rows: number 2
// for a length that is no multiple of 16, 3 for any other kind, 4 for more than 7 placings, 8 for the view, then
// 13. What is filled is as above.
pub fn larnt_outline(
    kind: u32,
    n: &[f64; 16],
    eye: &[f64; 3],
    placings: &[f64],
    view: &[f64; 22],
    out: &mut [f64],
    begins: &mut [usize],
    points_out: &mut usize,
    paths_out: &mut usize,
) -> u32
    ensures { StageCalls.PathsTold (outline_call (simple_of kind (numbers_of n.now)) (point_of eye.now) placings.now (StageCalls.view_of_row view.now) (places out.old) (length begins.old)) (length out.old) (length begins.old) result out.new begins.new points_out.new paths_out.new }
{
    let c = draw_outlines::outline_alone(
        scene::entry::simple_of(kind, crate::sixteen(n)),
        crate::point(eye),
        placings,
        view_from(view),
        out,
        begins,
    );
    *points_out = point_count(c);
    *paths_out = path_count(c);
    refusals::answer_number(c)
}

// The paths simplified with a threshold: numbers 2, 4, 8 and 9, then 13. What is filled is as above.
pub fn larnt_simplify(
    points: &[f64],
    starts: &[usize],
    threshold: f64,
    out: &mut [f64],
    begins: &mut [usize],
    points_out: &mut usize,
    paths_out: &mut usize,
) -> u32
    ensures { StageCalls.PathsTold (simplify_call points.now starts.now threshold (places out.old) (length begins.old)) (length out.old) (length begins.old) result out.new begins.new points_out.new paths_out.new }
{
    let c = path_simplify::simplify(points, starts, threshold, out, begins);
    *points_out = point_count(c);
    *paths_out = path_count(c);
    refusals::answer_number(c)
}

// The scene drawn for a view, simplified with 1e-4: numbers 2 to 8 and 14, then the first of 9 to 13 that the work
// meets. What is filled is as above; the work slices are zeros afterwards. `work` and `work_starts` are
// eight equal vectors.
pub fn larnt_draw(
    numbers: &[f64],
    marks: &[u32],
    points: &[f64],
    starts: &[usize],
    owners: &[u32],
    view: &[f64; 22],
    out: &mut [f64],
    begins: &mut [usize],
    work: &mut [f64],
    work_starts: &mut [usize],
    chopped: &mut [f64],
    chopped_starts: &mut [usize],
    node_boxes: &mut [f64],
    node_marks: &mut [u32],
    order: &mut [u32],
    points_out: &mut usize,
    paths_out: &mut usize,
) -> u32
    ensures paths_told { StageCalls.PathsTold (StageCalls.draw_call numbers.now marks.now points.now starts.now owners.now view.now out.old begins.old work.old work_starts.old chopped.old chopped_starts.old node_boxes.old node_marks.old order.old) (length out.old) (length begins.old) result out.new begins.new points_out.new paths_out.new }
    ensures zeroed { Zeroed zero_f work.old work.new }
    ensures zeroed_2 { Zeroed 0 work_starts.old work_starts.new }
    ensures zeroed_3 { Zeroed zero_f chopped.old chopped.new }
    ensures zeroed_4 { Zeroed 0 chopped_starts.old chopped_starts.new }
    ensures zeroed_5 { Zeroed zero_f node_boxes.old node_boxes.new }
    ensures zeroed_6 { Zeroed 0 node_marks.old node_marks.new }
    ensures zeroed_7 { Zeroed 0 order.old order.new }
{
    let c = draw_coarse::draw(
        numbers,
        marks,
        points,
        starts,
        owners,
        view_from(view),
        out,
        begins,
        work,
        work_starts,
        chopped,
        chopped_starts,
        node_boxes,
        node_marks,
        order,
    );
    *points_out = point_count(c);
    *paths_out = path_count(c);
    refusals::answer_number(c)
}

// The same simplified with a threshold, which meets 8 where it is not finite or is negative.
pub fn larnt_draw_with(
    numbers: &[f64],
    marks: &[u32],
    points: &[f64],
    starts: &[usize],
    owners: &[u32],
    view: &[f64; 22],
    threshold: f64,
    out: &mut [f64],
    begins: &mut [usize],
    work: &mut [f64],
    work_starts: &mut [usize],
    chopped: &mut [f64],
    chopped_starts: &mut [usize],
    node_boxes: &mut [f64],
    node_marks: &mut [u32],
    order: &mut [u32],
    points_out: &mut usize,
    paths_out: &mut usize,
) -> u32
    ensures paths_told { StageCalls.PathsTold (StageCalls.draw_call_with threshold numbers.now marks.now points.now starts.now owners.now view.now out.old begins.old work.old work_starts.old chopped.old chopped_starts.old node_boxes.old node_marks.old order.old) (length out.old) (length begins.old) result out.new begins.new points_out.new paths_out.new }
    ensures zeroed { Zeroed zero_f work.old work.new }
    ensures zeroed_2 { Zeroed 0 work_starts.old work_starts.new }
    ensures zeroed_3 { Zeroed zero_f chopped.old chopped.new }
    ensures zeroed_4 { Zeroed 0 chopped_starts.old chopped_starts.new }
    ensures zeroed_5 { Zeroed zero_f node_boxes.old node_boxes.new }
    ensures zeroed_6 { Zeroed 0 node_marks.old node_marks.new }
    ensures zeroed_7 { Zeroed 0 order.old order.new }
{
    let c = draw::draw_with(
        threshold,
        numbers,
        marks,
        points,
        starts,
        owners,
        view_from(view),
        out,
        begins,
        work,
        work_starts,
        chopped,
        chopped_starts,
        node_boxes,
        node_marks,
        order,
    );
    *points_out = point_count(c);
    *paths_out = path_count(c);
    refusals::answer_number(c)
}
