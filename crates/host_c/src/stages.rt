// The calls on paths: the adaptive chop, the simplification and the draw.

ghost use Rattle.std.specs.Prelude.{length};
ghost use Rattle.floats.specs.Arith.{zero_f};
ghost use Rattle.paths.specs.Ends.{places, Zeroed};
ghost use Rattle.path_chop.specs.Chop.{chop_call};
ghost use Rattle.rows.specs.Points.{point_of};
ghost use Rattle.rows.specs.Entries.{numbers_of};
ghost use Rattle.scene.specs.Entries.{simple_of};
ghost use Rattle.draw_outlines.specs.Calls.{outline_call};
ghost use Rattle.path_simplify.specs.Simplify.{simplify_call};
ghost use Rattle.host.specs.StageCalls as StageCalls;

use view::View;

#[unsafe(no_mangle)]
pub extern "C" fn larnt_chop(
    view: &[f64; 22],
    points: &[f64],
    starts: &[usize],
    out: &mut [f64],
    begins: &mut [usize],
    points_out: &mut usize,
    paths_out: &mut usize,
) -> u32
    ensures { StageCalls.PathsTold (chop_call (StageCalls.view_of_row view.now) points.now starts.now (places out.old) (length begins.old)) (length out.old) (length begins.old) result out.new begins.new points_out.new paths_out.new }
{
    host::stages::larnt_chop(view, points, starts, out, begins, points_out, paths_out)
}

#[unsafe(no_mangle)]
pub extern "C" fn larnt_outline(
    kind: u32,
    n: &[f64; 16],
    eye: &[f64; 3],
    placings: &[f64],
    view: &[f64; 22],
    out: &mut [f64],
    begins: &mut [usize],
    points_out: &mut usize,
    paths_out: &mut usize,
) -> u32
    ensures { StageCalls.PathsTold (outline_call (simple_of kind (numbers_of n.now)) (point_of eye.now) placings.now (StageCalls.view_of_row view.now) (places out.old) (length begins.old)) (length out.old) (length begins.old) result out.new begins.new points_out.new paths_out.new }
{
    host::stages::larnt_outline(
        kind, n, eye, placings, view, out, begins, points_out, paths_out,
    )
}

#[unsafe(no_mangle)]
pub extern "C" fn larnt_simplify(
    points: &[f64],
    starts: &[usize],
    threshold: f64,
    out: &mut [f64],
    begins: &mut [usize],
    points_out: &mut usize,
    paths_out: &mut usize,
) -> u32
    ensures { StageCalls.PathsTold (simplify_call points.now starts.now threshold (places out.old) (length begins.old)) (length out.old) (length begins.old) result out.new begins.new points_out.new paths_out.new }
{
    host::stages::larnt_simplify(
        points, starts, threshold, out, begins, points_out, paths_out,
    )
}

#[unsafe(no_mangle)]
pub extern "C" fn larnt_draw(
    numbers: &[f64],
    marks: &[u32],
    points: &[f64],
    starts: &[usize],
    owners: &[u32],
    view: &[f64; 22],
    out: &mut [f64],
    begins: &mut [usize],
    work: &mut [f64],
    work_starts: &mut [usize],
    chopped: &mut [f64],
    chopped_starts: &mut [usize],
    node_boxes: &mut [f64],
    node_marks: &mut [u32],
    order: &mut [u32],
    points_out: &mut usize,
    paths_out: &mut usize,
) -> u32
    ensures paths_told { StageCalls.PathsTold (StageCalls.draw_call numbers.now marks.now points.now starts.now owners.now view.now out.old begins.old work.old work_starts.old chopped.old chopped_starts.old node_boxes.old node_marks.old order.old) (length out.old) (length begins.old) result out.new begins.new points_out.new paths_out.new }
    ensures zeroed { Zeroed zero_f work.old work.new }
    ensures zeroed_2 { Zeroed 0 work_starts.old work_starts.new }
    ensures zeroed_3 { Zeroed zero_f chopped.old chopped.new }
    ensures zeroed_4 { Zeroed 0 chopped_starts.old chopped_starts.new }
    ensures zeroed_5 { Zeroed zero_f node_boxes.old node_boxes.new }
    ensures zeroed_6 { Zeroed 0 node_marks.old node_marks.new }
    ensures zeroed_7 { Zeroed 0 order.old order.new }
{
    host::stages::larnt_draw(
        numbers,
        marks,
        points,
        starts,
        owners,
        view,
        out,
        begins,
        work,
        work_starts,
        chopped,
        chopped_starts,
        node_boxes,
        node_marks,
        order,
        points_out,
        paths_out,
    )
}

#[unsafe(no_mangle)]
pub extern "C" fn larnt_draw_with(
    numbers: &[f64],
    marks: &[u32],
    points: &[f64],
    starts: &[usize],
    owners: &[u32],
    view: &[f64; 22],
    threshold: f64,
    out: &mut [f64],
    begins: &mut [usize],
    work: &mut [f64],
    work_starts: &mut [usize],
    chopped: &mut [f64],
    chopped_starts: &mut [usize],
    node_boxes: &mut [f64],
    node_marks: &mut [u32],
    order: &mut [u32],
    points_out: &mut usize,
    paths_out: &mut usize,
) -> u32
    ensures paths_told { StageCalls.PathsTold (StageCalls.draw_call_with threshold numbers.now marks.now points.now starts.now owners.now view.now out.old begins.old work.old work_starts.old chopped.old chopped_starts.old node_boxes.old node_marks.old order.old) (length out.old) (length begins.old) result out.new begins.new points_out.new paths_out.new }
    ensures zeroed { Zeroed zero_f work.old work.new }
    ensures zeroed_2 { Zeroed 0 work_starts.old work_starts.new }
    ensures zeroed_3 { Zeroed zero_f chopped.old chopped.new }
    ensures zeroed_4 { Zeroed 0 chopped_starts.old chopped_starts.new }
    ensures zeroed_5 { Zeroed zero_f node_boxes.old node_boxes.new }
    ensures zeroed_6 { Zeroed 0 node_marks.old node_marks.new }
    ensures zeroed_7 { Zeroed 0 order.old order.new }
{
    host::stages::larnt_draw_with(
        numbers,
        marks,
        points,
        starts,
        owners,
        view,
        threshold,
        out,
        begins,
        work,
        work_starts,
        chopped,
        chopped_starts,
        node_boxes,
        node_marks,
        order,
        points_out,
        paths_out,
    )
}
