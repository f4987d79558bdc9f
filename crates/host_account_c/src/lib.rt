// The calls of `host_account` for a host program, exported from a static library by their names: each with the clauses of the one that it calls.
#![tactic(auto)]

ghost use Rattle.std.specs.Prelude.{length};
ghost use Rattle.floats.specs.Arith.{zero_f};
ghost use Rattle.scene.specs.Scenes.{scene_of};
ghost use Rattle.paths.specs.Ends.{Zeroed};
ghost use Rattle.host.specs.StageCalls.{view_of_row, PathsTold};
ghost use Rattle.host_account.specs.AccountCalls.{FatesTold, lines_call};

#[unsafe(no_mangle)]
pub extern "C" fn larnt_fates(
    numbers: &[f64],
    marks: &[u32],
    points: &[f64],
    starts: &[usize],
    owners: &[u32],
    node_boxes: &[f64],
    node_marks: &[u32],
    order: &[u32],
    view: &[f64; 22],
    tested: &[f64],
    told: &mut [u32],
) -> u32
    ensures { FatesTold (scene_of numbers.now marks.now points.now starts.now owners.now) node_boxes.now node_marks.now order.now (view_of_row view.now) tested.now told.old result told.new }
{
    host_account::larnt_fates(
        numbers, marks, points, starts, owners, node_boxes, node_marks, order, view, tested, told,
    )
}

#[unsafe(no_mangle)]
pub extern "C" fn larnt_entry_lines(
    numbers: &[f64],
    marks: &[u32],
    points: &[f64],
    starts: &[usize],
    owners: &[u32],
    view: &[f64; 22],
    first: usize,
    many: usize,
    out: &mut [f64],
    begins: &mut [usize],
    work: &mut [f64],
    work_starts: &mut [usize],
    points_out: &mut usize,
    paths_out: &mut usize,
) -> u32
    ensures paths_told { PathsTold (lines_call first many numbers.now marks.now points.now starts.now owners.now view.now out.old begins.old work.old work_starts.old) (length out.old) (length begins.old) result out.new begins.new points_out.new paths_out.new }
    ensures zeroed { Zeroed zero_f work.old work.new }
    ensures zeroed_2 { Zeroed 0 work_starts.old work_starts.new }
{
    host_account::larnt_entry_lines(
        numbers,
        marks,
        points,
        starts,
        owners,
        view,
        first,
        many,
        out,
        begins,
        work,
        work_starts,
        points_out,
        paths_out,
    )
}
