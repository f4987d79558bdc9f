// The account of a sheet for a host program, which `host_account_c` exports: the lines that a draw puts to step 4, and what
// becomes of their points. host/larnt.h declares the calls, with what their pointers must be.
#![tactic(auto)]

ghost use Rattle.std.specs.Prelude.{length};
ghost use Rattle.floats.specs.Arith.{zero_f};
ghost use Rattle.scene.specs.Scenes.{scene_of};
ghost use Rattle.paths.specs.Ends.{Zeroed};
ghost use Rattle.host.specs.StageCalls.{view_of_row, PathsTold};
ghost use Rattle.host_account.specs.AccountCalls.{FatesTold, lines_call};

// What becomes of each of many points, three numbers each, at step 4 of a draw: a word a point, then zeros. FFFFFFFF
// (hexadecimal) is visible, FFFFFFFE clipped away, FFFFFF00 and a number that the point meets, 9, 11 or 12, or the drawn
// entry that hides it. Numbers 2 to 8 and 14, then 13; the slice is then zeros throughout.
pub fn larnt_fates(
    numbers: &[f64],
    marks: &[u32],
    points: &[f64],
    starts: &[usize],
    owners: &[u32],
    node_boxes: &[f64],
    node_marks: &[u32],
    order: &[u32],
    view: &[f64; 22],
    tested: &[f64],
    told: &mut [u32],
) -> u32
    ensures { FatesTold (scene_of numbers.now marks.now points.now starts.now owners.now) node_boxes.now node_marks.now order.now (view_of_row view.now) tested.now told.old result told.new }
{
    let b = draw_fates::fates(
        numbers,
        marks,
        points,
        starts,
        owners,
        node_boxes,
        node_marks,
        order,
        host::stages::view_from(view),
        tested,
        told,
    );
    refusals::answer_number(b)
}

// The lines of the drawn entries number first, first + 1 and so on, `many` of them as far as there are any, as a draw
// for this view puts them to step 4.
pub fn larnt_entry_lines(
    numbers: &[f64],
    marks: &[u32],
    points: &[f64],
    starts: &[usize],
    owners: &[u32],
    view: &[f64; 22],
    first: usize,
    many: usize,
    out: &mut [f64],
    begins: &mut [usize],
    work: &mut [f64],
    work_starts: &mut [usize],
    points_out: &mut usize,
    paths_out: &mut usize,
) -> u32
    ensures paths_told { PathsTold (lines_call first many numbers.now marks.now points.now starts.now owners.now view.now out.old begins.old work.old work_starts.old) (length out.old) (length begins.old) result out.new begins.new points_out.new paths_out.new }
    ensures zeroed { Zeroed zero_f work.old work.new }
    ensures zeroed_2 { Zeroed 0 work_starts.old work_starts.new }
{
    let c = draw_entry_lines::entry_lines(
        first,
        many,
        numbers,
        marks,
        points,
        starts,
        owners,
        host::stages::view_from(view),
        out,
        begins,
        work,
        work_starts,
    );
    *points_out = host::stages::point_count(c);
    *paths_out = host::stages::path_count(c);
    refusals::answer_number(c)
}
