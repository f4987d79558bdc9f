// The preview of a draw for a host program, which `host_preview_c` exports. host/larnt.h declares it, with what
// its pointers must be.
#![tactic(auto)]

ghost use Rattle.std.specs.Prelude.{◌≡◌};
ghost use Rattle.floats.specs.Arith.{zero_f};
ghost use Rattle.paths.specs.Ends.{Zeroed};
ghost use Rattle.host_preview.specs.PreviewCalls.{PreviewTold, preview_call};

// The counts of `larnt_draw_with` for `out` of `out_len` numbers and `begins` of `begins_len` starts, or its
// number; the work slices are those of a draw, and are zeros afterwards.
pub fn larnt_preview(
    numbers: &[f64],
    marks: &[u32],
    points: &[f64],
    starts: &[usize],
    owners: &[u32],
    view: &[f64; 22],
    threshold: f64,
    out_len: usize,
    begins_len: usize,
    work: &mut [f64],
    work_starts: &mut [usize],
    chopped: &mut [f64],
    chopped_starts: &mut [usize],
    node_boxes: &mut [f64],
    node_marks: &mut [u32],
    order: &mut [u32],
    points_out: &mut usize,
    paths_out: &mut usize,
) -> u32
    ensures preview_told { PreviewTold (preview_call threshold numbers.now marks.now points.now starts.now owners.now view.now out_len begins_len work.old work_starts.old chopped.old chopped_starts.old node_boxes.old node_marks.old order.old) result points_out.new paths_out.new }
    ensures zeroed { Zeroed zero_f work.old work.new }
    ensures zeroed_2 { Zeroed 0 work_starts.old work_starts.new }
    ensures zeroed_3 { Zeroed zero_f chopped.old chopped.new }
    ensures zeroed_4 { Zeroed 0 chopped_starts.old chopped_starts.new }
    ensures zeroed_5 { Zeroed zero_f node_boxes.old node_boxes.new }
    ensures zeroed_6 { Zeroed 0 node_marks.old node_marks.new }
    ensures zeroed_7 { Zeroed 0 order.old order.new }
{
    let c = draw_preview::preview(
        threshold,
        numbers,
        marks,
        points,
        starts,
        owners,
        host::stages::view_from(view),
        out_len,
        begins_len,
        work,
        work_starts,
        chopped,
        chopped_starts,
        node_boxes,
        node_marks,
        order,
    );
    *points_out = host::stages::point_count(c);
    *paths_out = host::stages::path_count(c);
    refusals::answer_number(c)
}
