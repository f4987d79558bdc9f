// The draw of some parts of a scene for a host program, which `host_parts_c` exports. host/larnt.h declares it, with
// what its pointers must be.
#![tactic(auto)]

ghost use Rattle.std.specs.Prelude.{length};
ghost use Rattle.floats.specs.Arith.{zero_f};
ghost use Rattle.paths.specs.Ends.{Zeroed};
ghost use Rattle.host.specs.StageCalls.{PathsTold};
ghost use Rattle.host_parts.specs.PartCalls.{range_call};

// `larnt_draw_with` with the lines of the drawn entries number first, first + 1 and so on alone, `many` of them as far
// as there are any; all solids of the scene hide.
pub fn larnt_draw_range(
    numbers: &[f64],
    marks: &[u32],
    points: &[f64],
    starts: &[usize],
    owners: &[u32],
    view: &[f64; 22],
    threshold: f64,
    first: usize,
    many: usize,
    out: &mut [f64],
    begins: &mut [usize],
    work: &mut [f64],
    work_starts: &mut [usize],
    chopped: &mut [f64],
    chopped_starts: &mut [usize],
    node_boxes: &mut [f64],
    node_marks: &mut [u32],
    order: &mut [u32],
    points_out: &mut usize,
    paths_out: &mut usize,
) -> u32
    ensures paths_told { PathsTold (range_call threshold first many numbers.now marks.now points.now starts.now owners.now view.now out.old begins.old work.old work_starts.old chopped.old chopped_starts.old node_boxes.old node_marks.old order.old) (length out.old) (length begins.old) result out.new begins.new points_out.new paths_out.new }
    ensures zeroed { Zeroed zero_f work.old work.new }
    ensures zeroed_2 { Zeroed 0 work_starts.old work_starts.new }
    ensures zeroed_3 { Zeroed zero_f chopped.old chopped.new }
    ensures zeroed_4 { Zeroed 0 chopped_starts.old chopped_starts.new }
    ensures zeroed_5 { Zeroed zero_f node_boxes.old node_boxes.new }
    ensures zeroed_6 { Zeroed 0 node_marks.old node_marks.new }
    ensures zeroed_7 { Zeroed 0 order.old order.new }
{
    let c = draw::draw_range(
        threshold,
        first,
        many,
        numbers,
        marks,
        points,
        starts,
        owners,
        host::stages::view_from(view),
        out,
        begins,
        work,
        work_starts,
        chopped,
        chopped_starts,
        node_boxes,
        node_marks,
        order,
    );
    *points_out = host::stages::point_count(c);
    *paths_out = host::stages::path_count(c);
    refusals::answer_number(c)
}
