// The draw of a scene: refusals 2 to 8 and 14 before anything is written, then the drawing.
#![tactic(auto)]

ghost use Rattle.std.specs.Prelude.{length};
ghost use Rattle.floats.specs.Arith.{zero_f};
ghost use Rattle.paths.specs.Ends.{EndsBoth, Finished, Zeroed};
ghost use Rattle.draw.specs.Draw.{draw_with_in, draw_range_in};

use refusals::Refusal;
use view::View;

// The check of the scene, of the view and of the threshold, and the drawing of a range, in the first places of `out` and
// `begins`.
fn drawing(
    threshold: f64,
    first: usize,
    many: usize,
    numbers: &[f64],
    marks: &[u32],
    points: &[f64],
    starts: &[usize],
    owners: &[u32],
    view: View,
    out: &mut [f64],
    begins: &mut [usize],
    work: &mut [f64],
    work_starts: &mut [usize],
    chopped: &mut [f64],
    chopped_starts: &mut [usize],
    node_boxes: &mut [f64],
    node_marks: &mut [u32],
    order: &mut [u32],
) -> Result<(usize, usize), Refusal>
    ensures { EndsBoth (draw_range_in threshold first many numbers.now marks.now points.now starts.now owners.now view out.old begins.old work.old work_starts.old chopped.old chopped_starts.old node_boxes.old node_marks.old order.old) out.new begins.new result }
{
    let mut inverses = [0.0; 16384];
    let mut boxes = [0.0; 6144];
    let mut drawn = [0u32; 1024];
    let n = check_scene::check(
        numbers,
        marks,
        points,
        starts,
        owners,
        &mut inverses,
        &mut boxes,
        &mut drawn,
    )?;
    if !view.is_ok() {
        return Err(Refusal::View);
    }
    if !path_rdp::threshold_ok(threshold) {
        return Err(Refusal::View);
    }
    let range = draw_ranges::range_within(first, many, n);
    draw_render::render_part(
        threshold,
        view,
        numbers,
        &inverses,
        marks,
        points,
        starts,
        owners,
        &boxes,
        &drawn,
        n,
        range.first,
        range.many,
        out,
        begins,
        work,
        work_starts,
        chopped,
        chopped_starts,
        node_boxes,
        node_marks,
        order,
    )
}

// The lines of the drawn entries number first, first + 1 and so on of a scene, `many` of them as far as there are any,
// drawn for a view and simplified with a threshold, in `out` and `begins`, or why that is refused; all solids of the
// scene hide. The work slices end as zeros. `work` has eight equal vectors of lines, `chopped` the result of a chop,
// the last three the tree.
pub fn draw_range(
    threshold: f64,
    first: usize,
    many: usize,
    numbers: &[f64],
    marks: &[u32],
    points: &[f64],
    starts: &[usize],
    owners: &[u32],
    view: View,
    out: &mut [f64],
    begins: &mut [usize],
    work: &mut [f64],
    work_starts: &mut [usize],
    chopped: &mut [f64],
    chopped_starts: &mut [usize],
    node_boxes: &mut [f64],
    node_marks: &mut [u32],
    order: &mut [u32],
) -> Result<(usize, usize), Refusal>
    ensures finished { Finished (draw_range_in threshold first many numbers.now marks.now points.now starts.now owners.now view out.old begins.old work.old work_starts.old chopped.old chopped_starts.old node_boxes.old node_marks.old order.old) (length out.old) (length begins.old) out.new begins.new result }
    ensures zeroed { Zeroed zero_f work.old work.new }
    ensures zeroed_2 { Zeroed 0 work_starts.old work_starts.new }
    ensures zeroed_3 { Zeroed zero_f chopped.old chopped.new }
    ensures zeroed_4 { Zeroed 0 chopped_starts.old chopped_starts.new }
    ensures zeroed_5 { Zeroed zero_f node_boxes.old node_boxes.new }
    ensures zeroed_6 { Zeroed 0 node_marks.old node_marks.new }
    ensures zeroed_7 { Zeroed 0 order.old order.new }
{
    let r = drawing(
        threshold,
        first,
        many,
        numbers,
        marks,
        points,
        starts,
        owners,
        view,
        out,
        begins,
        work,
        work_starts,
        chopped,
        chopped_starts,
        node_boxes,
        node_marks,
        order,
    );
    draw_clear::clear_work(
        work,
        work_starts,
        chopped,
        chopped_starts,
        node_boxes,
        node_marks,
        order,
    );
    paths::finish(out, begins, r)
}

// A scene drawn for a view and simplified with a threshold, in `out` and `begins`, or why it is refused: the range of all
// its drawn entries, at most 1,024. The slices are those of `draw_range`.
pub fn draw_with(
    threshold: f64,
    numbers: &[f64],
    marks: &[u32],
    points: &[f64],
    starts: &[usize],
    owners: &[u32],
    view: View,
    out: &mut [f64],
    begins: &mut [usize],
    work: &mut [f64],
    work_starts: &mut [usize],
    chopped: &mut [f64],
    chopped_starts: &mut [usize],
    node_boxes: &mut [f64],
    node_marks: &mut [u32],
    order: &mut [u32],
) -> Result<(usize, usize), Refusal>
    ensures finished { Finished (draw_with_in threshold numbers.now marks.now points.now starts.now owners.now view out.old begins.old work.old work_starts.old chopped.old chopped_starts.old node_boxes.old node_marks.old order.old) (length out.old) (length begins.old) out.new begins.new result }
    ensures zeroed { Zeroed zero_f work.old work.new }
    ensures zeroed_2 { Zeroed 0 work_starts.old work_starts.new }
    ensures zeroed_3 { Zeroed zero_f chopped.old chopped.new }
    ensures zeroed_4 { Zeroed 0 chopped_starts.old chopped_starts.new }
    ensures zeroed_5 { Zeroed zero_f node_boxes.old node_boxes.new }
    ensures zeroed_6 { Zeroed 0 node_marks.old node_marks.new }
    ensures zeroed_7 { Zeroed 0 order.old order.new }
{
    draw_range(
        threshold,
        0,
        1024,
        numbers,
        marks,
        points,
        starts,
        owners,
        view,
        out,
        begins,
        work,
        work_starts,
        chopped,
        chopped_starts,
        node_boxes,
        node_marks,
        order,
    )
}
