// The preview of a draw: how many points and paths it would answer, or why it would be refused, in the
// work slices of a draw and without the slices of its result.
#![tactic(auto)]

ghost use Rattle.std.specs.Prelude.{◌≡◌};
ghost use Rattle.floats.specs.Arith.{zero_f};
ghost use Rattle.paths.specs.Ends.{Zeroed};
ghost use Rattle.draw_preview.specs.Previews.{preview_in};

use refusals::Refusal;
use view::View;

// The check of the scene, of the view and of the threshold, and the counts of the drawing.
fn previewing(
    threshold: f64,
    numbers: &[f64],
    marks: &[u32],
    points: &[f64],
    starts: &[usize],
    owners: &[u32],
    view: View,
    out: usize,
    begins: usize,
    work: &mut [f64],
    work_starts: &mut [usize],
    chopped: &mut [f64],
    chopped_starts: &mut [usize],
    node_boxes: &mut [f64],
    node_marks: &mut [u32],
    order: &mut [u32],
) -> Result<(usize, usize), Refusal>
    ensures { result ≡ preview_in threshold numbers.now marks.now points.now starts.now owners.now view out begins work.old work_starts.old chopped.old chopped_starts.old node_boxes.old node_marks.old order.old }
{
    let mut inverses = [0.0; 16384];
    let mut boxes = [0.0; 6144];
    let mut drawn = [0u32; 1024];
    let n = check_scene::check(
        numbers,
        marks,
        points,
        starts,
        owners,
        &mut inverses,
        &mut boxes,
        &mut drawn,
    )?;
    if !view.is_ok() {
        return Err(Refusal::View);
    }
    if !path_rdp::threshold_ok(threshold) {
        return Err(Refusal::View);
    }
    draw_counts::render_counts(
        threshold,
        view,
        numbers,
        &inverses,
        marks,
        points,
        starts,
        owners,
        &boxes,
        &drawn,
        n,
        out,
        begins,
        work,
        work_starts,
        chopped,
        chopped_starts,
        node_boxes,
        node_marks,
        order,
    )
}

// What `draw::draw_with` would answer for result slices of `out` numbers and `begins` starts. The work
// slices are those of a draw, and end as zeros.
pub fn preview(
    threshold: f64,
    numbers: &[f64],
    marks: &[u32],
    points: &[f64],
    starts: &[usize],
    owners: &[u32],
    view: View,
    out: usize,
    begins: usize,
    work: &mut [f64],
    work_starts: &mut [usize],
    chopped: &mut [f64],
    chopped_starts: &mut [usize],
    node_boxes: &mut [f64],
    node_marks: &mut [u32],
    order: &mut [u32],
) -> Result<(usize, usize), Refusal>
    ensures value { result ≡ preview_in threshold numbers.now marks.now points.now starts.now owners.now view out begins work.old work_starts.old chopped.old chopped_starts.old node_boxes.old node_marks.old order.old }
    ensures zeroed { Zeroed zero_f work.old work.new }
    ensures zeroed_2 { Zeroed 0 work_starts.old work_starts.new }
    ensures zeroed_3 { Zeroed zero_f chopped.old chopped.new }
    ensures zeroed_4 { Zeroed 0 chopped_starts.old chopped_starts.new }
    ensures zeroed_5 { Zeroed zero_f node_boxes.old node_boxes.new }
    ensures zeroed_6 { Zeroed 0 node_marks.old node_marks.new }
    ensures zeroed_7 { Zeroed 0 order.old order.new }
{
    let r = previewing(
        threshold,
        numbers,
        marks,
        points,
        starts,
        owners,
        view,
        out,
        begins,
        work,
        work_starts,
        chopped,
        chopped_starts,
        node_boxes,
        node_marks,
        order,
    );
    draw_clear::clear_work(
        work,
        work_starts,
        chopped,
        chopped_starts,
        node_boxes,
        node_marks,
        order,
    );
    r
}
