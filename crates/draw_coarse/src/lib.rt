// The draw by default: a coarse sheet, simplified with 1e-4.
#![tactic(auto)]

ghost use Rattle.std.specs.Prelude.{length};
ghost use Rattle.floats.specs.Arith.{zero_f};
ghost use Rattle.paths.specs.Ends.{Finished, Zeroed};
ghost use Rattle.draw.specs.Draw.{draw_in};

use refusals::Refusal;
use view::View;

// A scene drawn for a view, in `out` and `begins`, or why it is refused; the work slices end as zeros.
pub fn draw(
    numbers: &[f64],
    marks: &[u32],
    points: &[f64],
    starts: &[usize],
    owners: &[u32],
    view: View,
    out: &mut [f64],
    begins: &mut [usize],
    work: &mut [f64],
    work_starts: &mut [usize],
    chopped: &mut [f64],
    chopped_starts: &mut [usize],
    node_boxes: &mut [f64],
    node_marks: &mut [u32],
    order: &mut [u32],
) -> Result<(usize, usize), Refusal>
    ensures finished { Finished (draw_in numbers.now marks.now points.now starts.now owners.now view out.old begins.old work.old work_starts.old chopped.old chopped_starts.old node_boxes.old node_marks.old order.old) (length out.old) (length begins.old) out.new begins.new result }
    ensures zeroed { Zeroed zero_f work.old work.new }
    ensures zeroed_2 { Zeroed 0 work_starts.old work_starts.new }
    ensures zeroed_3 { Zeroed zero_f chopped.old chopped.new }
    ensures zeroed_4 { Zeroed 0 chopped_starts.old chopped_starts.new }
    ensures zeroed_5 { Zeroed zero_f node_boxes.old node_boxes.new }
    ensures zeroed_6 { Zeroed 0 node_marks.old node_marks.new }
    ensures zeroed_7 { Zeroed 0 order.old order.new }
{
    draw::draw_with(
        1e-4,
        numbers,
        marks,
        points,
        starts,
        owners,
        view,
        out,
        begins,
        work,
        work_starts,
        chopped,
        chopped_starts,
        node_boxes,
        node_marks,
        order,
    )
}
