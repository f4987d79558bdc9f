// The work slices of a draw, cleared when it is over.
#![tactic(auto)]

ghost use Rattle.floats.specs.Arith.{zero_f};
ghost use Rattle.paths.specs.Ends.{Zeroed};

// The work slices are left as zeros.
pub fn clear_work(
    work: &mut [f64],
    work_starts: &mut [usize],
    chopped: &mut [f64],
    chopped_starts: &mut [usize],
    node_boxes: &mut [f64],
    node_marks: &mut [u32],
    order: &mut [u32],
)
    ensures zeroed { Zeroed zero_f work.old work.new }
    ensures zeroed_2 { Zeroed 0 work_starts.old work_starts.new }
    ensures zeroed_3 { Zeroed zero_f chopped.old chopped.new }
    ensures zeroed_4 { Zeroed 0 chopped_starts.old chopped_starts.new }
    ensures zeroed_5 { Zeroed zero_f node_boxes.old node_boxes.new }
    ensures zeroed_6 { Zeroed 0 node_marks.old node_marks.new }
    ensures zeroed_7 { Zeroed 0 order.old order.new }
{
    rows::clear(work, 0);
    rows::clear_starts(work_starts, 0);
    rows::clear(chopped, 0);
    rows::clear_starts(chopped_starts, 0);
    rows::clear(node_boxes, 0);
    rows::clear_marks(node_marks, 0);
    rows::clear_marks(order, 0);
}
