// The counts of a drawing of solids whose boxes and inverses are known: the steps of `draw_render`, but for
// the last stage, whose points and paths are counted.
#![tactic(auto)]

ghost use Rattle.std.specs.Prelude.{◌≡◌, false, ◌*◌, ◌/◌, ◌≤◌, length, take};
ghost use Rattle.std.specs.Float.Ieee.{lt};
ghost use Rattle.floats.specs.Arith.{zero_f};
ghost use Rattle.tree_nodes.specs.Nodes.{places_of};
ghost use Rattle.tree_split.specs.Build.{box_at};
ghost use Rattle.scene_shape.specs.Shapes.{decode};
ghost use Rattle.paths.specs.Paths.{paths_with};
ghost use Rattle.paths.specs.Ends.{all_points, held, counted};
ghost use Rattle.draw_collect.specs.Slices.{lined_at};
ghost use Rattle.draw_render.specs.Render as Render;
ghost use Rattle.draw_render.specs.Slices.{Listed};
ghost use Rattle.draw_counts.specs.Blanks.{places_for};

use refusals::Refusal;
use view::View;

// Step 5 where it is the last stage: lines are judged by number 9, and what simplification keeps of them
// is counted. `spare` is no shorter than the points.
fn simplified_counts(
    threshold: f64,
    path: &[f64],
    starts: &[usize],
    spare: &mut [f64],
    room: usize,
    begins: usize,
) -> Result<(usize, usize), Refusal>
    requires { (length path.now ≤ length spare.old) × (lt threshold zero_f ≡ false) }
    ensures { result ≡ counted (Render.simplified_lines threshold room begins (paths_with (all_points path.now) starts.now)) }
{
    if !paths::points_ok(path) {
        return Err(Refusal::Point);
    }
    draw_tally::tally_simplified(path, starts, threshold, spare, room, begins)
}

// Steps 3 and 4 where they are the last: the tree is built, and what the filter leaves is counted.
fn seen_counts(
    view: View,
    numbers: &[f64],
    inverses: &[f64],
    marks: &[u32],
    boxes: &[f64],
    listed: &[u32],
    count: usize,
    path: &[f64],
    starts: &[usize],
    room: usize,
    begins: usize,
    node_boxes: &mut [f64],
    node_marks: &mut [u32],
    order: &mut [u32],
) -> Result<(usize, usize), Refusal>
    requires { Listed boxes.now listed.now count }
    ensures { result ≡ counted (Render.seen_lines view (places_of node_boxes.old node_marks.old) (length order.old) (decode 8 numbers.now inverses.now marks.now) (box_at boxes.now) (take count listed.now) room begins (paths_with (all_points path.now) starts.now)) }
{
    query_scene::plant(boxes, listed, count, node_boxes, node_marks, order)?;
    let matrix = view.matrix;
    let eye = view.eye;
    draw_tally::tally_filtered(
        matrix, eye, numbers, inverses, marks, node_boxes, node_marks, order, path, starts, room,
        begins,
    )
}

// Steps 2 to 5, on n points and m starts of lines, for a result of `out` numbers and `begins` starts.
// What the chop left is no longer needed where simplification is counted.
fn stage_counts(
    threshold: f64,
    view: View,
    numbers: &[f64],
    inverses: &[f64],
    marks: &[u32],
    boxes: &[f64],
    listed: &[u32],
    count: usize,
    work: &mut [f64],
    work_starts: &mut [usize],
    n: usize,
    m: usize,
    chopped: &mut [f64],
    chopped_starts: &mut [usize],
    node_boxes: &mut [f64],
    node_marks: &mut [u32],
    order: &mut [u32],
    out: usize,
    begins: usize,
) -> Result<(usize, usize), Refusal>
    requires { (lt threshold zero_f ≡ false) × Listed boxes.now listed.now count × (n * 3 ≤ length work.old) × (m ≤ length work_starts.old) }
    ensures { result ≡ counted (Render.staged threshold view (places_for (length work.old) (length work_starts.old) chopped.old chopped_starts.old node_boxes.old node_marks.old order.old out begins) (decode 8 numbers.now inverses.now marks.now) (box_at boxes.now) (take count listed.now) (held n work.old m work_starts.old)) }
{
    let room = out / 3;
    let end = n * 3;
    if !draw_render::stepping(view) {
        return seen_counts(
            view,
            numbers,
            inverses,
            marks,
            boxes,
            listed,
            count,
            &work[..end],
            &work_starts[..m],
            room,
            begins,
            node_boxes,
            node_marks,
            order,
        );
    }
    let (p, q) = draw_collect::chop_lines(
        view.args(),
        &work[..end],
        &work_starts[..m],
        chopped,
        chopped_starts,
    )?;
    let last = p * 3;
    let (x, y) = draw_render::visible_lines(
        view,
        numbers,
        inverses,
        marks,
        boxes,
        listed,
        count,
        &chopped[..last],
        &chopped_starts[..q],
        work,
        work_starts,
        node_boxes,
        node_marks,
        order,
    )?;
    let z = x * 3;
    simplified_counts(
        threshold,
        &work[..z],
        &work_starts[..y],
        chopped,
        room,
        begins,
    )
}

// The counts of a drawing of the first `count` listed solids. `work` and `work_starts` have eight vectors
// of lines, one after the other. The map to the sheet changes no count.
pub fn render_counts(
    threshold: f64,
    view: View,
    numbers: &[f64],
    inverses: &[f64],
    marks: &[u32],
    points: &[f64],
    starts: &[usize],
    owners: &[u32],
    boxes: &[f64],
    listed: &[u32],
    count: usize,
    out: usize,
    begins: usize,
    work: &mut [f64],
    work_starts: &mut [usize],
    chopped: &mut [f64],
    chopped_starts: &mut [usize],
    node_boxes: &mut [f64],
    node_marks: &mut [u32],
    order: &mut [u32],
) -> Result<(usize, usize), Refusal>
    requires { (lt threshold zero_f ≡ false) × Listed boxes.now listed.now count }
    ensures { result ≡ counted (Render.rendered threshold view (places_for (length work.old / 24 * 3) (length work_starts.old / 8) chopped.old chopped_starts.old node_boxes.old node_marks.old order.old out begins) (lined_at 8 numbers.now inverses.now marks.now points.now starts.now owners.now) (box_at boxes.now) (take count listed.now)) }
{
    let wide = work.len() / 24 * 3;
    let many = work_starts.len() / 8;
    let (n, m) = draw_collect::all_paths(
        numbers,
        inverses,
        marks,
        points,
        starts,
        owners,
        listed,
        count,
        view.args(),
        wide,
        many,
        work,
        work_starts,
        chopped,
        chopped_starts,
    )?;
    stage_counts(
        threshold,
        view,
        numbers,
        inverses,
        marks,
        boxes,
        listed,
        count,
        &mut work[..wide],
        &mut work_starts[..many],
        n,
        m,
        chopped,
        chopped_starts,
        node_boxes,
        node_marks,
        order,
        out,
        begins,
    )
}
