// A drawing of solids whose boxes and inverses are known, from their lines to the sheet (`render` of
// scene.rs).
#![tactic(auto)]

ghost use Rattle.std.specs.Prelude.{◌≡◌, false, ◌+◌, ◌*◌, ◌/◌, ◌≤◌, length, take, drop};
ghost use Rattle.std.specs.Float.Ieee.{lt};
ghost use Rattle.floats.specs.Arith.{zero_f};
ghost use Rattle.tree_nodes.specs.Nodes.{places_of};
ghost use Rattle.tree_split.specs.Build.{box_at};
ghost use Rattle.scene_shape.specs.Shapes.{decode};
ghost use Rattle.paths.specs.Paths.{paths_with};
ghost use Rattle.paths.specs.Ends.{places, all_points, held, EndsBoth};
ghost use Rattle.draw_collect.specs.Slices.{lined_at};
ghost use Rattle.draw_render.specs.Render as Render;
ghost use Rattle.draw_render.specs.Slices.{places_in, Listed};

use refusals::Refusal;
use view::View;

// Lines are judged by number 9 and simplified.
fn simplify_lines(
    threshold: f64,
    path: &[f64],
    starts: &[usize],
    out: &mut [f64],
    begins: &mut [usize],
) -> Result<(usize, usize), Refusal>
    requires { lt threshold zero_f ≡ false }
    ensures { EndsBoth (Render.simplified_lines threshold (places out.old) (length begins.old) (paths_with (all_points path.now) starts.now)) out.new begins.new result }
{
    if !paths::points_ok(path) {
        return Err(Refusal::Point);
    }
    path_simplify::simplify_paths(path, starts, threshold, out, begins)
}

// The tree of the first `count` listed solids is built, and the points of the lines are filtered by the
// clip box and the eye test on it.
pub fn visible_lines(
    view: View,
    numbers: &[f64],
    inverses: &[f64],
    marks: &[u32],
    boxes: &[f64],
    listed: &[u32],
    count: usize,
    path: &[f64],
    starts: &[usize],
    out: &mut [f64],
    begins: &mut [usize],
    node_boxes: &mut [f64],
    node_marks: &mut [u32],
    order: &mut [u32],
) -> Result<(usize, usize), Refusal>
    requires { Listed boxes.now listed.now count }
    ensures { EndsBoth (Render.seen_lines view (places_of node_boxes.old node_marks.old) (length order.old) (decode 8 numbers.now inverses.now marks.now) (box_at boxes.now) (take count listed.now) (places out.old) (length begins.old) (paths_with (all_points path.now) starts.now)) out.new begins.new result }
{
    query_scene::plant(boxes, listed, count, node_boxes, node_marks, order)?;
    let matrix = view.matrix;
    let eye = view.eye;
    draw_clip::filter_paths(
        matrix, eye, numbers, inverses, marks, node_boxes, node_marks, order, path, starts, out,
        begins,
    )
}

pub fn stepping(view: View) -> bool
    ensures { result ≡ Render.stepping view }
{
    0.0 < view.step
}

// Steps 2 to 5, on n points and m starts of lines: a chop, the tree, the filter and simplification. At
// step 0 there is no chop and no simplification.
fn stages(
    threshold: f64,
    view: View,
    numbers: &[f64],
    inverses: &[f64],
    marks: &[u32],
    boxes: &[f64],
    listed: &[u32],
    count: usize,
    work: &mut [f64],
    work_starts: &mut [usize],
    n: usize,
    m: usize,
    chopped: &mut [f64],
    chopped_starts: &mut [usize],
    node_boxes: &mut [f64],
    node_marks: &mut [u32],
    order: &mut [u32],
    out: &mut [f64],
    begins: &mut [usize],
) -> Result<(usize, usize), Refusal>
    requires { (lt threshold zero_f ≡ false) × Listed boxes.now listed.now count × (n * 3 ≤ length work.old) × (m ≤ length work_starts.old) }
    ensures { EndsBoth (Render.staged threshold view (places_in (length work.old) (length work_starts.old) chopped.old chopped_starts.old node_boxes.old node_marks.old order.old out.old begins.old) (decode 8 numbers.now inverses.now marks.now) (box_at boxes.now) (take count listed.now) (held n work.old m work_starts.old)) out.new begins.new result }
{
    let end = n * 3;
    if !stepping(view) {
        return visible_lines(
            view,
            numbers,
            inverses,
            marks,
            boxes,
            listed,
            count,
            &work[..end],
            &work_starts[..m],
            out,
            begins,
            node_boxes,
            node_marks,
            order,
        );
    }
    let (p, q) = draw_collect::chop_lines(
        view.args(),
        &work[..end],
        &work_starts[..m],
        chopped,
        chopped_starts,
    )?;
    let last = p * 3;
    let (x, y) = visible_lines(
        view,
        numbers,
        inverses,
        marks,
        boxes,
        listed,
        count,
        &chopped[..last],
        &chopped_starts[..q],
        work,
        work_starts,
        node_boxes,
        node_marks,
        order,
    )?;
    let z = x * 3;
    simplify_lines(threshold, &work[..z], &work_starts[..y], out, begins)
}

// The drawing of the lines of some listed solids, `some` from place `first` on, in `out` and `begins`; the first
// `count` listed ones hide. `work` and `work_starts` have eight vectors of lines, one after the other.
pub fn render_part(
    threshold: f64,
    view: View,
    numbers: &[f64],
    inverses: &[f64],
    marks: &[u32],
    points: &[f64],
    starts: &[usize],
    owners: &[u32],
    boxes: &[f64],
    listed: &[u32],
    count: usize,
    first: usize,
    some: usize,
    out: &mut [f64],
    begins: &mut [usize],
    work: &mut [f64],
    work_starts: &mut [usize],
    chopped: &mut [f64],
    chopped_starts: &mut [usize],
    node_boxes: &mut [f64],
    node_marks: &mut [u32],
    order: &mut [u32],
) -> Result<(usize, usize), Refusal>
    requires { (lt threshold zero_f ≡ false) × Listed boxes.now listed.now count × (first + some ≤ count) }
    ensures { EndsBoth (Render.rendered_part threshold view (places_in (length work.old / 24 * 3) (length work_starts.old / 8) chopped.old chopped_starts.old node_boxes.old node_marks.old order.old out.old begins.old) (lined_at 8 numbers.now inverses.now marks.now points.now starts.now owners.now) (box_at boxes.now) (take count listed.now) (take some (drop first listed.now))) out.new begins.new result }
{
    let wide = work.len() / 24 * 3;
    let many = work_starts.len() / 8;
    let (n, m) = draw_collect::all_paths(
        numbers,
        inverses,
        marks,
        points,
        starts,
        owners,
        &listed[first..],
        some,
        view.args(),
        wide,
        many,
        work,
        work_starts,
        chopped,
        chopped_starts,
    )?;
    let (p, q) = stages(
        threshold,
        view,
        numbers,
        inverses,
        marks,
        boxes,
        listed,
        count,
        &mut work[..wide],
        &mut work_starts[..many],
        n,
        m,
        chopped,
        chopped_starts,
        node_boxes,
        node_marks,
        order,
        out,
        begins,
    )?;
    path_transform::transform(view::viewport(view.width, view.height), out, p);
    Ok((p, q))
}

// The drawing of the first `count` listed solids, in `out` and `begins`. `work` and `work_starts` have
// eight vectors of lines, one after the other.
pub fn render(
    threshold: f64,
    view: View,
    numbers: &[f64],
    inverses: &[f64],
    marks: &[u32],
    points: &[f64],
    starts: &[usize],
    owners: &[u32],
    boxes: &[f64],
    listed: &[u32],
    count: usize,
    out: &mut [f64],
    begins: &mut [usize],
    work: &mut [f64],
    work_starts: &mut [usize],
    chopped: &mut [f64],
    chopped_starts: &mut [usize],
    node_boxes: &mut [f64],
    node_marks: &mut [u32],
    order: &mut [u32],
) -> Result<(usize, usize), Refusal>
    requires { (lt threshold zero_f ≡ false) × Listed boxes.now listed.now count }
    ensures { EndsBoth (Render.rendered threshold view (places_in (length work.old / 24 * 3) (length work_starts.old / 8) chopped.old chopped_starts.old node_boxes.old node_marks.old order.old out.old begins.old) (lined_at 8 numbers.now inverses.now marks.now points.now starts.now owners.now) (box_at boxes.now) (take count listed.now)) out.new begins.new result }
{
    render_part(
        threshold,
        view,
        numbers,
        inverses,
        marks,
        points,
        starts,
        owners,
        boxes,
        listed,
        count,
        0,
        count,
        out,
        begins,
        work,
        work_starts,
        chopped,
        chopped_starts,
        node_boxes,
        node_marks,
        order,
    )
}
