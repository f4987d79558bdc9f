// The filter of a draw (filter.rs, and its loops of path.rs): the clip box, and then the eye test.
#![tactic(auto)]

ghost use Rattle.std.specs.Prelude.{◌≡◌, not, ◌&&◌, ◌+◌, ◌*◌, ◌≤◌, ◌<◌, length, eqb, ltb};
ghost use Rattle.std.proofs.Math.Seq.{slice};
ghost use Rattle.paths.specs.Ends.{places, all_points, held, EndsBoth};
ghost use Rattle.path_filter.specs.Filter.{filtered_from, path_filter};
ghost use Rattle.tree_trust.specs.Trust.{is_trusted};
ghost use Rattle.limits.specs.Limits.{within_point};
ghost use Rattle.draw_clip.specs.Clip.{by_sight, clip_filter, clip_paths, seen_from, test_of, SheetReady};

use geometry::bounding_box::BBox;
use geometry::vector::Vector;
use matrix::Matrix;
use refusals::Refusal;
use tree_sight::Sight;

fn by_sight(w: Vector, s: Result<Sight, Refusal>) -> Result<Option<Vector>, Refusal>
    ensures { result ≡ by_sight w s }
{
    match s? {
        Sight::Visible => Ok(Some(w)),
        Sight::Hidden => Ok(None),
    }
}

// What becomes of a point: the clip box first, then number 9 and the eye test in world coordinates.
pub fn clip_filter(
    matrix: Matrix,
    eye: Vector,
    numbers: &[f64],
    inverses: &[f64],
    marks: &[u32],
    node_boxes: &[f64],
    node_marks: &[u32],
    order: &[u32],
    v: Vector,
) -> Result<Option<Vector>, Refusal>
    ensures { result ≡ clip_filter matrix (seen_from numbers.now inverses.now marks.now node_boxes.now node_marks.now order.now eye) v }
{
    let projected = matrix.mul_position_w(v);
    if !BBox::clips(projected) {
        return Ok(None);
    }
    if !limits::within_point(v) {
        return Err(Refusal::Point);
    }
    let s = tree_sight::visible(
        numbers, inverses, marks, node_boxes, node_marks, order, eye, v,
    );
    by_sight(projected, s)
}

// Whether the tree and the eye are such that the eye test may leave something out.
fn trusts(eye: Vector, node_boxes: &[f64], node_marks: &[u32]) -> bool
    ensures { result ≡ (is_trusted node_boxes.now node_marks.now && within_point eye) }
{
    if tree_trust::trusted(node_boxes, node_marks) {
        return limits::within_point(eye);
    }
    false
}

// What the filter reads, and does not change.
#[derive(Clone, Copy)]
struct ClipSheet<'a> {
    matrix: Matrix,
    eye: Vector,
    numbers: &'a [f64],
    inverses: &'a [f64],
    marks: &'a [u32],
    node_boxes: &'a [f64],
    node_marks: &'a [u32],
    order: &'a [u32],
    trusted: bool,
    calm: bool,
}

// What the filter remembers from point to point: the last ends of paths with what became of them, the solid that hid
// the last point, and room for the walk of the glance.
#[derive(Drop)]
struct Memory {
    ends: [f64; 24],
    known: [u32; 9],
    cover: [usize; 2],
    stack: [usize; 64],
}

// The same as `clip_filter`, with the eye test by a glance.
fn quick_filter(
    sheet: &ClipSheet,
    memory: &mut Memory,
    v: Vector,
) -> Result<Option<Vector>, Refusal>
    requires { SheetReady sheet.now memory.old }
    ensures { (result ≡ test_of sheet.now v) × SheetReady sheet.now memory.new }
{
    // first, so that its root goes on beside the projection
    let distance = sheet.eye.gap(v);
    let w = sheet.matrix.mul_position_w(v);
    if !BBox::clips(w) {
        return Ok(None);
    }
    if !limits::within_point(v) {
        return Err(Refusal::Point);
    }
    let s = tree_glance::sight(
        sheet.numbers,
        sheet.inverses,
        sheet.marks,
        sheet.node_boxes,
        sheet.node_marks,
        sheet.order,
        sheet.eye,
        v,
        distance,
        sheet.trusted,
        sheet.calm,
        &mut memory.cover,
        &mut memory.stack,
    );
    by_sight(w, s)
}

// The filter at an end of a path: many ends are those of other paths too.
fn end_filter(sheet: &ClipSheet, memory: &mut Memory, v: Vector) -> Result<Option<Vector>, Refusal>
    requires { SheetReady sheet.now memory.old }
    ensures { (result ≡ test_of sheet.now v) × SheetReady sheet.now memory.new }
{
    let c = draw_memory::recall(&memory.ends, &memory.known, v);
    if c == 0 {
        return Ok(None);
    }
    if c == 1 {
        return Ok(Some(sheet.matrix.mul_position_w(v)));
    }
    let t = quick_filter(sheet, memory, v);
    draw_memory::remember(
        &mut memory.ends,
        &mut memory.known,
        v,
        draw_memory::outcome(t),
    );
    t
}

// The filter of any point of a path.
fn point_filter(
    sheet: &ClipSheet,
    memory: &mut Memory,
    v: Vector,
    inner: bool,
) -> Result<Option<Vector>, Refusal>
    requires { SheetReady sheet.now memory.old }
    ensures { (result ≡ test_of sheet.now v) × SheetReady sheet.now memory.new }
{
    if inner {
        return quick_filter(sheet, memory, v);
    }
    end_filter(sheet, memory, v)
}

// Whether i is neither the first place nor the last.
fn is_inner(from: usize, i: usize, end: usize) -> bool
    requires { i < end }
    ensures { result ≡ (not (eqb i from) && ltb (i + 1) end) }
{
    if i == from {
        return false;
    }
    i + 1 < end
}

// Each point of a path from `from` up to `end`, after n points and m starts.
fn filter_from(
    sheet: &ClipSheet,
    memory: &mut Memory,
    path: &[f64],
    from: usize,
    end: usize,
    out: &mut [f64],
    begins: &mut [usize],
    n: usize,
    m: usize,
) -> Result<(usize, usize), Refusal>
    requires { (from ≤ end) × (end * 3 ≤ length path.now) × (n * 3 ≤ length out.old) × (m ≤ length begins.old) × SheetReady sheet.now memory.old }
    ensures { (EndsBoth (filtered_from (test_of sheet.now) (places out.old) (length begins.old) (slice from end (all_points path.now)) (held n out.old m begins.old)) out.new begins.new result) × SheetReady sheet.now memory.new }
{
    let mut a = n;
    let mut b = m;
    for i in from..end {
        let v = rows::read_point(path, i);
        let t = point_filter(sheet, memory, v, is_inner(from, i, end));
        (a, b) = path_filter::step(t, out, begins, a, b)?;
    }
    Ok((a, b))
}

// A path is opened and filtered, and the last path opened is closed.
fn path_filter(
    sheet: &ClipSheet,
    memory: &mut Memory,
    path: &[f64],
    from: usize,
    end: usize,
    out: &mut [f64],
    begins: &mut [usize],
    n: usize,
    m: usize,
) -> Result<(usize, usize), Refusal>
    requires { (from ≤ end) × (end * 3 ≤ length path.now) × (n * 3 ≤ length out.old) × (m ≤ length begins.old) × SheetReady sheet.now memory.old }
    ensures { (EndsBoth (path_filter (test_of sheet.now) (places out.old) (length begins.old) (slice from end (all_points path.now)) (held n out.old m begins.old)) out.new begins.new result) × SheetReady sheet.now memory.new }
{
    let q = paths::new_path(begins, m, n)?;
    let (a, b) = filter_from(sheet, memory, path, from, end, out, begins, n, q)?;
    let z = paths::close(begins, b, a);
    Ok((a, z))
}

// Each path in turn, from the first places of `out` and `begins` on.
pub fn filter_paths(
    matrix: Matrix,
    eye: Vector,
    numbers: &[f64],
    inverses: &[f64],
    marks: &[u32],
    node_boxes: &[f64],
    node_marks: &[u32],
    order: &[u32],
    path: &[f64],
    starts: &[usize],
    out: &mut [f64],
    begins: &mut [usize],
) -> Result<(usize, usize), Refusal>
    ensures { EndsBoth (clip_paths matrix (seen_from numbers.now inverses.now marks.now node_boxes.now node_marks.now order.now eye) (all_points path.now) starts.now (places out.old) (length begins.old)) out.new begins.new result }
{
    let total = path.len() / 3;
    let sheet = ClipSheet {
        matrix,
        eye,
        numbers,
        inverses,
        marks,
        node_boxes,
        node_marks,
        order,
        trusted: trusts(eye, node_boxes, node_marks),
        calm: tree_trust::uncut(marks),
    };
    let mut memory = Memory {
        ends: [0.0; 24],
        known: [2u32; 9],
        cover: [0xffffffffusize; 2],
        stack: [0usize; 64],
    };
    let mut n = 0;
    let mut m = 0;
    for i in 0..starts.len() {
        let p = paths::range_of(starts, i, total);
        (n, m) = path_filter(&sheet, &mut memory, path, p.from, p.end, out, begins, n, m)?;
    }
    Ok((n, m))
}
