// How many points and paths the last stage of a draw would write, without the slices that it writes to:
// the filter's, and simplification's.
#![tactic(auto)]

ghost use Rattle.std.specs.Prelude.{◌≡◌, false, ◌*◌, ◌≤◌, ◌<◌, length};
ghost use Rattle.std.proofs.Math.Seq.{slice};
ghost use Rattle.std.specs.Float.Ieee.{lt};
ghost use Rattle.floats.specs.Arith.{zero_f};
ghost use Rattle.paths.specs.Ends.{all_points, counted};
ghost use Rattle.path_simplify.specs.Simplify.{simplify_paths};
ghost use Rattle.draw_clip.specs.Clip.{clip_filter, clip_paths, seen_from};
ghost use Rattle.draw_tally.specs.Tallies.{paths_left, tallied, tallied_from, filter_tally, simplify_tally};

use geometry::vector::Vector;
use matrix::Matrix;
use refusals::Refusal;

// How many paths there are once the open one is closed: without points it vanishes.
fn paths_left(points: usize, done: usize, from: usize) -> usize
    requires { done < 18446744073709551615 }
    ensures { result ≡ paths_left points done from }
{
    if from == points {
        return done;
    }
    done + 1
}

// A point by the outcome of its test: a kept one takes a place; a dropped one closes the path and opens
// another.
fn tally_step(
    t: Result<Option<Vector>, Refusal>,
    points: usize,
    done: usize,
    from: usize,
    room: usize,
    begins: usize,
) -> Result<(usize, usize, usize), Refusal>
    requires { (points ≤ room) × (done < begins) }
    ensures { result ≡ tallied room begins t points done from }
{
    match t? {
        Some(_) => {
            if points < room {
                return Ok((points + 1, done, from));
            }
            Err(Refusal::Room)
        }
        None => {
            let l = paths_left(points, done, from);
            if l < begins {
                return Ok((points, l, points));
            }
            Err(Refusal::Room)
        }
    }
}

// What the filter reads, and does not change.
#[derive(Clone, Copy)]
struct TallySheet<'a> {
    matrix: Matrix,
    eye: Vector,
    numbers: &'a [f64],
    inverses: &'a [f64],
    marks: &'a [u32],
    node_boxes: &'a [f64],
    node_marks: &'a [u32],
    order: &'a [u32],
}

// Each point of a path from `from` up to `end`, where a path was opened after n points and m paths.
fn tally_from(
    sheet: &TallySheet,
    path: &[f64],
    from: usize,
    end: usize,
    room: usize,
    begins: usize,
    n: usize,
    m: usize,
) -> Result<(usize, usize, usize), Refusal>
    requires { (from ≤ end) × (end * 3 ≤ length path.now) × (n ≤ room) × (m < begins) }
    ensures { result ≡ tallied_from (clip_filter sheet.now.matrix (seen_from sheet.now.numbers.now sheet.now.inverses.now sheet.now.marks.now sheet.now.node_boxes.now sheet.now.node_marks.now sheet.now.order.now sheet.now.eye)) room begins (slice from end (all_points path.now)) n m n }
{
    let mut a = n;
    let mut b = m;
    let mut o = n;
    for i in from..end {
        let v = rows::read_point(path, i);
        let t = draw_clip::clip_filter(
            sheet.matrix,
            sheet.eye,
            sheet.numbers,
            sheet.inverses,
            sheet.marks,
            sheet.node_boxes,
            sheet.node_marks,
            sheet.order,
            v,
        );
        (a, b, o) = tally_step(t, a, b, o, room, begins)?;
    }
    Ok((a, b, o))
}

// A path is opened and filtered, and the last path opened is closed.
fn tally_path(
    sheet: &TallySheet,
    path: &[f64],
    from: usize,
    end: usize,
    room: usize,
    begins: usize,
    n: usize,
    m: usize,
) -> Result<(usize, usize), Refusal>
    requires { (from ≤ end) × (end * 3 ≤ length path.now) × (n ≤ room) }
    ensures { result ≡ filter_tally (clip_filter sheet.now.matrix (seen_from sheet.now.numbers.now sheet.now.inverses.now sheet.now.marks.now sheet.now.node_boxes.now sheet.now.node_marks.now sheet.now.order.now sheet.now.eye)) room begins (slice from end (all_points path.now)) n m }
{
    if begins <= m {
        return Err(Refusal::Room);
    }
    let (a, b, o) = tally_from(sheet, path, from, end, room, begins, n, m)?;
    let l = paths_left(a, b, o);
    Ok((a, l))
}

// Each path in turn: the counts of `draw_clip::filter_paths` with places for `room` points and `begins`
// starts.
pub fn tally_filtered(
    matrix: Matrix,
    eye: Vector,
    numbers: &[f64],
    inverses: &[f64],
    marks: &[u32],
    node_boxes: &[f64],
    node_marks: &[u32],
    order: &[u32],
    path: &[f64],
    starts: &[usize],
    room: usize,
    begins: usize,
) -> Result<(usize, usize), Refusal>
    ensures { result ≡ counted (clip_paths matrix (seen_from numbers.now inverses.now marks.now node_boxes.now node_marks.now order.now eye) (all_points path.now) starts.now room begins) }
{
    let total = path.len() / 3;
    let sheet = TallySheet {
        matrix,
        eye,
        numbers,
        inverses,
        marks,
        node_boxes,
        node_marks,
        order,
    };
    let mut n = 0;
    let mut m = 0;
    for i in 0..starts.len() {
        let p = paths::range_of(starts, i, total);
        (n, m) = tally_path(&sheet, path, p.from, p.end, room, begins, n, m)?;
    }
    Ok((n, m))
}

// A path is opened, simplified in `spare`, which has places for all its points, and closed.
fn tally_kept(
    path: &[f64],
    from: usize,
    end: usize,
    threshold: f64,
    spare: &mut [f64],
    room: usize,
    begins: usize,
    n: usize,
    m: usize,
) -> Result<(usize, usize), Refusal>
    requires { (from ≤ end) × (end * 3 ≤ length path.now) × (length path.now ≤ length spare.old) × (lt threshold zero_f ≡ false) × (n ≤ room) }
    ensures { result ≡ simplify_tally threshold room begins (slice from end (all_points path.now)) n m }
{
    if begins <= m {
        return Err(Refusal::Room);
    }
    let k = path_simplify::path_simplify(path, from, end, threshold, spare, 0)?;
    if room - n < k {
        return Err(Refusal::Room);
    }
    let l = paths_left(n + k, m, n);
    Ok((n + k, l))
}

// Each path in turn: the counts of `path_simplify::simplify_paths` with places for `room` points and
// `begins` starts. `spare` is no shorter than the points.
pub fn tally_simplified(
    path: &[f64],
    starts: &[usize],
    threshold: f64,
    spare: &mut [f64],
    room: usize,
    begins: usize,
) -> Result<(usize, usize), Refusal>
    requires { (length path.now ≤ length spare.old) × (lt threshold zero_f ≡ false) }
    ensures { result ≡ counted (simplify_paths threshold (all_points path.now) starts.now room begins) }
{
    let total = path.len() / 3;
    let mut n = 0;
    let mut m = 0;
    for i in 0..starts.len() {
        let p = paths::range_of(starts, i, total);
        (n, m) = tally_kept(path, p.from, p.end, threshold, spare, room, begins, n, m)?;
    }
    Ok((n, m))
}
