// The adaptive chop: segments are halved until they are short on the sheet or off it.
#![tactic(auto)]

ghost use Rattle.std.specs.Prelude.{◌≡◌, ◌+◌, ◌*◌, ◌≤◌, ◌<◌, length, set};
ghost use Rattle.std.proofs.Math.Seq.{slice};
ghost use Rattle.rows.specs.Points.{points};
ghost use Rattle.rows.specs.Rows.{row, set_row};
ghost use Rattle.paths.specs.Paths.{one_path};
ghost use Rattle.paths.specs.Ends.{places, all_points, Ends, held, EndsBoth, Finished};
ghost use Rattle.path_chop.specs.Chop as Chop;
ghost use Rattle.path_chop.specs.Waits.{spot_in, spot_row};

use geometry::bounding_box::BBox;
use geometry::vector::Vector;
use matrix::Matrix;
use refusals::Refusal;
use view::{RenderArgs, View};

// What the stop rule looks at: the matrix to the sheet, its width and height, and the step squared.
#[derive(Clone, Copy)]
pub struct Screen {
    pub matrix: Matrix,
    pub width: f64,
    pub height: f64,
    pub square: f64,
}

// A point, and where it is seen on the sheet.
#[derive(Clone, Copy)]
pub struct Spot {
    pub at: Vector,
    pub seen: Vector,
}

pub fn screen_of(a: RenderArgs) -> Screen
    ensures { result ≡ Chop.screen_of a }
{
    let matrix = a.screen;
    Screen {
        matrix,
        width: a.width,
        height: a.height,
        square: a.step * a.step,
    }
}

pub fn spot_of(s: Screen, v: Vector) -> Spot
    ensures { result ≡ Chop.spot_of s v }
{
    let m = s.matrix;
    Spot {
        at: v,
        seen: m.mul_position_w(v),
    }
}

fn middle(s: Screen, a: Spot, b: Spot) -> Spot
    ensures { result ≡ Chop.middle_of s a b }
{
    let p = a.at;
    let q = b.at;
    spot_of(s, p.add(q).mul_scalar(0.5))
}

fn both_below(x: f64, y: f64) -> bool
    ensures { result ≡ Chop.both_below x y }
{
    x < 0.0 && y < 0.0
}

fn both_beyond(limit: f64, x: f64, y: f64) -> bool
    ensures { result ≡ Chop.both_beyond limit x y }
{
    x > limit && y > limit
}

// Both ends are seen off the same side of the sheet.
fn off_sheet(s: Screen, a: Vector, b: Vector) -> bool
    ensures { result ≡ Chop.off_sheet s a b }
{
    if both_below(a.x, b.x) {
        return true;
    }
    if both_below(a.y, b.y) {
        return true;
    }
    if both_beyond(s.width, a.x, b.x) {
        return true;
    }
    both_beyond(s.height, a.y, b.y)
}

// The stop rule: whether a segment needs no halving.
pub fn stops(s: Screen, a: Spot, b: Spot) -> bool
    ensures { result ≡ Chop.stops s a b }
{
    let c = a.seen;
    let d = b.seen;
    if off_sheet(s, c, d) {
        return true;
    }
    if c.distance_squared(d) < s.square {
        return true;
    }
    let p = a.at;
    let q = b.at;
    p.distance_squared(q) < Vector::EPS
}

// Whether a segment is not halved: by the stop rule, or since no halving is left.
fn done(s: Screen, a: Spot, b: Spot, left: usize) -> bool
    ensures { result ≡ Chop.done s left a b }
{
    if left == 0 {
        return true;
    }
    stops(s, a, b)
}

// An end waits after k others: the spot as six numbers, as a box's corners are kept, and how many
// halvings are left for the piece that leads to it.
fn wait(ends: &mut [f64], lefts: &mut [usize], k: usize, p: Spot, left: usize)
    requires { (k * 6 + 6 ≤ length ends.old) × (k < length lefts.old) }
    ensures { (ends.new ≡ set_row 6 k (spot_row p) ends.old) × (lefts.new ≡ set lefts.old k left) }
{
    let min = p.at;
    let max = p.seen;
    lefts[k] = left;
    rows::write_box(ends, k, BBox { min, max });
}

// The spot in row i.
fn read_spot(xs: &[f64], i: usize) -> Spot
    requires { i * 6 + 6 ≤ length xs.now }
    ensures { result ≡ spot_in (row 6 i xs.now) }
{
    let b = rows::read_box(xs, i);
    let at = b.min;
    let seen = b.max;
    Spot { at, seen }
}

// The ends of the pieces of a segment go after the first n points. Where a piece is halved, its end
// waits while its first half is chopped: k ends wait, the last of them next.
fn subdivide(
    s: Screen,
    a: Spot,
    b: Spot,
    ends: &mut [f64; 222],
    lefts: &mut [usize; 37],
    out: &mut [f64],
    n: usize,
) -> Result<usize, Refusal>
    requires { n * 3 ≤ length out.old }
    ensures { Ends (Chop.subdivide s (places out.old) Chop.most_halvings a b (points n out.old)) out.new result }
{
    let mut from = a;
    let mut to = b;
    let mut left = 37;
    let mut m = n;
    let mut k = 0;
    // no `for`: the ends that wait grow and shrink
    loop {
        if !done(s, from, to, left) {
            left -= 1;
            wait(ends, lefts, k, to, left);
            k += 1;
            to = middle(s, from, to);
            continue;
        }
        let p = to.at;
        m = paths::push(out, m, p)?;
        if k == 0 {
            return Ok(m);
        }
        k -= 1;
        from = to;
        to = read_spot(ends, k);
        left = lefts[k];
    }
}

// The segments that lead to the points from `from` up to `end`, from the spot before them.
fn chop_from(
    s: Screen,
    path: &[f64],
    first: Spot,
    from: usize,
    end: usize,
    ends: &mut [f64; 222],
    lefts: &mut [usize; 37],
    out: &mut [f64],
    n: usize,
) -> Result<usize, Refusal>
    requires { (from ≤ end) × (end * 3 ≤ length path.now) × (n * 3 ≤ length out.old) }
    ensures { Ends (Chop.chop_from Chop.most_halvings s (places out.old) first (slice from end (all_points path.now)) (points n out.old)) out.new result }
{
    let mut a = first;
    let mut m = n;
    for i in from..end {
        let v = rows::read_point(path, i);
        let b = spot_of(s, v);
        m = subdivide(s, a, b, ends, lefts, out, m)?;
        a = b;
    }
    Ok(m)
}

fn path_chop_adaptive(
    s: Screen,
    path: &[f64],
    from: usize,
    end: usize,
    ends: &mut [f64; 222],
    lefts: &mut [usize; 37],
    out: &mut [f64],
    n: usize,
) -> Result<usize, Refusal>
    requires { (from ≤ end) × (end * 3 ≤ length path.now) × (n * 3 ≤ length out.old) }
    ensures { Ends (Chop.path_chop Chop.most_halvings s (places out.old) (slice from end (all_points path.now)) (points n out.old)) out.new result }
{
    if end <= from {
        return Ok(n);
    }
    let v = rows::read_point(path, from);
    let a = spot_of(s, v);
    let q = paths::push(out, n, v)?;
    chop_from(s, path, a, from + 1, end, ends, lefts, out, q)
}

// A path is opened, chopped and closed.
fn one_path(
    s: Screen,
    path: &[f64],
    from: usize,
    end: usize,
    ends: &mut [f64; 222],
    lefts: &mut [usize; 37],
    out: &mut [f64],
    begins: &mut [usize],
    n: usize,
    m: usize,
) -> Result<(usize, usize), Refusal>
    requires { (from ≤ end) × (end * 3 ≤ length path.now) × (n * 3 ≤ length out.old) × (m ≤ length begins.old) }
    ensures { EndsBoth (one_path (Chop.path_chop Chop.most_halvings s) (places out.old) (length begins.old) (slice from end (all_points path.now)) (held n out.old m begins.old)) out.new begins.new result }
{
    let q = paths::new_path(begins, m, n)?;
    let l = path_chop_adaptive(s, path, from, end, ends, lefts, out, n)?;
    let z = paths::close(begins, q, l);
    Ok((l, z))
}

// Each path in turn, from the first places of `out` and `begins` on.
pub fn chop_paths(
    args: RenderArgs,
    path: &[f64],
    starts: &[usize],
    out: &mut [f64],
    begins: &mut [usize],
) -> Result<(usize, usize), Refusal>
    ensures { EndsBoth (Chop.chop_paths args (all_points path.now) starts.now (places out.old) (length begins.old)) out.new begins.new result }
{
    let s = screen_of(args);
    let mut ends = [0.0; 222];
    let mut lefts = [0usize; 37];
    let total = path.len() / 3;
    let mut n = 0;
    let mut m = 0;
    for i in 0..starts.len() {
        let p = paths::range_of(starts, i, total);
        (n, m) = one_path(
            s, path, p.from, p.end, &mut ends, &mut lefts, out, begins, n, m,
        )?;
    }
    Ok((n, m))
}

// The paths chopped for a view, in `out` and `begins`, and then zeros; or why it is refused, and zeros
// throughout.
pub fn chop_adaptive(
    view: View,
    path: &[f64],
    starts: &[usize],
    out: &mut [f64],
    begins: &mut [usize],
) -> Result<(usize, usize), Refusal>
    ensures { Finished (Chop.chop_call view path.now starts.now (places out.old) (length begins.old)) (length out.old) (length begins.old) out.new begins.new result }
{
    let v = paths::judge(path, starts, view.is_ok());
    match v {
        Err(k) => paths::finish(out, begins, Err(k)),
        Ok(()) => {
            let r = chop_paths(view.args(), path, starts, out, begins);
            paths::finish(out, begins, r)
        }
    }
}
