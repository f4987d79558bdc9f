// Pen travel: the undrawn path whose first point is nearest to the pen, over two drawings, the yard and
// its dimension lines.
#![tactic(auto)]

ghost use Rattle.std.specs.Prelude.{Some, ◌≡◌, ◌+◌, ◌*◌, ◌≤◌, ◌<◌, length};
ghost use Rattle.std.proofs.Math.Seq.{slice};
ghost use Rattle.plotter_pens.specs.declared.NearestPath.{NearestPath};
ghost use Rattle.plotter_pens.specs.Pens.{lent_drawing};
ghost use Rattle.plotter_pens.specs.Pens as Pens;

use geometry::vector::Vector;
use paths::Range;
use refusals::Refusal;

// The nearest path so far, by the place of its mark.
#[derive(Clone, Copy)]
pub struct NearestPath {
    pub place: usize,
    pub distance: f64,
}

// A path of one of the drawings, by its place there and where it lies among the points.
#[derive(Clone, Copy)]
pub enum Choice {
    Yard(usize, Range),
    Lines(usize, Range),
}

// 0, or the number of the refusal: 15 where both drawings are used up.
pub fn pick_number(pick: Result<Option<Choice>, Refusal>) -> u32
    ensures { result ≡ Pens.pick_number pick }
{
    match pick {
        Ok(Some(_)) => 0,
        Ok(None) => 15,
        Err(k) => k.number(),
    }
}

// A path that waits takes its place if it is nearer; of equal distances the earlier stays.
fn nearer_path(best: Option<NearestPath>, place: usize, distance: f64) -> Option<NearestPath>
    ensures { result ≡ Pens.nearer_path best place distance }
{
    if let Some(b) = best {
        if !(distance < b.distance) {
            return best;
        }
    }
    Some(NearestPath { place, distance })
}

// Path k of a drawing whose first path has the mark `first`: passed over if it is drawn or has no points.
fn offered(
    points: &[f64],
    starts: &[usize],
    marks: &[u8],
    first: usize,
    k: usize,
    pen: Vector,
    best: Option<NearestPath>,
) -> Option<NearestPath>
    requires { (k < length starts.now) × (first + length starts.now ≤ length marks.now) }
    ensures { result ≡ Pens.offered (lent_drawing points.now starts.now) marks.now first pen best k }
{
    let place = first + k;
    if marks[place] != 0 {
        return best;
    }
    let r = paths::range_of(starts, k, points.len() / 3);
    if r.end <= r.from {
        return best;
    }
    let p = rows::read_point(points, r.from);
    nearer_path(best, place, pen.distance_squared(p))
}

// The nearest of one drawing's paths and of what was found before.
fn nearest_in(
    points: &[f64],
    starts: &[usize],
    marks: &[u8],
    first: usize,
    pen: Vector,
    best: Option<NearestPath>,
) -> Option<NearestPath>
    requires { first + length starts.now ≤ length marks.now }
    ensures { result ≡ Pens.nearest_in (lent_drawing points.now starts.now) marks.now first pen (length starts.now) 0 best }
{
    let mut so_far = best;
    for k in 0..starts.len() {
        so_far = offered(points, starts, marks, first, k, pen, so_far);
    }
    so_far
}

// What was found, as a path of the drawing that holds it.
fn picked_from(
    yard: &[f64],
    yard_starts: &[usize],
    lines: &[f64],
    line_starts: &[usize],
    best: Option<NearestPath>,
) -> Result<Option<Choice>, Refusal>
    requires { (b : NearestPath) → best ≡ Some b → b.place < length yard_starts.now + length line_starts.now }
    ensures { result ≡ Pens.picked_from (lent_drawing yard.now yard_starts.now) (lent_drawing lines.now line_starts.now) best }
{
    let Some(b) = best else {
        return Ok(None);
    };
    let k = b.place;
    if k < yard_starts.len() {
        return Ok(Some(Choice::Yard(k, paths::range_of(yard_starts, k, yard.len() / 3))));
    }
    let l = k - yard_starts.len();
    Ok(Some(Choice::Lines(l, paths::range_of(line_starts, l, lines.len() / 3))))
}

// Number 2: three numbers a point, and one mark a path.
fn lengths_good(
    yard: &[f64],
    yard_starts: &[usize],
    lines: &[f64],
    line_starts: &[usize],
    marks: &[u8],
) -> bool
    ensures { result ≡ Pens.lengths_good (lent_drawing yard.now yard_starts.now) (lent_drawing lines.now line_starts.now) marks.now }
{
    if yard.len() % 3 != 0 {
        return false;
    }
    if lines.len() % 3 != 0 {
        return false;
    }
    if marks.len() < yard_starts.len() {
        return false;
    }
    marks.len() - yard_starts.len() == line_starts.len()
}

// Number 4.
fn both_start_well(
    yard: &[f64],
    yard_starts: &[usize],
    lines: &[f64],
    line_starts: &[usize],
) -> bool
    ensures { result ≡ Pens.both_start_well (lent_drawing yard.now yard_starts.now) (lent_drawing lines.now line_starts.now) }
{
    if !rows::good_starts(yard_starts, yard.len() / 3) {
        return false;
    }
    rows::good_starts(line_starts, lines.len() / 3)
}

fn all_finite(xs: &[f64]) -> bool
    ensures { result ≡ Pens.all_finite xs.now }
{
    for i in 0..xs.len() {
        if !floats::is_finite(xs[i]) {
            return false;
        }
    }
    true
}

// The numbers of a drawing's paths: without starts there are none.
fn paths_finite(points: &[f64], starts: &[usize]) -> bool
    ensures { result ≡ Pens.paths_finite (lent_drawing points.now starts.now) }
{
    if starts.len() == 0 {
        return true;
    }
    all_finite(points)
}

fn point_finite(p: Vector) -> bool
    ensures { result ≡ Pens.point_finite p }
{
    if floats::is_finite(p.x) {
        if floats::is_finite(p.y) {
            return floats::is_finite(p.z);
        }
    }
    false
}

// Number 9: the pen and each path number are finite.
fn numbers_finite(
    yard: &[f64],
    yard_starts: &[usize],
    lines: &[f64],
    line_starts: &[usize],
    pen: Vector,
) -> bool
    ensures { result ≡ Pens.numbers_finite (lent_drawing yard.now yard_starts.now) (lent_drawing lines.now line_starts.now) pen }
{
    if !point_finite(pen) {
        return false;
    }
    if !paths_finite(yard, yard_starts) {
        return false;
    }
    paths_finite(lines, line_starts)
}

// The pick by value: numbers 2, 4 and 9, then the nearest path that waits, or 15.
pub fn pick(
    yard: &[f64],
    yard_starts: &[usize],
    lines: &[f64],
    line_starts: &[usize],
    marks: &[u8],
    pen: Vector,
) -> Result<Option<Choice>, Refusal>
    ensures { result ≡ Pens.pick_of (lent_drawing yard.now yard_starts.now) (lent_drawing lines.now line_starts.now) marks.now pen }
{
    if !lengths_good(yard, yard_starts, lines, line_starts, marks) {
        return Err(Refusal::Lengths);
    }
    if !both_start_well(yard, yard_starts, lines, line_starts) {
        return Err(Refusal::Parts);
    }
    if !numbers_finite(yard, yard_starts, lines, line_starts, pen) {
        return Err(Refusal::Point);
    }
    let n = yard_starts.len();
    let of_yard = nearest_in(yard, yard_starts, marks, 0, pen, None);
    let of_both = nearest_in(lines, line_starts, marks, n, pen, of_yard);
    picked_from(yard, yard_starts, lines, line_starts, of_both)
}

// A pick that sets the mark of its path to 1; a refusal changes none.
pub fn pick_and_mark(
    yard: &[f64],
    yard_starts: &[usize],
    lines: &[f64],
    line_starts: &[usize],
    pen: Vector,
    marks: &mut [u8],
) -> Result<Option<Choice>, Refusal>
    ensures { Pens.Picked (lent_drawing yard.now yard_starts.now) (lent_drawing lines.now line_starts.now) marks.old pen result marks.new }
{
    let p = pick(yard, yard_starts, lines, line_starts, marks, pen);
    match p {
        Ok(Some(Choice::Yard(k, _))) => {
            marks[k] = 1;
        }
        Ok(Some(Choice::Lines(k, _))) => {
            let place = yard_starts.len() + k;
            marks[place] = 1;
        }
        Ok(None) => {}
        Err(_) => {}
    }
    p
}

// The numbers of the points in a range.
fn part<'a>(points: &'a [f64], r: Range) -> &'a [f64]
    requires { (r.from ≤ r.end) × (r.end * 3 ≤ length points.now) }
    ensures { result.now ≡ slice (r.from * 3) (r.end * 3) points.now }
{
    let from = r.from * 3;
    let end = r.end * 3;
    &points[from..end]
}

// The pick handed back as the part of whichever drawing holds it, with its mark set. `number` is 0, or why
// it is refused: the part is then empty and the marks stay.
pub fn next_path<'a>(
    yard: &'a [f64],
    yard_starts: &[usize],
    lines: &'a [f64],
    line_starts: &[usize],
    pen: Vector,
    marks: &mut [u8],
    number: &mut u32,
) -> &'a [f64]
    ensures { Pens.HandedBack (lent_drawing yard.now yard_starts.now) (lent_drawing lines.now line_starts.now) marks.old pen result.now marks.new number.new }
{
    let p = pick_and_mark(yard, yard_starts, lines, line_starts, pen, marks);
    *number = pick_number(p);
    match p {
        Ok(Some(Choice::Yard(_, r))) => part(yard, r),
        Ok(Some(Choice::Lines(_, r))) => part(lines, r),
        Ok(None) => &yard[..0],
        Err(_) => &yard[..0],
    }
}
