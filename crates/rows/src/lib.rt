// Rows of a fixed width in flat lent slices: points, boxes, and what belongs to an entry of a scene;
// clearing a slice from a place on; and the check of path starts.
#![tactic(auto)]

ghost use Rattle.std.specs.Prelude.{◌≡◌, [], ◌∷◌, ◌++◌, ◌+◌, ◌-◌, ◌*◌, ◌≤◌, ◌<◌, length, take, replicate};
ghost use Rattle.std.proofs.lemmas.List.Edits.{sets};
ghost use Rattle.floats.specs.Arith.{zero_f};
ghost use Rattle.rows.specs.Rows.{row, set_row};
ghost use Rattle.rows.specs.Points.{point_of, point_row, box_of_row, box_row};
ghost use Rattle.rows.specs.Entries.{numbers_of, numbers_row, marks_of, triple_of, triple_row};
ghost use Rattle.rows.specs.Starts.{end_of, rising as risingOf, good_starts};

use geometry::bounding_box::BBox;
use geometry::vector::Vector;

pub fn read_point(xs: &[f64], i: usize) -> Vector
    requires { i * 3 + 3 ≤ length xs.now }
    ensures { result ≡ point_of (row 3 i xs.now) }
{
    let at = i * 3;
    Vector {
        x: xs[at],
        y: xs[at + 1],
        z: xs[at + 2],
    }
}

pub fn write_point(xs: &mut [f64], i: usize, p: Vector)
    requires { i * 3 + 3 ≤ length xs.old }
    ensures { xs.new ≡ set_row 3 i (point_row p) xs.old }
{
    let at = i * 3;
    xs[at] = p.x;
    xs[at + 1] = p.y;
    xs[at + 2] = p.z;
}

pub fn read_box(xs: &[f64], i: usize) -> BBox
    requires { i * 6 + 6 ≤ length xs.now }
    ensures { result ≡ box_of_row (row 6 i xs.now) }
{
    let at = i * 6;
    BBox {
        min: Vector {
            x: xs[at],
            y: xs[at + 1],
            z: xs[at + 2],
        },
        max: Vector {
            x: xs[at + 3],
            y: xs[at + 4],
            z: xs[at + 5],
        },
    }
}

pub fn write_box(xs: &mut [f64], i: usize, b: BBox)
    requires { i * 6 + 6 ≤ length xs.old }
    ensures { xs.new ≡ set_row 6 i (box_row b) xs.old }
{
    let at = i * 6;
    xs[at] = b.min.x;
    xs[at + 1] = b.min.y;
    xs[at + 2] = b.min.z;
    xs[at + 3] = b.max.x;
    xs[at + 4] = b.max.y;
    xs[at + 5] = b.max.z;
}

// The 16 numbers of an entry, its measures or a matrix by rows.
#[derive(Clone, Copy)]
pub struct Numbers {
    pub x00: f64,
    pub x01: f64,
    pub x02: f64,
    pub x03: f64,
    pub x10: f64,
    pub x11: f64,
    pub x12: f64,
    pub x13: f64,
    pub x20: f64,
    pub x21: f64,
    pub x22: f64,
    pub x23: f64,
    pub x30: f64,
    pub x31: f64,
    pub x32: f64,
    pub x33: f64,
}

pub fn read_numbers(xs: &[f64], i: usize) -> Numbers
    requires { i * 16 + 16 ≤ length xs.now }
    ensures { result ≡ numbers_of (row 16 i xs.now) }
{
    let at = i * 16;
    Numbers {
        x00: xs[at],
        x01: xs[at + 1],
        x02: xs[at + 2],
        x03: xs[at + 3],
        x10: xs[at + 4],
        x11: xs[at + 5],
        x12: xs[at + 6],
        x13: xs[at + 7],
        x20: xs[at + 8],
        x21: xs[at + 9],
        x22: xs[at + 10],
        x23: xs[at + 11],
        x30: xs[at + 12],
        x31: xs[at + 13],
        x32: xs[at + 14],
        x33: xs[at + 15],
    }
}

// Four numbers from `at` on.
fn write_four(xs: &mut [f64], at: usize, a: f64, b: f64, c: f64, d: f64)
    requires { at + 4 ≤ length xs.old }
    ensures { xs.new ≡ sets xs.old at (a ∷ b ∷ c ∷ d ∷ []) }
{
    xs[at] = a;
    xs[at + 1] = b;
    xs[at + 2] = c;
    xs[at + 3] = d;
}

pub fn write_numbers(xs: &mut [f64], i: usize, m: Numbers)
    requires { i * 16 + 16 ≤ length xs.old }
    ensures { xs.new ≡ set_row 16 i (numbers_row m) xs.old }
{
    let at = i * 16;
    write_four(xs, at, m.x00, m.x01, m.x02, m.x03);
    write_four(xs, at + 4, m.x10, m.x11, m.x12, m.x13);
    write_four(xs, at + 8, m.x20, m.x21, m.x22, m.x23);
    write_four(xs, at + 12, m.x30, m.x31, m.x32, m.x33);
}

// The marks of an entry: its kind, its detail, and the entries that it names.
#[derive(Clone, Copy)]
pub struct Marks {
    pub kind: u32,
    pub detail: u32,
    pub first: u32,
    pub second: u32,
}

pub fn read_marks(xs: &[u32], i: usize) -> Marks
    requires { i * 4 + 4 ≤ length xs.now }
    ensures { result ≡ marks_of (row 4 i xs.now) }
{
    let at = i * 4;
    Marks {
        kind: xs[at],
        detail: xs[at + 1],
        first: xs[at + 2],
        second: xs[at + 3],
    }
}

// Three marks.
#[derive(Clone, Copy)]
pub struct Triple {
    pub a: u32,
    pub b: u32,
    pub c: u32,
}

pub fn read_triple(xs: &[u32], i: usize) -> Triple
    requires { i * 3 + 3 ≤ length xs.now }
    ensures { result ≡ triple_of (row 3 i xs.now) }
{
    let at = i * 3;
    Triple {
        a: xs[at],
        b: xs[at + 1],
        c: xs[at + 2],
    }
}

pub fn write_triple(xs: &mut [u32], i: usize, t: Triple)
    requires { i * 3 + 3 ≤ length xs.old }
    ensures { xs.new ≡ set_row 3 i (triple_row t) xs.old }
{
    let at = i * 3;
    xs[at] = t.a;
    xs[at + 1] = t.b;
    xs[at + 2] = t.c;
}

// Every entry from `from` on becomes `zero`.
fn clear_to<T: Copy>(xs: &mut [T], from: usize, zero: T)
    requires { from ≤ length xs.old }
    ensures { xs.new ≡ take from xs.old ++ replicate (length xs.old - from) zero }
{
    for i in from..xs.len() {
        xs[i] = zero;
    }
}

// Every number from `from` on becomes +0.
pub fn clear(xs: &mut [f64], from: usize)
    requires { from ≤ length xs.old }
    ensures { xs.new ≡ take from xs.old ++ replicate (length xs.old - from) zero_f }
{
    clear_to(xs, from, 0.0);
}

// Every mark from `from` on becomes 0.
pub fn clear_marks(xs: &mut [u32], from: usize)
    requires { from ≤ length xs.old }
    ensures { xs.new ≡ take from xs.old ++ replicate (length xs.old - from) 0 }
{
    clear_to(xs, from, 0);
}

// Every start from `from` on becomes 0.
pub fn clear_starts(xs: &mut [usize], from: usize)
    requires { from ≤ length xs.old }
    ensures { xs.new ≡ take from xs.old ++ replicate (length xs.old - from) 0 }
{
    clear_to(xs, from, 0);
}

// Where path i ends: at the next start, or with the points if it is the last.
pub fn end_of(starts: &[usize], i: usize, points: usize) -> usize
    requires { i < length starts.now }
    ensures { result ≡ end_of points starts.now i }
{
    let j = i + 1;
    if j < starts.len() {
        return starts[j];
    }
    points
}

// Whether no start is beyond the next one, nor the last one beyond the points.
fn rising(starts: &[usize], points: usize) -> bool
    ensures { result ≡ risingOf points starts.now }
{
    for i in 0..starts.len() {
        let end = end_of(starts, i, points);
        if end < starts[i] {
            return false;
        }
    }
    true
}

// Whether path starts begin at 0, never fall and never overrun the points; without starts there is
// nothing to refuse.
pub fn good_starts(starts: &[usize], points: usize) -> bool
    ensures { result ≡ good_starts points starts.now }
{
    if starts.len() == 0 {
        return true;
    }
    if starts[0] != 0 {
        return false;
    }
    rising(starts, points)
}

// A mark as an index.
pub fn index(x: u32) -> usize
    ensures { (result ≡ x) × (result < 4294967296) }
{
    x as usize
}
