// The vertex that splits a path, in simplification by Ramer, Douglas and Peucker.
#![tactic(auto)]

ghost use Rattle.std.specs.Prelude.{◌≡◌, ◌+◌, ◌*◌, ◌≤◌, length};
ghost use Rattle.std.proofs.Math.Seq.{slice};
ghost use Rattle.sqrt.specs.Root.{sqrt_of};
ghost use Rattle.paths.specs.Ends.{all_points};
ghost use Rattle.path_rdp.specs.Rdp as Rdp;
ghost use Rattle.path_rdp.specs.Rdp.{farthest_of, peak_of, threshold_ok};

// A vertex by its place in a path, and its distance.
#[derive(Clone, Copy)]
pub struct Far {
    pub index: usize,
    pub distance: f64,
}

// The first vertex with the greatest square of a distance, that square, and the greatest before it.
#[derive(Clone, Copy)]
pub struct Peak {
    pub index: usize,
    pub square: f64,
    pub lower: f64,
}

// The farthest vertex so far, and the square whose root its distance is.
#[derive(Clone, Copy)]
struct FarSquare {
    far: Far,
    square: f64,
}

// The vertex at place i, the square of whose distance is q, takes over if it is farther. No root is
// greater but that of a greater square; of such a square it may still be the same.
fn tried(best: FarSquare, i: usize, q: f64) -> FarSquare
    requires { best.far.distance ≡ sqrt_of best.square }
    ensures far { result.far ≡ Rdp.farther best.far i (sqrt_of q) }
    ensures root { result.far.distance ≡ sqrt_of result.square }
{
    if !(q > best.square) {
        return best;
    }
    let d = sqrt::root(q);
    let f = best.far;
    if d > f.distance {
        let far = Far {
            index: i,
            distance: d,
        };
        return FarSquare { far, square: q };
    }
    best
}

// The first farthest vertex between the ends of the path from `from` up to `end`, from the segment
// that joins them, with a root for each vertex whose square is above that of the farthest so far.
fn farthest(path: &[f64], from: usize, end: usize) -> Far
    requires { (from + 3 ≤ end) × (end * 3 ≤ length path.now) }
    ensures { result ≡ farthest_of (slice from end (all_points path.now)) }
{
    let a = rows::read_point(path, from);
    let b = rows::read_point(path, end - 1);
    let last = end - from - 1;
    let far = Far {
        index: 0,
        distance: 0.0,
    };
    let mut best = FarSquare { far, square: 0.0 };
    for i in 1..last {
        let p = rows::read_point(path, from + i);
        let q = p.segment_square(a, b);
        best = tried(best, i, q);
    }
    best.far
}

// The peak between the ends of the path from `from` up to `end`: no root is taken.
pub fn greatest_square(path: &[f64], from: usize, end: usize) -> Peak
    requires { (from + 3 ≤ end) × (end * 3 ≤ length path.now) }
    ensures { result ≡ peak_of (slice from end (all_points path.now)) }
{
    let a = rows::read_point(path, from);
    let b = rows::read_point(path, end - 1);
    let last = end - from - 1;
    let mut index = 0;
    let mut square = 0.0;
    let mut lower = 0.0;
    for i in 1..last {
        let p = rows::read_point(path, from + i);
        let q = p.segment_square(a, b);
        if !(q > square) {
            continue;
        }
        lower = square;
        square = q;
        index = i;
    }
    Peak {
        index,
        square,
        lower,
    }
}

// The first farthest vertex, where k is the peak: two roots. Only if the next lower square has the same
// root may an earlier vertex be as far.
pub fn settled(path: &[f64], from: usize, end: usize, k: Peak) -> Far
    requires { (from + 3 ≤ end) × (end * 3 ≤ length path.now) × (k ≡ peak_of (slice from end (all_points path.now))) }
    ensures { result ≡ farthest_of (slice from end (all_points path.now)) }
{
    let index = k.index;
    let distance = sqrt::root(k.square);
    if index == 0 {
        return Far { index, distance };
    }
    let lower = sqrt::root(k.lower);
    if lower < distance {
        return Far { index, distance };
    }
    farthest(path, from, end)
}

// Finite and not negative.
pub fn threshold_ok(threshold: f64) -> bool
    ensures { result ≡ threshold_ok threshold }
{
    if !floats::is_finite(threshold) {
        return false;
    }
    0.0 <= threshold
}
