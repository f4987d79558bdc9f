// Points and starts of paths in lent slices, with the Rust's verbs; what is asked of paths that are
// handed in; and how a call on paths ends.
#![tactic(auto)]

ghost use Rattle.std.specs.Prelude.{◌≡◌, ℕ, ◌*◌, ◌≤◌, ◌<◌, length, take, Ok};
ghost use Rattle.std.proofs.Math.Seq.{slice};
ghost use Rattle.rows.specs.Points.{points};
ghost use Rattle.paths.specs.Paths as Paths;
ghost use Rattle.paths.specs.Paths.{closed_starts};
ghost use Rattle.paths.specs.Ends.{places, all_points, Ends, EndsStarts, told_both, Finished};
ghost use Rattle.paths.specs.Judged.{points_ok, paths_judged};
ghost use Rattle.paths.specs.Ranges.{lesser_of, range_of};

use geometry::vector::Vector;
use refusals::Refusal;

// A point after the first n.
pub fn push(out: &mut [f64], n: usize, v: Vector) -> Result<usize, Refusal>
    requires { n * 3 ≤ length out.old }
    ensures { Ends (Paths.push (places out.old) (points n out.old) v) out.new result }
{
    if n < out.len() / 3 {
        rows::write_point(out, n, v);
        return Ok(n + 1);
    }
    Err(Refusal::Room)
}

// The points of a path from `from` up to `end`.
pub fn extend(
    path: &[f64],
    from: usize,
    end: usize,
    out: &mut [f64],
    n: usize,
) -> Result<usize, Refusal>
    requires { (from ≤ end) × (end * 3 ≤ length path.now) × (n * 3 ≤ length out.old) }
    ensures { Ends (Paths.push_all (places out.old) (points n out.old) (slice from end (all_points path.now))) out.new result }
{
    let mut m = n;
    for i in from..end {
        let p = rows::read_point(path, i);
        m = push(out, m, p)?;
    }
    Ok(m)
}

// A path that starts after n points takes a place after the first m starts.
pub fn new_path(starts: &mut [usize], m: usize, n: usize) -> Result<usize, Refusal>
    requires { m ≤ length starts.old }
    ensures { EndsStarts (Paths.push (length starts.old) (take m starts.old) n) starts.new result }
{
    if m < starts.len() {
        starts[m] = n;
        return Ok(m + 1);
    }
    Err(Refusal::Room)
}

// How many of m starts are left, once a last path without points has vanished; there are n points.
pub fn close(starts: &[usize], m: usize, n: usize) -> usize
    requires { m ≤ length starts.now }
    ensures { (take result starts.now ≡ closed_starts (take m starts.now) n) × (result ≤ m) }
{
    if m == 0 {
        return m;
    }
    let at = m - 1;
    if starts[at] == n {
        return at;
    }
    m
}

// Where a path starts and ends among the points.
#[derive(Clone, Copy)]
pub struct Range {
    pub from: usize,
    pub end: usize,
}

pub fn lesser(a: usize, b: usize) -> usize
    ensures { result ≡ lesser_of a b }
{
    if b < a { b } else { a }
}

// Path i of these, among n points; ends out of order or beyond the points are kept within them.
pub fn range_of(starts: &[usize], i: usize, n: usize) -> Range
    requires { i < length starts.now }
    ensures { result ≡ range_of n starts.now i }
{
    let end = lesser(rows::end_of(starts, i, n), n);
    Range {
        from: lesser(starts[i], end),
        end,
    }
}

// The result and then zeros, or zeros throughout.
pub fn finish(
    out: &mut [f64],
    starts: &mut [usize],
    c: Result<(usize, usize), Refusal>,
) -> Result<(usize, usize), Refusal>
    requires { (n m : ℕ) → c ≡ Ok (n, m) → (n * 3 ≤ length out.old) × (m ≤ length starts.old) }
    ensures { Finished (told_both c out.old starts.old) (length out.old) (length starts.old) out.new starts.new result }
{
    match c {
        Err(k) => {
            rows::clear(out, 0);
            rows::clear_starts(starts, 0);
            Err(k)
        }
        Ok((n, m)) => {
            rows::clear(out, n * 3);
            rows::clear_starts(starts, m);
            Ok((n, m))
        }
    }
}

// Whether each point is finite, with no coordinate above 1,000,000 in magnitude.
pub fn points_ok(path: &[f64]) -> bool
    ensures { result ≡ points_ok (all_points path.now) }
{
    let n = path.len() / 3;
    for i in 0..n {
        let p = rows::read_point(path, i);
        if !limits::within_point(p) {
            return false;
        }
    }
    true
}

// Numbers 2, 4, 8 and 9 of paths that are handed to a call; `fair` says that 8 is not met.
pub fn judge(path: &[f64], starts: &[usize], fair: bool) -> Result<(), Refusal>
    ensures { result ≡ paths_judged path.now starts.now fair }
{
    if path.len() % 3 != 0 {
        return Err(Refusal::Lengths);
    }
    if !rows::good_starts(starts, path.len() / 3) {
        return Err(Refusal::Parts);
    }
    if !fair {
        return Err(Refusal::View);
    }
    if starts.len() == 0 {
        return Ok(());
    }
    if !points_ok(path) {
        return Err(Refusal::Point);
    }
    Ok(())
}
