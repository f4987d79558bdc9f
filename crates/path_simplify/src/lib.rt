// Simplification of paths by Ramer, Douglas and Peucker.
#![tactic(auto)]

ghost use Rattle.std.specs.Prelude.{◌≡◌, false, not, ℕ, ◌+◌, ◌-◌, ◌*◌, ◌≤◌, ◌<◌, T, length, take, get_or, set, Ok};
ghost use Rattle.std.proofs.Math.Seq.{slice};
ghost use Rattle.std.specs.Float.Ieee.{lt, is_nan, of_bits, to_bits};
ghost use Rattle.std.specs.Float.{nan, binary64};
ghost use Rattle.floats.specs.Arith.{zero_f};
ghost use Rattle.sqrt.specs.Root.{sqrt_of};
ghost use Rattle.rows.specs.Points.{points};
ghost use Rattle.paths.specs.Paths.{one_path};
ghost use Rattle.paths.specs.Ends.{places, all_points, Ends, held, EndsBoth, Finished};
ghost use Rattle.path_simplify.specs.Simplify.{split_place, path_simplify, simplify_paths, simplify_call};
ghost use Rattle.path_simplify.specs.Kept.{Kept};

use geometry::vector::Vector;
use refusals::Refusal;

// A place of the path waits as a bit pattern, in the cell that has w waiting ones after it.
fn wait(out: &mut [f64], w: usize, i: usize)
    requires { (w < length out.old) × (i * 3 < 18446744073709551616) }
    ensures { out.new ≡ set out.old (length out.old - w - 1) (of_bits binary64 i) }
{
    let at = out.len() - w - 1;
    out[at] = f64::from_bits(i as u64);
}

// The last of w waiting places.
fn waiting(out: &[f64], w: usize) -> usize
    requires { (0 < w) × (w ≤ length out.now) × T (not (is_nan (get_or out.now (length out.now - w) nan))) }
    ensures { result ≡ to_bits binary64 (get_or out.now (length out.now - w) nan) }
{
    let x = out[out.len() - w];
    f64::to_bits(x) as usize
}

// A square whose root is not above the threshold: its own, where rounding allows it.
fn low_square(threshold: f64) -> f64
    requires { lt threshold zero_f ≡ false }
    ensures { lt threshold (sqrt_of result) ≡ false }
{
    let q = threshold * threshold;
    if threshold < sqrt::root(q) {
        return 0.0;
    }
    q
}

// Where the path from a to b is split, or a. A peak whose square is at most `low` is not beyond the
// threshold, and needs no root.
fn split(path: &[f64], a: usize, b: usize, threshold: f64, low: f64) -> usize
    requires { (a < b) × (b * 3 + 3 ≤ length path.now) × (lt threshold zero_f ≡ false) × (lt threshold (sqrt_of low) ≡ false) }
    ensures { result ≡ a + split_place threshold (slice a (b + 1) (all_points path.now)) }
{
    if b - a < 2 {
        return a;
    }
    let end = b + 1;
    let k = path_rdp::greatest_square(path, a, end);
    if k.square <= low {
        return a;
    }
    let f = path_rdp::settled(path, a, end, k);
    if !(f.distance > threshold) {
        return a;
    }
    a + f.index
}

// What is kept of the path from `from` up to `end` goes after the first n points. Whatever is before
// place a is done; a itself and the places that wait, the last of them next, are kept and not yet
// written. They wait at the end of `out`, one number each, where each will need three.
pub fn path_simplify(
    path: &[f64],
    from: usize,
    end: usize,
    threshold: f64,
    out: &mut [f64],
    n: usize,
) -> Result<usize, Refusal>
    requires { (from ≤ end) × (end * 3 ≤ length path.now) × (n * 3 ≤ length out.old) × (lt threshold zero_f ≡ false) }
    ensures { Ends (path_simplify threshold (places out.old) (slice from end (all_points path.now)) (points n out.old)) out.new result }
{
    if end - from < 2 {
        return paths::extend(path, from, end, out, n);
    }
    let room = out.len() / 3;
    if room - n < 2 {
        return Err(Refusal::Room);
    }
    let low = low_square(threshold);
    wait(out, 0, end - 1);
    let mut a = from;
    let mut m = n;
    let mut w = 1;
    // no `for`: the places that wait grow and shrink
    while 0 < w {
        let b = waiting(out, w);
        let s = split(path, a, b, threshold, low);
        if a < s {
            if room <= m + w + 1 {
                return Err(Refusal::Room);
            }
            wait(out, w, s);
            w += 1;
            continue;
        }
        let p = rows::read_point(path, a);
        rows::write_point(out, m, p);
        a = b;
        m += 1;
        w -= 1;
    }
    let p = rows::read_point(path, a);
    rows::write_point(out, m, p);
    Ok(m + 1)
}

// A path is opened, simplified and closed.
fn one_path(
    path: &[f64],
    from: usize,
    end: usize,
    threshold: f64,
    out: &mut [f64],
    begins: &mut [usize],
    n: usize,
    m: usize,
) -> Result<(usize, usize), Refusal>
    requires { (from ≤ end) × (end * 3 ≤ length path.now) × (n * 3 ≤ length out.old) × (m ≤ length begins.old) × (lt threshold zero_f ≡ false) }
    ensures { EndsBoth (one_path (path_simplify threshold) (places out.old) (length begins.old) (slice from end (all_points path.now)) (held n out.old m begins.old)) out.new begins.new result }
{
    let q = paths::new_path(begins, m, n)?;
    let l = path_simplify(path, from, end, threshold, out, n)?;
    let z = paths::close(begins, q, l);
    Ok((l, z))
}

// Each path in turn, from the first places of `out` and `begins` on.
pub fn simplify_paths(
    path: &[f64],
    starts: &[usize],
    threshold: f64,
    out: &mut [f64],
    begins: &mut [usize],
) -> Result<(usize, usize), Refusal>
    requires { lt threshold zero_f ≡ false }
    ensures { EndsBoth (simplify_paths threshold (all_points path.now) starts.now (places out.old) (length begins.old)) out.new begins.new result }
{
    let total = path.len() / 3;
    let mut n = 0;
    let mut m = 0;
    for i in 0..starts.len() {
        let s = paths::range_of(starts, i, total);
        (n, m) = one_path(path, s.from, s.end, threshold, out, begins, n, m)?;
    }
    Ok((n, m))
}

// The paths simplified, in `out` and `begins`, and then zeros; or why it is refused, and zeros
// throughout.
pub fn simplify(
    path: &[f64],
    starts: &[usize],
    threshold: f64,
    out: &mut [f64],
    begins: &mut [usize],
) -> Result<(usize, usize), Refusal>
    ensures finished { Finished (simplify_call path.now starts.now threshold (places out.old) (length begins.old)) (length out.old) (length begins.old) out.new begins.new result }
    ensures kept { (n m : ℕ) → result ≡ Ok (n, m) → Kept threshold path.now starts.now (points n out.new) (take m begins.new) }
{
    let v = paths::judge(path, starts, path_rdp::threshold_ok(threshold));
    match v {
        Err(k) => paths::finish(out, begins, Err(k)),
        Ok(()) => {
            let r = simplify_paths(path, starts, threshold, out, begins);
            paths::finish(out, begins, r)
        }
    }
}
