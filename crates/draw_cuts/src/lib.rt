// The filter of a cut's lines (csg.rs, and its loops of path.rs): by the cut's own insides.
#![tactic(auto)]

ghost use Rattle.std.specs.Prelude.{◌≡◌, ◌*◌, ◌≤◌, length};
ghost use Rattle.std.proofs.Math.Seq.{slice};
ghost use Rattle.paths.specs.Ends.{places, all_points, held, EndsBoth};
ghost use Rattle.path_filter.specs.Filter.{filtered_from, path_filter};
ghost use Rattle.scene_shape.specs.Shapes.{decode};
ghost use Rattle.draw_cuts.specs.Cuts.{cut_filter, cut_paths};

use geometry::vector::Vector;
use refusals::Refusal;

// What becomes of a point of the lines of the cut at entry k, nested at most `depth` deep: it is kept
// exactly if the cut contains it.
pub fn cut_filter(
    numbers: &[f64],
    inverses: &[f64],
    marks: &[u32],
    k: usize,
    depth: usize,
    v: Vector,
) -> Result<Option<Vector>, Refusal>
    ensures { result ≡ cut_filter (decode depth numbers.now inverses.now marks.now k) v }
{
    if scene_shape::entry_contains(numbers, inverses, marks, k, v, 0.0, depth) {
        return Ok(Some(v));
    }
    Ok(None)
}

// The rows in which the cut stands at entry k, and how deep it may be nested.
#[derive(Clone, Copy)]
struct CutRows<'a> {
    numbers: &'a [f64],
    inverses: &'a [f64],
    marks: &'a [u32],
    k: usize,
    depth: usize,
}

// Each point of a path from `from` up to `end`, after n points and m starts.
fn filter_from(
    cut: &CutRows,
    path: &[f64],
    from: usize,
    end: usize,
    out: &mut [f64],
    begins: &mut [usize],
    n: usize,
    m: usize,
) -> Result<(usize, usize), Refusal>
    requires { (from ≤ end) × (end * 3 ≤ length path.now) × (n * 3 ≤ length out.old) × (m ≤ length begins.old) }
    ensures { EndsBoth (filtered_from (cut_filter (decode cut.now.depth cut.now.numbers.now cut.now.inverses.now cut.now.marks.now cut.now.k)) (places out.old) (length begins.old) (slice from end (all_points path.now)) (held n out.old m begins.old)) out.new begins.new result }
{
    let mut a = n;
    let mut b = m;
    for i in from..end {
        let v = rows::read_point(path, i);
        let t = cut_filter(cut.numbers, cut.inverses, cut.marks, cut.k, cut.depth, v);
        (a, b) = path_filter::step(t, out, begins, a, b)?;
    }
    Ok((a, b))
}

// A path is opened and filtered, and the last path opened is closed.
fn path_filter(
    cut: &CutRows,
    path: &[f64],
    from: usize,
    end: usize,
    out: &mut [f64],
    begins: &mut [usize],
    n: usize,
    m: usize,
) -> Result<(usize, usize), Refusal>
    requires { (from ≤ end) × (end * 3 ≤ length path.now) × (n * 3 ≤ length out.old) × (m ≤ length begins.old) }
    ensures { EndsBoth (path_filter (cut_filter (decode cut.now.depth cut.now.numbers.now cut.now.inverses.now cut.now.marks.now cut.now.k)) (places out.old) (length begins.old) (slice from end (all_points path.now)) (held n out.old m begins.old)) out.new begins.new result }
{
    let q = paths::new_path(begins, m, n)?;
    let (a, b) = filter_from(cut, path, from, end, out, begins, n, q)?;
    let z = paths::close(begins, b, a);
    Ok((a, z))
}

// Each path in turn, from the first places of `out` and `begins` on.
pub fn filter_paths(
    numbers: &[f64],
    inverses: &[f64],
    marks: &[u32],
    k: usize,
    depth: usize,
    path: &[f64],
    starts: &[usize],
    out: &mut [f64],
    begins: &mut [usize],
) -> Result<(usize, usize), Refusal>
    ensures { EndsBoth (cut_paths (decode depth numbers.now inverses.now marks.now k) (all_points path.now) starts.now (places out.old) (length begins.old)) out.new begins.new result }
{
    let total = path.len() / 3;
    let cut = CutRows {
        numbers,
        inverses,
        marks,
        k,
        depth,
    };
    let mut n = 0;
    let mut m = 0;
    for i in 0..starts.len() {
        let p = paths::range_of(starts, i, total);
        (n, m) = path_filter(&cut, path, p.from, p.end, out, begins, n, m)?;
    }
    Ok((n, m))
}
