// The lines of the drawn entries of a scene (`paths` of shape.rs and csg.rs), in vectors of paths that
// stand one after the other in a slice: the first takes the lines, the others those of nested cuts.
#![tactic(auto)]

ghost use Rattle.std.specs.Prelude.{◌≡◌, ◌++◌, map, ℕ, ◌+◌, ◌*◌, ◌≤◌, length, take, drop, Ok};
ghost use Rattle.matrix.specs.Matrices.{mul_position};
ghost use Rattle.rows.specs.Points.{points as points_in};
ghost use Rattle.paths.specs.Paths.{paths_with, no_paths};
ghost use Rattle.paths.specs.Ends.{places, all_points, held, EndsBoth};
ghost use Rattle.scene_shape.specs.Shapes.{decode};
ghost use Rattle.draw_arcs.specs.Stances.{placement_of};
ghost use Rattle.draw_collect.specs.Lined.{detail_at};
ghost use Rattle.draw_collect.specs.Collect as Collect;
ghost use Rattle.draw_collect.specs.Collect.{collected, collected_all};
ghost use Rattle.draw_collect.specs.Slices.{room_of, lined_at, first_held, collected_both, Lent, Spare, joined};

use draw_arcs::Stance;
use matrix::Matrix;
use refusals::Refusal;
use scene::entry::Entry;
use view::RenderArgs;

fn detail_of(marks: &[u32], i: usize) -> u32
    ensures { result ≡ detail_at marks.now i }
{
    if i < marks.len() / 4 {
        return rows::read_marks(marks, i).detail;
    }
    0
}

// The points from n up to `end` are moved.
fn move_points(matrix: Matrix, xs: &mut [f64], n: usize, end: usize)
    requires { end * 3 ≤ length xs.old }
    ensures { points_in end xs.new ≡ take n (points_in end xs.old) ++ map (mul_position matrix) (drop n (points_in end xs.old)) }
{
    if n < end {
        let at = n * 3;
        path_transform::transform(matrix, &mut xs[at..], end - n);
    }
}

// Lines are judged by number 9 and chopped.
pub fn chop_lines(
    args: RenderArgs,
    path: &[f64],
    starts: &[usize],
    out: &mut [f64],
    begins: &mut [usize],
) -> Result<(usize, usize), Refusal>
    ensures { EndsBoth (Collect.chopped_lines args (places out.old) (length begins.old) (paths_with (all_points path.now) starts.now)) out.new begins.new result }
{
    if !paths::points_ok(path) {
        return Err(Refusal::Point);
    }
    path_chop::chop_paths(args, path, starts, out, begins)
}

// The lines of a cut's parts, n points and m starts, are chopped and then filtered by the insides of
// the cut, entry k.
fn sift(
    numbers: &[f64],
    inverses: &[f64],
    marks: &[u32],
    k: usize,
    depth: usize,
    args: RenderArgs,
    path: &mut [f64],
    begins: &mut [usize],
    n: usize,
    m: usize,
    chopped: &mut [f64],
    chopped_starts: &mut [usize],
) -> Result<(usize, usize), Refusal>
    requires { (n * 3 ≤ length path.old) × (m ≤ length begins.old) }
    ensures { EndsBoth (Collect.sifted args (room_of (length path.old) (length begins.old) chopped.old chopped_starts.old) (decode depth numbers.now inverses.now marks.now k) (held n path.old m begins.old)) path.new begins.new result }
{
    let end = n * 3;
    let (p, q) = chop_lines(args, &path[..end], &begins[..m], chopped, chopped_starts)?;
    let last = p * 3;
    draw_cuts::filter_paths(
        numbers,
        inverses,
        marks,
        k,
        depth,
        &chopped[..last],
        &chopped_starts[..q],
        path,
        begins,
    )
}

// The lines of the parts of a cut, entry k, that the second vector holds, are sifted and appended to
// the n points and m starts of the first.
fn join(
    c: Result<(usize, usize), Refusal>,
    numbers: &[f64],
    inverses: &[f64],
    marks: &[u32],
    k: usize,
    depth: usize,
    args: RenderArgs,
    wide: usize,
    many: usize,
    work: &mut [f64],
    begins: &mut [usize],
    n: usize,
    m: usize,
    chopped: &mut [f64],
    chopped_starts: &mut [usize],
) -> Result<(usize, usize), Refusal>
    requires { Lent 2 wide many n m work.old begins.old × ((p q : ℕ) → c ≡ Ok (p, q) → (p * 3 ≤ length (take wide (drop wide work.old))) × (q ≤ length (take many (drop many begins.old)))) }
    ensures { EndsBoth (joined args (room_of wide many chopped.old chopped_starts.old) (decode depth numbers.now inverses.now marks.now k) wide many n work.old m begins.old c) (take wide work.new) (take many begins.new) result }
{
    let (p, q) = c?;
    let end = wide + wide;
    let last = many + many;
    let (x, y) = sift(
        numbers,
        inverses,
        marks,
        k,
        depth,
        args,
        &mut work[wide..end],
        &mut begins[many..last],
        p,
        q,
        chopped,
        chopped_starts,
    )?;
    path_append::append(work, begins, wide, many, n, m, x, y)
}

// The lines of entry i, nested at most `depth` deep, after the n points and m starts of the first
// vector; there is a vector for each level.
#[cycle(paths)]
fn entry_paths(
    numbers: &[f64],
    inverses: &[f64],
    marks: &[u32],
    points: &[f64],
    starts: &[usize],
    owners: &[u32],
    i: usize,
    t: Stance,
    depth: usize,
    wide: usize,
    many: usize,
    work: &mut [f64],
    begins: &mut [usize],
    n: usize,
    m: usize,
    chopped: &mut [f64],
    chopped_starts: &mut [usize],
) -> Result<(usize, usize), Refusal>
    requires { Lent depth wide many n m work.old begins.old × Spare depth t }
    ensures { EndsBoth (collected (placement_of t) (room_of wide many chopped.old chopped_starts.old) (lined_at depth numbers.now inverses.now marks.now points.now starts.now owners.now i) (first_held wide many n work.old m begins.old)) (take wide work.new) (take many begins.new) result }
{
    if depth == 0 {
        return Ok((n, m));
    }
    let e = scene::entry::entry_at(numbers, inverses, marks, i);
    match e {
        None => Ok((n, m)),
        Some(Entry::Simple(s)) => draw_shown::shown_paths(
            s,
            detail_of(marks, i),
            i,
            points,
            starts,
            owners,
            t,
            &mut work[..wide],
            &mut begins[..many],
            n,
            m,
        ),
        Some(Entry::Placed(x, v, k)) => {
            let inner = draw_arcs::placed_stance(x, v, t);
            let (p, q) = entry_paths(
                numbers,
                inverses,
                marks,
                points,
                starts,
                owners,
                k,
                inner,
                depth - 1,
                wide,
                many,
                work,
                begins,
                n,
                m,
                chopped,
                chopped_starts,
            )?;
            move_points(x, &mut work[..wide], n, p);
            Ok((p, q))
        }
        Some(Entry::Cut(_, a, b)) => {
            if depth == 1 {
                return Ok((n, m));
            }
            let c = part_paths(
                numbers,
                inverses,
                marks,
                points,
                starts,
                owners,
                a,
                b,
                t,
                depth - 1,
                wide,
                many,
                &mut work[wide..],
                &mut begins[many..],
                chopped,
                chopped_starts,
            );
            join(
                c,
                numbers,
                inverses,
                marks,
                i,
                depth,
                t.args,
                wide,
                many,
                work,
                begins,
                n,
                m,
                chopped,
                chopped_starts,
            )
        }
    }
}

// The lines of both parts of a cut, one after the other, from the first place of the first vector on.
#[cycle(paths)]
fn part_paths(
    numbers: &[f64],
    inverses: &[f64],
    marks: &[u32],
    points: &[f64],
    starts: &[usize],
    owners: &[u32],
    a: usize,
    b: usize,
    t: Stance,
    depth: usize,
    wide: usize,
    many: usize,
    work: &mut [f64],
    begins: &mut [usize],
    chopped: &mut [f64],
    chopped_starts: &mut [usize],
) -> Result<(usize, usize), Refusal>
    requires { Lent depth wide many 0 0 work.old begins.old × Spare depth t }
    ensures { EndsBoth (collected_both (placement_of t) (room_of wide many chopped.old chopped_starts.old) (lined_at depth numbers.now inverses.now marks.now points.now starts.now owners.now) a b) (take wide work.new) (take many begins.new) result }
{
    let (p, q) = entry_paths(
        numbers,
        inverses,
        marks,
        points,
        starts,
        owners,
        a,
        t,
        depth,
        wide,
        many,
        work,
        begins,
        0,
        0,
        chopped,
        chopped_starts,
    )?;
    entry_paths(
        numbers,
        inverses,
        marks,
        points,
        starts,
        owners,
        b,
        t,
        depth,
        wide,
        many,
        work,
        begins,
        p,
        q,
        chopped,
        chopped_starts,
    )
}

// The lines of the first `count` of the listed entries, from the first place of the first vector on;
// there are eight vectors.
pub fn all_paths(
    numbers: &[f64],
    inverses: &[f64],
    marks: &[u32],
    points: &[f64],
    starts: &[usize],
    owners: &[u32],
    listed: &[u32],
    count: usize,
    args: RenderArgs,
    wide: usize,
    many: usize,
    work: &mut [f64],
    begins: &mut [usize],
    chopped: &mut [f64],
    chopped_starts: &mut [usize],
) -> Result<(usize, usize), Refusal>
    requires { (count ≤ length listed.now) × Lent 8 wide many 0 0 work.old begins.old }
    ensures { EndsBoth (collected_all args (room_of wide many chopped.old chopped_starts.old) (lined_at 8 numbers.now inverses.now marks.now points.now starts.now owners.now) (take count listed.now) no_paths) (take wide work.new) (take many begins.new) result }
{
    let mut p = 0;
    let mut q = 0;
    for i in 0..count {
        (p, q) = entry_paths(
            numbers,
            inverses,
            marks,
            points,
            starts,
            owners,
            rows::index(listed[i]),
            draw_arcs::stance_of(args),
            8,
            wide,
            many,
            work,
            begins,
            p,
            q,
            chopped,
            chopped_starts,
        )?;
    }
    Ok((p, q))
}
