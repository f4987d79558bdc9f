// Two vectors of paths that stand one after the other in one slice: the second appended to the first.
#![tactic(auto)]

ghost use Rattle.std.specs.Prelude.{◌≡◌, ◌+◌, ◌*◌, ◌/◌, ◌≤◌, length, take, drop};
ghost use Rattle.std.proofs.lemmas.List.Edits.{sets};
ghost use Rattle.paths.specs.Ends.{held, EndsBoth};
ghost use Rattle.path_append.specs.Append.{Low, Movable, shifted, appended};

use refusals::Refusal;

// The numbers from `from` on, so many, are written from `to` on too; they do not reach `from`.
fn copy(xs: &mut [f64], from: usize, to: usize, count: usize)
    requires { (to + count ≤ from) × (from + count ≤ length xs.old) }
    ensures { xs.new ≡ sets xs.old to (take count (drop from xs.old)) }
{
    for j in 0..count {
        xs[to + j] = xs[from + j];
    }
}

// The starts from `from` on, so many, are written from `to` on too, each `by` later.
fn shift(ss: &mut [usize], from: usize, to: usize, count: usize, by: usize)
    requires { (to + count ≤ from) × (from + count ≤ length ss.old) × Movable by (take count (drop from ss.old)) }
    ensures { ss.new ≡ sets ss.old to (shifted by (take count (drop from ss.old))) }
{
    for j in 0..count {
        ss[to + j] = ss[from + j] + by;
    }
}

// A vector has `wide` numbers for its points and `many` starts. The second one's p points and q starts
// go after the first one's n and m.
pub fn append(
    work: &mut [f64],
    begins: &mut [usize],
    wide: usize,
    many: usize,
    n: usize,
    m: usize,
    p: usize,
    q: usize,
) -> Result<(usize, usize), Refusal>
    requires { (n * 3 ≤ wide) × (m ≤ many) × (p * 3 ≤ wide) × (q ≤ many) × (wide + wide ≤ length work.old) × (many + many ≤ length begins.old) × Low p (take q (drop many begins.old)) }
    ensures { EndsBoth (appended (wide / 3) many (held n (take wide work.old) m (take many begins.old)) (held p (take wide (drop wide work.old)) q (take many (drop many begins.old)))) (take wide work.new) (take many begins.new) result }
{
    if many - m < q {
        return Err(Refusal::Room);
    }
    if wide / 3 - n < p {
        return Err(Refusal::Room);
    }
    shift(begins, many, m, q, n);
    copy(work, wide, n * 3, p * 3);
    Ok((n + p, m + q))
}
