// The filter's work on one point, by the outcome of its test.
#![tactic(auto)]

ghost use Rattle.std.specs.Prelude.{◌*◌, ◌≤◌, length};
ghost use Rattle.paths.specs.Ends.{places, held, EndsBoth};
ghost use Rattle.path_filter.specs.Filter.{stepped};

use geometry::vector::Vector;
use refusals::Refusal;

// After n points and m starts: a kept point is pushed; a dropped one closes the path and opens another.
pub fn step(
    t: Result<Option<Vector>, Refusal>,
    out: &mut [f64],
    begins: &mut [usize],
    n: usize,
    m: usize,
) -> Result<(usize, usize), Refusal>
    requires { (n * 3 ≤ length out.old) × (m ≤ length begins.old) }
    ensures { EndsBoth (stepped (places out.old) (length begins.old) t (held n out.old m begins.old)) out.new begins.new result }
{
    match t? {
        Some(v) => {
            let q = paths::push(out, n, v)?;
            Ok((q, m))
        }
        None => {
            let z = paths::close(begins, m, n);
            let q = paths::new_path(begins, z, n)?;
            Ok((n, q))
        }
    }
}
