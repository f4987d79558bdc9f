// Paths copied from one pair of slices to another.
#![tactic(auto)]

ghost use Rattle.std.specs.Prelude.{◌≡◌, ◌≤◌, length, take};
ghost use Rattle.paths.specs.Paths.{paths_with};
ghost use Rattle.paths.specs.Ends.{places, all_points, EndsBoth};
ghost use Rattle.path_copy.specs.Copies.{copied_paths};

use refusals::Refusal;

// The first starts of `to` become those of `from`.
fn copy_starts(from: &[usize], to: &mut [usize])
    requires { length from.now ≤ length to.old }
    ensures { take (length from.now) to.new ≡ from.now }
{
    // no `copy_from_slice`: it calls memmove, which an archive for C would need from outside
    for i in 0..from.len() {
        to[i] = from[i];
    }
}

// All paths, from the first places of `out` and `begins` on, where there is a place for each point and each start.
pub fn copy_paths(
    path: &[f64],
    starts: &[usize],
    out: &mut [f64],
    begins: &mut [usize],
) -> Result<(usize, usize), Refusal>
    ensures { EndsBoth (copied_paths (places out.old) (length begins.old) (paths_with (all_points path.now) starts.now)) out.new begins.new result }
{
    let m = starts.len();
    if begins.len() < m {
        return Err(Refusal::Room);
    }
    let c = paths::extend(path, 0, path.len() / 3, out, 0);
    copy_starts(starts, begins);
    let n = c?;
    Ok((n, m))
}
