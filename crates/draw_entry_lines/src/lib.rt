// The lines of a range of drawn entries that a draw puts to step 4: its steps 1 and 2.
#![tactic(auto)]

ghost use Rattle.std.specs.Prelude.{◌+◌, ◌*◌, ◌/◌, ◌≤◌, length, take, drop};
ghost use Rattle.floats.specs.Arith.{zero_f};
ghost use Rattle.paths.specs.Ends.{places, held, EndsBoth, Finished, Zeroed};
ghost use Rattle.draw_collect.specs.Slices.{room_of, lined_at};
ghost use Rattle.draw_entry_lines.specs.EntryLines as EntryLines;

use refusals::Refusal;
use view::View;

// Step 2 on n points and m starts of lines; at step 0 they are copied.
fn put_lines(
    view: View,
    work: &[f64],
    work_starts: &[usize],
    n: usize,
    m: usize,
    out: &mut [f64],
    begins: &mut [usize],
) -> Result<(usize, usize), Refusal>
    requires { (n * 3 ≤ length work.now) × (m ≤ length work_starts.now) }
    ensures { EndsBoth (EntryLines.chopped_or_copied view (places out.old) (length begins.old) (held n work.now m work_starts.now)) out.new begins.new result }
{
    let end = n * 3;
    if !draw_render::stepping(view) {
        return path_copy::copy_paths(&work[..end], &work_starts[..m], out, begins);
    }
    draw_collect::chop_lines(view.args(), &work[..end], &work_starts[..m], out, begins)
}

// The lines of some listed solids, `some` from place `first` on.
fn listed_lines(
    view: View,
    numbers: &[f64],
    inverses: &[f64],
    marks: &[u32],
    points: &[f64],
    starts: &[usize],
    owners: &[u32],
    listed: &[u32],
    first: usize,
    some: usize,
    out: &mut [f64],
    begins: &mut [usize],
    work: &mut [f64],
    work_starts: &mut [usize],
) -> Result<(usize, usize), Refusal>
    requires { (first + some ≤ length listed.now) × (length listed.now ≤ 1024) }
    ensures { EndsBoth (EntryLines.lines_in_room view (room_of (length work.old / 24 * 3) (length work_starts.old / 8) out.old begins.old) (lined_at 8 numbers.now inverses.now marks.now points.now starts.now owners.now) (take some (drop first listed.now))) out.new begins.new result }
{
    let wide = work.len() / 24 * 3;
    let many = work_starts.len() / 8;
    let (n, m) = draw_collect::all_paths(
        numbers,
        inverses,
        marks,
        points,
        starts,
        owners,
        &listed[first..],
        some,
        view.args(),
        wide,
        many,
        work,
        work_starts,
        out,
        begins,
    )?;
    put_lines(view, &work[..wide], &work_starts[..many], n, m, out, begins)
}

// The check of the scene and of the view, then the lines, in the first places of `out` and `begins`.
fn checked_lines(
    first: usize,
    many: usize,
    numbers: &[f64],
    marks: &[u32],
    points: &[f64],
    starts: &[usize],
    owners: &[u32],
    view: View,
    out: &mut [f64],
    begins: &mut [usize],
    work: &mut [f64],
    work_starts: &mut [usize],
) -> Result<(usize, usize), Refusal>
    ensures { EndsBoth (EntryLines.entry_lines_in first many numbers.now marks.now points.now starts.now owners.now view out.old begins.old work.old work_starts.old) out.new begins.new result }
{
    let mut inverses = [0.0; 16384];
    let mut boxes = [0.0; 6144];
    let mut drawn = [0u32; 1024];
    let n = check_scene::check(
        numbers,
        marks,
        points,
        starts,
        owners,
        &mut inverses,
        &mut boxes,
        &mut drawn,
    )?;
    if !view.is_ok() {
        return Err(Refusal::View);
    }
    let range = draw_ranges::range_within(first, many, n);
    listed_lines(
        view,
        numbers,
        &inverses,
        marks,
        points,
        starts,
        owners,
        &drawn,
        range.first,
        range.many,
        out,
        begins,
        work,
        work_starts,
    )
}

// The lines of the drawn entries number first, first + 1 and so on of a scene, `many` of them as far as there are any,
// as a draw for this view puts them to step 4, in `out` and `begins`, or why that is refused. `work` has eight equal
// vectors of lines, and ends as zeros; `out` and `begins` serve the chops of cuts before.
pub fn entry_lines(
    first: usize,
    many: usize,
    numbers: &[f64],
    marks: &[u32],
    points: &[f64],
    starts: &[usize],
    owners: &[u32],
    view: View,
    out: &mut [f64],
    begins: &mut [usize],
    work: &mut [f64],
    work_starts: &mut [usize],
) -> Result<(usize, usize), Refusal>
    ensures finished { Finished (EntryLines.entry_lines_in first many numbers.now marks.now points.now starts.now owners.now view out.old begins.old work.old work_starts.old) (length out.old) (length begins.old) out.new begins.new result }
    ensures zeroed { Zeroed zero_f work.old work.new }
    ensures zeroed_2 { Zeroed 0 work_starts.old work_starts.new }
{
    let r = checked_lines(
        first,
        many,
        numbers,
        marks,
        points,
        starts,
        owners,
        view,
        out,
        begins,
        work,
        work_starts,
    );
    rows::clear(work, 0);
    rows::clear_starts(work_starts, 0);
    paths::finish(out, begins, r)
}
