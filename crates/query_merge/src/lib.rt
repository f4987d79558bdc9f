// Request (xii), one yard from two files: two accepted scenes merged into one.
#![tactic(auto)]

ghost use Rattle.std.specs.Prelude.{◌≡◌, ◌+◌, ◌≤◌, length, leb};
ghost use Rattle.scene.specs.Scenes.{scene_of};
ghost use Rattle.scene_merge.specs.MergedScenes as MergedScenes;
ghost use Rattle.query_merge.specs.Merging as Merging;

use refusals::Refusal;

// How many elements each of five slices has: numbers, marks, points, path starts and owners.
#[derive(Clone, Copy)]
pub struct Sizes {
    pub numbers: usize,
    pub marks: usize,
    pub points: usize,
    pub starts: usize,
    pub owners: usize,
}

// How many numbers of points a scene gives: none without path starts.
fn given(points: &[f64], starts: &[usize]) -> usize
    ensures value { result ≡ length (MergedScenes.points_given points.now starts.now) }
    ensures upper_bound { result ≤ length points.now }
{
    if starts.len() == 0 {
        return 0;
    }
    points.len()
}

// What a scene gives to each list of the merged one.
fn given_sizes(
    numbers: &[f64],
    marks: &[u32],
    points: &[f64],
    starts: &[usize],
    owners: &[u32],
) -> Sizes
    ensures { result ≡ Merging.given_sizes (scene_of numbers.now marks.now points.now starts.now owners.now) }
{
    let n = given(points, starts);
    Sizes {
        numbers: numbers.len(),
        marks: marks.len(),
        points: n,
        starts: starts.len(),
        owners: owners.len(),
    }
}

// Whether a slice has places for so many elements and so many more.
fn holds_both(room: usize, a: usize, b: usize) -> bool
    ensures { result ≡ leb (a + b) room }
{
    if room < a {
        return false;
    }
    b <= room - a
}

// Number 13: whether each result slice has places for what both scenes give.
fn fit(a: Sizes, b: Sizes, room: Sizes) -> bool
    ensures { result ≡ Merging.fits (Merging.both_sizes a b) room }
{
    if !holds_both(room.numbers, a.numbers, b.numbers) {
        return false;
    }
    if !holds_both(room.marks, a.marks, b.marks) {
        return false;
    }
    if !holds_both(room.points, a.points, b.points) {
        return false;
    }
    if !holds_both(room.starts, a.starts, b.starts) {
        return false;
    }
    holds_both(room.owners, a.owners, b.owners)
}

// What is judged of two accepted scenes together: number 2, then 13.
fn judge(a: Sizes, b: Sizes, room: Sizes) -> Result<(usize, usize, usize), Refusal>
    ensures { result ≡ Merging.merged_by a b room }
{
    let n = a.marks / 4 + b.marks / 4;
    if n > 1024 {
        return Err(Refusal::Lengths);
    }
    if !fit(a, b, room) {
        return Err(Refusal::Room);
    }
    Ok((n, (a.points + b.points) / 3, a.starts + b.starts))
}

// The refusal of a scene, or what is judged after it.
fn after(
    v: Result<usize, Refusal>,
    r: Result<(usize, usize, usize), Refusal>,
) -> Result<(usize, usize, usize), Refusal>
    ensures { result ≡ Merging.merged_after v r }
{
    v?;
    r
}

// The first scene's number, then the second's, then 2 and 13 of both.
fn judged(
    numbers: &[f64],
    marks: &[u32],
    points: &[f64],
    starts: &[usize],
    owners: &[u32],
    more_numbers: &[f64],
    more_marks: &[u32],
    more_points: &[f64],
    more_starts: &[usize],
    more_owners: &[u32],
    room: Sizes,
) -> Result<(usize, usize, usize), Refusal>
    ensures { result ≡ Merging.merge_of (scene_of numbers.now marks.now points.now starts.now owners.now) (scene_of more_numbers.now more_marks.now more_points.now more_starts.now more_owners.now) room }
{
    let mut inverses = [0.0; 16384];
    let mut boxes = [0.0; 6144];
    let mut drawn = [0u32; 1024];
    let v = check_scene::check(
        numbers,
        marks,
        points,
        starts,
        owners,
        &mut inverses,
        &mut boxes,
        &mut drawn,
    );
    let w = check_scene::check(
        more_numbers,
        more_marks,
        more_points,
        more_starts,
        more_owners,
        &mut inverses,
        &mut boxes,
        &mut drawn,
    );
    let a = given_sizes(numbers, marks, points, starts, owners);
    let b = given_sizes(
        more_numbers,
        more_marks,
        more_points,
        more_starts,
        more_owners,
    );
    after(v, after(w, judge(a, b, room)))
}

// The merged scene in the result slices, then zeros.
fn fill(
    numbers: &[f64],
    marks: &[u32],
    points: &[f64],
    starts: &[usize],
    owners: &[u32],
    more_numbers: &[f64],
    more_marks: &[u32],
    more_points: &[f64],
    more_starts: &[usize],
    more_owners: &[u32],
    out_numbers: &mut [f64],
    out_marks: &mut [u32],
    out_points: &mut [f64],
    out_starts: &mut [usize],
    out_owners: &mut [u32],
)
    requires { Merging.Mergeable (scene_of numbers.now marks.now points.now starts.now owners.now) (scene_of more_numbers.now more_marks.now more_points.now more_starts.now more_owners.now) (scene_of out_numbers.old out_marks.old out_points.old out_starts.old out_owners.old) }
    ensures { scene_of out_numbers.new out_marks.new out_points.new out_starts.new out_owners.new ≡ Merging.padded_scene (Merging.sizes_of (scene_of out_numbers.old out_marks.old out_points.old out_starts.old out_owners.old)) (MergedScenes.merged_scene (scene_of numbers.now marks.now points.now starts.now owners.now) (scene_of more_numbers.now more_marks.now more_points.now more_starts.now more_owners.now)) }
{
    let by = (marks.len() / 4) as u32;
    let p = given(points, starts);
    let q = given(more_points, more_starts);
    scene_merge::put_numbers(
        numbers,
        numbers.len(),
        more_numbers,
        more_numbers.len(),
        out_numbers,
    );
    scene_merge::put_marks(marks, more_marks, by, out_marks);
    scene_merge::put_numbers(points, p, more_points, q, out_points);
    scene_merge::put_starts(starts, more_starts, p / 3, out_starts);
    scene_merge::put_owners(owners, more_owners, by, out_owners);
}

// Merges two scenes: the first's entries, then the second's with used part, owner and start indices raised. The
// result slices hold the merged scene, then zeros; zeros throughout after a refusal.
pub fn merge(
    numbers: &[f64],
    marks: &[u32],
    points: &[f64],
    starts: &[usize],
    owners: &[u32],
    more_numbers: &[f64],
    more_marks: &[u32],
    more_points: &[f64],
    more_starts: &[usize],
    more_owners: &[u32],
    out_numbers: &mut [f64],
    out_marks: &mut [u32],
    out_points: &mut [f64],
    out_starts: &mut [usize],
    out_owners: &mut [u32],
) -> Result<(usize, usize, usize), Refusal>
    ensures { Merging.Merges (scene_of numbers.now marks.now points.now starts.now owners.now) (scene_of more_numbers.now more_marks.now more_points.now more_starts.now more_owners.now) (scene_of out_numbers.old out_marks.old out_points.old out_starts.old out_owners.old) result (scene_of out_numbers.new out_marks.new out_points.new out_starts.new out_owners.new) }
{
    let room = Sizes {
        numbers: out_numbers.len(),
        marks: out_marks.len(),
        points: out_points.len(),
        starts: out_starts.len(),
        owners: out_owners.len(),
    };
    let r = judged(
        numbers,
        marks,
        points,
        starts,
        owners,
        more_numbers,
        more_marks,
        more_points,
        more_starts,
        more_owners,
        room,
    );
    match r {
        Err(k) => {
            rows::clear(out_numbers, 0);
            rows::clear_marks(out_marks, 0);
            rows::clear(out_points, 0);
            rows::clear_starts(out_starts, 0);
            rows::clear_marks(out_owners, 0);
            Err(k)
        }
        Ok((n, p, q)) => {
            fill(
                numbers,
                marks,
                points,
                starts,
                owners,
                more_numbers,
                more_marks,
                more_points,
                more_starts,
                more_owners,
                out_numbers,
                out_marks,
                out_points,
                out_starts,
                out_owners,
            );
            Ok((n, p, q))
        }
    }
}
