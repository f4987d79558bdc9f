// The call that merges two scenes, for a host program, which `host_merge_c` exports: it is thin over the proved one,
// and takes any numbers. host/larnt.h declares it, with what its pointers must be.
#![tactic(auto)]

ghost use Rattle.std.specs.Prelude.{◌≡◌};
ghost use Rattle.scene.specs.Scenes.{scene_of};
ghost use Rattle.host_merge.specs.MergeCalls as MergeCalls;

use refusals::Refusal;

// How many entries the merged scene has.
fn entries_told(r: Result<(usize, usize, usize), Refusal>) -> usize
    ensures { result ≡ MergeCalls.merged_entries r }
{
    match r {
        Ok((n, _, _)) => n,
        Err(_) => 0,
    }
}

// How many points.
fn points_told(r: Result<(usize, usize, usize), Refusal>) -> usize
    ensures { result ≡ MergeCalls.merged_points r }
{
    match r {
        Ok((_, p, _)) => p,
        Err(_) => 0,
    }
}

// How many paths.
fn paths_told(r: Result<(usize, usize, usize), Refusal>) -> usize
    ensures { result ≡ MergeCalls.merged_paths r }
{
    match r {
        Ok((_, _, q)) => q,
        Err(_) => 0,
    }
}

// Two scenes merged into one, which the result slices hold, then zeros, with how many entries, points and paths it
// has. The first scene's number, then the second's, then 2 for more than 1,024 entries together and 13 for a result
// slice too short: the slices and the counts are then zeros.
pub fn larnt_merge(
    numbers: &[f64],
    marks: &[u32],
    points: &[f64],
    starts: &[usize],
    owners: &[u32],
    more_numbers: &[f64],
    more_marks: &[u32],
    more_points: &[f64],
    more_starts: &[usize],
    more_owners: &[u32],
    out_numbers: &mut [f64],
    out_marks: &mut [u32],
    out_points: &mut [f64],
    out_starts: &mut [usize],
    out_owners: &mut [u32],
    entry_count: &mut usize,
    point_count: &mut usize,
    path_count: &mut usize,
) -> u32
    ensures { MergeCalls.MergeTold (scene_of numbers.now marks.now points.now starts.now owners.now) (scene_of more_numbers.now more_marks.now more_points.now more_starts.now more_owners.now) (scene_of out_numbers.old out_marks.old out_points.old out_starts.old out_owners.old) result (scene_of out_numbers.new out_marks.new out_points.new out_starts.new out_owners.new) entry_count.new point_count.new path_count.new }
{
    let r = query_merge::merge(
        numbers,
        marks,
        points,
        starts,
        owners,
        more_numbers,
        more_marks,
        more_points,
        more_starts,
        more_owners,
        out_numbers,
        out_marks,
        out_points,
        out_starts,
        out_owners,
    );
    *entry_count = entries_told(r);
    *point_count = points_told(r);
    *path_count = paths_told(r);
    refusals::answer_number(r)
}
