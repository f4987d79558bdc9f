// The calls of `host_merge` for a host program, exported from a static library by their names: each with the clauses of the one that it calls.
#![tactic(auto)]

ghost use Rattle.scene.specs.Scenes.{scene_of};
ghost use Rattle.host_merge.specs.MergeCalls as MergeCalls;

#[unsafe(no_mangle)]
pub extern "C" fn larnt_merge(
    numbers: &[f64],
    marks: &[u32],
    points: &[f64],
    starts: &[usize],
    owners: &[u32],
    more_numbers: &[f64],
    more_marks: &[u32],
    more_points: &[f64],
    more_starts: &[usize],
    more_owners: &[u32],
    out_numbers: &mut [f64],
    out_marks: &mut [u32],
    out_points: &mut [f64],
    out_starts: &mut [usize],
    out_owners: &mut [u32],
    entry_count: &mut usize,
    point_count: &mut usize,
    path_count: &mut usize,
) -> u32
    ensures { MergeCalls.MergeTold (scene_of numbers.now marks.now points.now starts.now owners.now) (scene_of more_numbers.now more_marks.now more_points.now more_starts.now more_owners.now) (scene_of out_numbers.old out_marks.old out_points.old out_starts.old out_owners.old) result (scene_of out_numbers.new out_marks.new out_points.new out_starts.new out_owners.new) entry_count.new point_count.new path_count.new }
{
    host_merge::larnt_merge(
        numbers,
        marks,
        points,
        starts,
        owners,
        more_numbers,
        more_marks,
        more_points,
        more_starts,
        more_owners,
        out_numbers,
        out_marks,
        out_points,
        out_starts,
        out_owners,
        entry_count,
        point_count,
        path_count,
    )
}
