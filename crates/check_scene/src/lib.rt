// The check of a scene: numbers 2 to 7 of document 01, and 14 of document 02 just after 3.
#![tactic(auto)]

pub mod extents;
pub mod placings;

ghost use Rattle.std.specs.Prelude.{◌≡◌, ℕ, ◌≤◌, length, Ok};
ghost use Rattle.check_scene.specs.Checks.{lengths_agree, check_of, Checked};
ghost use Rattle.scene.specs.Scenes.{scene_of};
ghost use Rattle.check_scene.specs.Stored.{Held, RoomFor};

use refusals::Refusal;

fn lengths_agree(
    numbers: &[f64],
    marks: &[u32],
    points: &[f64],
    starts: &[usize],
    owners: &[u32],
) -> bool
    ensures { result ≡ lengths_agree (scene_of numbers.now marks.now points.now starts.now owners.now) }
{
    let n = marks.len() / 4;
    if n > 1024 {
        return false;
    }
    if n * 4 != marks.len() {
        return false;
    }
    if n * 16 != numbers.len() {
        return false;
    }
    if starts.len() != owners.len() {
        return false;
    }
    points.len() / 3 * 3 == points.len()
}

// The verdict; what it forms on the way stands in the first rows of the slices.
fn judge(
    numbers: &[f64],
    marks: &[u32],
    points: &[f64],
    starts: &[usize],
    owners: &[u32],
    inverses: &mut [f64],
    boxes: &mut [f64],
    drawn: &mut [u32],
) -> Result<usize, Refusal>
    requires { RoomFor marks.now inverses.old boxes.old drawn.old }
    ensures value { result ≡ check_of (scene_of numbers.now marks.now points.now starts.now owners.now) }
    ensures by_index { (n : ℕ) → result ≡ Ok n → Held (scene_of numbers.now marks.now points.now starts.now owners.now) n inverses.new boxes.new drawn.new }
{
    if !lengths_agree(numbers, marks, points, starts, owners) {
        return Err(Refusal::Lengths);
    }
    if !check_measures::values::all_known(marks) {
        return Err(Refusal::Values);
    }
    if !check_measures::values::all_few_stripes(marks) {
        return Err(Refusal::Stripes);
    }
    let mut named = [0u32; 1024];
    if !check_parts::well_named(marks, &mut named) {
        return Err(Refusal::Parts);
    }
    if !check_parts::good_owners(marks, owners) {
        return Err(Refusal::Parts);
    }
    if !rows::good_starts(starts, points.len() / 3) {
        return Err(Refusal::Parts);
    }
    if !check_measures::measures::all_measured(numbers, marks) {
        return Err(Refusal::Measures);
    }
    if !placings::invert_all(numbers, marks, inverses) {
        return Err(Refusal::Placing);
    }
    if !extents::all_within(numbers, inverses, marks, boxes) {
        return Err(Refusal::Extent);
    }
    Ok(check_parts::list_unnamed(&named, marks.len() / 4, drawn))
}

// Judges a scene by numbers 2, 3, 14 and 4 to 7. Of an accepted one the slices hold the inverses (zeros for what is
// no placing), the boxes of all entries and the drawn entries, then zeros; else zeros throughout.
// The slices need places for the entries that there are.
pub fn check_in(
    numbers: &[f64],
    marks: &[u32],
    points: &[f64],
    starts: &[usize],
    owners: &[u32],
    inverses: &mut [f64],
    boxes: &mut [f64],
    drawn: &mut [u32],
) -> Result<usize, Refusal>
    requires { RoomFor marks.now inverses.old boxes.old drawn.old }
    ensures { Checked (scene_of numbers.now marks.now points.now starts.now owners.now) inverses.old boxes.old drawn.old result inverses.new boxes.new drawn.new }
{
    let v = judge(
        numbers, marks, points, starts, owners, inverses, boxes, drawn,
    );
    match v {
        Err(k) => {
            rows::clear(inverses, 0);
            rows::clear(boxes, 0);
            rows::clear_marks(drawn, 0);
            Err(k)
        }
        Ok(d) => {
            let n = marks.len() / 4;
            rows::clear(inverses, n * 16);
            rows::clear(boxes, n * 6);
            rows::clear_marks(drawn, d);
            Ok(d)
        }
    }
}

// The same in slices with places for 1,024 entries.
pub fn check(
    numbers: &[f64],
    marks: &[u32],
    points: &[f64],
    starts: &[usize],
    owners: &[u32],
    inverses: &mut [f64],
    boxes: &mut [f64],
    drawn: &mut [u32],
) -> Result<usize, Refusal>
    requires { (16384 ≤ length inverses.old) × ((6144 ≤ length boxes.old) × (1024 ≤ length drawn.old)) }
    ensures { Checked (scene_of numbers.now marks.now points.now starts.now owners.now) inverses.old boxes.old drawn.old result inverses.new boxes.new drawn.new }
{
    check_in(
        numbers, marks, points, starts, owners, inverses, boxes, drawn,
    )
}
