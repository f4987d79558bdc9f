// The lists of two scenes merged into one, each laid into a lent slice: the first scene's, then the second's with
// its indices raised, then zeros.
#![tactic(auto)]

ghost use Rattle.std.specs.Prelude.{◌≡◌, ◌++◌, ◌+◌, ◌*◌, ◌/◌, ◌^◌, ◌≤◌, ◌<◌, length, take, get_or};
ghost use Rattle.floats.specs.Arith.{zero_f};
ghost use Rattle.rows.specs.Rows.{padded};
ghost use Rattle.scene_merge.specs.MergedScenes as MergedScenes;

use rows::Marks;

// Number k of n numbers and then m others; +0 after them.
fn number_at(first: &[f64], n: usize, second: &[f64], m: usize, k: usize) -> f64
    requires { (n ≤ length first.now) × (m ≤ length second.now) }
    ensures { result ≡ get_or (take n first.now ++ take m second.now) k zero_f }
{
    if k < n {
        return first[k];
    }
    let j = k - n;
    if j < m {
        return second[j];
    }
    0.0
}

// The first n numbers of a slice and the first m of another, then zeros.
pub fn put_numbers(first: &[f64], n: usize, second: &[f64], m: usize, out: &mut [f64])
    requires { (n ≤ length first.now) × (m ≤ length second.now) × (n + m ≤ length out.old) }
    ensures { out.new ≡ padded zero_f (length out.old) (take n first.now ++ take m second.now) }
{
    for k in 0..out.len() {
        out[k] = number_at(first, n, second, m, k);
    }
}

// Start k of a scene's and then another's raised by so many points; 0 after them.
fn start_at(first: &[usize], second: &[usize], by: usize, k: usize) -> usize
    requires { MergedScenes.Raisable (2 ^ 64) by second.now }
    ensures { result ≡ get_or (first.now ++ MergedScenes.raised_by by second.now) k 0 }
{
    if k < first.len() {
        return first[k];
    }
    let j = k - first.len();
    if j < second.len() {
        return by + second[j];
    }
    0
}

// The path starts of a scene, then those of another raised, then zeros.
pub fn put_starts(first: &[usize], second: &[usize], by: usize, out: &mut [usize])
    requires { MergedScenes.Raisable (2 ^ 64) by second.now × (length first.now + length second.now ≤ length out.old) }
    ensures { out.new ≡ padded 0 (length out.old) (first.now ++ MergedScenes.raised_by by second.now) }
{
    for k in 0..out.len() {
        out[k] = start_at(first, second, by, k);
    }
}

// Owner k of a scene's and then another's raised by so many entries; 0 after them.
fn owner_at(first: &[u32], second: &[u32], by: u32, k: usize) -> u32
    requires { MergedScenes.Raisable (2 ^ 32) by second.now }
    ensures { result ≡ get_or (first.now ++ MergedScenes.raised_by by second.now) k 0 }
{
    if k < first.len() {
        return first[k];
    }
    let i = k - first.len();
    if i < second.len() {
        return by + second[i];
    }
    0
}

// The owners of a scene's lines, then those of another's raised, then zeros.
pub fn put_owners(first: &[u32], second: &[u32], by: u32, out: &mut [u32])
    requires { MergedScenes.Raisable (2 ^ 32) by second.now × (length first.now + length second.now ≤ length out.old) }
    ensures { out.new ≡ padded 0 (length out.old) (first.now ++ MergedScenes.raised_by by second.now) }
{
    for k in 0..out.len() {
        out[k] = owner_at(first, second, by, k);
    }
}

// An entry's marks, its used parts raised.
fn raised(m: Marks, by: u32) -> Marks
    requires { MergedScenes.MarksRaisable by m }
    ensures { result ≡ MergedScenes.raised by m }
{
    if m.kind == 6 {
        return Marks {
            kind: m.kind,
            detail: m.detail,
            first: by + m.first,
            second: m.second,
        };
    }
    if m.kind == 7 {
        return Marks {
            kind: m.kind,
            detail: m.detail,
            first: by + m.first,
            second: by + m.second,
        };
    }
    m
}

// One of the four marks of an entry, by its place.
fn mark_of(m: Marks, place: usize) -> u32
    requires { place < 4 }
    ensures { result ≡ get_or (MergedScenes.marks_row m) place 0 }
{
    if place == 0 {
        return m.kind;
    }
    if place == 1 {
        return m.detail;
    }
    if place == 2 {
        return m.first;
    }
    m.second
}

// Mark k of a scene's and then another's raised by so many entries; 0 after them.
fn mark_at(first: &[u32], second: &[u32], by: u32, k: usize) -> u32
    requires { MergedScenes.AllRaisable by second.now }
    ensures { result ≡ get_or (first.now ++ MergedScenes.raised_marks by second.now) k 0 }
{
    if k < first.len() {
        return first[k];
    }
    let j = k - first.len();
    let i = j / 4;
    if i < second.len() / 4 {
        let m = raised(rows::read_marks(second, i), by);
        return mark_of(m, j - i * 4);
    }
    0
}

// The marks of a scene, then those of another raised, then zeros.
pub fn put_marks(first: &[u32], second: &[u32], by: u32, out: &mut [u32])
    requires { MergedScenes.AllRaisable by second.now × (length first.now + length second.now / 4 * 4 ≤ length out.old) }
    ensures { out.new ≡ padded 0 (length out.old) (first.now ++ MergedScenes.raised_marks by second.now) }
{
    for k in 0..out.len() {
        out[k] = mark_at(first, second, by, k);
    }
}
