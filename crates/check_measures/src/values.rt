// Number 3: kind, operation and a cube's stripe count are among their values; number 14: a cylinder's and a cone's.
ghost use Rattle.std.specs.Prelude.{◌≡◌, ◌/◌, length};
ghost use Rattle.scene.specs.Entries.{marks_at};
ghost use Rattle.lists.specs.Lists.{all_of};
ghost use Rattle.check_measures.specs.Values as Values;

use rows::Marks;

pub fn is_kind(kind: u32) -> bool
    ensures { result ≡ Values.is_kind kind }
{
    if kind < 1 {
        return false;
    }
    kind <= 9
}

fn is_stripes(count: u32) -> bool
    ensures { result ≡ Values.is_stripes count }
{
    if count < 1 {
        return false;
    }
    count <= 1000
}

fn known(m: Marks) -> bool
    ensures { result ≡ Values.known m }
{
    if m.kind == 4 {
        return is_stripes(m.detail);
    }
    if m.kind == 7 {
        return m.detail <= 3;
    }
    is_kind(m.kind)
}

// Whether each entry's marks are known.
pub fn all_known(marks: &[u32]) -> bool
    ensures { result ≡ all_of (λ i. Values.known (marks_at marks.now i)) (length marks.now / 4) }
{
    let n = marks.len() / 4;
    for i in 0..n {
        if !known(rows::read_marks(marks, i)) {
            return false;
        }
    }
    true
}

fn few_stripes(m: Marks) -> bool
    ensures { result ≡ Values.few_stripes m }
{
    scene::entry::stripe_count(m) <= 360
}

// Whether no entry has more than 360 stripes.
pub fn all_few_stripes(marks: &[u32]) -> bool
    ensures { result ≡ all_of (λ i. Values.few_stripes (marks_at marks.now i)) (length marks.now / 4) }
{
    let n = marks.len() / 4;
    for i in 0..n {
        if !few_stripes(rows::read_marks(marks, i)) {
            return false;
        }
    }
    true
}
