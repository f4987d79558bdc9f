// A form of a solid, from a line of `yard`'s text, with its inner forms before it, into lent slices.
#![tactic(auto)]

ghost use Rattle.std.specs.Prelude.{◌≡◌, List, [], ◌∷◌, ◌++◌, ℕ, ◌+◌, ◌-◌, ◌*◌, ◌≤◌, ◌<◌, length, take, Float};
ghost use Rattle.rows.specs.Rows.{set_row};
ghost use Rattle.rows.specs.Entries.{numbers_row};
ghost use Rattle.text_tokens.specs.Tokens.{left};
ghost use Rattle.text_heads.specs.Cursors.{scene_upto, next_as, CursorWithin, WithinNext, Sized};
ghost use Rattle.text_forms.specs.Forms as Forms;

use text_heads::{Cursor, Head};

fn put_marks(marks: &mut [u32], i: usize, kind: u32, detail: u32, first: u32, second: u32)
    requires { i * 4 + 4 ≤ length marks.old }
    ensures { marks.new ≡ set_row 4 i (kind ∷ detail ∷ first ∷ second ∷ []) marks.old }
{
    let at = i * 4;
    marks[at] = kind;
    marks[at + 1] = detail;
    marks[at + 2] = first;
    marks[at + 3] = second;
}

// An entry at the end of those that are held.
fn push(c: Cursor, h: Head, p: u32, q: u32, numbers: &mut [f64], marks: &mut [u32])
    requires { (c.entries < 512) × ((8192 ≤ length numbers.old) × (2048 ≤ length marks.old)) }
    ensures numbers_after { take ((c.entries + 1) * 16) numbers.new ≡ take (c.entries * 16) numbers.old ++ numbers_row h.row }
    ensures marks_after { take ((c.entries + 1) * 4) marks.new ≡ take (c.entries * 4) marks.old ++ (h.kind ∷ h.detail ∷ p ∷ q ∷ []) }
{
    let row = h.row;
    rows::write_numbers(numbers, c.entries, row);
    put_marks(marks, c.entries, h.kind, h.detail, p, q);
}

// A closing bracket, and then the entry that it closes.
fn enclose(
    text: &[u8],
    c: Cursor,
    h: Head,
    p: u32,
    q: u32,
    numbers: &mut [f64],
    marks: &mut [u32],
) -> Option<Cursor>
    requires { CursorWithin c × ((8192 ≤ length numbers.old) × (2048 ≤ length marks.old)) }
    ensures os_after { (ps : List Float) (ss : List ℕ) (os : List ℕ) → next_as text.now result numbers.new marks.new ps ss os ≡ Forms.enclosed h p q (scene_upto c numbers.old marks.old ps ss os) (left text.now c.at) }
    ensures within_next { WithinNext result }
{
    let at = text_tokens::close_at(text, c.at)?;
    if c.entries >= 512 {
        return None;
    }
    push(c, h, p, q, numbers, marks);
    Some(Cursor {
        at,
        entries: c.entries + 1,
        points: c.points,
        lines: c.lines,
    })
}

fn small(n: usize) -> u32
    requires { n ≤ 512 }
    ensures { result ≡ n }
{
    n as u32
}

// A sphere, cylinder or cone, open or closed: its entry, then its lines.
fn round(
    text: &[u8],
    c: Cursor,
    h: Head,
    numbers: &mut [f64],
    marks: &mut [u32],
    points: &mut [f64],
    starts: &mut [usize],
    owners: &mut [u32],
) -> Option<Cursor>
    requires { CursorWithin c × Sized numbers.old marks.old points.old starts.old owners.old }
    ensures owners_after { next_as text.now result numbers.new marks.new points.new starts.new owners.new ≡ Forms.round_in h (scene_upto c numbers.old marks.old points.old starts.old owners.old) (left text.now c.at) }
    ensures within_next { WithinNext result }
{
    if c.entries >= 512 {
        return None;
    }
    push(c, h, 0, 0, numbers, marks);
    let d = Cursor {
        at: c.at,
        entries: c.entries + 1,
        points: c.points,
        lines: c.lines,
    };
    text_heads::lines_of(text, d, small(c.entries), points, starts, owners)
}

// The entry that was held last.
fn last_of(c: Cursor) -> u32
    requires { CursorWithin c }
    ensures { result ≡ c.entries - 1 }
{
    if c.entries == 0 {
        return 0;
    }
    small(c.entries - 1)
}

// A form, with its inner forms before it, at most `depth` deep.
pub fn form(
    text: &[u8],
    c: Cursor,
    depth: usize,
    numbers: &mut [f64],
    marks: &mut [u32],
    points: &mut [f64],
    starts: &mut [usize],
    owners: &mut [u32],
) -> Option<Cursor>
    requires { CursorWithin c × Sized numbers.old marks.old points.old starts.old owners.old }
    ensures owners_after { next_as text.now result numbers.new marks.new points.new starts.new owners.new ≡ Forms.form depth (scene_upto c numbers.old marks.old points.old starts.old owners.old) (left text.now c.at) }
    ensures within_next { WithinNext result }
{
    if depth == 0 {
        return None;
    }
    let (h, at) = text_heads::opening_at(text, c.at)?;
    let d = Cursor {
        at,
        entries: c.entries,
        points: c.points,
        lines: c.lines,
    };
    if check_parts::is_round(h.kind) {
        return round(text, d, h, numbers, marks, points, starts, owners);
    }
    if h.kind <= 5 {
        return enclose(text, d, h, 0, 0, numbers, marks);
    }
    let e = form(text, d, depth - 1, numbers, marks, points, starts, owners)?;
    let p = last_of(e);
    if h.kind == 6 {
        return enclose(text, e, h, p, 0, numbers, marks);
    }
    let k = form(text, e, depth - 1, numbers, marks, points, starts, owners)?;
    enclose(text, k, h, p, last_of(k), numbers, marks)
}
