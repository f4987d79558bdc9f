// The text of `yard` to a view and a scene in lent arrays.
#![tactic(auto)]

ghost use Rattle.std.specs.Prelude.{◌≡◌, ◌+◌, ◌≤◌, length};
ghost use Rattle.floats.specs.Arith.{zero_f};
ghost use Rattle.rows.specs.Rows.{padded};
ghost use Rattle.text_tokens.specs.Tokens.{left, part};
ghost use Rattle.text_heads.specs.Cursors.{WithinNext, Sized};
ghost use Rattle.text_scene.specs.Texts as Texts;
ghost use Rattle.text_scene.specs.Answers.{reading_number, reading_of, scene_read};
ghost use Rattle.text_scene.specs.Readings.{line_as, LineWithin, scene_as, reading_as, WithinReading, ReadingFits};

use text_heads::Cursor;
use view::View;

// Document 01's number, 0 where the text is read.
pub fn reading_number(reading: Option<(View, usize, usize, usize)>) -> u32
    ensures { result ≡ reading_number reading }
{
    match reading {
        Some(_) => 0,
        None => 1,
    }
}

// The end of the line that begins at `at`.
fn line_end(text: &[u8], at: usize) -> usize
    requires { at ≤ length text.now }
    ensures { (at ≤ result) × ((result ≤ length text.now) × (Texts.lines_left text.now at ≡ Texts.unless_empty (left (part at result text.now) 0) (Texts.lines_left text.now (result + 1)))) }
{
    for i in at..text.len() {
        if text[i] == 10 {
            return i;
        }
    }
    text.len()
}

// The first line from `at` on that has tokens.
fn next_line(text: &[u8], at: usize) -> Option<(usize, usize)>
    requires { length text.now ≤ 65536 }
    ensures at_value { Texts.lines_left text.now at ≡ line_as text.now result }
    ensures line_within { LineWithin (length text.now) at result }
{
    let mut a = at;
    // no `for`: a turn goes on by a whole line
    while a <= text.len() {
        let e = line_end(text, a);
        if !text_tokens::is_over(&text[a..e], 0) {
            return Some((a, e));
        }
        a = e + 1;
    }
    None
}

// The forms of the lines from `at` on.
fn forms(
    text: &[u8],
    at: usize,
    numbers: &mut [f64],
    marks: &mut [u32],
    points: &mut [f64],
    starts: &mut [usize],
    owners: &mut [u32],
) -> Option<Cursor>
    requires { (length text.now ≤ 65536) × Sized numbers.old marks.old points.old starts.old owners.old }
    ensures owners_after { scene_as result numbers.new marks.new points.new starts.new owners.new ≡ Texts.forms_in Texts.empty_scene (Texts.lines_left text.now at) }
    ensures within_next { WithinNext result }
{
    let mut i = at;
    let mut c = Cursor {
        at: 0,
        entries: 0,
        points: 0,
        lines: 0,
    };
    while let Some((a, e)) = next_line(text, i) {
        let d = Cursor {
            at: 0,
            entries: c.entries,
            points: c.points,
            lines: c.lines,
        };
        let g = text_forms::form(&text[a..e], d, 512, numbers, marks, points, starts, owners)?;
        if !text_tokens::is_over(&text[a..e], g.at) {
            return None;
        }
        c = g;
        i = e + 1;
    }
    Some(c)
}

// The view and the forms after it.
fn yard(
    text: &[u8],
    numbers: &mut [f64],
    marks: &mut [u32],
    points: &mut [f64],
    starts: &mut [usize],
    owners: &mut [u32],
) -> Option<(View, usize, usize, usize)>
    requires { Sized numbers.old marks.old points.old starts.old owners.old }
    ensures owners_after { reading_as result numbers.new marks.new points.new starts.new owners.new ≡ Texts.yard_of text.now }
    ensures within_reading { WithinReading result }
{
    if text.len() > 65536 {
        return None;
    }
    let (a, e) = next_line(text, 0)?;
    let (view, k) = text_heads::view_at(&text[a..e], 0)?;
    if !text_tokens::is_over(&text[a..e], k) {
        return None;
    }
    let c = forms(text, e + 1, numbers, marks, points, starts, owners)?;
    Some((view, c.entries, c.points, c.lines))
}

// Reads a text: its view, with how many entries, points and lines there are, and its scene into the arrays,
// then zeros. Where the text is refused, zeros throughout. The arrays are the places of `yard`: 512 entries,
// 2,048 points and 2,048 lines.
pub fn read(
    text: &[u8],
    numbers: &mut [f64; 8192],
    marks: &mut [u32; 2048],
    points: &mut [f64; 6144],
    starts: &mut [usize; 2048],
    owners: &mut [u32; 2048],
) -> Option<(View, usize, usize, usize)>
    ensures value { result ≡ reading_of (Texts.yard_of text.now) }
    ensures numbers_after { numbers.new ≡ padded zero_f 8192 (scene_read (Texts.yard_of text.now)).numbers }
    ensures marks_after { marks.new ≡ padded 0 2048 (scene_read (Texts.yard_of text.now)).marks }
    ensures points_after { points.new ≡ padded zero_f 6144 (scene_read (Texts.yard_of text.now)).points }
    ensures starts_after { starts.new ≡ padded 0 2048 (scene_read (Texts.yard_of text.now)).starts }
    ensures owners_after { owners.new ≡ padded 0 2048 (scene_read (Texts.yard_of text.now)).owners }
    ensures owners_after_2 { reading_as result numbers.new marks.new points.new starts.new owners.new ≡ Texts.yard_of text.now }
    ensures reading_fits { ReadingFits result numbers.new marks.new points.new starts.new owners.new }
    ensures within_reading { WithinReading result }
{
    match yard(text, numbers, marks, points, starts, owners) {
        Some((view, e, p, l)) => {
            rows::clear(numbers, e * 16);
            rows::clear_marks(marks, e * 4);
            rows::clear(points, p * 3);
            rows::clear_starts(starts, l);
            rows::clear_marks(owners, l);
            Some((view, e, p, l))
        }
        None => {
            rows::clear(numbers, 0);
            rows::clear_marks(marks, 0);
            rows::clear(points, 0);
            rows::clear_starts(starts, 0);
            rows::clear_marks(owners, 0);
            None
        }
    }
}
