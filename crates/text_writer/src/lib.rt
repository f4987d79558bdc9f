// The canonical writer (document 02, xii): a view and a scene as forms, in a lent slice of bytes.
#![tactic(auto)]

ghost use Rattle.std.specs.Prelude.{◌≡◌, [], ◌∷◌, ◌++◌, map, length, Ok};
ghost use Rattle.rows.specs.Rows.{flat};
ghost use Rattle.scene.specs.Scenes.{scene_of};
ghost use Rattle.text_drawing.specs.Drawings.{written, laid};
ghost use Rattle.text_drawing.specs.Writing.{CountWithin, Writes, sofar};
ghost use Rattle.text_canonical.specs.Forms.{form_at};
ghost use Rattle.text_canonical.specs.Canonical.{view_text, form_line, forms_text};
ghost use Rattle.lists.specs.Lists.{Each};
ghost use Rattle.text_entries.specs.Entries.{Formed};
ghost use Rattle.text_writer.specs.Writer.{written_of};

use refusals::Refusal;
use view::View;

// The view's line.
fn put_view(text: &mut [u8], c: Result<usize, Refusal>, view: View) -> Result<usize, Refusal>
    requires { CountWithin c (length text.old) }
    ensures { Writes (view_text view ++ (10 ∷ [])) text.old c text.new result }
{
    let eye = view.eye;
    let m = view.matrix;
    let xs = [
        view.width,
        view.height,
        view.step,
        eye.x,
        eye.y,
        eye.z,
        m.x00,
        m.x01,
        m.x02,
        m.x03,
        m.x10,
        m.x11,
        m.x12,
        m.x13,
        m.x20,
        m.x21,
        m.x22,
        m.x23,
        m.x30,
        m.x31,
        m.x32,
        m.x33,
    ];
    let a = text_drawing::put_word(text, c, b"(view");
    let b = text_items::put_numbers(text, a, &xs);
    text_drawing::put_word(text, b, b")\n")
}

// A line for each of the listed entries.
fn put_forms(
    numbers: &[f64],
    marks: &[u32],
    points: &[f64],
    starts: &[usize],
    owners: &[u32],
    listed: &[u32],
    text: &mut [u8],
    c: Result<usize, Refusal>,
) -> Result<usize, Refusal>
    requires { CountWithin c (length text.old) × Each (Formed numbers.now marks.now) listed.now }
    ensures { Writes (flat form_line (map (form_at 8 (scene_of numbers.now marks.now points.now starts.now owners.now)) listed.now)) text.old c text.new result }
{
    let mut d = c;
    for k in 0..listed.len() {
        let i = rows::index(listed[k]);
        let e = text_entries::put_form(numbers, marks, points, starts, owners, i, 8, text, d);
        d = text_drawing::put_byte(text, e, 10);
    }
    d
}

// The view's line, then a line for each of the listed entries.
fn put_yard(
    numbers: &[f64],
    marks: &[u32],
    points: &[f64],
    starts: &[usize],
    owners: &[u32],
    listed: &[u32],
    view: View,
    text: &mut [u8],
) -> Result<usize, Refusal>
    requires { Each (Formed numbers.now marks.now) listed.now }
    ensures { Writes (forms_text view (map (form_at 8 (scene_of numbers.now marks.now points.now starts.now owners.now)) listed.now)) text.old (Ok 0) text.new result }
{
    let c = put_view(text, Ok(0), view);
    put_forms(numbers, marks, points, starts, owners, listed, text, c)
}

// What there is of the text, or why it is refused: numbers 2 to 7 and 14 of the scene, then 8 of the view,
// then 13 where the slice is too short.
fn put_checked(
    numbers: &[f64],
    marks: &[u32],
    points: &[f64],
    starts: &[usize],
    owners: &[u32],
    view: View,
    text: &mut [u8],
) -> Result<usize, Refusal>
    ensures { (sofar result text.new ≡ written_of (length text.old) (scene_of numbers.now marks.now points.now starts.now owners.now) view) × CountWithin result (length text.new) }
{
    let mut inverses = [0.0; 16384];
    let mut boxes = [0.0; 6144];
    let mut drawn = [0u32; 1024];
    let n = check_scene::check(
        numbers,
        marks,
        points,
        starts,
        owners,
        &mut inverses,
        &mut boxes,
        &mut drawn,
    )?;
    if !view.is_ok() {
        return Err(Refusal::View);
    }
    put_yard(
        numbers,
        marks,
        points,
        starts,
        owners,
        &drawn[..n],
        view,
        text,
    )
}

// Writes the canonical text of a view and a scene, then zeros, and answers how many bytes it has; or why it
// is refused, and the slice is zeros throughout.
pub fn write(
    numbers: &[f64],
    marks: &[u32],
    points: &[f64],
    starts: &[usize],
    owners: &[u32],
    view: View,
    text: &mut [u8],
) -> Result<usize, Refusal>
    ensures answer { result ≡ written (written_of (length text.old) (scene_of numbers.now marks.now points.now starts.now owners.now) view) }
    ensures lent { text.new ≡ laid (written_of (length text.old) (scene_of numbers.now marks.now points.now starts.now owners.now) view) (length text.old) }
{
    let c = put_checked(numbers, marks, points, starts, owners, view, text);
    text_drawing::finish(text, c)
}
