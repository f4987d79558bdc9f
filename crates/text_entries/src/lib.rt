// The form of an entry of a scene in canonical text, with those of its parts in it.
#![tactic(auto)]

ghost use Rattle.std.specs.Prelude.{◌≡◌, ◌∷◌, [], ◌++◌, ℕ, ◌≤◌, length};
ghost use Rattle.scene.specs.Scenes.{scene_of};
ghost use Rattle.text_heads.specs.Heads.{place, cut};
ghost use Rattle.text_drawing.specs.Writing.{CountWithin, Writes};
ghost use Rattle.paths.specs.Paths.{paths_of};
ghost use Rattle.paths.specs.Ends.{all_points};
ghost use Rattle.draw_lines.specs.Lines.{own_paths};
ghost use Rattle.text_canonical.specs.Forms.{Form, round_form, cube_form, triangle_form, form_of, form_at};
ghost use Rattle.text_canonical.specs.Canonical.{round_word, numbers_text, count_text, form_text};
ghost use Rattle.text_entries.specs.Entries.{Formed};

use refusals::Refusal;
use rows::Marks;

// An opening bracket and the head of a round kind.
fn put_round_word(text: &mut [u8], c: Result<usize, Refusal>, kind: u32) -> Result<usize, Refusal>
    requires { CountWithin c (length text.old) }
    ensures { Writes (40 ∷ round_word kind) text.old c text.new result }
{
    if kind == 1 {
        return text_drawing::put_word(text, c, b"(sphere");
    }
    if kind == 2 {
        return text_drawing::put_word(text, c, b"(cylinder");
    }
    if kind == 3 {
        return text_drawing::put_word(text, c, b"(cone");
    }
    if kind == 8 {
        return text_drawing::put_word(text, c, b"(closed-cylinder");
    }
    text_drawing::put_word(text, c, b"(closed-cone")
}

// A sphere, cylinder or cone, open or closed, with the lines of entry i; `xs` are its numbers.
fn put_round(
    text: &mut [u8],
    c: Result<usize, Refusal>,
    kind: u32,
    count: u32,
    xs: &[f64],
    points: &[f64],
    starts: &[usize],
    owners: &[u32],
    i: usize,
) -> Result<usize, Refusal>
    requires { CountWithin c (length text.old) }
    ensures { Writes (form_text (round_form kind count xs.now (own_paths i (paths_of (all_points points.now) starts.now) owners.now))) text.old c text.new result }
{
    let a = put_round_word(text, c, kind);
    let b = text_items::put_numbers(text, a, xs);
    let d = text_items::put_stripes(text, b, count);
    let e = text_items::put_lines(text, d, points, starts, owners, i);
    text_drawing::put_byte(text, e, 41)
}

fn put_cube(
    text: &mut [u8],
    c: Result<usize, Refusal>,
    stripes: u32,
    xs: &[f64],
) -> Result<usize, Refusal>
    requires { CountWithin c (length text.old) }
    ensures { Writes (form_text (cube_form stripes xs.now)) text.old c text.new result }
{
    let a = text_drawing::put_word(text, c, b"(cube");
    let b = text_items::put_count(text, a, stripes);
    let d = text_items::put_numbers(text, b, xs);
    text_drawing::put_byte(text, d, 41)
}

fn put_triangle(text: &mut [u8], c: Result<usize, Refusal>, xs: &[f64]) -> Result<usize, Refusal>
    requires { CountWithin c (length text.old) }
    ensures { Writes (form_text (triangle_form xs.now)) text.old c text.new result }
{
    let a = text_drawing::put_word(text, c, b"(triangle");
    let b = text_items::put_numbers(text, a, xs);
    text_drawing::put_byte(text, b, 41)
}

// A placed part, up to the form in it.
fn put_place(text: &mut [u8], c: Result<usize, Refusal>, xs: &[f64]) -> Result<usize, Refusal>
    requires { CountWithin c (length text.old) }
    ensures { Writes (40 ∷ (place ++ (numbers_text xs.now ++ (32 ∷ [])))) text.old c text.new result }
{
    let a = text_drawing::put_word(text, c, b"(place");
    let b = text_items::put_numbers(text, a, xs);
    text_drawing::put_byte(text, b, 32)
}

// A cut, up to the first form in it.
fn put_cut(text: &mut [u8], c: Result<usize, Refusal>, operation: u32) -> Result<usize, Refusal>
    requires { CountWithin c (length text.old) }
    ensures { Writes (40 ∷ (cut ++ (count_text operation ++ (32 ∷ [])))) text.old c text.new result }
{
    let a = text_drawing::put_word(text, c, b"(cut");
    let b = text_items::put_count(text, a, operation);
    text_drawing::put_byte(text, b, 32)
}

// An entry without parts, by its marks and its 16 numbers; nothing where the kind is unknown.
fn put_simple(
    text: &mut [u8],
    c: Result<usize, Refusal>,
    m: Marks,
    xs: &[f64],
    points: &[f64],
    starts: &[usize],
    owners: &[u32],
    i: usize,
) -> Result<usize, Refusal>
    requires { CountWithin c (length text.old) × ((16 ≤ length xs.now) × ((m.kind ≡ 6 → ⊥) × (m.kind ≡ 7 → ⊥))) }
    ensures { (part : ℕ → Form) → Writes (form_text (form_of m xs.now (own_paths i (paths_of (all_points points.now) starts.now) owners.now) part)) text.old c text.new result }
{
    let kind = m.kind;
    if check_parts::is_round(kind) {
        let n = text_heads::measures(kind);
        let count = scene::entry::stripe_count(m);
        return put_round(text, c, kind, count, &xs[..n], points, starts, owners, i);
    }
    if kind == 4 {
        return put_cube(text, c, m.detail, &xs[..6]);
    }
    if kind == 5 {
        return put_triangle(text, c, &xs[..9]);
    }
    c
}

// The form of entry i, with parts nested at most `depth` deep.
pub fn put_form(
    numbers: &[f64],
    marks: &[u32],
    points: &[f64],
    starts: &[usize],
    owners: &[u32],
    i: usize,
    depth: usize,
    text: &mut [u8],
    c: Result<usize, Refusal>,
) -> Result<usize, Refusal>
    requires { CountWithin c (length text.old) × Formed numbers.now marks.now i }
    ensures { Writes (form_text (form_at depth (scene_of numbers.now marks.now points.now starts.now owners.now) i)) text.old c text.new result }
{
    if depth == 0 {
        return c;
    }
    let m = rows::read_marks(marks, i);
    let at = i * 16;
    let end = at + 16;
    if m.kind == 6 {
        let a = put_place(text, c, &numbers[at..end]);
        let p = rows::index(m.first);
        let b = put_form(
            numbers,
            marks,
            points,
            starts,
            owners,
            p,
            depth - 1,
            text,
            a,
        );
        return text_drawing::put_byte(text, b, 41);
    }
    if m.kind == 7 {
        let a = put_cut(text, c, m.detail);
        let first = rows::index(m.first);
        let b = put_form(
            numbers,
            marks,
            points,
            starts,
            owners,
            first,
            depth - 1,
            text,
            a,
        );
        let d = text_drawing::put_byte(text, b, 32);
        let second = rows::index(m.second);
        let e = put_form(
            numbers,
            marks,
            points,
            starts,
            owners,
            second,
            depth - 1,
            text,
            d,
        );
        return text_drawing::put_byte(text, e, 41);
    }
    put_simple(text, c, m, &numbers[at..end], points, starts, owners, i)
}
