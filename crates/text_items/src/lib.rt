// The items of a form in canonical text, each with a space before it: numbers, counts and lines.
#![tactic(auto)]

ghost use Rattle.std.specs.Prelude.{◌≡◌, ◌*◌, ◌≤◌, ◌<◌, length};
ghost use Rattle.std.proofs.Math.Seq.{slice};
ghost use Rattle.std.specs.Float.{binary64};
ghost use Rattle.std.specs.Float.Ieee.{to_bits};
ghost use Rattle.rows.specs.Rows.{flat};
ghost use Rattle.paths.specs.Paths.{paths_of};
ghost use Rattle.paths.specs.Ends.{all_points};
ghost use Rattle.draw_lines.specs.Lines.{own_path, own_paths};
ghost use Rattle.text_drawing.specs.Writing.{CountWithin, Writes};
ghost use Rattle.text_canonical.specs.Canonical.{hex_text, numbers_text, count_text, stripes_text, line_text};

use refusals::Refusal;

// The bit pattern of a float as it is; the NaN has one pattern.
fn pattern_of(x: f64) -> u64
    ensures { result ≡ to_bits binary64 x }
{
    if x != x {
        return 9221120237041090560;
    }
    f64::to_bits(x)
}

fn put_bits(text: &mut [u8], c: Result<usize, Refusal>, x: f64) -> Result<usize, Refusal>
    requires { CountWithin c (length text.old) }
    ensures { Writes (hex_text x) text.old c text.new result }
{
    let d = text_drawing::put_byte(text, c, 32);
    let e = text_drawing::put_byte(text, d, 35);
    text_drawing::put_hex(text, e, 16, pattern_of(x))
}

// Numbers, one after the other.
pub fn put_numbers(text: &mut [u8], c: Result<usize, Refusal>, xs: &[f64]) -> Result<usize, Refusal>
    requires { CountWithin c (length text.old) }
    ensures { Writes (numbers_text xs.now) text.old c text.new result }
{
    let mut d = c;
    for i in 0..xs.len() {
        d = put_bits(text, d, xs[i]);
    }
    d
}

// A count or an operation.
pub fn put_count(text: &mut [u8], c: Result<usize, Refusal>, n: u32) -> Result<usize, Refusal>
    requires { CountWithin c (length text.old) }
    ensures { Writes (count_text n) text.old c text.new result }
{
    let d = text_drawing::put_byte(text, c, 32);
    text_drawing::put_decimal(text, d, 20, n as u64)
}

// A round solid's count, left out where it is 0.
pub fn put_stripes(text: &mut [u8], c: Result<usize, Refusal>, n: u32) -> Result<usize, Refusal>
    requires { CountWithin c (length text.old) }
    ensures { Writes (stripes_text n) text.old c text.new result }
{
    if n == 0 {
        return c;
    }
    put_count(text, c, n)
}

// A line of the points from `from` up to `end`.
fn put_line(
    text: &mut [u8],
    c: Result<usize, Refusal>,
    points: &[f64],
    from: usize,
    end: usize,
) -> Result<usize, Refusal>
    requires { CountWithin c (length text.old) × (from ≤ end) × (end * 3 ≤ length points.now) }
    ensures { Writes (line_text (slice from end (all_points points.now))) text.old c text.new result }
{
    let a = from * 3;
    let e = end * 3;
    let d = text_drawing::put_word(text, c, b" (line");
    let f = put_numbers(text, d, &points[a..e]);
    text_drawing::put_byte(text, f, 41)
}

// Handed-in path j, if entry i owns it.
fn put_own_line(
    text: &mut [u8],
    c: Result<usize, Refusal>,
    points: &[f64],
    starts: &[usize],
    owners: &[u32],
    j: usize,
    i: usize,
) -> Result<usize, Refusal>
    requires { CountWithin c (length text.old) × (j < length starts.now) }
    ensures { Writes (flat line_text (own_path i j (all_points points.now) starts.now owners.now)) text.old c text.new result }
{
    if j >= owners.len() {
        return c;
    }
    if rows::index(owners[j]) != i {
        return c;
    }
    let p = paths::range_of(starts, j, points.len() / 3);
    put_line(text, c, points, p.from, p.end)
}

// The handed-in paths of entry i, in order.
pub fn put_lines(
    text: &mut [u8],
    c: Result<usize, Refusal>,
    points: &[f64],
    starts: &[usize],
    owners: &[u32],
    i: usize,
) -> Result<usize, Refusal>
    requires { CountWithin c (length text.old) }
    ensures { Writes (flat line_text (own_paths i (paths_of (all_points points.now) starts.now) owners.now)) text.old c text.new result }
{
    let mut d = c;
    for j in 0..starts.len() {
        d = put_own_line(text, d, points, starts, owners, j, i);
    }
    d
}
