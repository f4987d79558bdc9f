// The text of a drawing, as the program `yard` prints it, in a lent slice of bytes.
#![tactic(auto)]

ghost use Rattle.std.specs.Prelude.{◌≡◌, [], ◌∷◌, ◌++◌, ◌*◌, ◌-◌, ◌≤◌, ◌<◌, length, take, replicate, Ok};
ghost use Rattle.std.proofs.Math.Seq.{slice};
ghost use Rattle.rows.specs.Rows.{flat};
ghost use Rattle.paths.specs.Paths.{paths_of};
ghost use Rattle.paths.specs.Ends.{all_points};
ghost use Rattle.text_drawing.specs.Numbers.{bits_of, digit_byte, hex_word, decimal_word};
ghost use Rattle.text_drawing.specs.Drawings.{number_text, point_text, path_text, drawing_text, refused_text, text_of, fitting, written, laid};
ghost use Rattle.text_drawing.specs.Writing.{CountWithin, Writes, sofar};

use geometry::vector::Vector;
use refusals::Refusal;

// The bit pattern of a float; both zeros are +0, and the NaN has one pattern.
fn bits_of(x: f64) -> u64
    ensures { result ≡ bits_of x }
{
    if x == 0.0 {
        return 0;
    }
    if x != x {
        return 9221120237041090560;
    }
    f64::to_bits(x)
}

// The upper-case digit of a value below 16.
fn digit_byte(d: u64) -> u8
    requires { d < 16 }
    ensures { result ≡ digit_byte d }
{
    if d < 10 {
        return 48 + d as u8;
    }
    55 + d as u8
}

// A byte after those that are there, unless there was trouble before.
pub fn put_byte(text: &mut [u8], c: Result<usize, Refusal>, b: u8) -> Result<usize, Refusal>
    requires { CountWithin c (length text.old) }
    ensures { Writes (b ∷ []) text.old c text.new result }
{
    let n = c?;
    if n < text.len() {
        text[n] = b;
        return Ok(n + 1);
    }
    Err(Refusal::Room)
}

pub fn put_word(text: &mut [u8], c: Result<usize, Refusal>, word: &[u8]) -> Result<usize, Refusal>
    requires { CountWithin c (length text.old) }
    ensures { Writes word.now text.old c text.new result }
{
    let mut d = c;
    for i in 0..word.len() {
        d = put_byte(text, d, word[i]);
    }
    d
}

// The last k hexadecimal digits of v.
pub fn put_hex(
    text: &mut [u8],
    c: Result<usize, Refusal>,
    k: usize,
    v: u64,
) -> Result<usize, Refusal>
    requires { CountWithin c (length text.old) }
    ensures { Writes (hex_word k v) text.old c text.new result }
{
    if k == 0 {
        return c;
    }
    let d = put_hex(text, c, k - 1, v / 16);
    put_byte(text, d, digit_byte(v % 16))
}

// The decimal digits of n, of which there are at most k.
pub fn put_decimal(
    text: &mut [u8],
    c: Result<usize, Refusal>,
    k: usize,
    n: u64,
) -> Result<usize, Refusal>
    requires { CountWithin c (length text.old) }
    ensures { Writes (decimal_word k n) text.old c text.new result }
{
    if k == 0 {
        return c;
    }
    if n < 10 {
        return put_byte(text, c, digit_byte(n));
    }
    let d = put_decimal(text, c, k - 1, n / 10);
    put_byte(text, d, digit_byte(n % 10))
}

// A number, with a byte before it.
fn put_number(
    text: &mut [u8],
    c: Result<usize, Refusal>,
    first: u8,
    x: f64,
) -> Result<usize, Refusal>
    requires { CountWithin c (length text.old) }
    ensures { Writes (first ∷ number_text x) text.old c text.new result }
{
    let d = put_byte(text, c, first);
    let e = put_byte(text, d, 35);
    put_hex(text, e, 16, bits_of(x))
}

fn put_point(text: &mut [u8], c: Result<usize, Refusal>, v: Vector) -> Result<usize, Refusal>
    requires { CountWithin c (length text.old) }
    ensures { Writes (point_text v) text.old c text.new result }
{
    let d = put_byte(text, c, 32);
    let x = put_number(text, d, 40, v.x);
    let y = put_number(text, x, 32, v.y);
    let z = put_number(text, y, 32, v.z);
    put_byte(text, z, 41)
}

// The points of a path from `from` up to `end`.
fn put_points(
    text: &mut [u8],
    c: Result<usize, Refusal>,
    path: &[f64],
    from: usize,
    end: usize,
) -> Result<usize, Refusal>
    requires { CountWithin c (length text.old) × (from ≤ end) × (end * 3 ≤ length path.now) }
    ensures { Writes (flat point_text (slice from end (all_points path.now))) text.old c text.new result }
{
    let mut d = c;
    for i in from..end {
        d = put_point(text, d, rows::read_point(path, i));
    }
    d
}

fn put_path(
    text: &mut [u8],
    c: Result<usize, Refusal>,
    path: &[f64],
    from: usize,
    end: usize,
) -> Result<usize, Refusal>
    requires { CountWithin c (length text.old) × (from ≤ end) × (end * 3 ≤ length path.now) }
    ensures { Writes (path_text (slice from end (all_points path.now))) text.old c text.new result }
{
    let d = put_word(text, c, b"(path");
    let e = put_points(text, d, path, from, end);
    put_word(text, e, b")\n")
}

fn put_paths(
    text: &mut [u8],
    c: Result<usize, Refusal>,
    path: &[f64],
    starts: &[usize],
) -> Result<usize, Refusal>
    requires { CountWithin c (length text.old) }
    ensures { Writes (flat path_text (paths_of (all_points path.now) starts.now)) text.old c text.new result }
{
    let n = path.len() / 3;
    let mut d = c;
    for i in 0..starts.len() {
        let p = paths::range_of(starts, i, n);
        d = put_path(text, d, path, p.from, p.end);
    }
    d
}

fn put_drawing(text: &mut [u8], path: &[f64], starts: &[usize]) -> Result<usize, Refusal>
    ensures { Writes (drawing_text (paths_of (all_points path.now) starts.now)) text.old (Ok 0) text.new result }
{
    let c = put_word(text, Ok(0), b"(drawing ");
    let d = put_decimal(text, c, 20, starts.len() as u64);
    let e = put_word(text, d, b")\n");
    put_paths(text, e, path, starts)
}

fn put_refused(text: &mut [u8], number: u32) -> Result<usize, Refusal>
    ensures { Writes (refused_text number) text.old (Ok 0) text.new result }
{
    let c = put_word(text, Ok(0), b"(refused ");
    let d = put_decimal(text, c, 20, number as u64);
    put_word(text, d, b")\n")
}

// The text of what a draw left; counts beyond the slices are cut down to them.
fn put_text(
    text: &mut [u8],
    points: &[f64],
    starts: &[usize],
    c: Result<(usize, usize), Refusal>,
) -> Result<usize, Refusal>
    ensures { Writes (text_of c points.now starts.now) text.old (Ok 0) text.new result }
{
    match c {
        Err(k) => put_refused(text, k.number()),
        Ok((n, m)) => {
            let a = paths::lesser(n, points.len() / 3);
            let b = paths::lesser(m, starts.len());
            put_drawing(text, &points[..a * 3], &starts[..b])
        }
    }
}

// Every byte from `from` on becomes 0.
fn clear(text: &mut [u8], from: usize)
    requires { from ≤ length text.old }
    ensures { text.new ≡ take from text.old ++ replicate (length text.old - from) 0 }
{
    for i in from..text.len() {
        text[i] = 0;
    }
}

// The text and then zeros, or zeros throughout.
pub fn finish(text: &mut [u8], c: Result<usize, Refusal>) -> Result<usize, Refusal>
    requires { CountWithin c (length text.old) }
    ensures answer { result ≡ written (sofar c text.old) }
    ensures lent { text.new ≡ laid (sofar c text.old) (length text.old) }
{
    match c {
        Err(k) => {
            clear(text, 0);
            Err(k)
        }
        Ok(n) => {
            clear(text, n);
            Ok(n)
        }
    }
}

// Writes the text of what a draw left in `points` and `starts`, then zeros, and answers how many bytes
// it has. A slice that is too short for it is zeros throughout, and the answer is that there is no room.
pub fn write_drawing(
    points: &[f64],
    starts: &[usize],
    c: Result<(usize, usize), Refusal>,
    text: &mut [u8],
) -> Result<usize, Refusal>
    ensures answer { result ≡ written (fitting (length text.old) (text_of c points.now starts.now)) }
    ensures lent { text.new ≡ laid (fitting (length text.old) (text_of c points.now starts.now)) (length text.old) }
{
    let d = put_text(text, points, starts, c);
    finish(text, d)
}

// The same for a refusal by its number alone, as the program's own number 1.
pub fn write_refused(number: u32, text: &mut [u8]) -> Result<usize, Refusal>
    ensures answer { result ≡ written (fitting (length text.old) (refused_text number)) }
    ensures lent { text.new ≡ laid (fitting (length text.old) (refused_text number)) (length text.old) }
{
    let d = put_refused(text, number);
    finish(text, d)
}
