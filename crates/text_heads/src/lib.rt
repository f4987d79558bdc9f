// The beginnings of forms, lines and the view, from a line of `yard`'s text. A reader takes the place in
// the line and how much is held, and gives both anew.
#![tactic(auto)]

ghost use Rattle.std.specs.Prelude.{◌≡◌, List, [], ℕ, ◌-◌, ◌*◌, ◌≤◌, length, take, drop, Float};
ghost use Rattle.scene.specs.Scenes.{scene_of};
ghost use Rattle.text_tokens.specs.Tokens.{left};
ghost use Rattle.text_tokens.specs.Seen.{step_as, counted_as, span_as, WordWithin};
ghost use Rattle.text_heads.specs.Heads as Heads;
ghost use Rattle.text_heads.specs.Lines.{points_in, lines_in};
ghost use Rattle.text_heads.specs.Cursors.{opened_as, spot_as, viewed_as, numbers_as, run_as, scene_upto, next_as, CursorWithin, WithinRun, WithinNext};

use geometry::vector::Vector;
use rows::Numbers;
use view::View;

// How far the reading has come: the place in the line, and how many entries, points and lines are held.
#[derive(Clone, Copy)]
pub struct Cursor {
    pub at: usize,
    pub entries: usize,
    pub points: usize,
    pub lines: usize,
}

// A form's kind, its detail and its numbers, then zeros.
#[derive(Clone, Copy)]
pub struct Head {
    pub kind: u32,
    pub detail: u32,
    pub row: Numbers,
}

// Whether two words are the same.
pub fn same_word(w: &[u8], v: &[u8]) -> bool
    ensures { result ≡ Heads.same_word w.now v.now }
{
    if w.len() != v.len() {
        return false;
    }
    for i in 0..w.len() {
        if w[i] != v[i] {
            return false;
        }
    }
    true
}

// Kinds 8 and 9, 0 where the word is neither.
fn closed_kind(w: &[u8]) -> u32
    ensures { result ≡ Heads.closed_kind w.now }
{
    if same_word(w, b"closed-cylinder") {
        return 8;
    }
    if same_word(w, b"closed-cone") {
        return 9;
    }
    0
}

// The kind of a head, 0 where the word is none.
fn kind_of(w: &[u8]) -> u32
    ensures { result ≡ Heads.kind_of w.now }
{
    if same_word(w, b"sphere") {
        return 1;
    }
    if same_word(w, b"cylinder") {
        return 2;
    }
    if same_word(w, b"cone") {
        return 3;
    }
    if same_word(w, b"cube") {
        return 4;
    }
    if same_word(w, b"triangle") {
        return 5;
    }
    if same_word(w, b"place") {
        return 6;
    }
    if same_word(w, b"cut") {
        return 7;
    }
    closed_kind(w)
}

// An opening bracket and a word: where the word begins and ends.
fn head_at(text: &[u8], at: usize) -> Option<(usize, usize)>
    ensures { (span_as text.now result ≡ Heads.head_in (left text.now at)) × WordWithin (length text.now) result }
{
    let i = text_tokens::open_at(text, at)?;
    text_tokens::word_at(text, i)
}

// An opening bracket and this word.
fn named_at(text: &[u8], at: usize, name: &[u8]) -> Option<usize>
    ensures { step_as text.now result ≡ Heads.named_in name.now (left text.now at) }
{
    let (a, e) = head_at(text, at)?;
    if same_word(&text[a..e], name) {
        return Some(e);
    }
    None
}

// An opening bracket and the head of a kind.
fn kind_at(text: &[u8], at: usize) -> Option<(u32, usize)>
    ensures { counted_as text.now result ≡ Heads.kind_in (left text.now at) }
{
    let (a, e) = head_at(text, at)?;
    let k = kind_of(&text[a..e]);
    if k == 0 {
        return None;
    }
    Some((k, e))
}

fn closed_measures(kind: u32) -> usize
    ensures { (result ≡ Heads.closed_measures kind) × (result ≤ 16) }
{
    if kind == 8 {
        return 3;
    }
    if kind == 9 {
        return 2;
    }
    0
}

// How many numbers a form has.
pub fn measures(kind: u32) -> usize
    ensures { (result ≡ Heads.measures kind) × (result ≤ 16) }
{
    if kind == 1 {
        return 4;
    }
    if kind == 2 {
        return 3;
    }
    if kind == 3 {
        return 2;
    }
    if kind == 4 {
        return 6;
    }
    if kind == 5 {
        return 9;
    }
    if kind == 6 {
        return 16;
    }
    closed_measures(kind)
}

// A cube's stripes and a cut's operation; 0 stands for the detail of other kinds so far.
fn detail_at(text: &[u8], at: usize, kind: u32) -> Option<(u32, usize)>
    ensures { counted_as text.now result ≡ Heads.detail_in kind (left text.now at) }
{
    if kind == 4 {
        return text_tokens::count_at(text, at);
    }
    if kind == 7 {
        return text_tokens::count_at(text, at);
    }
    Some((0, at))
}

// n numbers, into the first places of a row.
fn numbers_at(text: &[u8], at: usize, n: usize, row: &mut [f64]) -> Option<usize>
    requires { n ≤ length row.old }
    ensures result_after { numbers_as text.now n row.new result ≡ Heads.numbers_in [] n (left text.now at) }
    ensures row_unchanged { drop n row.new ≡ drop n row.old }
{
    let mut a = at;
    for i in 0..n {
        let (v, e) = text_tokens::number_at(text, a)?;
        row[i] = v;
        a = e;
    }
    Some(a)
}

// What follows the numbers: the stripes of a cylinder or a cone, open or closed, if a word stands there.
fn stripes_at(text: &[u8], at: usize, kind: u32, detail: u32) -> Option<(u32, usize)>
    ensures { counted_as text.now result ≡ Heads.stripes_in kind detail (left text.now at) }
{
    if scene::entry::is_striped(kind) {
        return text_tokens::count_or(text, at, detail);
    }
    Some((detail, at))
}

// A form's bracket, head, detail, numbers and stripes.
pub fn opening_at(text: &[u8], at: usize) -> Option<(Head, usize)>
    ensures { opened_as text.now result ≡ Heads.opening_in (left text.now at) }
{
    let (kind, i) = kind_at(text, at)?;
    let (detail, j) = detail_at(text, i, kind)?;
    let mut xs = [0.0; 16];
    let k = numbers_at(text, j, measures(kind), &mut xs)?;
    let (stripes, m) = stripes_at(text, k, kind, detail)?;
    let row = rows::read_numbers(&xs, 0);
    Some((
        Head {
            kind,
            detail: stripes,
            row,
        },
        m,
    ))
}

pub fn point_at(text: &[u8], at: usize) -> Option<(Vector, usize)>
    ensures { spot_as text.now result ≡ Heads.point_in (left text.now at) }
{
    let (x, i) = text_tokens::number_at(text, at)?;
    let (y, j) = text_tokens::number_at(text, i)?;
    let (z, k) = text_tokens::number_at(text, j)?;
    Some((Vector { x, y, z }, k))
}

// The view of 22 numbers: width, height, step, eye, matrix by rows.
fn view_of(xs: &[f64]) -> View
    requires { length xs.now ≡ 22 }
    ensures { result ≡ Heads.view_of xs.now }
{
    let n = rows::read_numbers(&xs[6..], 0);
    View {
        matrix: scene::entry::matrix_of(n),
        eye: Vector {
            x: xs[3],
            y: xs[4],
            z: xs[5],
        },
        width: xs[0],
        height: xs[1],
        step: xs[2],
    }
}

pub fn view_at(text: &[u8], at: usize) -> Option<(View, usize)>
    ensures { viewed_as text.now result ≡ Heads.view_in (left text.now at) }
{
    let i = named_at(text, at, b"view")?;
    let mut xs = [0.0; 22];
    let j = numbers_at(text, i, 22, &mut xs)?;
    let k = text_tokens::close_at(text, j)?;
    Some((view_of(&xs), k))
}

// The points of a line up to its closing bracket, after the `first` that are held: the place after it, and how many
// there are then.
fn line_points(text: &[u8], from: usize, first: usize, points: &mut [f64]) -> Option<(usize, usize)>
    requires { (first ≤ 2048) × (6144 ≤ length points.old) }
    ensures os_after { (ns : List Float) (ms : List ℕ) (ss : List ℕ) (os : List ℕ) → run_as text.now result ns ms points.new ss os ≡ points_in (2048 - first) (scene_of ns ms (take (first * 3) points.old) ss os) (left text.now from) }
    ensures within_run { WithinRun result }
{
    let mut at = from;
    let mut k = first;
    // no `for`: up to the closing bracket
    loop {
        if let Some(n) = text_tokens::close_at(text, at) {
            return Some((n, k));
        }
        if k >= 2048 {
            return None;
        }
        let (q, n) = point_at(text, at)?;
        rows::write_point(points, k, q);
        at = n;
        k += 1;
    }
}

// The lines of the entry `owner` up to its closing bracket.
pub fn lines_of(
    text: &[u8],
    c: Cursor,
    owner: u32,
    points: &mut [f64],
    starts: &mut [usize],
    owners: &mut [u32],
) -> Option<Cursor>
    requires { CursorWithin c × ((6144 ≤ length points.old) × ((2048 ≤ length starts.old) × (2048 ≤ length owners.old))) }
    ensures owners_after { (ns : List Float) (ms : List ℕ) → next_as text.now result ns ms points.new starts.new owners.new ≡ lines_in owner (2048 - c.lines) (scene_upto c ns ms points.old starts.old owners.old) (left text.now c.at) }
    ensures within_next { WithinNext result }
{
    let mut at = c.at;
    let mut p = c.points;
    let mut k = c.lines;
    // no `for`: up to the closing bracket
    loop {
        if let Some(n) = text_tokens::close_at(text, at) {
            return Some(Cursor {
                at: n,
                entries: c.entries,
                points: p,
                lines: k,
            });
        }
        if k >= 2048 {
            return None;
        }
        let n = named_at(text, at, b"line")?;
        starts[k] = p;
        owners[k] = owner;
        let (m, q) = line_points(text, n, p, points)?;
        at = m;
        p = q;
        k += 1;
    }
}
