// Reads records of 41 words of 8 bytes, and writes how many there are and how many are wrong: word 0
// is the call, words 1 to 23 are its inputs and words 24 to 40 its answers, each with zeros after it.
#![tactic(auto)]

ghost use Rattle.std.specs.Prelude.{◌≡◌, ◌+◌, ◌*◌, ◌≤◌, length};
ghost use Rattle.test_leaves.specs.Inputs.{box_from, numbers_from, solid_from};
ghost use Rattle.test_leaves.specs.Answers.{simple_answer, told_hit, simple_box, told_contains};
ghost use Rattle.test_leaves.specs.Records.{box_test_right, projection_right, inverse_right, hit_right, box_right, contains_right, rooted_right, length_right, distance_right, call_right, wrong_calls};

use geometry::bounding_box::BBox;
use geometry::hit::Hit;
use geometry::ray::Ray;
use geometry::vector::Vector;
use rows::Numbers;
use solids::solid::Solid;
use sqrt::Rooted;
use std::io;

// What a record gives from word k on: a box, 16 numbers, a kind and 16 numbers.
fn box_from(s: &[u8], k: usize) -> BBox
    requires { 8 * k + 48 ≤ length s.now }
    ensures { result ≡ box_from s.now k }
{
    BBox::new(test_words::point_at(s, k), test_words::point_at(s, k + 3))
}

fn numbers_from(s: &[u8], k: usize) -> Numbers
    requires { 8 * k + 128 ≤ length s.now }
    ensures { result ≡ numbers_from s.now k }
{
    let mut xs = [0.0; 16];
    test_words::fill_floats(&mut xs, 16, s, k, 16);
    rows::read_numbers(&xs, 0)
}

fn solid_from(s: &[u8], k: usize) -> Option<Solid>
    requires { 8 * k + 136 ≤ length s.now }
    ensures { result ≡ solid_from s.now k }
{
    let kind = test_words::word(s, k);
    if kind > 9 {
        return None;
    }
    scene::entry::simple_of(kind as u32, numbers_from(s, k + 1))
}

// What the calls on a solid answer: 0, or 3 for a kind outside 1 to 5, 8 and 9, and then zeros.
fn simple_answer(x: Option<Solid>) -> u64
    ensures { result ≡ simple_answer x }
{
    match x {
        Some(_) => 0,
        None => 3,
    }
}

fn simple_hit(x: Option<Solid>, r: Ray) -> Hit
    ensures { result ≡ told_hit x r }
{
    match x {
        Some(y) => y.intersect(r),
        None => Hit { t: 0.0, ok: false },
    }
}

fn simple_box(x: Option<Solid>) -> BBox
    ensures { result ≡ simple_box x }
{
    match x {
        Some(y) => y.bounding_box(),
        None => BBox {
            min: Vector {
                x: 0.0,
                y: 0.0,
                z: 0.0,
            },
            max: Vector {
                x: 0.0,
                y: 0.0,
                z: 0.0,
            },
        },
    }
}

fn simple_contains(x: Option<Solid>, p: Vector, f: f64) -> bool
    ensures { result ≡ told_contains x p f }
{
    match x {
        Some(y) => y.contains(p, f),
        None => false,
    }
}

// For each call, whether the record that starts at word k is right.
// Box test: a box (min, max) and a ray (origin, direction); tmin and tmax.
fn box_test_right(s: &[u8], k: usize) -> bool
    requires { 8 * k + 328 ≤ length s.now }
    ensures { result ≡ box_test_right s.now k }
{
    let t = box_from(s, k + 1).intersect(test_words::ray_at(s, k + 7));
    let a = [t.tmin, t.tmax];
    test_words::all_same(&a, s, k + 24)
}

// Projection: a matrix by rows and a point; the point that it becomes.
fn projection_right(s: &[u8], k: usize) -> bool
    requires { 8 * k + 328 ≤ length s.now }
    ensures { result ≡ projection_right s.now k }
{
    let m = scene::entry::matrix_of(numbers_from(s, k + 1));
    let p = m.mul_position_w(test_words::point_at(s, k + 17));
    let a = [p.x, p.y, p.z];
    test_words::all_same(&a, s, k + 24)
}

// Inverse: a matrix by rows; its determinant and its inverse.
fn inverse_right(s: &[u8], k: usize) -> bool
    requires { 8 * k + 328 ≤ length s.now }
    ensures { result ≡ inverse_right s.now k }
{
    let given = scene::entry::matrix_of(numbers_from(s, k + 1));
    let i = matrix_inverse::inverse_with_determinant(given);
    let m = i.inverse;
    let a = [
        i.determinant,
        m.x00,
        m.x01,
        m.x02,
        m.x03,
        m.x10,
        m.x11,
        m.x12,
        m.x13,
        m.x20,
        m.x21,
        m.x22,
        m.x23,
        m.x30,
        m.x31,
        m.x32,
        m.x33,
    ];
    test_words::all_same(&a, s, k + 24)
}

// Hit: a kind, 16 numbers and a ray; the answer, t, and ok as 0 or 1.
fn hit_right(s: &[u8], k: usize) -> bool
    requires { 8 * k + 328 ≤ length s.now }
    ensures { result ≡ hit_right s.now k }
{
    let x = solid_from(s, k + 1);
    let h = simple_hit(x, test_words::ray_at(s, k + 18));
    test_words::is(s, k + 24, simple_answer(x))
        && (test_words::same(h.t, test_words::word(s, k + 25))
            && test_words::is(s, k + 26, test_words::flag(h.ok)))
}

// Box: a kind and 16 numbers; the answer and the box.
fn box_right(s: &[u8], k: usize) -> bool
    requires { 8 * k + 328 ≤ length s.now }
    ensures { result ≡ box_right s.now k }
{
    let x = solid_from(s, k + 1);
    let b = simple_box(x);
    let a = [b.min.x, b.min.y, b.min.z, b.max.x, b.max.y, b.max.z];
    test_words::is(s, k + 24, simple_answer(x)) && test_words::all_same(&a, s, k + 25)
}

// Contains: a kind, 16 numbers, a point and f; the answer, and inside as 0 or 1.
fn contains_right(s: &[u8], k: usize) -> bool
    requires { 8 * k + 328 ≤ length s.now }
    ensures { result ≡ contains_right s.now k }
{
    let x = solid_from(s, k + 1);
    let i = simple_contains(
        x,
        test_words::point_at(s, k + 18),
        test_words::float_at(s, k + 21),
    );
    test_words::is(s, k + 24, simple_answer(x)) && test_words::is(s, k + 25, test_words::flag(i))
}

// Whether the words from k on are the pattern of a root and its remainder.
fn rooted_right(r: Rooted, s: &[u8], k: usize) -> bool
    requires { 8 * k + 16 ≤ length s.now }
    ensures { result ≡ rooted_right r.root r.rest s.now k }
{
    test_words::same(r.root, test_words::word(s, k))
        && test_words::is(s, k + 1, test_words::signed(r.rest))
}

// Length: a vector; its length and the root's remainder.
fn length_right(s: &[u8], k: usize) -> bool
    requires { 8 * k + 328 ≤ length s.now }
    ensures { result ≡ length_right s.now k }
{
    let v = test_words::point_at(s, k + 1);
    rooted_right(v.length(), s, k + 24)
}

// Distance: two points; their distance and the root's remainder.
fn distance_right(s: &[u8], k: usize) -> bool
    requires { 8 * k + 328 ≤ length s.now }
    ensures { result ≡ distance_right s.now k }
{
    let a = test_words::point_at(s, k + 1);
    let b = test_words::point_at(s, k + 4);
    rooted_right(a.distance(b), s, k + 24)
}

// Whether the record is right: never where its call is none of the eight.
fn call_right(s: &[u8], k: usize) -> bool
    requires { 8 * k + 328 ≤ length s.now }
    ensures { result ≡ call_right s.now k }
{
    let call = test_words::word(s, k);
    if call == 1 {
        return box_test_right(s, k);
    }
    if call == 2 {
        return projection_right(s, k);
    }
    if call == 3 {
        return inverse_right(s, k);
    }
    if call == 4 {
        return hit_right(s, k);
    }
    if call == 5 {
        return box_right(s, k);
    }
    if call == 6 {
        return contains_right(s, k);
    }
    if call == 7 {
        return length_right(s, k);
    }
    if call == 8 {
        return distance_right(s, k);
    }
    false
}

// How many of the records are wrong.
fn wrong(s: &[u8]) -> u64
    ensures { result ≡ wrong_calls s.now }
{
    let count = s.len() / 328;
    let mut n: u64 = 0;
    for i in 0..count {
        n += test_words::miss(call_right(s, 41 * i));
    }
    n
}

fn main(rt: HostRuntime) -> io::Result<()> {
    let mut buffer = [0u8; 147456];
    let n = test_words::read_list(&mut rt.stdin(), &mut buffer);
    let count = n / 328;
    let wrong = wrong(&buffer[..n]);
    println!(rt; "{count} calls, {wrong} wrong")
}
