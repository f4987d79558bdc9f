// A list read from an input, and its words of 8 bytes, most significant byte first: taken as numbers, floats,
// points and rays, compared with answers, and copied to slices; and the count of records that are wrong.
#![tactic(auto)]

ghost use Rattle.std.specs.Prelude.{◌≡◌, ◌+◌, ◌*◌, ◌≤◌, ◌<◌, eqb, length, take};
ghost use Rattle.test_words.specs.Words.{half_at, word_at, float_at, point_at, ray_at, same_bits, all_same, flag_of, signed_word, floats_from, marks_from, counts_from};
ghost use Rattle.test_words.specs.Counts.{missed};

use geometry::ray::Ray;
use geometry::vector::Vector;
use std::io::Read;

// One read into the list from place n on, and how far the list then goes: no farther at the end of the input
// or where the read fails.
fn read_some<R: Read>(input: &mut R, list: &mut [u8], n: usize) -> usize
    requires { n ≤ length list.old }
    ensures { (n ≤ result) × (result ≤ length list.old) }
{
    match input.read(&mut list[n..]) {
        Ok(count) => n + count,
        Err(_) => n,
    }
}

// Reads until the slice is full, the input ends or a read fails, and answers how far the list goes.
pub fn read_list<R: Read>(input: &mut R, list: &mut [u8]) -> usize
    ensures { (result ≤ length list.new) × (result ≡ length (take result list.new)) }
{
    let mut n = 0;
    // no `for`: a read gives any number of bytes
    while n < list.len() {
        let m = read_some(input, list, n);
        if m == n {
            return n;
        }
        n = m;
    }
    n
}

fn wide(x: u8) -> u64
    ensures { (result ≡ x) × (result < 256) }
{
    x as u64
}

// The four bytes from `at` on as a number.
fn half(s: &[u8], at: usize) -> u64
    requires { at + 4 ≤ length s.now }
    ensures { (result ≡ half_at s.now at) × (result < 0x1_0000_0000) }
{
    let a = wide(s[at]);
    let b = wide(s[at + 1]);
    let c = wide(s[at + 2]);
    let d = wide(s[at + 3]);
    ((a * 256 + b) * 256 + c) * 256 + d
}

// Word k: the eight bytes from 8 * k on as a number.
pub fn word(s: &[u8], k: usize) -> u64
    requires { 8 * k + 8 ≤ length s.now }
    ensures { result ≡ word_at s.now k }
{
    let at = 8 * k;
    half(s, at) * 0x1_0000_0000 + half(s, at + 4)
}

// What stands from word k on: a float, a point, a ray.
pub fn float_at(s: &[u8], k: usize) -> f64
    requires { 8 * k + 8 ≤ length s.now }
    ensures { result ≡ float_at s.now k }
{
    floats::float_of(word(s, k))
}

pub fn point_at(s: &[u8], k: usize) -> Vector
    requires { 8 * k + 24 ≤ length s.now }
    ensures { result ≡ point_at s.now k }
{
    Vector::new(float_at(s, k), float_at(s, k + 1), float_at(s, k + 2))
}

pub fn ray_at(s: &[u8], k: usize) -> Ray
    requires { 8 * k + 48 ≤ length s.now }
    ensures { result ≡ ray_at s.now k }
{
    Ray::new(point_at(s, k), point_at(s, k + 3))
}

// Whether v and the f64 of the pattern w are equal, as zeros of either sign are, or both NaN.
pub fn same(v: f64, w: u64) -> bool
    ensures { result ≡ same_bits v w }
{
    let x = floats::float_of(w);
    if v == x {
        return true;
    }
    v != v && x != x
}

// Whether the words from k on are the patterns of v.
pub fn all_same(v: &[f64], s: &[u8], k: usize) -> bool
    requires { 8 * (k + length v.now) ≤ length s.now }
    ensures { result ≡ all_same v.now s.now k }
{
    for i in 0..v.len() {
        if !same(v[i], word(s, k + i)) {
            return false;
        }
    }
    true
}

// Whether word k is n.
pub fn is(s: &[u8], k: usize, n: u64) -> bool
    requires { 8 * k + 8 ≤ length s.now }
    ensures { result ≡ eqb (word_at s.now k) n }
{
    word(s, k) == n
}

pub fn flag(b: bool) -> u64
    ensures { result ≡ flag_of b }
{
    if b { 1 } else { 0 }
}

// A signed number as a word, in two's complement.
pub fn signed(z: i64) -> u64
    ensures { result ≡ signed_word z }
{
    if z < 0 {
        return !(!z as u64);
    }
    z as u64
}

// 1 if a record is wrong, else 0.
pub fn miss(right: bool) -> u64
    ensures { (result ≡ missed right) × (result ≤ 1) }
{
    if right { 0 } else { 1 }
}

// Fills the first n places of a slice from the words from k on, `period` of them and then again from the
// first: as floats, as numbers of 32 bits, as they are.
pub fn fill_floats(xs: &mut [f64], n: usize, s: &[u8], k: usize, period: usize)
    requires { (n ≤ length xs.old) × ((0 < period) × (8 * (k + period) ≤ length s.now)) }
    ensures { take n xs.new ≡ floats_from s.now k period n }
{
    for j in 0..n {
        xs[j] = float_at(s, k + j % period);
    }
}

pub fn fill_marks(xs: &mut [u32], n: usize, s: &[u8], k: usize, period: usize)
    requires { (n ≤ length xs.old) × ((0 < period) × (8 * (k + period) ≤ length s.now)) }
    ensures { take n xs.new ≡ marks_from s.now k period n }
{
    for j in 0..n {
        xs[j] = (word(s, k + j % period) % 0x1_0000_0000) as u32;
    }
}

pub fn fill_counts(xs: &mut [usize], n: usize, s: &[u8], k: usize, period: usize)
    requires { (n ≤ length xs.old) × ((0 < period) × (8 * (k + period) ≤ length s.now)) }
    ensures { take n xs.new ≡ counts_from s.now k period n }
{
    for j in 0..n {
        xs[j] = word(s, k + j % period) as usize;
    }
}
