// A program's text, read from its input into a slice of bytes.
#![tactic(auto)]

ghost use Rattle.std.specs.Prelude.{◌≡◌, ◌≤◌, length, take};

use std::io::Read;

// One read into the text from place n on, and how far the text then goes: no farther at the end of the
// input, and to the end of the slice where the read fails.
fn read_some<R: Read>(input: &mut R, text: &mut [u8], n: usize) -> usize
    requires { n ≤ length text.old }
    ensures { (n ≤ result) × (result ≤ length text.old) }
{
    match input.read(&mut text[n..]) {
        Ok(count) => n + count,
        Err(_) => text.len(),
    }
}

// Reads until the input ends, a read fails or the slice is full, and answers how far the text goes. A text
// that could not be read to its end fills the slice, which has a byte more than a text may have: it meets
// number 1, and is never taken in part. What a read gives comes from outside: of the answer no more is promised
// than that the slice holds so many bytes, and of the bytes nothing.
pub fn read_text<R: Read>(input: &mut R, text: &mut [u8]) -> usize
    ensures { (result ≤ length text.new) × (result ≡ length (take result text.new)) }
{
    let mut n = 0;
    // no `for`: a read gives any number of bytes
    while n < text.len() {
        let m = read_some(input, text, n);
        if m == n {
            return n;
        }
        n = m;
    }
    n
}
