// Reads records of three words of 8 bytes, the bit pattern of an f64, that of its root and the root's
// remainder in two's complement, and writes how many there are and how many are not what `sqrt` gives. A
// NaN's pattern is 7FF8000000000000. The list is made by tools/vectors/sqrt.py.
#![tactic(auto)]

ghost use Rattle.std.specs.Prelude.{◌≡◌, ◌+◌, ◌*◌, ◌≤◌, length};
ghost use Rattle.std.specs.Float.{binary64};
ghost use Rattle.std.specs.Float.Ieee.{to_bits};
ghost use Rattle.test_sqrt.specs.Records.{root_right, wrong_roots};

use std::io;

// The bit pattern of v.
fn pattern(v: f64) -> u64
    ensures { result ≡ to_bits binary64 v }
{
    if v == v {
        return f64::to_bits(v);
    }
    0x7ff8_0000_0000_0000
}

// Whether the root of record i and its remainder are right.
fn root_right(s: &[u8], i: usize) -> bool
    requires { 24 * i + 24 ≤ length s.now }
    ensures { result ≡ root_right s.now i }
{
    let r = sqrt::sqrt(test_words::float_at(s, 3 * i));
    let rest = test_words::signed(r.rest);
    test_words::is(s, 3 * i + 1, pattern(r.root)) && test_words::is(s, 3 * i + 2, rest)
}

// How many of the records are wrong.
fn wrong(s: &[u8]) -> u64
    ensures { result ≡ wrong_roots s.now }
{
    let count = s.len() / 24;
    let mut n: u64 = 0;
    for i in 0..count {
        n += test_words::miss(root_right(s, i));
    }
    n
}

fn main(rt: HostRuntime) -> io::Result<()> {
    let mut buffer = [0u8; 196608];
    let n = test_words::read_list(&mut rt.stdin(), &mut buffer);
    let count = n / 24;
    let wrong = wrong(&buffer[..n]);
    println!(rt; "{count} roots, {wrong} wrong")
}
