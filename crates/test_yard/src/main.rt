// Reads stored texts of yards with their answers, and writes how many there are and how many are wrong
// (specs/Records). The list is made by tools/differential/lists.
#![tactic(auto)]

ghost use Rattle.std.specs.Prelude.{◌≡◌, ◌+◌, ◌-◌, ◌*◌, ◌<◌, ◌≤◌, length};
ghost use Rattle.test_yard.specs.Records.{reply_right, right_at, count_of, wrong_texts};

use std::io;

// Whether `yard` answers a text so.
fn reply_right(text: &[u8], expected: &[u8]) -> bool
    ensures { result ≡ reply_right text.now expected.now }
{
    let mut out = [0u8; 131072];
    let n = text_reply::answer(text, &mut out);
    text_heads::same_word(&out[..n], expected)
}

// The same for record i; one that doesn't lie in the list is wrong.
fn right_at(s: &[u8], i: usize) -> bool
    requires { 16 * i + 32 ≤ length s.now }
    ensures { result ≡ right_at s.now i }
{
    let a = test_words::word(s, 2 * i + 1) as usize;
    let b = test_words::word(s, 2 * i + 2) as usize;
    let c = test_words::word(s, 2 * i + 3) as usize;
    if a > b {
        return false;
    }
    if b > c {
        return false;
    }
    if c > s.len() {
        return false;
    }
    reply_right(&s[a..b], &s[b..c])
}

// How many records there are; none where the list has no places for them.
fn count(s: &[u8]) -> usize
    ensures { (result ≡ count_of s.now) × (16 * result ≤ length s.now - 16) }
{
    if s.len() < 16 {
        return 0;
    }
    let n = test_words::word(s, 0) as usize;
    if n > (s.len() - 16) / 16 {
        return 0;
    }
    n
}

// How many of them are wrong.
fn wrong(s: &[u8]) -> u64
    ensures { result ≡ wrong_texts s.now }
{
    let all = count(s);
    let mut n: u64 = 0;
    for i in 0..all {
        n += test_words::miss(right_at(s, i));
    }
    n
}

// Reads the list into these places, and says what it holds.
fn tell(rt: HostRuntime, list: &mut [u8]) -> io::Result<()> {
    let n = test_words::read_list(&mut rt.stdin(), list);
    let count = count(&list[..n]);
    let wrong = wrong(&list[..n]);
    println!(rt; "{count} texts, {wrong} wrong")
}

// The list in so many places. The number is a parameter, since the check follows an array of a known length place by place.
fn places<const N: usize>(rt: HostRuntime) -> io::Result<()>
    requires { N < 1048576 }
{
    let mut buffer = [0u8; N];
    tell(rt, &mut buffer)
}

fn main(rt: HostRuntime) -> io::Result<()> {
    places::<524288>(rt)
}
