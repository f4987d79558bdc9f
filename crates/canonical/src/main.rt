#![tactic(auto)]
// The program `canonical`: reads forms from standard input, and prints them in canonical form, or why they
// are refused.
use std::io;

fn main(rt: HostRuntime) -> io::Result<()> {
    let mut text = [0u8; 65537];
    let mut out = [0u8; 278528];
    let n = text_input::read_text(&mut rt.stdin(), &mut text);
    let k = text_restate::answer(&text[..n], &mut out);
    rt.write_all(&out[..k])
}
