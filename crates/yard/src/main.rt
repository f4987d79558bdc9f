#![tactic(auto)]
// The program `yard`: reads forms from standard input, and prints their drawing, or why they are refused.
use std::io;

fn main(rt: HostRuntime) -> io::Result<()> {
    let mut text = [0u8; 65537];
    let mut out = [0u8; 131072];
    let n = text_input::read_text(&mut rt.stdin(), &mut text);
    let k = text_reply::answer(&text[..n], &mut out);
    rt.write_all(&out[..k])
}
