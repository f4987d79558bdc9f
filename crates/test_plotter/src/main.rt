// Takes a stored drawing of 260 points and 73 paths, examples/silos.drawing, picks its way through it and drives
// the plotter's registers by that way; writes how many paths it drew, how many tenths of a millimetre the pen
// went up and down, and the number that the last pick met. A move is as long as its longer axis. The list is
// made by tools/plotter/stored: the numbers of the points, then the path starts, in words of 8 bytes.
#![tactic(auto)]

ghost use Rattle.std.specs.Prelude.{◌≤◌, length};

use geometry::vector::Vector;
use plotter_registers::Registers;
use std::io;

// The registers, how far the pen went, and what came of it.
#[derive(Clone, Copy)]
struct Plot {
    registers: Registers,
    paths: u64,
    up: u64,
    down: u64,
    number: u32,
}

fn no_plot() -> Plot {
    Plot {
        registers: Registers::new(),
        paths: 0,
        up: 0,
        down: 0,
        number: 0,
    }
}

// How many tenths of a millimetre a pixel's coordinate is, 7 to a pixel, from 0 to `most`.
fn tenths(x: f64, most: u16) -> u16 {
    let scaled = x * 7.0;
    for t in 0..most {
        if (t as f64) >= scaled {
            return t;
        }
    }
    most
}

fn sent(r: Registers, at: usize, value: u8) -> Registers {
    let w = r.written(at, value);
    w.registers
}

// A target, and the command to go there.
fn started(r: Registers, x: u16, y: u16) -> Registers {
    let a = sent(r, 2, (x % 256) as u8);
    let b = sent(a, 3, (x / 256) as u8);
    let c = sent(b, 4, (y % 256) as u8);
    let d = sent(c, 5, (y / 256) as u8);
    sent(d, 0, 4)
}

// The steps of a move, counted as the pen is.
fn counted(p: Plot, r: Registers, steps: u64) -> Plot {
    let status = r.bytes[1];
    if status & 1 != 0 {
        return Plot {
            registers: r,
            paths: p.paths,
            up: p.up,
            down: std::num::wrapping_add_u64(p.down, steps),
            number: p.number,
        };
    }
    Plot {
        registers: r,
        paths: p.paths,
        up: std::num::wrapping_add_u64(p.up, steps),
        down: p.down,
        number: p.number,
    }
}

// The pen goes to a target, step by step; no way is longer than the sheet.
fn gone(p: Plot, x: u16, y: u16) -> Plot {
    let s = p.registers;
    let pen = s.pen;
    if pen.x == x {
        if pen.y == y {
            return p;
        }
    }
    let mut r = started(s, x, y);
    for steps in 0..8410 {
        if !r.busy() {
            return counted(p, r, steps);
        }
        r = r.stepped();
    }
    counted(p, r, 8410)
}

fn gone_to(p: Plot, v: Vector) -> Plot {
    gone(p, tenths(v.x, 8410), tenths(v.y, 5940))
}

// Pen up (2) or down (1).
fn commanded(p: Plot, command: u8) -> Plot {
    let r = p.registers;
    Plot {
        registers: sent(r, 0, command),
        paths: p.paths,
        up: p.up,
        down: p.down,
        number: p.number,
    }
}

// A path of at least one point.
fn drawn(p: Plot, path: &[f64]) -> Plot
    requires { (3 ≤ length path.now) × (length path.now ≤ 780) }
{
    let mut q = commanded(gone_to(commanded(p, 2), rows::read_point(path, 0)), 1);
    let n = path.len() / 3;
    for i in 1..n {
        q = gone_to(q, rows::read_point(path, i));
    }
    q
}

fn ended(p: Plot, paths: u64, number: u32) -> Plot {
    let r = p.registers;
    Plot {
        registers: r,
        paths,
        up: p.up,
        down: p.down,
        number,
    }
}

// The next path of a yard without dimension lines.
fn next<'a>(
    yard: &'a [f64],
    starts: &[usize],
    pen: Vector,
    marks: &mut [u8; 73],
    number: &mut u32,
) -> &'a [f64] {
    plotter_pens::next_path(yard, starts, &yard[..0], &starts[..0], pen, marks, number)
}

// Pick after pick, until one is refused.
fn tour(yard: &[f64], starts: &[usize]) -> Plot {
    let mut marks = [0u8; 73];
    let mut p = no_plot();
    let mut pen = Vector::new(0.0, 0.0, 0.0);
    for paths in 0..74 {
        let mut number: u32 = 0;
        let path = next(yard, starts, pen, &mut marks, &mut number);
        if number != 0 {
            return ended(p, paths, number);
        }
        if path.len() < 3 {
            return ended(p, paths, 0);
        }
        if path.len() > 780 {
            return ended(p, paths, 0);
        }
        p = drawn(p, path);
        pen = rows::read_point(path, path.len() / 3 - 1);
    }
    ended(p, 74, 0)
}

// The drawing that a list holds, if it is as long as it must be.
fn plotted(s: &[u8]) -> Plot {
    if s.len() != 6824 {
        return no_plot();
    }
    let mut yard = [0.0; 780];
    let mut starts = [0usize; 73];
    test_words::fill_floats(&mut yard, 780, s, 0, 780);
    test_words::fill_counts(&mut starts, 73, s, 780, 73);
    tour(&yard, &starts)
}

fn main(rt: HostRuntime) -> io::Result<()> {
    let mut buffer = [0u8; 8192];
    let n = test_words::read_list(&mut rt.stdin(), &mut buffer);
    let p = plotted(&buffer[..n]);
    println!(rt;
        "{} paths, up {}, down {}, then {}",
        p.paths, p.up, p.down, p.number
    )
}
