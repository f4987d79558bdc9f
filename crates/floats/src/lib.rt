// `min`, `max` and `abs` as Rust's f64 has them, the tests of a single number, and the float of a bit pattern. The laws of
// floats that the other crates use stand in proofs/.
#![tactic(auto)]

ghost use Rattle.std.specs.Prelude.{◌≡◌, cond};
ghost use Rattle.std.specs.Float.Ieee.{lt};
ghost use Rattle.std.specs.Float.Ieee.Scale.{finite};
ghost use Rattle.floats.specs.Numbers as Numbers;
ghost use Rattle.floats.specs.Arith.{bits};
ghost use Rattle.floats.specs.Numbers.{min_of, max_of, abs_of};

fn lesser(x: f64, y: f64) -> f64
    ensures { result ≡ cond (lt y x) y x }
{
    if y < x { y } else { x }
}

fn greater(x: f64, y: f64) -> f64
    ensures { result ≡ cond (lt x y) y x }
{
    if x < y { y } else { x }
}

// Compared first and tested for a NaN after, so that neither test needs a jump.
pub fn min(x: f64, y: f64) -> f64
    ensures { result ≡ min_of x y }
{
    let m = lesser(x, y);
    if m != m { y } else { m }
}

pub fn max(x: f64, y: f64) -> f64
    ensures { result ≡ max_of x y }
{
    let m = greater(x, y);
    if m != m { y } else { m }
}

pub fn abs(x: f64) -> f64
    ensures { result ≡ abs_of x }
{
    if x < 0.0 {
        return -x;
    }
    if x == 0.0 { 0.0 } else { x }
}

// Neither a NaN nor an infinity: the difference with itself is a number.
pub fn is_finite(x: f64) -> bool
    ensures { result ≡ finite x }
{
    let d = x - x;
    d == d
}

// Finite and of magnitude at most 1,000,000.
pub fn within(x: f64) -> bool
    ensures { result ≡ Numbers.within x }
{
    -1000000.0 <= x && x <= 1000000.0
}

// The float of a bit pattern; every NaN's pattern is read as the NaN.
pub fn float_of(b: u64) -> f64
    ensures { result ≡ bits b }
{
    let magnitude = b % 0x8000_0000_0000_0000;
    if magnitude > 0x7ff0_0000_0000_0000 {
        return 0.0 / 0.0;
    }
    f64::from_bits(b)
}
