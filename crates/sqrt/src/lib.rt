// The square root of an f64, correctly rounded, from the language's own float and integer
// operations. An estimate in floats is tested exactly in integers; where it is off by more than one,
// which among normal numbers no input is known to reach, the root is found digit by digit instead. So
// the contracts rest on integers alone, and nothing is proved, or assumed, of the estimate.
#![tactic(auto)]

ghost use Rattle.std.specs.Prelude.{◌≡◌, ℕ, ◌+◌, ◌*◌, ◌^◌, ◌<◌, ◌≤◌, false, FitsSigned, from_bits};
ghost use Rattle.std.specs.Int.{w64};
ghost use Rattle.std.specs.Float.{binary64};
ghost use Rattle.std.specs.Float.Ieee.{le, lt};
ghost use Rattle.std.specs.Float.Ieee.Exact.{HasValue};
ghost use Rattle.sqrt.specs.Floor.{FloorRoot, LowRoot, NearestRoot};
ghost use Rattle.sqrt.specs.Root.{sqrt_of, rest_of};

// A whole number and what is left over of another when its square is taken off.
#[derive(Clone, Copy)]
pub struct WholeRoot {
    pub whole: u64,
    pub rest: u64,
}

// The whole part of the root of m * 2^52, digit by digit, as by hand: two binary digits of m * 2^52
// come down in each turn, and give one digit of the root.
fn digits(m: u64) -> WholeRoot
    requires { m < 2 ^ 54 }
    ensures { FloorRoot (m * 2 ^ 52) result.whole result.rest }
{
    let mut whole: u64 = 0;
    let mut rest: u64 = 0;
    let mut left = m;
    for i in 0u64..53 {
        rest = 4 * rest + left / 0x10_0000_0000_0000;
        left = left % 0x10_0000_0000_0000 * 4;
        whole = 2 * whole;
        if 2 * whole < rest {
            rest = rest - 2 * whole - 1;
            whole = whole + 1;
        }
    }
    WholeRoot { whole, rest }
}

// t * 2^52 for a t that is at least 1 and below 2, and some number of 53 bits for every other.
fn scaled(t: f64) -> u64
    ensures { (2 ^ 52 ≤ result) × (result < 2 ^ 53) }
{
    if t == t {
        let b: u64 = f64::to_bits(t);
        return b % 0x10_0000_0000_0000 + 0x10_0000_0000_0000;
    }
    0x10_0000_0000_0000
}

// An estimate of the root of x, whose bit pattern is `bits`, times 2^52, for an x from 1 to 4.
fn guess(bits: u64) -> u64
    requires { bits < 0x4010_0000_0000_0000 }
    ensures { (2 ^ 52 ≤ result) × (result < 2 ^ 53) }
{
    let x = f64::from_bits(bits);
    // 1 / sqrt(x): the halved exponent, a first step within 7e-4, and a step of Newton's method. The first
    // step's result is divided by the third root of 2, so that the next has no factor at its cube.
    let y0 = f64::from_bits(0x5fe3_ffff_2000_0000 - bits / 2);
    let y1 = 1.3349360986708898 * y0 - (0.558727273473792 * x * y0) * (y0 * y0);
    let y = 1.8898815748423097 * y1 - (x * y1) * (y1 * y1);
    // sqrt(x), and a step whose error is of the third order
    let s = x * y;
    let e = 1.0 - s * y;
    scaled(s + (s * e) * (0.5 + 0.375 * e))
}

// The whole part of the root of m * 2^52, or one less, and what is left over. The estimate is made of
// `bits`, the pattern of m / 2^52 where m is that of a normal number.
fn root_of(m: u64, bits: u64) -> WholeRoot
    requires { (m < 2 ^ 54) × (bits < 0x4010_0000_0000_0000) }
    ensures { LowRoot (m * 2 ^ 52) result.whole result.rest }
{
    let r = guess(bits) - 1;
    // r is a * 2^26 + b: its square is taken off part by part. What would be below 0 wraps, and is too
    // large for the test that follows.
    let a = r / 0x400_0000;
    let b = r % 0x400_0000;
    let d = std::num::wrapping_sub_u64(m, a * a);
    if d < 0x4000_0000 {
        let e = std::num::wrapping_sub_u64(d * 0x200_0000, a * b);
        if e < 0x4000_0000 {
            let rest = std::num::wrapping_sub_u64(e * 0x800_0000, b * b);
            if rest <= 4 * r + 3 {
                return WholeRoot { whole: r, rest };
            }
        }
    }
    digits(m)
}

// m * 2^g / 2^1126, with m of 53 bits.
#[derive(Clone, Copy)]
pub struct Significand {
    pub m: u64,
    pub g: u64,
}

// The positive finite f64 whose bit pattern is b.
fn unpack(b: u64) -> Significand
    requires { (0 < b) × (b < 0x7ff0_0000_0000_0000) }
    ensures value { HasValue (from_bits binary64 b) false (result.m * 2 ^ result.g) (2 ^ 1126) }
    ensures range { (2 ^ 52 ≤ result.m) × (result.m < 2 ^ 53) × (result.g ≤ 2097) }
{
    let e = b / 0x10_0000_0000_0000;
    if e == 0 {
        let l = u64::leading_zeros(b) - 11;
        Significand {
            m: b << l,
            g: 52 - (l as u64),
        }
    } else {
        Significand {
            m: b % 0x10_0000_0000_0000 + 0x10_0000_0000_0000,
            g: e + 51,
        }
    }
}

// A whole number, and how much another exceeds its square.
#[derive(Clone, Copy)]
pub struct NearRoot {
    pub whole: u64,
    pub rest: i64,
}

// The whole number nearest to the root, and what is left over of n: k steps up from one that is less than
// 2 below the root.
fn rounded(p: WholeRoot) -> NearRoot
    requires { (p.whole < 2 ^ 53) × (p.rest ≤ 4 * p.whole + 3) }
    ensures { (n : ℕ) → 0 < n → n < 4 ^ 53 → LowRoot n p.whole p.rest → NearestRoot n result.whole result.rest }
{
    let whole = p.whole;
    let rest = p.rest;
    let mut k: u64 = 0;
    if whole < rest {
        k = 1;
    }
    if 3 * whole + 2 < rest {
        k = 2;
    }
    NearRoot {
        whole: whole + k,
        rest: (rest as i64) - ((k * (2 * whole + k)) as i64),
    }
}

// The root of an f64 and its exact remainder: where the root is R * 2^k with R of 53 bits, and the f64
// is S * 4^k, that is S - R * R. It fits: it is at most R, and above -R.
#[derive(Clone, Copy)]
pub struct Rooted {
    pub root: f64,
    pub rest: i64,
}

// The root of the positive finite f64 whose bit pattern is b, with its remainder in `rest`.
fn positive(b: u64, rest: &mut i64) -> f64
    requires { (0 < b) × (b < 0x7ff0_0000_0000_0000) }
    ensures answer { result ≡ sqrt_of (from_bits binary64 b) }
    ensures lent { rest.new ≡ rest_of (from_bits binary64 b) }
    ensures held { FitsSigned w64 rest.new }
{
    let s = unpack(b);
    let m = s.m;
    let g = s.g;
    // b's fraction below an exponent of 0 or 1, whichever leaves an even one
    let bits = (b + 0x10_0000_0000_0000) % 0x20_0000_0000_0000 + 0x3ff0_0000_0000_0000;
    let r = rounded(root_of(m << (g % 2), bits));
    let whole = r.whole;
    let left = r.rest;
    let pattern = (g / 2 + 485) * 0x10_0000_0000_0000 + whole;
    *rest = left;
    f64::from_bits(pattern)
}

// The root of x, with its remainder in `rest`: 0 but for a positive finite x. The remainder is lent, so
// that the root comes back in a register; a struct of both would come back through memory. `held`: the
// prover knows no range of a signed number in a local that was lent.
fn root_and_rest(x: f64, rest: &mut i64) -> f64
    ensures answer { result ≡ sqrt_of x }
    ensures lent { rest.new ≡ rest_of x }
    ensures held { FitsSigned w64 rest.new }
{
    *rest = 0;
    if x > 0.0 {
        let b: u64 = f64::to_bits(x);
        if b < 0x7ff0_0000_0000_0000 {
            positive(b, rest)
        } else {
            x
        }
    } else if x == 0.0 {
        x
    } else {
        0.0 / 0.0
    }
}

// The square root: the f64 nearest the exact root, ties to even; -0 for -0, a NaN for a negative. With
// it its exact remainder, which request (xi) asks for: 0 but for a positive finite x.
pub fn sqrt(x: f64) -> Rooted
    ensures { (result.root ≡ sqrt_of x) × (result.rest ≡ rest_of x) }
{
    let mut rest: i64 = 0;
    let root = root_and_rest(x, &mut rest);
    Rooted { root, rest }
}

// The root alone, for the callers inside.
pub fn root(x: f64) -> f64
    ensures { result ≡ sqrt_of x }
{
    let mut rest: i64 = 0;
    root_and_rest(x, &mut rest)
}

// The root of what is mostly next to one, as the square of a rigid placing's scale: there the root's bit
// pattern is half way from that of x to that of 1, rounded down.
pub fn root_near(x: f64) -> f64
    ensures { result ≡ sqrt_of x }
{
    if x == x {
        let b: u64 = f64::to_bits(x);
        if 0x3fef_ffff_f800_0000 <= b {
            if b <= 0x3ff0_0000_0800_0000 {
                return f64::from_bits((b + 0x3ff0_0000_0000_0000) / 2);
            }
        }
    }
    root(x)
}

// Whether the root of x is at most l. The squares of l and of a number just above it tell; the root is taken only
// where x lies between them.
pub fn root_at_most(x: f64, l: f64) -> bool
    ensures { result ≡ le (sqrt_of x) l }
{
    if 0.0 < x {
        if 0.0 < l {
            let m = l * 1.000000001;
            if l < m {
                if x < l * l {
                    return true;
                }
                if m * m < x {
                    return false;
                }
            }
        }
    }
    root(x) <= l
}

// Whether the root of x is above l. Where one of the two is a NaN, it is neither above nor at most l.
pub fn root_above(x: f64, l: f64) -> bool
    ensures { result ≡ lt l (sqrt_of x) }
{
    if 0.0 <= x {
        if l == l {
            return !root_at_most(x, l);
        }
    }
    false
}
