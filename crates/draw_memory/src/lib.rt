// The ends of earlier paths, and what became of them: many a path ends where others do.
#![tactic(auto)]

ghost use Rattle.std.specs.Prelude.{◌≡◌, true, ◌+◌, ◌<◌, length, set};
ghost use Rattle.rows.specs.Rows.{set_row};
ghost use Rattle.rows.specs.Points.{point_row};
ghost use Rattle.draw_memory.specs.Memory.{outcome_of, next_place, same_number, same_point, recalled, Recalled};

use geometry::vector::Vector;
use refusals::Refusal;

// Whether two numbers are one and the same: == would take -0 for +0, which can turn a ray's zero.
fn same_bits(a: f64, b: f64) -> bool
    ensures value { result ≡ same_number a b }
    ensures a_value { result ≡ true → a ≡ b }
{
    if a == a {
        if b == b {
            return f64::to_bits(a) == f64::to_bits(b);
        }
    }
    false
}

fn same_point(a: Vector, b: Vector) -> bool
    ensures value { result ≡ same_point a b }
    ensures a_value { result ≡ true → a ≡ b }
{
    if !same_bits(a.x, b.x) {
        return false;
    }
    if !same_bits(a.y, b.y) {
        return false;
    }
    same_bits(a.z, b.z)
}

// What is known of a point from the ends of earlier paths: 0 that it is dropped, 1 that it is kept, 2 nothing.
// Numbers in slices are binary64, so that ends with the bits of v are v.
pub fn recall(ends: &[f64], known: &[u32], v: Vector) -> u32
    requires { (length ends.now ≡ 24) × (length known.now ≡ 9) }
    ensures value { result ≡ recalled ends.now known.now v }
    ensures recalled { result < 2 → Recalled ends.now known.now v result }
{
    for k in 0..8 {
        if same_point(rows::read_point(ends, k), v) {
            return known[k];
        }
    }
    2
}

pub fn outcome(t: Result<Option<Vector>, Refusal>) -> u32
    ensures { result ≡ outcome_of t }
{
    match t {
        Ok(Some(_)) => 1,
        Ok(None) => 0,
        Err(_) => 2,
    }
}

// The eight ends tested last, and what became of them; the ninth number says whose place is taken next.
pub fn remember(ends: &mut [f64], known: &mut [u32], v: Vector, c: u32)
    requires { (length ends.old ≡ 24) × (length known.old ≡ 9) }
    ensures { (ends.new ≡ set_row 3 (next_place known.old) (point_row v) ends.old) × (known.new ≡ set (set known.old (next_place known.old) c) 8 (next_place known.old + 1)) }
{
    let n = known[8];
    let k = rows::index(n % 8);
    rows::write_point(ends, k, v);
    known[k] = c;
    known[8] = n % 8 + 1;
}
