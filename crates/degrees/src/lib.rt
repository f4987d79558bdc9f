// Cosine and sine of whole degrees, from a constant table of whole numbers in units of 2^-53 (document 02, request (ii)).
#![tactic(auto)]

ghost use Rattle.std.specs.Prelude.{◌≡◌, ◌^◌, ◌≤◌, nat_abs};
ghost use Rattle.degrees.specs.Table.{degree_table};
ghost use Rattle.degrees.specs.Degrees.{cosine_units, sine_units, from_units, cosine_of, sine_of, float_table};

use crate::table::TABLE;

pub mod table;

// The table's entry for so many degrees, counted round. A constant array is built anew wherever it is
// named: a loop takes `floats` once instead.
pub fn cosine_units(degrees: usize) -> i64
    ensures { result ≡ cosine_units degrees }
{
    TABLE[2 * (degrees % 360)]
}

pub fn sine_units(degrees: usize) -> i64
    ensures { result ≡ sine_units degrees }
{
    TABLE[2 * (degrees % 360) + 1]
}

// An entry times 2^-53.
fn from_units(z: i64) -> f64
    requires { nat_abs z ≤ 2 ^ 53 }
    ensures { result ≡ from_units z }
{
    z as f64 * 1.1102230246251565e-16
}

pub fn cosine(degrees: usize) -> f64
    ensures { result ≡ cosine_of degrees }
{
    from_units(cosine_units(degrees))
}

pub fn sine(degrees: usize) -> f64
    ensures { result ≡ sine_of degrees }
{
    from_units(sine_units(degrees))
}

fn all_from_units(table: &[i64; 720]) -> [f64; 720]
    requires { table.now ≡ degree_table }
    ensures { result ≡ float_table }
{
    let mut all = [0.0; 720];
    for i in 0usize..720 {
        all[i] = from_units(table[i]);
    }
    all
}

// The cosine of a degrees below 360 stands at 2 * a, the sine behind it.
pub fn floats() -> [f64; 720]
    ensures { result ≡ float_table }
{
    all_from_units(&TABLE)
}
