// Writes the table of degrees as the proved functions answer it: for each degree the cosine and the sine in
// units of 2^-53, then the bit pattern of each as an f64. It must be what tools/degrees/generate prints.
#![tactic(auto)]

ghost use Rattle.std.specs.Prelude.{◌≡◌, not, ◌^◌, ◌≤◌, T, nat_abs};
ghost use Rattle.std.specs.Float.Ieee.{is_nan};

use std::io;

fn magnitude(z: i64) -> u64
    requires { nat_abs z ≤ 2 ^ 53 }
    ensures { result ≡ nat_abs z }
{
    if z < 0 {
        return (0 - z) as u64;
    }
    z as u64
}

fn print_units(rt: &impl Print, z: i64) -> io::Result<()>
    requires { nat_abs z ≤ 2 ^ 53 }
{
    if z < 0 {
        print!(rt; "-")?;
    }
    print!(rt; "{}", magnitude(z))
}

fn print_pattern(rt: &impl Print, x: f64) -> io::Result<()>
    requires { T (not (is_nan x)) }
{
    print!(rt; " {:016x}", f64::to_bits(x))
}

fn print_degree(rt: &impl Print, degrees: usize) -> io::Result<()> {
    print_units(rt, degrees::cosine_units(degrees))?;
    print!(rt; " ")?;
    print_units(rt, degrees::sine_units(degrees))?;
    print_pattern(rt, degrees::cosine(degrees))?;
    print_pattern(rt, degrees::sine(degrees))?;
    println!(rt; "")
}

fn main(rt: HostRuntime) -> io::Result<()> {
    for a in 0usize..360 {
        print_degree(&rt, a)?;
    }
    Ok(())
}
