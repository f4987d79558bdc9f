// The lines of a solid of kinds 1 to 5, 8 or 9, added to the paths that two lent slices hold.
#![tactic(auto)]

ghost use Rattle.std.specs.Prelude.{◌≡◌, [], ◌∷◌, ◌++◌, map, ◌*◌, ◌≤◌, length};
ghost use Rattle.degrees.specs.Degrees.{cosine_of, sine_of, float_table};
ghost use Rattle.paths.specs.Paths.{paths_of};
ghost use Rattle.paths.specs.Ends.{places, all_points, held, EndsBoth};
ghost use Rattle.draw_lines.specs.Pushing.{add_paths};
ghost use Rattle.draw_lines.specs.Lines.{own_paths};
ghost use Rattle.draw_solids.specs.Stripes.{degrees_from, stripe_by, round_striped};
ghost use Rattle.draw_solids.specs.Lines.{solid_paths};

use geometry::vector::Vector;
use refusals::Refusal;
use solids::solid::Solid;

// Where stripes lie: on a cylinder's wall, or on a cone's, up to its apex.
#[derive(Clone, Copy)]
pub enum Flank {
    Upright { radius: f64, z0: f64, z1: f64 },
    Slanted { radius: f64, height: f64 },
}

// A stripe, by its cosine and sine.
fn stripe(
    flank: Flank,
    c: f64,
    s: f64,
    out: &mut [f64],
    begins: &mut [usize],
    n: usize,
    m: usize,
) -> Result<(usize, usize), Refusal>
    requires { (n * 3 ≤ length out.old) × (m ≤ length begins.old) }
    ensures { EndsBoth (add_paths (places out.old) (length begins.old) (stripe_by flank c s ∷ []) (held n out.old m begins.old)) out.new begins.new result }
{
    match flank {
        Flank::Upright { radius, z0, z1 } => draw_lines::line(
            Ok((n, m)),
            Vector::new(radius * c, radius * s, z0),
            Vector::new(radius * c, radius * s, z1),
            out,
            begins,
        ),
        Flank::Slanted { radius, height } => draw_lines::line(
            Ok((n, m)),
            Vector::new(radius * c, radius * s, 0.0),
            Vector::new(0.0, 0.0, height),
            out,
            begins,
        ),
    }
}

// The stripes at each `step` degrees; the table is `degrees::floats`.
fn spaced(
    flank: Flank,
    table: &[f64; 720],
    step: usize,
    out: &mut [f64],
    begins: &mut [usize],
    n: usize,
    m: usize,
) -> Result<(usize, usize), Refusal>
    requires { (table.now ≡ float_table) × (1 ≤ step) × (step ≤ 360) × (n * 3 ≤ length out.old) × (m ≤ length begins.old) }
    ensures { EndsBoth (add_paths (places out.old) (length begins.old) (map (λ a. stripe_by flank (cosine_of a) (sine_of a)) (degrees_from step 360 0)) (held n out.old m begins.old)) out.new begins.new result }
{
    let mut p = n;
    let mut q = m;
    let mut a: usize = 0;
    // no `for`: the definition goes on by `step` degrees, with no count of the turns
    while a < 360 {
        (p, q) = stripe(flank, table[2 * a], table[2 * a + 1], out, begins, p, q)?;
        a += step;
    }
    Ok((p, q))
}

// The stripes of a cylinder or a cone with this stripe count (`paths_striped` of cylinder.rs and cone.rs),
// after n points and m starts.
fn round_striped(
    flank: Flank,
    count: u32,
    out: &mut [f64],
    begins: &mut [usize],
    n: usize,
    m: usize,
) -> Result<(usize, usize), Refusal>
    requires { (n * 3 ≤ length out.old) × (m ≤ length begins.old) }
    ensures { EndsBoth (add_paths (places out.old) (length begins.old) (round_striped flank count) (held n out.old m begins.old)) out.new begins.new result }
{
    if count == 0 {
        return Ok((n, m));
    }
    if count > 360 {
        return Ok((n, m));
    }
    let table = degrees::floats();
    spaced(flank, &table, (360 / count) as usize, out, begins, n, m)
}

// The lines of a cylinder or a cone at entry i: its stripes, then those that were handed in.
fn round_paths(
    flank: Flank,
    count: u32,
    i: usize,
    points: &[f64],
    starts: &[usize],
    owners: &[u32],
    out: &mut [f64],
    begins: &mut [usize],
    n: usize,
    m: usize,
) -> Result<(usize, usize), Refusal>
    requires { (n * 3 ≤ length out.old) × (m ≤ length begins.old) }
    ensures { EndsBoth (add_paths (places out.old) (length begins.old) (round_striped flank count ++ own_paths i (paths_of (all_points points.now) starts.now) owners.now) (held n out.old m begins.old)) out.new begins.new result }
{
    let (p, q) = round_striped(flank, count, out, begins, n, m)?;
    draw_lines::handed_paths(points, starts, owners, i, out, begins, p, q)
}

// The lines of entry i, a solid of kinds 1 to 5, 8 or 9, after n points and m starts.
pub fn solid_paths(
    solid: Solid,
    detail: u32,
    i: usize,
    points: &[f64],
    starts: &[usize],
    owners: &[u32],
    out: &mut [f64],
    begins: &mut [usize],
    n: usize,
    m: usize,
) -> Result<(usize, usize), Refusal>
    requires { (n * 3 ≤ length out.old) × (m ≤ length begins.old) }
    ensures { EndsBoth (add_paths (places out.old) (length begins.old) (solid_paths solid detail (own_paths i (paths_of (all_points points.now) starts.now) owners.now)) (held n out.old m begins.old)) out.new begins.new result }
{
    match solid {
        Solid::Sphere {
            center: _,
            radius: _,
        } => draw_lines::handed_paths(points, starts, owners, i, out, begins, n, m),
        Solid::Cylinder { radius, z0, z1 } => round_paths(
            Flank::Upright { radius, z0, z1 },
            detail,
            i,
            points,
            starts,
            owners,
            out,
            begins,
            n,
            m,
        ),
        Solid::Cone { radius, height } => round_paths(
            Flank::Slanted { radius, height },
            detail,
            i,
            points,
            starts,
            owners,
            out,
            begins,
            n,
            m,
        ),
        Solid::Cube { min, max } => draw_lines::paths_striped(min, max, detail, out, begins, n, m),
        Solid::Triangle { v1, v2, v3 } => {
            draw_lines::triangle_paths(v1, v2, v3, out, begins, n, m)
        }
        Solid::ClosedCylinder { radius, z0, z1 } => round_paths(
            Flank::Upright { radius, z0, z1 },
            detail,
            i,
            points,
            starts,
            owners,
            out,
            begins,
            n,
            m,
        ),
        Solid::ClosedCone { radius, height } => round_paths(
            Flank::Slanted { radius, height },
            detail,
            i,
            points,
            starts,
            owners,
            out,
            begins,
            n,
            m,
        ),
    }
}
