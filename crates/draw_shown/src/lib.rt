// What a solid shows: its stripes and the lines handed in for it, or else its outline.
#![tactic(auto)]

ghost use Rattle.std.specs.Prelude.{◌≡◌, List, ◌*◌, ◌≤◌, length};
ghost use Rattle.geometry.specs.declared.vector.Vector.{Vector};
ghost use Rattle.paths.specs.Paths.{paths_of};
ghost use Rattle.paths.specs.Ends.{places, all_points, held, EndsBoth};
ghost use Rattle.draw_lines.specs.Pushing.{add_paths};
ghost use Rattle.draw_lines.specs.Lines.{own_paths};
ghost use Rattle.draw_arcs.specs.Stances.{placement_of};
ghost use Rattle.draw_shown.specs.Shown as Shown;

use draw_arcs::Stance;
use refusals::Refusal;
use solids::solid::Solid;

// Whether entry i owns a handed-in path.
fn owns_path(starts: &[usize], owners: &[u32], i: usize) -> bool
    ensures { (vs : List Vector) → result ≡ Shown.has_paths (own_paths i (paths_of vs starts.now) owners.now) }
{
    for j in 0..starts.len() {
        if draw_lines::owned(owners, j, i) {
            return true;
        }
    }
    false
}

// Whether this stripe count gives no stripe.
fn no_stripes(count: u32) -> bool
    ensures { result ≡ Shown.no_stripes count }
{
    if count == 0 {
        return true;
    }
    count > 360
}

// Whether a round solid with this detail has no stripe.
fn stripeless(solid: Solid, detail: u32) -> bool
    ensures { result ≡ Shown.stripeless solid detail }
{
    match solid {
        Solid::Sphere {
            center: _,
            radius: _,
        } => true,
        Solid::Cylinder {
            radius: _,
            z0: _,
            z1: _,
        } => no_stripes(detail),
        Solid::Cone {
            radius: _,
            height: _,
        } => no_stripes(detail),
        Solid::Cube { min: _, max: _ } => true,
        Solid::Triangle {
            v1: _,
            v2: _,
            v3: _,
        } => true,
        Solid::ClosedCylinder {
            radius: _,
            z0: _,
            z1: _,
        } => no_stripes(detail),
        Solid::ClosedCone {
            radius: _,
            height: _,
        } => no_stripes(detail),
    }
}

// What a solid, entry i, shows, after n points and m starts: its stripes and the lines handed in for it, or
// else its outline.
pub fn shown_paths(
    solid: Solid,
    detail: u32,
    i: usize,
    points: &[f64],
    starts: &[usize],
    owners: &[u32],
    t: Stance,
    out: &mut [f64],
    begins: &mut [usize],
    n: usize,
    m: usize,
) -> Result<(usize, usize), Refusal>
    requires { (n * 3 ≤ length out.old) × (m ≤ length begins.old) }
    ensures { EndsBoth (add_paths (places out.old) (length begins.old) (Shown.shown_paths (placement_of t) solid detail (own_paths i (paths_of (all_points points.now) starts.now) owners.now)) (held n out.old m begins.old)) out.new begins.new result }
{
    let c = draw_solids::solid_paths(solid, detail, i, points, starts, owners, out, begins, n, m);
    if owns_path(starts, owners, i) {
        return c;
    }
    if stripeless(solid, detail) {
        return draw_outlines::outline(c, solid, t, out, begins);
    }
    c
}
