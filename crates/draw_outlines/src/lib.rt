// The outlines of round solids (document 02 (vii)): rings, and the lines where planes through the eye touch.
#![tactic(auto)]

ghost use Rattle.std.specs.Prelude.{◌≡◌, ◌*◌, ◌≤◌, length};
ghost use Rattle.paths.specs.Ends.{places, Finished};
ghost use Rattle.draw_lines.specs.Pushing.{Fit, Adds};
ghost use Rattle.draw_rings.specs.Spheres as Spheres;
ghost use Rattle.draw_arcs.specs.Stances.{placings_of, placement_of};
ghost use Rattle.draw_outlines.specs.Outlines as Outlines;
ghost use Rattle.draw_outlines.specs.Calls as Calls;
ghost use Rattle.draw_outlines.specs.Calls.{matrices_in};

use draw_arcs::{Frame, Placings, Stance};
use geometry::vector::Vector;
use refusals::Refusal;
use solids::solid::Solid;
use view::{RenderArgs, View};

fn eye_square(eye: Vector) -> f64
    ensures { result ≡ Outlines.eye_square eye }
{
    eye.x * eye.x + eye.y * eye.y
}

fn tangent_root(e: f64, c: f64) -> f64
    ensures { result ≡ Outlines.tangent_root e c }
{
    sqrt::root(e - c * c)
}

fn first_tangent(r: f64, c: f64, q: f64, e: f64, eye: Vector, z: f64) -> Vector
    ensures { result ≡ Outlines.first_tangent r c q e eye z }
{
    Vector {
        x: r * (c * eye.x - q * eye.y) / e,
        y: r * (c * eye.y + q * eye.x) / e,
        z,
    }
}

fn second_tangent(r: f64, c: f64, q: f64, e: f64, eye: Vector, z: f64) -> Vector
    ensures { result ≡ Outlines.second_tangent r c q e eye z }
{
    Vector {
        x: r * (c * eye.x + q * eye.y) / e,
        y: r * (c * eye.y - q * eye.x) / e,
        z,
    }
}

// The upright lines of a cylinder, from z0.
fn uprights(
    c: Result<(usize, usize), Refusal>,
    r: f64,
    e: f64,
    eye: Vector,
    z0: f64,
    z1: f64,
    out: &mut [f64],
    begins: &mut [usize],
) -> Result<(usize, usize), Refusal>
    requires { Fit c out.old begins.old }
    ensures { Adds (Outlines.uprights r e eye z0 z1) c out.old begins.old out.new begins.new result }
{
    let q = tangent_root(e, r);
    let c1 = draw_lines::line(
        c,
        first_tangent(r, r, q, e, eye, z0),
        first_tangent(r, r, q, e, eye, z1),
        out,
        begins,
    );
    draw_lines::line(
        c1,
        second_tangent(r, r, q, e, eye, z0),
        second_tangent(r, r, q, e, eye, z1),
        out,
        begins,
    )
}

// The outline of a cylinder: both rings, and the upright lines if the eye stands outside.
fn cylinder_outline(
    c: Result<(usize, usize), Refusal>,
    t: Stance,
    r: f64,
    z0: f64,
    z1: f64,
    out: &mut [f64],
    begins: &mut [usize],
) -> Result<(usize, usize), Refusal>
    requires { Fit c out.old begins.old }
    ensures { Adds (Outlines.cylinder_outline (placement_of t) r z0 z1) c out.old begins.old out.new begins.new result }
{
    let c1 = draw_arcs::ring(c, t, draw_arcs::level_at(z0), r, out, begins);
    let c2 = draw_arcs::ring(c1, t, draw_arcs::level_at(z1), r, out, begins);
    let a = t.args;
    let eye = a.eye;
    let e = eye_square(eye);
    if e <= r * r {
        return c2;
    }
    uprights(c2, r, e, eye, z0, z1, out, begins)
}

fn cone_side(r: f64, h: f64, eye: Vector) -> f64
    ensures { result ≡ Outlines.cone_side r h eye }
{
    r * (1.0 - eye.z / h)
}

// The lines of a cone from the tangent points to its apex.
fn slopes(
    c: Result<(usize, usize), Refusal>,
    r: f64,
    k: f64,
    e: f64,
    eye: Vector,
    h: f64,
    out: &mut [f64],
    begins: &mut [usize],
) -> Result<(usize, usize), Refusal>
    requires { Fit c out.old begins.old }
    ensures { Adds (Outlines.slopes r k e eye h) c out.old begins.old out.new begins.new result }
{
    let q = tangent_root(e, k);
    let apex = Vector::new(0.0, 0.0, h);
    let c1 = draw_lines::line(c, first_tangent(r, k, q, e, eye, 0.0), apex, out, begins);
    draw_lines::line(c1, second_tangent(r, k, q, e, eye, 0.0), apex, out, begins)
}

// The outline of a cone: the base ring, and the lines to the apex if the eye stands outside.
fn cone_outline(
    c: Result<(usize, usize), Refusal>,
    t: Stance,
    r: f64,
    h: f64,
    out: &mut [f64],
    begins: &mut [usize],
) -> Result<(usize, usize), Refusal>
    requires { Fit c out.old begins.old }
    ensures { Adds (Outlines.cone_outline (placement_of t) r h) c out.old begins.old out.new begins.new result }
{
    let c1 = draw_arcs::ring(c, t, draw_arcs::level_at(0.0), r, out, begins);
    let a = t.args;
    let eye = a.eye;
    let e = eye_square(eye);
    let k = cone_side(r, h, eye);
    if e <= k * k {
        return c1;
    }
    slopes(c1, r, k, e, eye, h, out, begins)
}

fn sphere_ring(r: f64, h: f64) -> f64
    ensures { result ≡ Spheres.sphere_ring r h }
{
    r * sqrt::root(h * h - r * r) / h
}

fn sphere_reach(r: f64, h: f64) -> f64
    ensures { result ≡ Spheres.sphere_reach r h }
{
    (h * h - r * r) / h
}

// A vector over its computed length, whatever that is.
fn unit(v: Vector) -> Vector
    ensures { result ≡ Outlines.unit_of v }
{
    v.div_scalar(v.norm())
}

// Where the ring of a sphere lies that is seen along w, so far from the eye.
fn facing(eye: Vector, w: Vector, reach: f64) -> Frame
    ensures { result ≡ Outlines.facing eye w reach }
{
    let center = eye.add(w.mul_scalar(reach));
    let first = unit(w.cross(w.min_axis()));
    let second = w.cross(first);
    Frame {
        center,
        first,
        second,
    }
}

// The outline of a sphere: a ring if the eye stands outside.
fn sphere_outline(
    c: Result<(usize, usize), Refusal>,
    t: Stance,
    center: Vector,
    r: f64,
    out: &mut [f64],
    begins: &mut [usize],
) -> Result<(usize, usize), Refusal>
    requires { Fit c out.old begins.old }
    ensures { Adds (Outlines.sphere_outline (placement_of t) center r) c out.old begins.old out.new begins.new result }
{
    let a = t.args;
    let eye = a.eye;
    let d = center.sub(eye);
    let h = d.norm();
    if r < h {
        let f = facing(eye, unit(d), sphere_reach(r, h));
        return draw_arcs::ring(c, t, f, sphere_ring(r, h), out, begins);
    }
    c
}

// The outline of a solid, after the paths that there are.
pub fn outline(
    c: Result<(usize, usize), Refusal>,
    s: Solid,
    t: Stance,
    out: &mut [f64],
    begins: &mut [usize],
) -> Result<(usize, usize), Refusal>
    requires { Fit c out.old begins.old }
    ensures { Adds (Outlines.outline_of (placement_of t) s) c out.old begins.old out.new begins.new result }
{
    match s {
        Solid::Sphere { center, radius } => sphere_outline(c, t, center, radius, out, begins),
        Solid::Cylinder { radius, z0, z1 } => cylinder_outline(c, t, radius, z0, z1, out, begins),
        Solid::Cone { radius, height } => cone_outline(c, t, radius, height, out, begins),
        Solid::Cube { min: _, max: _ } => c,
        Solid::Triangle {
            v1: _,
            v2: _,
            v3: _,
        } => c,
        Solid::ClosedCylinder { radius, z0, z1 } => {
            cylinder_outline(c, t, radius, z0, z1, out, begins)
        }
        Solid::ClosedCone { radius, height } => cone_outline(c, t, radius, height, out, begins),
    }
}

// The first n matrices of a slice, 16 numbers each by rows, as placings.
fn placings_from(xs: &[f64], n: usize) -> Placings
    requires { (n ≤ 7) × (n * 16 ≤ length xs.now) }
    ensures { placings_of result ≡ matrices_in n xs.now }
{
    let mut p = Placings::none();
    for k in (0..n).rev() {
        p = p.with(scene::entry::matrix_of(rows::read_numbers(xs, k)));
    }
    p
}

fn stance_at(a: RenderArgs, eye: Vector, placings: Placings) -> Stance
    ensures { placement_of result ≡ Calls.placement_at a eye (placings_of placings) }
{
    let screen = a.screen;
    Stance {
        args: RenderArgs {
            screen,
            eye,
            width: a.width,
            height: a.height,
            step: a.step,
        },
        screen: path_chop::screen_of(a),
        placings,
    }
}

// The outline of one solid, in `out` and `begins`, and then zeros: by the eye in its own coordinates and its
// placings, innermost first, 16 numbers each by rows; or why it is refused, and zeros throughout.
pub fn outline_alone(
    solid: Option<Solid>,
    eye: Vector,
    placings: &[f64],
    view: View,
    out: &mut [f64],
    begins: &mut [usize],
) -> Result<(usize, usize), Refusal>
    ensures { Finished (Calls.outline_call solid eye placings.now view (places out.old) (length begins.old)) (length out.old) (length begins.old) out.new begins.new result }
{
    if placings.len() % 16 != 0 {
        return paths::finish(out, begins, Err(Refusal::Lengths));
    }
    match solid {
        Some(s) => {
            let n = placings.len() / 16;
            if n > 7 {
                return paths::finish(out, begins, Err(Refusal::Parts));
            }
            if !view.is_ok() {
                return paths::finish(out, begins, Err(Refusal::View));
            }
            let t = stance_at(view.args(), eye, placings_from(placings, n));
            let r = outline(Ok((0, 0)), s, t, out, begins);
            paths::finish(out, begins, r)
        }
        None => paths::finish(out, begins, Err(Refusal::Values)),
    }
}
