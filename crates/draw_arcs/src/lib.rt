// Rings in space: the points of a ring around a centre, pushed piece by piece.
#![tactic(auto)]

ghost use Rattle.std.specs.Prelude.{◌≡◌, [], ◌∷◌, map, ◌+◌, ◌-◌, ◌*◌, ◌≤◌, length, replicate, set};
ghost use Rattle.matrix.specs.Matrices.{identity_m};
ghost use Rattle.rows.specs.Points.{points};
ghost use Rattle.paths.specs.Paths.{push_all, one_path};
ghost use Rattle.paths.specs.Ends.{places, Ends, held, EndsBoth};
ghost use Rattle.draw_lines.specs.Pushing.{copied, Fit, Adds};
ghost use Rattle.draw_rings.specs.Pieces as Pieces;
ghost use Rattle.draw_arcs.specs.Stances as Stances;
ghost use Rattle.draw_arcs.specs.Rings as Rings;
ghost use Rattle.draw_arcs.specs.Runs.{FitPoints, Pushes};

use geometry::vector::Vector;
use matrix::Matrix;
use path_chop::{Screen, Spot};
use refusals::Refusal;
use view::RenderArgs;

// The placings around a solid, innermost first: what the places after the `free` ones hold. A scene nests at most
// 8 deep, so 8 places are enough.
#[derive(Clone, Copy)]
pub struct Placings {
    pub free: usize,
    pub held: [Matrix; 8],
}

impl Placings {
    pub fn none() -> Placings
        ensures { (Stances.placings_of result ≡ []) × (result.free ≡ 8) × (result.held ≡ replicate 8 identity_m) }
    {
        let m = Matrix::identity();
        let held = [m; 8];
        Placings { free: 8, held }
    }

    // One more, inside the others.
    pub fn with(self, m: Matrix) -> Placings
        requires { (1 ≤ self.free) × (self.free ≤ 8) }
        ensures { (Stances.placings_of result ≡ m ∷ Stances.placings_of self) × (result.free + 1 ≡ self.free) × (result.held ≡ set self.held (self.free - 1) m) }
    {
        let at = self.free - 1;
        let mut held = self.held;
        held[at] = m;
        Placings { free: at, held }
    }

    // A point moved by one placing after the other, innermost first.
    fn moved(self, v: Vector) -> Vector
        ensures { result ≡ Stances.moved_by (Stances.placings_of self) v }
    {
        let held = self.held;
        let mut p = v;
        for i in self.free..8 {
            let m = held[i];
            p = m.mul_position(p);
        }
        p
    }
}

// Where a solid stands: the arguments as it sees them (the eye taken back, the screen times the placings),
// the view's own screen, and the placings.
#[derive(Clone, Copy)]
pub struct Stance {
    pub args: RenderArgs,
    pub screen: Screen,
    pub placings: Placings,
}

// That of a solid that is not placed.
pub fn stance_of(a: RenderArgs) -> Stance
    ensures { (Stances.placement_of result ≡ Stances.unplaced a) × (result.placings.free ≡ 8) × (result.placings.held ≡ replicate 8 identity_m) }
{
    Stance {
        args: a,
        screen: path_chop::screen_of(a),
        placings: Placings::none(),
    }
}

// The arguments of a placed part, with its matrix and its inverse.
fn placed_args(m: Matrix, v: Matrix, a: RenderArgs) -> RenderArgs
    ensures { result ≡ Stances.placed_args m v a }
{
    let screen = a.screen;
    let eye = a.eye;
    RenderArgs {
        screen: screen.mul(m),
        eye: v.mul_position(eye),
        width: a.width,
        height: a.height,
        step: a.step,
    }
}

// Where a placed part stands.
pub fn placed_stance(m: Matrix, v: Matrix, t: Stance) -> Stance
    requires { (1 ≤ t.placings.free) × (t.placings.free ≤ 8) }
    ensures { (Stances.placement_of result ≡ Stances.placed_part m v (Stances.placement_of t)) × (result.placings.free + 1 ≡ t.placings.free) × (result.placings.held ≡ set t.placings.held (t.placings.free - 1) m) }
{
    let screen = t.screen;
    let placings = t.placings;
    Stance {
        args: placed_args(m, v, t.args),
        screen,
        placings: placings.with(m),
    }
}

// A ring's centre and its two axes.
#[derive(Clone, Copy)]
pub struct Frame {
    pub center: Vector,
    pub first: Vector,
    pub second: Vector,
}

// Around the z axis, at height z.
pub fn level_at(z: f64) -> Frame
    ensures { result ≡ Rings.level_at z }
{
    Frame {
        center: Vector::new(0.0, 0.0, z),
        first: Vector::new(1.0, 0.0, 0.0),
        second: Vector::new(0.0, 1.0, 0.0),
    }
}

fn ring_point(f: Frame, p: Vector) -> Vector
    ensures { result ≡ Rings.ring_point f p }
{
    let c = f.center;
    let u = f.first;
    let v = f.second;
    c.add(u.mul_scalar(p.x)).add(v.mul_scalar(p.y))
}

// A point as placed, and where the view's own screen matrix shows it.
fn placed_spot(t: Stance, v: Vector) -> Spot
    ensures { result ≡ Rings.placed_spot (Stances.placement_of t) v }
{
    let placings = t.placings;
    path_chop::spot_of(t.screen, placings.moved(v))
}

// Whether a piece is not halved; at step 0 no rule says so.
fn ends_halving(stepping: bool, t: Stance, f: Frame, p: Vector, q: Vector) -> bool
    ensures { result ≡ Rings.ends_halving stepping (Stances.placement_of t) f p q }
{
    if stepping {
        let a = placed_spot(t, ring_point(f, p));
        let b = placed_spot(t, ring_point(f, q));
        return path_chop::stops(t.screen, a, b);
    }
    false
}

// The middle of a piece, unless its ends' sum has computed length 0.
fn ring_middle(radius: f64, p: Vector, q: Vector) -> Option<Vector>
    ensures { result ≡ Pieces.ring_middle radius p q }
{
    let v = p.add(q).normalize()?;
    Some(v.mul_scalar(radius))
}

// The ends of the pieces from p to q go after the first n points; `depth` nested halvings are left.
fn pieces(
    stepping: bool,
    t: Stance,
    f: Frame,
    radius: f64,
    p: Vector,
    q: Vector,
    depth: usize,
    out: &mut [f64],
    n: usize,
) -> Result<usize, Refusal>
    requires { n * 3 ≤ length out.old }
    ensures { Ends (push_all (places out.old) (points n out.old) (map (Rings.ring_point f) (Pieces.pieces (Rings.ends_halving stepping (Stances.placement_of t) f) radius depth p q))) out.new result }
{
    if depth == 0 {
        return paths::push(out, n, ring_point(f, q));
    }
    if ends_halving(stepping, t, f, p, q) {
        return paths::push(out, n, ring_point(f, q));
    }
    let m = ring_middle(radius, p, q);
    match m {
        None => paths::push(out, n, ring_point(f, q)),
        Some(v) => {
            let i = pieces(stepping, t, f, radius, p, v, depth - 1, out, n)?;
            pieces(stepping, t, f, radius, v, q, depth - 1, out, i)
        }
    }
}

fn ring_depth(stepping: bool) -> usize
    ensures { result ≡ Rings.ring_depth stepping }
{
    if stepping { 8 } else { 5 }
}

// The pieces of a quarter, unless there was trouble before.
fn quarter(
    c: Result<usize, Refusal>,
    stepping: bool,
    t: Stance,
    f: Frame,
    radius: f64,
    p: Vector,
    q: Vector,
    depth: usize,
    out: &mut [f64],
) -> Result<usize, Refusal>
    requires { FitPoints c out.old }
    ensures { Pushes (map (Rings.ring_point f) (Pieces.pieces (Rings.ends_halving stepping (Stances.placement_of t) f) radius depth p q)) c out.old out.new result }
{
    let n = c?;
    pieces(stepping, t, f, radius, p, q, depth, out, n)
}

// A ring's points after the first n.
fn ring_points(
    stepping: bool,
    t: Stance,
    f: Frame,
    radius: f64,
    out: &mut [f64],
    n: usize,
) -> Result<usize, Refusal>
    requires { n * 3 ≤ length out.old }
    ensures { Ends (push_all (places out.old) (points n out.old) (Rings.ring_in stepping (Stances.placement_of t) f radius)) out.new result }
{
    let depth = ring_depth(stepping);
    let east = Vector::new(radius, 0.0, 0.0);
    let north = Vector::new(0.0, radius, 0.0);
    let west = Vector::new(-radius, 0.0, 0.0);
    let south = Vector::new(0.0, -radius, 0.0);
    let c0 = paths::push(out, n, ring_point(f, east));
    let c1 = quarter(c0, stepping, t, f, radius, east, north, depth, out);
    let c2 = quarter(c1, stepping, t, f, radius, north, west, depth, out);
    let c3 = quarter(c2, stepping, t, f, radius, west, south, depth, out);
    quarter(c3, stepping, t, f, radius, south, east, depth, out)
}

// A path is opened, filled with a ring's points and closed.
fn one_ring(
    stepping: bool,
    t: Stance,
    f: Frame,
    radius: f64,
    out: &mut [f64],
    begins: &mut [usize],
    n: usize,
    m: usize,
) -> Result<(usize, usize), Refusal>
    requires { (n * 3 ≤ length out.old) × (m ≤ length begins.old) }
    ensures { EndsBoth (one_path copied (places out.old) (length begins.old) (Rings.ring_in stepping (Stances.placement_of t) f radius) (held n out.old m begins.old)) out.new begins.new result }
{
    let q = paths::new_path(begins, m, n)?;
    let l = ring_points(stepping, t, f, radius, out, n)?;
    let z = paths::close(begins, q, l);
    Ok((l, z))
}

// A ring, unless there was trouble before.
pub fn ring(
    c: Result<(usize, usize), Refusal>,
    t: Stance,
    f: Frame,
    radius: f64,
    out: &mut [f64],
    begins: &mut [usize],
) -> Result<(usize, usize), Refusal>
    requires { Fit c out.old begins.old }
    ensures { Adds (Rings.ring_of (Stances.placement_of t) f radius ∷ []) c out.old begins.old out.new begins.new result }
{
    let (n, m) = c?;
    let a = t.args;
    one_ring(0.0 < a.step, t, f, radius, out, begins, n, m)
}
