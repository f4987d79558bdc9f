// Lines added to the paths that two lent slices hold: those of cubes and triangles, and handed-in ones.
#![tactic(auto)]

ghost use Rattle.std.specs.Prelude.{◌≡◌, [], ◌∷◌, ◌*◌, ◌≤◌, ◌<◌, length, eqb};
ghost use Rattle.std.proofs.Math.Seq.{slice};
ghost use Rattle.paths.specs.Paths.{one_path, paths_of};
ghost use Rattle.paths.specs.Ends.{places, all_points, held, EndsBoth};
ghost use Rattle.draw_lines.specs.Pushing.{copied, add_paths, Fit, Adds};
ghost use Rattle.draw_lines.specs.Cubes as Cubes;
ghost use Rattle.draw_lines.specs.Lines.{triangle_paths, owned_by, own_path, own_paths};

use geometry::vector::Vector;
use refusals::Refusal;

// A path of the points from `from` up to `end` is opened, filled and closed.
fn one_path(
    path: &[f64],
    from: usize,
    end: usize,
    out: &mut [f64],
    begins: &mut [usize],
    n: usize,
    m: usize,
) -> Result<(usize, usize), Refusal>
    requires { (from ≤ end) × (end * 3 ≤ length path.now) × (n * 3 ≤ length out.old) × (m ≤ length begins.old) }
    ensures { EndsBoth (one_path copied (places out.old) (length begins.old) (slice from end (all_points path.now)) (held n out.old m begins.old)) out.new begins.new result }
{
    let q = paths::new_path(begins, m, n)?;
    let l = paths::extend(path, from, end, out, n)?;
    let z = paths::close(begins, q, l);
    Ok((l, z))
}

// A path of two points, unless there was trouble before.
pub fn line(
    c: Result<(usize, usize), Refusal>,
    a: Vector,
    b: Vector,
    out: &mut [f64],
    begins: &mut [usize],
) -> Result<(usize, usize), Refusal>
    requires { Fit c out.old begins.old }
    ensures { Adds ((a ∷ b ∷ []) ∷ []) c out.old begins.old out.new begins.new result }
{
    let (n, m) = c?;
    let path = [a.x, a.y, a.z, b.x, b.y, b.z];
    one_path(&path, 0, 2, out, begins, n, m)
}

// Where a stripe of a cube lies, from either end.
#[derive(Clone, Copy)]
struct Along {
    x: f64,
    y: f64,
    u: f64,
    v: f64,
}

fn stripe_at(min: Vector, max: Vector, stripes: u32, i: u32) -> Along
    ensures { result ≡ Cubes.stripe_at min max stripes i }
{
    let p = (i as f64) / (stripes as f64);
    Along {
        x: min.x + (max.x - min.x) * p,
        y: min.y + (max.y - min.y) * p,
        u: max.x - (max.x - min.x) * p,
        v: max.y - (max.y - min.y) * p,
    }
}

// A line on each side.
fn sides(
    c: Result<(usize, usize), Refusal>,
    min: Vector,
    max: Vector,
    s: Along,
    out: &mut [f64],
    begins: &mut [usize],
) -> Result<(usize, usize), Refusal>
    requires { Fit c out.old begins.old }
    ensures { Adds (Cubes.sides min max s) c out.old begins.old out.new begins.new result }
{
    let c1 = line(
        c,
        Vector::new(s.x, min.y, min.z),
        Vector::new(s.x, min.y, max.z),
        out,
        begins,
    );
    let c2 = line(
        c1,
        Vector::new(s.u, max.y, min.z),
        Vector::new(s.u, max.y, max.z),
        out,
        begins,
    );
    let c3 = line(
        c2,
        Vector::new(min.x, s.v, min.z),
        Vector::new(min.x, s.v, max.z),
        out,
        begins,
    );
    line(
        c3,
        Vector::new(max.x, s.y, min.z),
        Vector::new(max.x, s.y, max.z),
        out,
        begins,
    )
}

// Two lines on the face at z.
fn across(
    c: Result<(usize, usize), Refusal>,
    s: Along,
    z: f64,
    out: &mut [f64],
    begins: &mut [usize],
) -> Result<(usize, usize), Refusal>
    requires { Fit c out.old begins.old }
    ensures { Adds (Cubes.across s z) c out.old begins.old out.new begins.new result }
{
    let c1 = line(
        c,
        Vector::new(s.x, s.y, z),
        Vector::new(s.u, s.y, z),
        out,
        begins,
    );
    line(
        c1,
        Vector::new(s.x, s.y, z),
        Vector::new(s.x, s.v, z),
        out,
        begins,
    )
}

fn faces(
    c: Result<(usize, usize), Refusal>,
    min: Vector,
    max: Vector,
    s: Along,
    out: &mut [f64],
    begins: &mut [usize],
) -> Result<(usize, usize), Refusal>
    requires { Fit c out.old begins.old }
    ensures { Adds (Cubes.faces min max s) c out.old begins.old out.new begins.new result }
{
    let c1 = across(c, s, min.z, out, begins);
    across(c1, s, max.z, out, begins)
}

// The lines of stripe i; the last one has none on the sides.
fn stripe(
    min: Vector,
    max: Vector,
    stripes: u32,
    i: u32,
    out: &mut [f64],
    begins: &mut [usize],
    n: usize,
    m: usize,
) -> Result<(usize, usize), Refusal>
    requires { (n * 3 ≤ length out.old) × (m ≤ length begins.old) }
    ensures { EndsBoth (add_paths (places out.old) (length begins.old) (Cubes.stripe min max stripes i) (held n out.old m begins.old)) out.new begins.new result }
{
    let s = stripe_at(min, max, stripes, i);
    if i != stripes {
        let c = sides(Ok((n, m)), min, max, s, out, begins);
        return faces(c, min, max, s, out, begins);
    }
    faces(Ok((n, m)), min, max, s, out, begins)
}

// The lines of a cube with so many stripes, after n points and m starts.
pub fn paths_striped(
    min: Vector,
    max: Vector,
    stripes: u32,
    out: &mut [f64],
    begins: &mut [usize],
    n: usize,
    m: usize,
) -> Result<(usize, usize), Refusal>
    requires { (n * 3 ≤ length out.old) × (m ≤ length begins.old) }
    ensures { EndsBoth (add_paths (places out.old) (length begins.old) (Cubes.paths_striped min max stripes) (held n out.old m begins.old)) out.new begins.new result }
{
    let mut p = n;
    let mut q = m;
    for i in 0..stripes {
        (p, q) = stripe(min, max, stripes, i, out, begins, p, q)?;
    }
    stripe(min, max, stripes, stripes, out, begins, p, q)
}

// A triangle is one path, back to its first corner.
pub fn triangle_paths(
    v1: Vector,
    v2: Vector,
    v3: Vector,
    out: &mut [f64],
    begins: &mut [usize],
    n: usize,
    m: usize,
) -> Result<(usize, usize), Refusal>
    requires { (n * 3 ≤ length out.old) × (m ≤ length begins.old) }
    ensures { EndsBoth (add_paths (places out.old) (length begins.old) (triangle_paths v1 v2 v3) (held n out.old m begins.old)) out.new begins.new result }
{
    let path = [
        v1.x, v1.y, v1.z, v2.x, v2.y, v2.z, v3.x, v3.y, v3.z, v1.x, v1.y, v1.z,
    ];
    one_path(&path, 0, 4, out, begins, n, m)
}

fn is_entry(owner: u32, i: usize) -> bool
    ensures { result ≡ eqb owner i }
{
    owner as usize == i
}

// Whether entry i owns handed-in path j.
pub fn owned(owners: &[u32], j: usize, i: usize) -> bool
    ensures { result ≡ owned_by owners.now j i }
{
    if j < owners.len() {
        return is_entry(owners[j], i);
    }
    false
}

// Handed-in path j, if entry i owns it.
fn own_path(
    points: &[f64],
    starts: &[usize],
    owners: &[u32],
    j: usize,
    i: usize,
    out: &mut [f64],
    begins: &mut [usize],
    n: usize,
    m: usize,
) -> Result<(usize, usize), Refusal>
    requires { (j < length starts.now) × (n * 3 ≤ length out.old) × (m ≤ length begins.old) }
    ensures { EndsBoth (add_paths (places out.old) (length begins.old) (own_path i j (all_points points.now) starts.now owners.now) (held n out.old m begins.old)) out.new begins.new result }
{
    if !owned(owners, j, i) {
        return Ok((n, m));
    }
    let p = paths::range_of(starts, j, points.len() / 3);
    one_path(points, p.from, p.end, out, begins, n, m)
}

// The handed-in paths of entry i, in order.
pub fn handed_paths(
    points: &[f64],
    starts: &[usize],
    owners: &[u32],
    i: usize,
    out: &mut [f64],
    begins: &mut [usize],
    n: usize,
    m: usize,
) -> Result<(usize, usize), Refusal>
    requires { (n * 3 ≤ length out.old) × (m ≤ length begins.old) }
    ensures { EndsBoth (add_paths (places out.old) (length begins.old) (own_paths i (paths_of (all_points points.now) starts.now) owners.now) (held n out.old m begins.old)) out.new begins.new result }
{
    let mut p = n;
    let mut q = m;
    for j in 0..starts.len() {
        (p, q) = own_path(points, starts, owners, j, i, out, begins, p, q)?;
    }
    Ok((p, q))
}
