// Hits and insides of the solids of a scene: placed parts (shape.rs) and cuts (csg.rs), whose parts may
// be such themselves.
#![tactic(auto)]

ghost use Rattle.std.specs.Prelude.{◌≡◌, ◌⊎◌, false, ◌+◌, ◌*◌, ◌≤◌, ◌<◌, length};
ghost use Rattle.scene_shape.specs.Cuts as Cuts;
ghost use Rattle.scene.specs.Entries.{matrix_of, parts_of, marks_at, numbers_at};
ghost use Rattle.scene_shape.specs.Meetings.{meeting_of, told_by, placing};
ghost use Rattle.scene_shape.specs.Shapes.{decode, shape_contains, shape_hit, cut_hit};

use geometry::hit::Hit;
use geometry::ray::Ray;
use geometry::vector::Vector;
use refusals::Refusal;
use scene::entry::{Op, Parts};

// An answer as it is, by its fields: copied whole, its hit's flag would be read as a word where a byte was written,
// which waits.
fn by_fields(a: Result<Hit, Refusal>) -> Result<Hit, Refusal>
    ensures { result ≡ a }
{
    let h = a?;
    Ok(Hit { t: h.t, ok: h.ok })
}

// The first refusal, or the nearer hit.
fn both(a: Result<Hit, Refusal>, b: Result<Hit, Refusal>) -> Result<Hit, Refusal>
    ensures { result ≡ Cuts.both a b }
{
    let g = a?;
    let h = b?;
    Ok(g.min(h))
}

// The ray put again from 0.01 beyond t.
fn restarted(r: Ray, t: f64) -> Ray
    ensures { result ≡ Cuts.restarted r t }
{
    Ray::new(r.position(t + 0.01), r.direction)
}

// The hit with its distance from the first origin, `sum` before the ray's; a miss unchanged.
fn from_first(sum: f64, h: Hit) -> Hit
    ensures { result ≡ Cuts.from_first sum h }
{
    if h.ok {
        return Hit {
            t: sum + h.t,
            ok: true,
        };
    }
    h
}

// What a cut answers for a hit that it accepts.
fn tell_of(op: Op, sum: f64, h: Hit) -> Hit
    ensures { result ≡ Cuts.tell_of op sum h }
{
    match op {
        Op::Intersection => h,
        Op::Difference => h,
        Op::TrueIntersection => from_first(sum, h),
        Op::TrueDifference => from_first(sum, h),
    }
}

// Whether an operation takes the second part away from the first.
fn takes_away(op: Op) -> bool
    ensures { result ≡ Cuts.takes_away op }
{
    match op {
        Op::Intersection => false,
        Op::Difference => true,
        Op::TrueIntersection => false,
        Op::TrueDifference => true,
    }
}

// Whether the solid at entry i, nested at most `depth` deep, contains p, widened by f.
#[cycle(contains)]
pub fn entry_contains(
    numbers: &[f64],
    inverses: &[f64],
    marks: &[u32],
    i: usize,
    p: Vector,
    f: f64,
    depth: usize,
) -> bool
    ensures { result ≡ shape_contains (decode depth numbers.now inverses.now marks.now i) p f }
{
    if depth == 0 {
        return false;
    }
    if !scene::entry::is_there(numbers, inverses, marks, i) {
        return false;
    }
    let s = scene::entry::simple_at(numbers, marks, i);
    match s {
        Some(solid) => solid.contains(p, f),
        None => {
            let e = scene::entry::parts_at(marks, i);
            match e {
                Some(Parts::Placed(k)) => {
                    let v = scene::entry::matrix_at(inverses, i);
                    entry_contains(numbers, inverses, marks, k, v.mul_position(p), f, depth - 1)
                }
                Some(Parts::Cut(op, a, b)) => cut_contains(
                    numbers,
                    inverses,
                    marks,
                    op,
                    a,
                    b,
                    p,
                    depth - 1,
                ),
                None => false,
            }
        }
    }
}

#[cycle(contains)]
fn cut_contains(
    numbers: &[f64],
    inverses: &[f64],
    marks: &[u32],
    op: Op,
    a: usize,
    b: usize,
    p: Vector,
    depth: usize,
) -> bool
    ensures { result ≡ Cuts.cut_contains op (shape_contains (decode depth numbers.now inverses.now marks.now a)) (shape_contains (decode depth numbers.now inverses.now marks.now b)) p }
{
    if !entry_contains(numbers, inverses, marks, a, p, 1e-3, depth) {
        return false;
    }
    if takes_away(op) {
        return !entry_contains(numbers, inverses, marks, b, p, -1e-3, depth);
    }
    entry_contains(numbers, inverses, marks, b, p, 1e-3, depth)
}

// Where a ray meets entry i, of which `depth` levels are left: at the part of a placing, turned, with its scale; at any
// other entry itself. So a solid, placed or not, is hit at one and the same place of the code, and a turned ray need not
// go through memory.
#[derive(Clone, Copy)]
pub struct Meeting {
    pub i: usize,
    pub ray: Ray,
    pub placed: bool,
    pub scale: f64,
    pub depth: usize,
}

fn met_at(inverses: &[f64], marks: &[u32], i: usize, r: Ray, depth: usize) -> Meeting
    requires { (i * 16 + 16 ≤ length inverses.now) × (i * 4 + 4 ≤ length marks.now) × (depth ≡ 0 → ⊥) }
    ensures { result ≡ meeting_of (matrix_of (numbers_at inverses.now i)) (parts_of (marks_at marks.now i)) i r depth }
{
    let e = scene::entry::parts_at(marks, i);
    match e {
        Some(Parts::Placed(k)) => {
            let q = scene::entry::matrix_at(inverses, i).mul_ray(r);
            let ray = q.ray;
            Meeting {
                i: k,
                ray,
                placed: true,
                scale: q.scale,
                depth: depth - 1,
            }
        }
        Some(Parts::Cut(_, _, _)) => Meeting {
            i,
            ray: r,
            placed: false,
            scale: 1.0,
            depth,
        },
        None => Meeting {
            i,
            ray: r,
            placed: false,
            scale: 1.0,
            depth,
        },
    }
}

// The part's answer as the entry's: over the scale, where the entry is a placing. By its fields.
fn told(placed: bool, scale: f64, a: Result<Hit, Refusal>) -> Result<Hit, Refusal>
    ensures { result ≡ told_by placed scale a }
{
    let h = a?;
    let mut t = h.t;
    if placed {
        t = t / scale;
    }
    Ok(Hit { t, ok: h.ok })
}

// The hit of entry i, of which `depth` levels are left, `above` where it was met: a placing is met a level down.
#[cycle(hit)]
fn part_hit(
    numbers: &[f64],
    inverses: &[f64],
    marks: &[u32],
    i: usize,
    r: Ray,
    depth: usize,
    above: usize,
) -> Result<Hit, Refusal>
    requires { (depth < above) ⊎ ((depth ≡ above) × (placing (parts_of (marks_at marks.now i)) ≡ false)) }
    ensures { result ≡ shape_hit (decode depth numbers.now inverses.now marks.now i) r }
{
    if depth == 0 {
        return Ok(Hit::no_hit());
    }
    if !scene::entry::is_there(numbers, inverses, marks, i) {
        return Ok(Hit::no_hit());
    }
    let s = scene::entry::simple_at(numbers, marks, i);
    match s {
        Some(solid) => Ok(solid.intersect(r.again())),
        None => {
            let e = scene::entry::parts_at(marks, i);
            match e {
                Some(Parts::Placed(_)) => entry_hit(numbers, inverses, marks, i, r.again(), depth),
                Some(Parts::Cut(op, a, b)) => cut_hit(
                    numbers,
                    inverses,
                    marks,
                    op,
                    a,
                    b,
                    r.again(),
                    depth - 1,
                    64,
                    0.0,
                ),
                None => Ok(Hit::no_hit()),
            }
        }
    }
}

// The hit that the solid at entry i, nested at most `depth` deep, gives a ray.
#[cycle(hit)]
pub fn entry_hit(
    numbers: &[f64],
    inverses: &[f64],
    marks: &[u32],
    i: usize,
    r: Ray,
    depth: usize,
) -> Result<Hit, Refusal>
    ensures { result ≡ shape_hit (decode depth numbers.now inverses.now marks.now i) r }
{
    if depth == 0 {
        return Ok(Hit::no_hit());
    }
    if !scene::entry::is_there(numbers, inverses, marks, i) {
        return Ok(Hit::no_hit());
    }
    let q = met_at(inverses, marks, i, r, depth);
    let ray = q.ray;
    told(
        q.placed,
        q.scale,
        part_hit(numbers, inverses, marks, q.i, ray, q.depth, depth),
    )
}

// The hit of a cut, with so many restarts left, for a ray that starts `sum` beyond the first origin.
#[cycle(hit)]
fn cut_hit(
    numbers: &[f64],
    inverses: &[f64],
    marks: &[u32],
    op: Op,
    a: usize,
    b: usize,
    r: Ray,
    depth: usize,
    restarts: usize,
    sum: f64,
) -> Result<Hit, Refusal>
    ensures { result ≡ cut_hit op restarts (decode depth numbers.now inverses.now marks.now) a b sum r }
{
    let ha = entry_hit(numbers, inverses, marks, a, r.again(), depth);
    let hb = entry_hit(numbers, inverses, marks, b, r.again(), depth);
    let h = both(ha, hb)?;
    if !h.is_ok() {
        return by_fields(Ok(tell_of(op, sum, h)));
    }
    if cut_contains(numbers, inverses, marks, op, a, b, r.position(h.t), depth) {
        return by_fields(Ok(tell_of(op, sum, h)));
    }
    if restarts == 0 {
        return Err(Refusal::Restarts);
    }
    by_fields(cut_hit(
        numbers,
        inverses,
        marks,
        op,
        a,
        b,
        restarted(r, h.t),
        depth,
        restarts - 1,
        sum + (h.t + 0.01),
    ))
}
