// The nearest hit of a ray: the walk of a tree in lent slices (tree.rs).
#![tactic(auto)]

ghost use Rattle.std.specs.Prelude.{◌≡◌, ◌||◌, ◌+◌, ◌*◌, ◌≤◌, ◌<◌, length, take, drop, eqb, ltb};
ghost use Rattle.geometry.specs.Boxes.{box_test, skips};
ghost use Rattle.rows.specs.Rows.{row};
ghost use Rattle.rows.specs.Points.{box_of_row};
ghost use Rattle.tree_walk.specs.Walks as Walks;

use geometry::bounding_box::BBox;
use geometry::hit::Hit;
use geometry::ray::Ray;
use refusals::Refusal;

// The best hit and the entry whose t last became the best: 0xffffffff, which no entry is, where none did.
#[derive(Clone, Copy)]
pub struct Nearest {
    pub hit: Hit,
    pub entry: u32,
}

// The places of a split's children.
#[derive(Clone, Copy)]
pub struct Children {
    pub near: usize,
    pub far: usize,
}

// The best before any solid is tried.
pub fn nothing() -> Nearest
    ensures { result ≡ Walks.nothing }
{
    Nearest {
        hit: Hit {
            t: Hit::INF,
            ok: false,
        },
        entry: 0xffffffff,
    }
}

// The hit that the solid at entry i gives the ray by itself.
pub fn entry_hit(
    numbers: &[f64],
    inverses: &[f64],
    marks: &[u32],
    r: Ray,
    i: usize,
) -> Result<Hit, Refusal>
    ensures { result ≡ Walks.entry_hit numbers.now inverses.now marks.now r i }
{
    scene_shape::entry_hit(numbers, inverses, marks, i, r, 8)
}

pub fn nearer(i: u32, h: Hit, best: Nearest) -> Nearest
    ensures { result ≡ Walks.nearer i h best }
{
    if h.t < best.hit.t {
        return Nearest { hit: h, entry: i };
    }
    best
}

fn tried(i: u32, a: Result<Hit, Refusal>, best: Nearest) -> Result<Nearest, Refusal>
    ensures { result ≡ Walks.tried i a best }
{
    let h = a?;
    Ok(nearer(i, h, best))
}

// The entries of a leaf in order, as many as are there.
fn scan(
    numbers: &[f64],
    inverses: &[f64],
    marks: &[u32],
    order: &[u32],
    first: usize,
    count: usize,
    r: Ray,
    best: Nearest,
) -> Result<Nearest, Refusal>
    requires { first + count ≤ 8589934592 }
    ensures { result ≡ Walks.scan (Walks.entry_hit numbers.now inverses.now marks.now r) (take count (drop first order.now)) best }
{
    let n = order.len();
    let mut b = best;
    for k in 0usize..count {
        let at = first + k;
        if at >= n {
            return Ok(b);
        }
        let i = order[at];
        b = tried(i, entry_hit(numbers, inverses, marks, r, rows::index(i)), b)?;
    }
    Ok(b)
}

// Whether the walk passes a box by.
pub fn skip(b: BBox, r: Ray, best: f64) -> bool
    ensures { result ≡ skips (box_test b r) best }
{
    let s = b.intersect(r);
    if s.tmax < s.tmin {
        return true;
    }
    if s.tmax <= 0.0 {
        return true;
    }
    s.tmin >= best
}

// Whether the walk passes a box in a row by.
fn skip_row(xs: &[f64], i: usize, r: Ray, best: f64) -> bool
    requires { i * 6 + 6 ≤ length xs.now }
    ensures { result ≡ skips (box_test (box_of_row (row 6 i xs.now)) r) best }
{
    let b = rows::read_box(xs, i);
    skip(b, r, best)
}

pub fn is_leaf(count: u32, axis: u32) -> bool
    ensures { result ≡ (eqb axis 0 || ltb 0 count) }
{
    if axis == 0 {
        return true;
    }
    count > 0
}

pub fn backward(r: Ray, axis: u32) -> bool
    ensures { result ≡ Walks.backward r axis }
{
    if axis == 1 {
        return r.direction.x < 0.0;
    }
    if axis == 2 {
        return r.direction.y < 0.0;
    }
    r.direction.z < 0.0
}

// The first child stands at a, the second one after it.
pub fn sided(a: usize, back: bool) -> Children
    requires { a < 4294967296 }
    ensures { result ≡ Walks.children_of a back }
{
    let b = a + 1;
    if back {
        return Children { near: b, far: a };
    }
    Children { near: a, far: b }
}

// The nearest hit of the solids in a tree, over the entries of a scene with their inverses.
pub fn intersect(
    numbers: &[f64],
    inverses: &[f64],
    marks: &[u32],
    node_boxes: &[f64],
    node_marks: &[u32],
    order: &[u32],
    r: Ray,
) -> Result<Nearest, Refusal>
    ensures { result ≡ Walks.walk_rows (Walks.entry_hit numbers.now inverses.now marks.now r) r node_boxes.now node_marks.now order.now }
{
    let many = tree_nodes::places(node_boxes, node_marks);
    let mut best = nothing();
    let mut stack = [0usize; 64];
    let mut sp = 1usize;
    for _ in 0..many {
        if sp == 0 {
            return Ok(best);
        }
        sp -= 1;
        let i = stack[sp];
        if i >= many {
            continue;
        }
        if skip_row(node_boxes, i, r, best.hit.t) {
            continue;
        }
        let n = rows::read_triple(node_marks, i);
        let first = rows::index(n.a);
        if is_leaf(n.b, n.c) {
            best = scan(
                numbers,
                inverses,
                marks,
                order,
                first,
                rows::index(n.b),
                r,
                best,
            )?;
            continue;
        }
        if sp > 62 {
            return Err(Refusal::Waiting);
        }
        let c = sided(first, backward(r, n.c));
        stack[sp] = c.far;
        stack[sp + 1] = c.near;
        sp += 2;
    }
    Ok(best)
}
