// Whether a point is covered at all: the walk of a tree that stops at the first solid whose distance falls
// short of the eye.
#![tactic(auto)]

ghost use Rattle.std.specs.Prelude.{◌≡◌, ◌+◌, ◌≤◌, Float};
ghost use Rattle.geometry.specs.declared.ray.Ray.{Ray};
ghost use Rattle.tree_walk.specs.Walks.{entry_hit};
ghost use Rattle.tree_cover.specs.Seeking as Seeking;

use geometry::ray::Ray;
use geometry::vector::Vector;
use refusals::Refusal;
use tree_sight::Sight;
use tree_walk::Nearest;

// How far a walk that stops has come: none of the solids fell short, or one did.
#[derive(Clone, Copy)]
pub enum Sought {
    Open(Nearest),
    Covered,
}

// Where a leaf's entries end, as many as are there.
fn leaf_end(first: usize, count: usize, size: usize) -> usize
    requires { first + count ≤ 8589934592 }
    ensures { result ≡ Seeking.leaf_end first count size }
{
    if first + count < size {
        return first + count;
    }
    size
}

// The walk up to the first solid whose distance falls short of `far`: left by its label, from inside its leaf.
pub fn seek(
    numbers: &[f64],
    inverses: &[f64],
    marks: &[u32],
    node_boxes: &[f64],
    node_marks: &[u32],
    order: &[u32],
    r: Ray,
    far: f64,
) -> Result<Sought, Refusal>
    ensures { result ≡ Seeking.seek_rows far (entry_hit numbers.now inverses.now marks.now r) r node_boxes.now node_marks.now order.now }
{
    let many = tree_nodes::places(node_boxes, node_marks);
    let size = order.len();
    let mut best = tree_walk::nothing();
    let mut stack = [0usize; 64];
    let mut sp = 1usize;
    let mut rounds = many;
    // the labelled loop of docs/DECISIONS.md, "Language forms by place"
    'walk: loop {
        if rounds == 0 {
            return Ok(Sought::Open(best));
        }
        rounds -= 1;
        if sp == 0 {
            return Ok(Sought::Open(best));
        }
        sp -= 1;
        let i = stack[sp];
        if i >= many {
            continue;
        }
        let bx = rows::read_box(node_boxes, i);
        if tree_walk::skip(bx, r, best.hit.t) {
            continue;
        }
        let n = rows::read_triple(node_marks, i);
        let first = rows::index(n.a);
        if tree_walk::is_leaf(n.b, n.c) {
            let last = leaf_end(first, rows::index(n.b), size);
            for at in first..last {
                let e = order[at];
                let h = tree_walk::entry_hit(numbers, inverses, marks, r, rows::index(e))?;
                if h.t < far {
                    break 'walk;
                }
                best = tree_walk::nearer(e, h, best);
            }
            continue;
        }
        if sp > 62 {
            return Err(Refusal::Waiting);
        }
        let c = tree_walk::sided(first, tree_walk::backward(r, n.c));
        stack[sp] = c.far;
        stack[sp + 1] = c.near;
        sp += 2;
    }
    Ok(Sought::Covered)
}

fn uncovered(s: Result<Sought, Refusal>) -> Result<Sight, Refusal>
    ensures { result ≡ Seeking.by_sought s }
{
    match s? {
        Sought::Open(_) => Ok(Sight::Visible),
        Sought::Covered => Ok(Sight::Hidden),
    }
}

// The eye test by the walk that stops.
pub fn covered(
    numbers: &[f64],
    inverses: &[f64],
    marks: &[u32],
    node_boxes: &[f64],
    node_marks: &[u32],
    order: &[u32],
    eye: Vector,
    point: Vector,
) -> Result<Sight, Refusal>
    ensures { result ≡ Seeking.covered_by (λ (d : Float) (r : Ray). Seeking.seek_rows d (entry_hit numbers.now inverses.now marks.now r) r node_boxes.now node_marks.now order.now) eye point }
{
    let v = eye.sub(point);
    let distance = v.norm();
    if distance == 0.0 {
        return Ok(Sight::Visible);
    }
    let r = Ray::new(point, v.div_scalar(distance));
    let a = seek(
        numbers, inverses, marks, node_boxes, node_marks, order, r, distance,
    );
    uncovered(a)
}
