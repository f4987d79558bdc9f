// The eye test by a glance: a walk that leaves out what cannot change its answer. It tells boxes that the ray misses
// by products, stops at the first solid that falls short where no refusal can follow, and tries the solid
// that hid the last point first. Where it is not sure, and answers `None`, the full walk answers.
#![tactic(auto)]

ghost use Rattle.std.specs.Prelude.{◌≡◌, ◌⊎◌, true, false, [], ◌+◌, ◌*◌, ◌≤◌, ◌<◌, length, get_or, take, drop, T};
ghost use Rattle.std.specs.Float.Ieee.{le};
ghost use Rattle.floats.specs.Arith.{INF};
ghost use Rattle.geometry.specs.Limits.{Within};
ghost use Rattle.geometry.specs.declared.ray.Ray.{Ray};
ghost use Rattle.rows.specs.Rows.{row};
ghost use Rattle.rows.specs.Points.{box_of_row};
ghost use Rattle.tree_beams.specs.Beams.{Aimed, misses_box};
ghost use Rattle.tree_walk.specs.Walks.{entry_hit, walk_rows};
ghost use Rattle.tree_glance.specs.Glances as Glances;
ghost use Rattle.tree_trust.specs.Trust.{Trusted, Uncut};
ghost use Rattle.geometry.specs.Vectors.{distance_of};
ghost use Rattle.tree_sight.specs.Sights.{sees};
ghost use Rattle.tree_glance.specs.Glances.{no_place, LastCover, Covering, LeafTold, Tells, SeenAs};

use geometry::hit::Hit;
use geometry::ray::Ray;
use geometry::vector::Vector;
use refusals::Refusal;
use tree_beams::Beam;
use tree_sight::Sight;

// What the entries of a leaf say of the distance: none falls short of it, this one does, or one met a refusal.
#[derive(Clone, Copy)]
pub enum Spotted {
    Clear,
    Short(u32),
    Unknown,
}

fn judged(i: u32, a: Result<Hit, Refusal>, distance: f64, found: Spotted) -> Spotted
    ensures { result ≡ Glances.judged_of distance i a found }
{
    match a {
        Err(_) => Spotted::Unknown,
        Ok(h) => {
            if h.t < distance {
                return Spotted::Short(i);
            }
            found
        }
    }
}

// The entries of a leaf in order, as many as are there: up to the first that falls short where every solid
// answers, else all of them.
fn spot(
    numbers: &[f64],
    inverses: &[f64],
    marks: &[u32],
    order: &[u32],
    first: usize,
    count: usize,
    b: Beam,
    distance: f64,
    calm: bool,
) -> Spotted
    requires { first + count ≤ 8589934592 }
    ensures { result ≡ Glances.spotted_of distance calm (entry_hit numbers.now inverses.now marks.now b.ray) (take count (drop first order.now)) Glances.clear }
{
    let n = order.len();
    let mut found = Spotted::Clear;
    for k in 0usize..count {
        let at = first + k;
        if at >= n {
            return found;
        }
        let i = order[at];
        let w = rows::index(i);
        let a = tree_walk::entry_hit(numbers, inverses, marks, b.ray, w);
        found = judged(i, a, distance, found);
        match found {
            Spotted::Unknown => return Spotted::Unknown,
            Spotted::Short(e) => {
                if calm {
                    return Spotted::Short(e);
                }
            }
            Spotted::Clear => {}
        }
    }
    found
}

// Whether the box in row i passes the test and is entered before the distance.
fn enters(boxes: &[f64], i: usize, r: Ray, distance: f64) -> bool
    requires { i * 6 + 6 ≤ length boxes.now }
    ensures { result ≡ Glances.enters_before boxes.now i r distance }
{
    let s = rows::read_box(boxes, i).intersect(r);
    if s.tmax < s.tmin {
        return false;
    }
    if s.tmax <= 0.0 {
        return false;
    }
    s.tmin < distance
}

// A leaf, its box in row i: what its entries say. One that hides is kept, with the leaf.
fn at_leaf(
    numbers: &[f64],
    inverses: &[f64],
    marks: &[u32],
    boxes: &[f64],
    order: &[u32],
    i: usize,
    first: usize,
    count: usize,
    b: Beam,
    distance: f64,
    calm: bool,
    cover: &mut [usize],
) -> Option<Sight>
    requires { (first + count ≤ 8589934592) × (i * 6 + 6 ≤ length boxes.now) × (length cover.old ≡ 2) }
    ensures value { result ≡ Glances.leaf_glance (Glances.spotted_of distance calm (entry_hit numbers.now inverses.now marks.now b.ray) (take count (drop first order.now)) Glances.clear) (Glances.enters_before boxes.now i b.ray distance) }
    ensures leaf_told { LeafTold (entry_hit numbers.now inverses.now marks.now b.ray) b.ray distance calm boxes.now i (take count (drop first order.now)) cover.old cover.new result }
{
    let a = spot(
        numbers, inverses, marks, order, first, count, b, distance, calm,
    );
    match a {
        Spotted::Unknown => None,
        Spotted::Clear => Some(Sight::Visible),
        Spotted::Short(e) => {
            if enters(boxes, i, b.ray, distance) {
                cover[0] = i;
                cover[1] = rows::index(e);
                return Some(Sight::Hidden);
            }
            None
        }
    }
}

// Nothing is left to be looked at.
fn ended(hid: bool) -> Option<Sight>
    ensures { result ≡ Glances.ended_of hid }
{
    if hid {
        return Some(Sight::Hidden);
    }
    Some(Sight::Visible)
}

// Whether the box in row i is shown to be missed.
fn missed(boxes: &[f64], i: usize, b: Beam) -> bool
    requires { i * 6 + 6 ≤ length boxes.now }
    ensures { result ≡ misses_box (box_of_row (row 6 i boxes.now)) b }
{
    tree_beams::misses(rows::read_box(boxes, i), b)
}

// The walk: both children of a split are tested at once, the nearer one is gone to, the other waits. A solid that
// falls short ends it where every solid answers (`calm`); else each leaf that the full walk may come to is looked
// at, so that no refusal is passed over.
pub fn look(
    numbers: &[f64],
    inverses: &[f64],
    marks: &[u32],
    node_boxes: &[f64],
    node_marks: &[u32],
    order: &[u32],
    b: Beam,
    distance: f64,
    calm: bool,
    cover: &mut [usize],
    stack: &mut [usize],
) -> Option<Sight>
    requires { Trusted node_boxes.now node_marks.now order.now × (calm ≡ true → Uncut numbers.now inverses.now marks.now) × Aimed b × T (le distance INF) × LastCover node_boxes.now node_marks.now order.now cover.old stack.old }
    ensures { Tells result (walk_rows (entry_hit numbers.now inverses.now marks.now b.ray) b.ray node_boxes.now node_marks.now order.now) distance × LastCover node_boxes.now node_marks.now order.now cover.new stack.new × (result ≡ Glances.look_rows (entry_hit numbers.now inverses.now marks.now b.ray) b distance calm node_boxes.now node_marks.now order.now) }
{
    if missed(node_boxes, 0, b) {
        return Some(Sight::Visible);
    }
    let r = b.ray;
    let mut i = 0usize;
    let mut sp = 0usize;
    let mut hid = false;
    for _ in 0usize..2048 {
        let n = rows::read_triple(node_marks, i);
        let first = rows::index(n.a);
        if tree_walk::is_leaf(n.b, n.c) {
            let a = at_leaf(
                numbers,
                inverses,
                marks,
                node_boxes,
                order,
                i,
                first,
                rows::index(n.b),
                b,
                distance,
                calm,
                cover,
            )?;
            match a {
                Sight::Visible => {
                    if sp == 0 {
                        return ended(hid);
                    }
                    sp -= 1;
                    i = stack[sp];
                    continue;
                }
                Sight::Hidden => {
                    if calm {
                        return Some(Sight::Hidden);
                    }
                    if sp == 0 {
                        return Some(Sight::Hidden);
                    }
                    hid = true;
                    sp -= 1;
                    i = stack[sp];
                    continue;
                }
            }
        }
        let c = tree_walk::sided(first, tree_walk::backward(r, n.c));
        let p = missed(node_boxes, c.near, b);
        let q = missed(node_boxes, c.far, b);
        if p {
            if q {
                if sp == 0 {
                    return ended(hid);
                }
                sp -= 1;
                i = stack[sp];
                continue;
            }
            i = c.far;
            continue;
        }
        if q {
            i = c.near;
            continue;
        }
        if sp > 63 {
            return None;
        }
        stack[sp] = c.far;
        sp += 1;
        i = c.near;
    }
    None
}

// Whether what hid the last point hides this one too.
fn covered(
    numbers: &[f64],
    inverses: &[f64],
    marks: &[u32],
    boxes: &[f64],
    r: Ray,
    distance: f64,
    cover: &[usize],
) -> bool
    requires { (length cover.now ≡ 2) × ((get_or cover.now 0 0 ≡ no_place) ⊎ (get_or cover.now 0 0 * 6 + 6 ≤ length boxes.now)) }
    ensures { result ≡ true → Covering (entry_hit numbers.now inverses.now marks.now r) r distance boxes.now cover.now }
{
    let place = cover[0];
    if place == 0xffffffff {
        return false;
    }
    let a = tree_walk::entry_hit(numbers, inverses, marks, r, cover[1]);
    match a {
        Err(_) => false,
        Ok(h) => {
            if h.t < distance {
                return enters(boxes, place, r, distance);
            }
            false
        }
    }
}

// The eye test by a glance, on a tree that is to be trusted. A point that is seen forgets what hid the one before
// it: the next is likely to be seen too.
fn glimpse(
    numbers: &[f64],
    inverses: &[f64],
    marks: &[u32],
    node_boxes: &[f64],
    node_marks: &[u32],
    order: &[u32],
    eye: Vector,
    point: Vector,
    distance: f64,
    calm: bool,
    cover: &mut [usize],
    stack: &mut [usize],
) -> Option<Sight>
    requires { Trusted node_boxes.now node_marks.now order.now × (calm ≡ true → Uncut numbers.now inverses.now marks.now) × Within eye × Within point × LastCover node_boxes.now node_marks.now order.now cover.old stack.old × (distance ≡ distance_of eye point) }
    ensures { SeenAs result (sees (λ (r : Ray). walk_rows (entry_hit numbers.now inverses.now marks.now r) r node_boxes.now node_marks.now order.now) eye point) × LastCover node_boxes.now node_marks.now order.now cover.new stack.new }
{
    if distance == 0.0 {
        return Some(Sight::Visible);
    }
    let v = eye.sub(point);
    let r = Ray::new(point, v.div_scalar(distance));
    let b = tree_beams::aim(r, v, distance);
    if !b.sure {
        return None;
    }
    if calm {
        if covered(numbers, inverses, marks, node_boxes, r, distance, cover) {
            return Some(Sight::Hidden);
        }
    }
    let g = look(
        numbers, inverses, marks, node_boxes, node_marks, order, b, distance, calm, cover, stack,
    )?;
    match g {
        Sight::Hidden => Some(Sight::Hidden),
        Sight::Visible => {
            cover[0] = 0xffffffff;
            Some(Sight::Visible)
        }
    }
}

// The eye test of a point at this distance from the eye: by a glance where the tree is to be trusted, else and where
// that is not sure by the full walk.
pub fn sight(
    numbers: &[f64],
    inverses: &[f64],
    marks: &[u32],
    node_boxes: &[f64],
    node_marks: &[u32],
    order: &[u32],
    eye: Vector,
    point: Vector,
    distance: f64,
    trusted: bool,
    calm: bool,
    cover: &mut [usize],
    stack: &mut [usize],
) -> Result<Sight, Refusal>
    requires { (trusted ≡ true → Trusted node_boxes.now node_marks.now order.now × Within eye × Within point) × (calm ≡ true → Uncut numbers.now inverses.now marks.now) × LastCover node_boxes.now node_marks.now order.now cover.old stack.old × (distance ≡ distance_of eye point) }
    ensures { (result ≡ sees (λ (r : Ray). walk_rows (entry_hit numbers.now inverses.now marks.now r) r node_boxes.now node_marks.now order.now) eye point) × LastCover node_boxes.now node_marks.now order.now cover.new stack.new }
{
    if trusted {
        if let Some(s) = glimpse(
            numbers, inverses, marks, node_boxes, node_marks, order, eye, point, distance, calm,
            cover, stack,
        ) {
            return Ok(s);
        }
    }
    tree_sight::visible(
        numbers, inverses, marks, node_boxes, node_marks, order, eye, point,
    )
}
