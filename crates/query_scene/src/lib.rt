// The public calls on a scene: its tree, the nearest hit and the eye test.
#![tactic(auto)]

ghost use Rattle.std.specs.Prelude.{◌≡◌, [], ◌≤◌, length, take};
ghost use Rattle.floats.specs.Arith.{zero_f};
ghost use Rattle.geometry.specs.declared.ray.Ray.{Ray};
ghost use Rattle.rows.specs.Rows.{padded};
ghost use Rattle.scene.specs.Scenes.{scene_of};
ghost use Rattle.lists.specs.Lists.{Each};
ghost use Rattle.tree_split.specs.Build.{Fits, box_at};
ghost use Rattle.tree_walk.specs.Walks.{entry_hit, walk_rows};
ghost use Rattle.query_scene.specs.Queries as Queries;

use geometry::ray::Ray;
use geometry::vector::Vector;
use refusals::Refusal;
use tree_sight::Sight;
use tree_walk::Nearest;

// The first n marks of `to` become those of `from`.
fn copy(from: &[u32], n: usize, to: &mut [u32])
    requires { (n ≤ length from.now) × (n ≤ length to.old) }
    ensures { take n to.new ≡ take n from.now }
{
    // no `copy_from_slice`: it calls memmove, which an archive for C would need from outside
    for i in 0..n {
        to[i] = from[i];
    }
}

// Leaves zeros behind.
fn clear_all(node_boxes: &mut [f64], node_marks: &mut [u32], order: &mut [u32])
    ensures node_boxes_after { node_boxes.new ≡ padded zero_f (length node_boxes.old) [] }
    ensures node_marks_after { node_marks.new ≡ padded 0 (length node_marks.old) [] }
    ensures order_after { order.new ≡ padded 0 (length order.old) [] }
{
    rows::clear(node_boxes, 0);
    rows::clear_marks(node_marks, 0);
    rows::clear_marks(order, 0);
}

// The tree of the first n of the listed solids, whose boxes are given.
pub fn plant(
    boxes: &[f64],
    listed: &[u32],
    n: usize,
    node_boxes: &mut [f64],
    node_marks: &mut [u32],
    order: &mut [u32],
) -> Result<usize, Refusal>
    requires { (n ≤ length listed.now) × ((n ≤ 1024) × Each (Fits boxes.now) (take n listed.now)) }
    ensures { Queries.Planted (box_at boxes.now) (take n listed.now) node_boxes.old node_marks.old order.old result node_boxes.new node_marks.new order.new }
{
    if order.len() < n {
        clear_all(node_boxes, node_marks, order);
        return Err(Refusal::Room);
    }
    copy(listed, n, order);
    tree_build::build_tree(boxes, order, n, node_boxes, node_marks).ok_or(Refusal::Room)
}

// The tree of the drawn entries, `Tree::new`: its nodes' boxes and marks, and the entries in the leaves'
// order, then zeros; zeros throughout after a refusal.
pub fn build(
    numbers: &[f64],
    marks: &[u32],
    points: &[f64],
    starts: &[usize],
    owners: &[u32],
    node_boxes: &mut [f64],
    node_marks: &mut [u32],
    order: &mut [u32],
) -> Result<usize, Refusal>
    ensures { Queries.TreeBuilt (scene_of numbers.now marks.now points.now starts.now owners.now) node_boxes.old node_marks.old order.old result node_boxes.new node_marks.new order.new }
{
    let mut inverses = [0.0; 16384];
    let mut boxes = [0.0; 6144];
    let mut drawn = [0u32; 1024];
    let v = check_scene::check(
        numbers,
        marks,
        points,
        starts,
        owners,
        &mut inverses,
        &mut boxes,
        &mut drawn,
    );
    match v {
        Err(k) => {
            clear_all(node_boxes, node_marks, order);
            Err(k)
        }
        Ok(n) => plant(&boxes, &drawn, n, node_boxes, node_marks, order),
    }
}

// The nearest hit of a ray, on the rows of a tree, `Tree::intersect`, with the entry whose t last became the best.
pub fn intersect(
    numbers: &[f64],
    marks: &[u32],
    points: &[f64],
    starts: &[usize],
    owners: &[u32],
    node_boxes: &[f64],
    node_marks: &[u32],
    order: &[u32],
    r: Ray,
) -> Result<Nearest, Refusal>
    ensures { result ≡ Queries.intersect_of (scene_of numbers.now marks.now points.now starts.now owners.now) node_boxes.now node_marks.now order.now r }
{
    let mut inverses = [0.0; 16384];
    let mut boxes = [0.0; 6144];
    let mut drawn = [0u32; 1024];
    check_scene::check(
        numbers,
        marks,
        points,
        starts,
        owners,
        &mut inverses,
        &mut boxes,
        &mut drawn,
    )?;
    if !limits::within_ray(r) {
        return Err(Refusal::View);
    }
    tree_walk::intersect(numbers, &inverses, marks, node_boxes, node_marks, order, r)
}

// Whether the eye sees a point, on the rows of a tree: `visible`.
pub fn visible(
    numbers: &[f64],
    marks: &[u32],
    points: &[f64],
    starts: &[usize],
    owners: &[u32],
    node_boxes: &[f64],
    node_marks: &[u32],
    order: &[u32],
    eye: Vector,
    point: Vector,
) -> Result<Sight, Refusal>
    ensures { result ≡ Queries.visible_of (scene_of numbers.now marks.now points.now starts.now owners.now) node_boxes.now node_marks.now order.now eye point }
{
    let mut inverses = [0.0; 16384];
    let mut boxes = [0.0; 6144];
    let mut drawn = [0u32; 1024];
    check_scene::check(
        numbers,
        marks,
        points,
        starts,
        owners,
        &mut inverses,
        &mut boxes,
        &mut drawn,
    )?;
    if !limits::within_point(eye) {
        return Err(Refusal::View);
    }
    if !limits::within_point(point) {
        return Err(Refusal::Point);
    }
    tree_sight::visible(
        numbers, &inverses, marks, node_boxes, node_marks, order, eye, point,
    )
}

fn named(a: Result<Nearest, Refusal>, distance: f64) -> Result<Option<u32>, Refusal>
    ensures { result ≡ Queries.hider_by a distance }
{
    let b = a?;
    if b.hit.t >= distance {
        return Ok(None);
    }
    Ok(Some(b.entry))
}

// The eye test of `tree_sight::visible`, which keeps the name.
pub fn hider(
    numbers: &[f64],
    inverses: &[f64],
    marks: &[u32],
    node_boxes: &[f64],
    node_marks: &[u32],
    order: &[u32],
    eye: Vector,
    point: Vector,
) -> Result<Option<u32>, Refusal>
    ensures { result ≡ Queries.hides (λ (r : Ray). walk_rows (entry_hit numbers.now inverses.now marks.now r) r node_boxes.now node_marks.now order.now) eye point }
{
    let v = eye.sub(point);
    let distance = v.norm();
    if distance == 0.0 {
        return Ok(None);
    }
    let r = Ray::new(point, v.div_scalar(distance));
    let a = tree_walk::intersect(numbers, inverses, marks, node_boxes, node_marks, order, r);
    named(a, distance)
}

// Who hides a point from the eye, on the rows of a tree: `visible` with the name that its hit carries.
pub fn occluder(
    numbers: &[f64],
    marks: &[u32],
    points: &[f64],
    starts: &[usize],
    owners: &[u32],
    node_boxes: &[f64],
    node_marks: &[u32],
    order: &[u32],
    eye: Vector,
    point: Vector,
) -> Result<Option<u32>, Refusal>
    ensures { result ≡ Queries.occluder_of (scene_of numbers.now marks.now points.now starts.now owners.now) node_boxes.now node_marks.now order.now eye point }
{
    let mut inverses = [0.0; 16384];
    let mut boxes = [0.0; 6144];
    let mut drawn = [0u32; 1024];
    check_scene::check(
        numbers,
        marks,
        points,
        starts,
        owners,
        &mut inverses,
        &mut boxes,
        &mut drawn,
    )?;
    if !limits::within_point(eye) {
        return Err(Refusal::View);
    }
    if !limits::within_point(point) {
        return Err(Refusal::Point);
    }
    hider(
        numbers, &inverses, marks, node_boxes, node_marks, order, eye, point,
    )
}
