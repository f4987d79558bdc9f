// The public calls that say whether a point is covered at all: of one point, and of many on one scene.
#![tactic(auto)]

ghost use Rattle.std.specs.Prelude.{◌≡◌, ◌*◌, ◌≤◌, length, get_or, Float};
ghost use Rattle.geometry.specs.declared.ray.Ray.{Ray};
ghost use Rattle.rows.specs.Rows.{padded};
ghost use Rattle.scene.specs.Scenes.{scene_of};
ghost use Rattle.tree_walk.specs.Walks.{entry_hit};
ghost use Rattle.tree_cover.specs.Seeking.{seek_rows};
ghost use Rattle.query_cover.specs.Covered as Covered;

use geometry::vector::Vector;
use refusals::Refusal;
use tree_sight::Sight;

// Number 9, then the eye test by the walk that stops.
fn sight(
    numbers: &[f64],
    inverses: &[f64],
    marks: &[u32],
    node_boxes: &[f64],
    node_marks: &[u32],
    order: &[u32],
    eye: Vector,
    p: Vector,
) -> Result<Sight, Refusal>
    ensures { result ≡ Covered.covered_past (λ (d : Float) (r : Ray). seek_rows d (entry_hit numbers.now inverses.now marks.now r) r node_boxes.now node_marks.now order.now) eye p }
{
    if !limits::within_point(p) {
        return Err(Refusal::Point);
    }
    tree_cover::covered(
        numbers, inverses, marks, node_boxes, node_marks, order, eye, p,
    )
}

// Whether the eye sees a point, by a walk that stops at the first solid that falls short.
pub fn covered(
    numbers: &[f64],
    marks: &[u32],
    points: &[f64],
    starts: &[usize],
    owners: &[u32],
    node_boxes: &[f64],
    node_marks: &[u32],
    order: &[u32],
    eye: Vector,
    point: Vector,
) -> Result<Sight, Refusal>
    ensures { result ≡ Covered.covered_of (scene_of numbers.now marks.now points.now starts.now owners.now) node_boxes.now node_marks.now order.now eye point }
{
    let mut inverses = [0.0; 16384];
    let mut boxes = [0.0; 6144];
    let mut drawn = [0u32; 1024];
    check_scene::check(
        numbers,
        marks,
        points,
        starts,
        owners,
        &mut inverses,
        &mut boxes,
        &mut drawn,
    )?;
    if !limits::within_point(eye) {
        return Err(Refusal::View);
    }
    sight(
        numbers, &inverses, marks, node_boxes, node_marks, order, eye, point,
    )
}

// The byte that tells an answer.
fn byte(s: Result<Sight, Refusal>) -> u8
    ensures { result ≡ Covered.byte_of s }
{
    match s {
        Ok(Sight::Visible) => 1,
        Ok(Sight::Hidden) => 2,
        Err(k) => k.number() as u8,
    }
}

// The byte at place k: 0 after the first n points.
fn byte_at(
    numbers: &[f64],
    inverses: &[f64],
    marks: &[u32],
    node_boxes: &[f64],
    node_marks: &[u32],
    order: &[u32],
    eye: Vector,
    tested: &[f64],
    n: usize,
    k: usize,
) -> u8
    requires { n * 3 ≤ length tested.now }
    ensures { result ≡ get_or (Covered.bytes_past (λ (d : Float) (r : Ray). seek_rows d (entry_hit numbers.now inverses.now marks.now r) r node_boxes.now node_marks.now order.now) eye n tested.now) k 0 }
{
    if k >= n {
        return 0;
    }
    let p = rows::read_point(tested, k);
    byte(sight(
        numbers, inverses, marks, node_boxes, node_marks, order, eye, p,
    ))
}

// The bytes of the first n points, then zeros.
fn tell(
    numbers: &[f64],
    inverses: &[f64],
    marks: &[u32],
    node_boxes: &[f64],
    node_marks: &[u32],
    order: &[u32],
    eye: Vector,
    tested: &[f64],
    n: usize,
    told: &mut [u8],
)
    requires { (n * 3 ≤ length tested.now) × (n ≤ length told.old) }
    ensures { told.new ≡ padded 0 (length told.old) (Covered.bytes_past (λ (d : Float) (r : Ray). seek_rows d (entry_hit numbers.now inverses.now marks.now r) r node_boxes.now node_marks.now order.now) eye n tested.now) }
{
    for k in 0..told.len() {
        told[k] = byte_at(
            numbers, inverses, marks, node_boxes, node_marks, order, eye, tested, n, k,
        );
    }
}

// Number 2 of the points, then what the check of the scene said, 8 where `ok` is false, and 13.
pub fn judge(v: Result<usize, Refusal>, ok: bool, size: usize, room: usize) -> Result<(), Refusal>
    ensures { result ≡ Covered.batch_if v ok size room }
{
    let n = size / 3;
    if n * 3 != size {
        return Err(Refusal::Lengths);
    }
    v?;
    if !ok {
        return Err(Refusal::View);
    }
    if room < n {
        return Err(Refusal::Room);
    }
    Ok(())
}

// How many points are answered, of n.
pub fn answered(b: Result<(), Refusal>, n: usize) -> usize
    ensures { result ≡ Covered.if_answered b n }
{
    match b {
        Ok(()) => n,
        Err(_) => 0,
    }
}

// The same of many points, three numbers each, with one check of the scene: a byte a point, then zeros; zeros
// throughout after a refusal.
pub fn covered_all(
    numbers: &[f64],
    marks: &[u32],
    points: &[f64],
    starts: &[usize],
    owners: &[u32],
    node_boxes: &[f64],
    node_marks: &[u32],
    order: &[u32],
    eye: Vector,
    tested: &[f64],
    told: &mut [u8],
) -> Result<(), Refusal>
    ensures { Covered.AllTold (scene_of numbers.now marks.now points.now starts.now owners.now) node_boxes.now node_marks.now order.now eye tested.now told.old result told.new }
{
    let mut inverses = [0.0; 16384];
    let mut boxes = [0.0; 6144];
    let mut drawn = [0u32; 1024];
    let v = check_scene::check(
        numbers,
        marks,
        points,
        starts,
        owners,
        &mut inverses,
        &mut boxes,
        &mut drawn,
    );
    let size = tested.len();
    let b = judge(v, limits::within_point(eye), size, told.len());
    let n = answered(b, size / 3);
    tell(
        numbers, &inverses, marks, node_boxes, node_marks, order, eye, tested, n, told,
    );
    b
}
