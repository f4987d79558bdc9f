// What becomes of points at step 4 of a draw, in one word each: for the account of a sheet.
#![tactic(auto)]

ghost use Rattle.std.specs.Prelude.{◌≡◌, ◌*◌, ◌≤◌, length, get_or};
ghost use Rattle.geometry.specs.declared.ray.Ray.{Ray};
ghost use Rattle.rows.specs.Rows.{padded};
ghost use Rattle.scene.specs.Scenes.{scene_of};
ghost use Rattle.tree_walk.specs.Walks.{entry_hit, walk_rows};
ghost use Rattle.query_scene.specs.Queries.{hides};
ghost use Rattle.draw_fates.specs.Fates as Fates;

use geometry::bounding_box::BBox;
use geometry::vector::Vector;
use matrix::Matrix;
use refusals::Refusal;
use view::View;

// A point is clipped away, or visible, or hidden by this drawn entry.
#[derive(Clone, Copy)]
pub enum Fate {
    Clipped,
    Visible,
    Hidden(u32),
}

fn by_name(o: Result<Option<u32>, Refusal>) -> Result<Fate, Refusal>
    ensures { result ≡ Fates.by_name o }
{
    match o? {
        None => Ok(Fate::Visible),
        Some(i) => Ok(Fate::Hidden(i)),
    }
}

// As the filter of a draw has it: the clip box first, then number 9 and the eye test, which keeps the name.
fn point_fate(
    matrix: Matrix,
    eye: Vector,
    numbers: &[f64],
    inverses: &[f64],
    marks: &[u32],
    node_boxes: &[f64],
    node_marks: &[u32],
    order: &[u32],
    p: Vector,
) -> Result<Fate, Refusal>
    ensures { result ≡ Fates.fate_by matrix (hides (λ (r : Ray). walk_rows (entry_hit numbers.now inverses.now marks.now r) r node_boxes.now node_marks.now order.now) eye) p }
{
    if !BBox::clips(matrix.mul_position_w(p)) {
        return Ok(Fate::Clipped);
    }
    if !limits::within_point(p) {
        return Err(Refusal::Point);
    }
    by_name(query_scene::hider(
        numbers, inverses, marks, node_boxes, node_marks, order, eye, p,
    ))
}

// The word that tells it.
fn word(f: Result<Fate, Refusal>) -> u32
    ensures { result ≡ Fates.fate_word f }
{
    match f {
        Ok(Fate::Clipped) => 0xfffffffe,
        Ok(Fate::Visible) => 0xffffffff,
        Ok(Fate::Hidden(i)) => i,
        Err(k) => {
            let n = k.number();
            0xffffff00 + n
        }
    }
}

// The word at place k: 0 after the first n points.
fn word_at(
    matrix: Matrix,
    eye: Vector,
    numbers: &[f64],
    inverses: &[f64],
    marks: &[u32],
    node_boxes: &[f64],
    node_marks: &[u32],
    order: &[u32],
    tested: &[f64],
    n: usize,
    k: usize,
) -> u32
    requires { n * 3 ≤ length tested.now }
    ensures { result ≡ get_or (Fates.words_by matrix (hides (λ (r : Ray). walk_rows (entry_hit numbers.now inverses.now marks.now r) r node_boxes.now node_marks.now order.now) eye) n tested.now) k 0 }
{
    if k >= n {
        return 0;
    }
    let p = rows::read_point(tested, k);
    word(point_fate(
        matrix, eye, numbers, inverses, marks, node_boxes, node_marks, order, p,
    ))
}

// The words of the first n points, then zeros.
fn tell(
    matrix: Matrix,
    eye: Vector,
    numbers: &[f64],
    inverses: &[f64],
    marks: &[u32],
    node_boxes: &[f64],
    node_marks: &[u32],
    order: &[u32],
    tested: &[f64],
    n: usize,
    told: &mut [u32],
)
    requires { (n * 3 ≤ length tested.now) × (n ≤ length told.old) }
    ensures { told.new ≡ padded 0 (length told.old) (Fates.words_by matrix (hides (λ (r : Ray). walk_rows (entry_hit numbers.now inverses.now marks.now r) r node_boxes.now node_marks.now order.now) eye) n tested.now) }
{
    for k in 0..told.len() {
        told[k] = word_at(
            matrix, eye, numbers, inverses, marks, node_boxes, node_marks, order, tested, n, k,
        );
    }
}

// What becomes of each of many points, three numbers each, on the rows of a tree: a word a point, then zeros; zeros
// throughout after a refusal.
pub fn fates(
    numbers: &[f64],
    marks: &[u32],
    points: &[f64],
    starts: &[usize],
    owners: &[u32],
    node_boxes: &[f64],
    node_marks: &[u32],
    order: &[u32],
    view: View,
    tested: &[f64],
    told: &mut [u32],
) -> Result<(), Refusal>
    ensures { Fates.AllFates (scene_of numbers.now marks.now points.now starts.now owners.now) node_boxes.now node_marks.now order.now view tested.now told.old result told.new }
{
    let mut inverses = [0.0; 16384];
    let mut boxes = [0.0; 6144];
    let mut drawn = [0u32; 1024];
    let v = check_scene::check(
        numbers,
        marks,
        points,
        starts,
        owners,
        &mut inverses,
        &mut boxes,
        &mut drawn,
    );
    let size = tested.len();
    let b = query_cover::judge(v, view.is_ok(), size, told.len());
    let n = query_cover::answered(b, size / 3);
    let matrix = view.matrix;
    let eye = view.eye;
    tell(
        matrix, eye, numbers, &inverses, marks, node_boxes, node_marks, order, tested, n, told,
    );
    b
}
