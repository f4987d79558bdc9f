// Number 7: each entry's box is within 1,000,000.
ghost use Rattle.std.specs.Prelude.{◌≡◌, true, ◌*◌, ◌/◌, ◌≤◌, length};
ghost use Rattle.rows.specs.Rows.{view};
ghost use Rattle.rows.specs.Points.{box_of_row};
ghost use Rattle.limits.specs.Limits.{within_box};
ghost use Rattle.lists.specs.Lists.{all_of, list_to};
ghost use Rattle.check_scene.specs.Extents as Extents;

use geometry::bounding_box::BBox;
use geometry::vector::Vector;
use scene::entry::Entry;

fn zero_box() -> BBox
    ensures { result ≡ Extents.zero_box }
{
    BBox {
        min: Vector {
            x: 0.0,
            y: 0.0,
            z: 0.0,
        },
        max: Vector {
            x: 0.0,
            y: 0.0,
            z: 0.0,
        },
    }
}

// Box k of the slice.
fn box_at(boxes: &[f64], k: usize) -> BBox
    ensures { result ≡ Extents.stored_box boxes.now k }
{
    if k < boxes.len() / 6 {
        return rows::read_box(boxes, k);
    }
    zero_box()
}

// An entry's box, from those of its parts.
fn entry_box(e: Option<Entry>, boxes: &[f64]) -> BBox
    ensures { result ≡ Extents.entry_box (Extents.stored_box boxes.now) e }
{
    match e {
        Some(Entry::Simple(s)) => s.bounding_box(),
        Some(Entry::Placed(m, _, k)) => m.mul_box(box_at(boxes, k)),
        Some(Entry::Cut(_, a, b)) => box_at(boxes, a).extend(box_at(boxes, b)),
        None => zero_box(),
    }
}

// Forms the box of each entry, until one is not within the limit.
pub fn all_within(numbers: &[f64], inverses: &[f64], marks: &[u32], boxes: &mut [f64]) -> bool
    requires { (length marks.now / 4 * 6 ≤ length boxes.old) × Extents.Readable numbers.now inverses.now marks.now }
    ensures value { result ≡ all_of (λ i. within_box (Extents.own_box numbers.now marks.now i)) (length marks.now / 4) }
    ensures boxes_after { result ≡ true → view 6 box_of_row (length marks.now / 4) boxes.new ≡ list_to (Extents.own_box numbers.now marks.now) (length marks.now / 4) }
{
    let n = marks.len() / 4;
    for i in 0..n {
        let e = scene::entry::entry_at(numbers, inverses, marks, i);
        let b = entry_box(e, boxes);
        rows::write_box(boxes, i, b);
        if !limits::within_box(b) {
            return false;
        }
    }
    true
}
