// The parts of the tree's build (`Tree::new`, tree.rs) that read the solids' boxes: their hull, the
// axis along which they lie, and the best split by surface-area cost. The boxes stand in a slice, 6
// numbers each; an order lists the solids of a node by their numbers.
#![tactic(auto)]

ghost use Rattle.std.specs.Prelude.{◌≡◌, ℕ, ◌-◌, ◌≤◌, ◌<◌, length, get_or};
ghost use Rattle.lists.specs.Lists.{Each};
ghost use Rattle.tree_split.specs.Build.{box_at, Fits, middle, middle_box, area_of, hull_of, axis_of, on_axis, cost_by, better_of, best_upto, Swept};

use geometry::bounding_box::BBox;
use geometry::vector::Vector;

pub fn centroid(bx: BBox) -> Vector
    ensures { result ≡ middle bx }
{
    Vector {
        x: (bx.min.x + bx.max.x) * 0.5,
        y: (bx.min.y + bx.max.y) * 0.5,
        z: (bx.min.z + bx.max.z) * 0.5,
    }
}

pub fn surface_area(bx: BBox) -> f64
    ensures { result ≡ area_of bx }
{
    let dx = floats::max(bx.max.x - bx.min.x, 0.0);
    let dy = floats::max(bx.max.y - bx.min.y, 0.0);
    let dz = floats::max(bx.max.z - bx.min.z, 0.0);
    2.0 * (dx * dy + dy * dz + dz * dx)
}

// The box of the solid that stands at place i of the order.
fn solid_box(boxes: &[f64], order: &[u32], i: usize) -> BBox
    requires { Each (Fits boxes.now) order.now × (i < length order.now) }
    ensures { result ≡ box_at boxes.now (get_or order.now i 0) }
{
    let s = order[i] as usize;
    rows::read_box(boxes, s)
}

// Its middle, as a box.
fn solid_middle(boxes: &[f64], order: &[u32], i: usize) -> BBox
    requires { Each (Fits boxes.now) order.now × (i < length order.now) }
    ensures { result ≡ middle_box (box_at boxes.now (get_or order.now i 0)) }
{
    let c = centroid(solid_box(boxes, order, i));
    BBox { min: c, max: c }
}

// The box of all solids of the order.
pub fn hull(boxes: &[f64], order: &[u32]) -> BBox
    requires { Each (Fits boxes.now) order.now × (0 < length order.now) }
    ensures { result ≡ hull_of (box_at boxes.now) order.now }
{
    let mut b = solid_box(boxes, order, 0);
    for i in 1..order.len() {
        b = b.extend(solid_box(boxes, order, i));
    }
    b
}

// The box of their middles.
pub fn spread(boxes: &[f64], order: &[u32]) -> BBox
    requires { Each (Fits boxes.now) order.now × (0 < length order.now) }
    ensures { result ≡ hull_of (λ (i : ℕ). middle_box (box_at boxes.now i)) order.now }
{
    let mut b = solid_middle(boxes, order, 0);
    for i in 1..order.len() {
        b = b.extend(solid_middle(boxes, order, i));
    }
    b
}

// The axis along which a box is the longest: 1 for X, 2 for Y, 3 for Z.
pub fn longest_axis(s: BBox) -> u32
    ensures { result ≡ axis_of s }
{
    let x = s.max.x - s.min.x;
    let y = s.max.y - s.min.y;
    let z = s.max.z - s.min.z;
    if x > y {
        if x > z {
            return 1;
        }
        if y > z {
            return 2;
        }
        return 3;
    }
    if y > z { 2 } else { 3 }
}

pub fn on_axis(axis: u32, v: Vector) -> f64
    ensures { result ≡ on_axis axis v }
{
    if axis < 2 {
        return v.x;
    }
    if axis == 2 {
        return v.y;
    }
    v.z
}

// Place i of `right`, from 1 on, becomes the area of the box of the solids at i and after.
pub fn right_areas(boxes: &[f64], order: &[u32], right: &mut [f64])
    requires { Each (Fits boxes.now) order.now × (1 < length order.now) × (length order.now ≤ length right.old) × (length order.now ≤ 1024) }
    ensures { Swept (box_at boxes.now) order.now right.new }
{
    let last = order.len() - 1;
    let mut b = solid_box(boxes, order, last);
    right[last] = surface_area(b);
    for i in (1..last).rev() {
        b = b.extend(solid_box(boxes, order, i));
        right[i] = surface_area(b);
    }
}

// A split after so many solids, and its cost.
#[derive(Clone, Copy)]
pub struct BestSplit {
    pub cost: f64,
    pub at: usize,
}

fn better(best: BestSplit, cost: f64, at: usize) -> BestSplit
    ensures { result ≡ better_of best cost at }
{
    if cost < best.cost {
        return BestSplit { cost, at };
    }
    best
}

fn cost(left: BBox, i: usize, right: f64, j: usize) -> f64
    requires { (i ≤ 1024) × (j ≤ 1024) }
    ensures { result ≡ cost_by left i right j }
{
    surface_area(left) * (i as f64) + right * (j as f64)
}

pub fn best_split(boxes: &[f64], order: &[u32], right: &[f64]) -> BestSplit
    requires { Each (Fits boxes.now) order.now × (1 < length order.now) × (length order.now ≤ 1024) × (length order.now ≤ length right.now)
        × Swept (box_at boxes.now) order.now right.now }
    ensures { result ≡ best_upto (box_at boxes.now) order.now (length order.now - 1) }
{
    let n = order.len();
    let mut best = BestSplit {
        cost: 1.7976931348623157e308,
        at: n / 2,
    };
    let mut left = solid_box(boxes, order, 0);
    for i in 1..n {
        let c = cost(left, i, right[i], n - i);
        best = better(best, c, i);
        left = left.extend(solid_box(boxes, order, i));
    }
    best
}

// What becomes of the solids of a node: its box, its axis (0 for none), and after how many they are
// split, 0 for a leaf.
#[derive(Clone, Copy)]
pub struct Plan {
    pub bx: BBox,
    pub axis: u32,
    pub at: usize,
}
