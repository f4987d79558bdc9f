// The build of the tree (`Tree::new`, tree.rs) over boxes in a slice, 6 numbers a solid: the nodes go
// to two lent slices, `node_boxes` for their boxes and `node_marks`, and the solids' numbers are put into the
// order of the leaves.
#![tactic(auto)]

ghost use Rattle.std.specs.Prelude.{◌≡◌, ◌*◌, ◌≤◌, ◌<◌, length, replicate, take};
ghost use Rattle.floats.specs.Arith.{zero_f};
ghost use Rattle.tree_nodes.specs.Nodes.{node_at, places_of};
ghost use Rattle.tree_sort.specs.Sort.{sorted};
ghost use Rattle.lists.specs.Lists.{Each};
ghost use Rattle.tree_split.specs.Build.{box_at, Fits, by_middle, split_by, plan_of, arranged, tree_for};
ghost use Rattle.tree_build.specs.Slices.{Keyed, NodeRoom, BuiltAs, LaidOut, Stored};

use geometry::bounding_box::BBox;
use tree_nodes::Node;
use tree_split::Plan;

// The key of each solid of the order: its middle on the axis.
fn fill_keys(boxes: &[f64], order: &[u32], axis: u32, keys: &mut [f64])
    requires { Each (Fits boxes.now) order.now × (1024 ≤ length keys.old) }
    ensures { Keyed (box_at boxes.now) axis order.now keys.new (length order.now) }
{
    for i in 0..order.len() {
        let s = order[i] as usize;
        let c = tree_split::centroid(rows::read_box(boxes, s));
        keys[s] = tree_split::on_axis(axis, c);
    }
}

// The solids sorted by their middles.
fn arrange(boxes: &[f64], order: &mut [u32], axis: u32, work: &mut [f64], spare: &mut [u32])
    requires { Each (Fits boxes.now) order.old × (length order.old ≤ 1024) × (1024 ≤ length work.old) × (1024 ≤ length spare.old) }
    ensures { order.new ≡ sorted (by_middle (box_at boxes.now) axis) order.old }
{
    fill_keys(boxes, order, axis, work);
    tree_sort::sort(work, order, spare);
}

// After how many solids they are split, 0 for a leaf.
fn split_at(boxes: &[f64], order: &[u32], bx: BBox, right: &mut [f64]) -> usize
    requires { Each (Fits boxes.now) order.now × (1 < length order.now) × (length order.now ≤ 1024) × (1024 ≤ length right.old) }
    ensures { result ≡ split_by (box_at boxes.now) bx order.now }
{
    let n = order.len();
    tree_split::right_areas(boxes, order, right);
    let best = tree_split::best_split(boxes, order, right);
    if n > 8 {
        return best.at;
    }
    let a = tree_split::surface_area(bx);
    if best.cost + a * 0.125 >= (n as f64) * a {
        return 0;
    }
    best.at
}

// What becomes of the solids of a node, which are put in order.
fn decide(boxes: &[f64], order: &mut [u32], work: &mut [f64], spare: &mut [u32]) -> Plan
    requires { Each (Fits boxes.now) order.old × (0 < length order.old) × (length order.old ≤ 1024) × (1024 ≤ length work.old) × (1024 ≤ length spare.old) }
    ensures { (result ≡ plan_of (box_at boxes.now) order.old) × (order.new ≡ arranged (box_at boxes.now) order.old) }
{
    let bx = tree_split::hull(boxes, order);
    if order.len() <= 2 {
        return Plan { bx, axis: 0, at: 0 };
    }
    let axis = tree_split::longest_axis(tree_split::spread(boxes, order));
    arrange(boxes, order, axis, work, spare);
    let at = split_at(boxes, order, bx, work);
    Plan { bx, axis, at }
}

// The nodes of the solids of an order that starts at `start` of the whole: their root at `node`, those
// below it from `free` on, of as many places.
fn build(
    boxes: &[f64],
    order: &mut [u32],
    start: usize,
    node: usize,
    free: usize,
    places: usize,
    node_boxes: &mut [f64],
    node_marks: &mut [u32],
    work: &mut [f64],
    spare: &mut [u32],
) -> Option<usize>
    requires { Each (Fits boxes.now) order.old × NodeRoom node_boxes.old node_marks.old places node free start (length order.old) × (1024 ≤ length work.old) × (1024 ≤ length spare.old) }
    ensures { BuiltAs result (node_at node_boxes.old node_marks.old) (node_at node_boxes.new node_marks.new) places node free start
        order.new (tree_for (box_at boxes.now) order.old) }
{
    let p = decide(boxes, order, work, spare);
    let at = p.at;
    let bx = p.bx;
    let axis = p.axis;
    if at == 0 {
        let n = order.len();
        let leaf = Node {
            bx,
            first: start as u32,
            count: n as u32,
            axis,
        };
        tree_nodes::write_node(node_boxes, node_marks, node, leaf);
        return Some(free);
    }
    if places < free + 2 {
        return None;
    }
    let split = Node {
        bx,
        first: free as u32,
        count: 0,
        axis,
    };
    tree_nodes::write_node(node_boxes, node_marks, node, split);
    let f = build(
        boxes,
        &mut order[..at],
        start,
        free,
        free + 2,
        places,
        node_boxes,
        node_marks,
        work,
        spare,
    )?;
    build(
        boxes,
        &mut order[at..],
        start + at,
        free + 1,
        f,
        places,
        node_boxes,
        node_marks,
        work,
        spare,
    )
}

// The whole tree of the order, in slices that are zero. What lies beyond the places is not lent on.
// The work arrays stand here: sort keys and then areas, and what the sort copies.
fn lay_out(
    boxes: &[f64],
    order: &mut [u32],
    places: usize,
    node_boxes: &mut [f64],
    node_marks: &mut [u32],
) -> Option<usize>
    requires { Each (Fits boxes.now) order.old × (0 < length order.old) × (length order.old ≤ 1024) × (0 < places)
        × (places * 6 ≤ length node_boxes.old) × (places * 3 ≤ length node_marks.old)
        × (node_boxes.old ≡ replicate (length node_boxes.old) zero_f) × (node_marks.old ≡ replicate (length node_marks.old) 0) }
    ensures { LaidOut result node_boxes.new node_marks.new order.new places (length node_boxes.old) (length node_marks.old)
        (tree_for (box_at boxes.now) order.old) }
{
    let mut work = [0.0f64; 1024];
    let mut spare = [0u32; 1024];
    let a = places * 6;
    let b = places * 3;
    build(
        boxes,
        order,
        0,
        0,
        1,
        places,
        &mut node_boxes[..a],
        &mut node_marks[..b],
        &mut work,
        &mut spare,
    )
}

// The tree of the first n solids of the order: its nodes, its solids in the order of the leaves, and
// zeros after them.
pub fn build_tree(
    boxes: &[f64],
    order: &mut [u32],
    n: usize,
    node_boxes: &mut [f64],
    node_marks: &mut [u32],
) -> Option<usize>
    requires { (n ≤ length order.old) × (n ≤ 1024) × Each (Fits boxes.now) (take n order.old) }
    ensures { Stored (box_at boxes.now) (take n order.old) (places_of node_boxes.old node_marks.old)
        (length node_boxes.old) (length node_marks.old) (length order.old) result node_boxes.new node_marks.new order.new }
{
    let places = tree_nodes::places(node_boxes, node_marks);
    rows::clear(node_boxes, 0);
    rows::clear_marks(node_marks, 0);
    rows::clear_marks(order, n);
    if n == 0 {
        return Some(0);
    }
    if places == 0 {
        rows::clear_marks(order, 0);
        return None;
    }
    let r = lay_out(boxes, &mut order[..n], places, node_boxes, node_marks);
    match r {
        Some(f) => Some(f),
        None => {
            rows::clear(node_boxes, 0);
            rows::clear_marks(node_marks, 0);
            rows::clear_marks(order, 0);
            None
        }
    }
}
