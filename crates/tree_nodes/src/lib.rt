// The nodes of a tree of boxes in lent slices: a row of 6 numbers and a row of 3 marks each.
#![tactic(auto)]

ghost use Rattle.std.specs.Prelude.{◌≡◌, ◌+◌, ◌*◌, ◌≤◌, length};
ghost use Rattle.rows.specs.Rows.{set_row};
ghost use Rattle.rows.specs.Points.{box_row};
ghost use Rattle.rows.specs.Entries.{triple_row};
ghost use Rattle.tree_nodes.specs.Nodes.{node_at, marks_of_node, places_of};

use geometry::bounding_box::BBox;
use rows::Triple;

// A leaf's first solid in the order and its count, or the first of a split's two children and 0; the
// axis is 0 for none, 1 for X, 2 for Y, 3 for Z.
#[derive(Clone, Copy)]
pub struct Node {
    pub bx: BBox,
    pub first: u32,
    pub count: u32,
    pub axis: u32,
}

// How many nodes the slices have places for.
pub fn places(boxes: &[f64], marks: &[u32]) -> usize
    ensures { result ≡ places_of boxes.now marks.now }
{
    let a = boxes.len() / 6;
    let b = marks.len() / 3;
    if b < a {
        return b;
    }
    a
}

pub fn read_node(boxes: &[f64], marks: &[u32], i: usize) -> Node
    requires { (i * 6 + 6 ≤ length boxes.now) × (i * 3 + 3 ≤ length marks.now) }
    ensures { result ≡ node_at boxes.now marks.now i }
{
    let bx = rows::read_box(boxes, i);
    let m = rows::read_triple(marks, i);
    Node {
        bx,
        first: m.a,
        count: m.b,
        axis: m.c,
    }
}

pub fn write_node(boxes: &mut [f64], marks: &mut [u32], i: usize, n: Node)
    requires { (i * 6 + 6 ≤ length boxes.old) × (i * 3 + 3 ≤ length marks.old) }
    ensures boxes_after { boxes.new ≡ set_row 6 i (box_row n.bx) boxes.old }
    ensures marks_after { marks.new ≡ set_row 3 i (triple_row (marks_of_node n)) marks.old }
{
    rows::write_box(boxes, i, n.bx);
    rows::write_triple(
        marks,
        i,
        Triple {
            a: n.first,
            b: n.count,
            c: n.axis,
        },
    );
}
