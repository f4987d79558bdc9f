// Which trees a walk may leave something out of: those that are shallow, and whose boxes lie in one another. It is
// looked up in the slices, so that nothing is asked of who filled them.
#![tactic(auto)]

ghost use Rattle.std.specs.Prelude.{◌≡◌, ◌<◌, ◌≤◌};
ghost use Rattle.tree_nodes.specs.Nodes.{node_at, places_of};
ghost use Rattle.tree_trust.specs.Trust.{is_under, is_sound, is_inside, joined_of, nodes_from, is_trusted, is_uncut};

use geometry::bounding_box::BBox;
use geometry::vector::Vector;

// Whether each component of a is at most that of b.
fn under(a: Vector, b: Vector) -> bool
    ensures { result ≡ is_under a b }
{
    if a.x <= b.x {
        if a.y <= b.y {
            return a.z <= b.z;
        }
    }
    false
}

// Whether a box is within a million, its min not above its max.
pub fn sound(b: BBox) -> bool
    ensures { result ≡ is_sound b }
{
    if limits::within_box(b) {
        return under(b.min, b.max);
    }
    false
}

// Whether the box c lies in the box p.
fn lies_in(c: BBox, p: BBox) -> bool
    ensures { result ≡ is_inside c p }
{
    if under(p.min, c.min) {
        return under(c.max, p.max);
    }
    false
}

// The nodes of two trees and of the split above them, if that is not more than `many`, else 0.
fn joined(a: usize, b: usize, many: usize) -> usize
    requires { (a ≤ many) × (b ≤ many) × (many < 4611686018427387904) }
    ensures { result ≡ joined_of a b many }
{
    if a == 0 {
        return 0;
    }
    if b == 0 {
        return 0;
    }
    if a + b < many {
        return a + b + 1;
    }
    0
}

// How many nodes the tree at place i has; 0 where it is not to be trusted.
fn nodes_from(boxes: &[f64], links: &[u32], many: usize, i: usize, depth: usize) -> usize
    requires { many ≡ places_of boxes.now links.now }
    ensures { result ≡ nodes_from (node_at boxes.now links.now) many depth i }
{
    if i >= many {
        return 0;
    }
    let p = rows::read_box(boxes, i);
    if !sound(p) {
        return 0;
    }
    let n = rows::read_triple(links, i);
    if tree_walk::is_leaf(n.b, n.c) {
        return 1;
    }
    if depth == 0 {
        return 0;
    }
    let first = rows::index(n.a);
    let a = nodes_from(boxes, links, many, first, depth - 1);
    if a == 0 {
        return 0;
    }
    let b = nodes_from(boxes, links, many, first + 1, depth - 1);
    let m = joined(a, b, many);
    if m == 0 {
        return 0;
    }
    if !lies_in(rows::read_box(boxes, first), p) {
        return 0;
    }
    if !lies_in(rows::read_box(boxes, first + 1), p) {
        return 0;
    }
    m
}

// Whether the tree in the node slices is to be trusted.
pub fn trusted(boxes: &[f64], links: &[u32]) -> bool
    ensures { result ≡ is_trusted boxes.now links.now }
{
    let many = tree_nodes::places(boxes, links);
    0 < nodes_from(boxes, links, many, 0, 62)
}

// Whether no entry is a cut: then none refuses a ray.
pub fn uncut(marks: &[u32]) -> bool
    ensures { result ≡ is_uncut marks.now }
{
    let n = marks.len() / 4;
    for i in 0usize..n {
        let m = rows::read_marks(marks, i);
        if m.kind == 7 {
            return false;
        }
    }
    true
}
