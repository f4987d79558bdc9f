// An entry of a scene: its 16 numbers and 4 marks, read as what they stand for.
ghost use Rattle.std.specs.Prelude.{◌≡◌, ◌+◌, ◌*◌, ◌≤◌, length};
ghost use Rattle.scene.specs.Entries.{simple_of, matrix_of, matrix_numbers, striped, stripe_count, op_of, parts_of, composite_of, entry_of, marks_at, numbers_at, is_there, entry_at};

use geometry::vector::Vector;
use matrix::Matrix;
use rows::{Marks, Numbers};
use solids::solid::Solid;

// Kind 1 is a sphere (centre, radius), 2 a cylinder (radius, z0, z1), 3 a cone (radius, height), 4 a cube (min, max),
// 5 a triangle (three corners), 8 a closed cylinder and 9 a closed cone. One expression: where the solid is then
// matched on, the compiler makes one choice of the two. Returned from each case, it would go through memory.
pub fn simple_of(kind: u32, n: Numbers) -> Option<Solid>
    ensures { result ≡ simple_of kind n }
{
    let a = Vector::new(n.x00, n.x01, n.x02);
    let b = Vector::new(n.x03, n.x10, n.x11);
    let c = Vector::new(n.x12, n.x13, n.x20);
    if kind == 1 {
        Some(Solid::Sphere {
            center: a,
            radius: n.x03,
        })
    } else if kind == 2 {
        Some(Solid::Cylinder {
            radius: n.x00,
            z0: n.x01,
            z1: n.x02,
        })
    } else if kind == 3 {
        Some(Solid::Cone {
            radius: n.x00,
            height: n.x01,
        })
    } else if kind == 4 {
        Some(Solid::Cube { min: a, max: b })
    } else if kind == 5 {
        Some(Solid::Triangle {
            v1: a,
            v2: b,
            v3: c,
        })
    } else if kind == 8 {
        Some(Solid::ClosedCylinder {
            radius: n.x00,
            z0: n.x01,
            z1: n.x02,
        })
    } else if kind == 9 {
        Some(Solid::ClosedCone {
            radius: n.x00,
            height: n.x01,
        })
    } else {
        None
    }
}

// Whether the detail of a kind is a stripe count: cylinder and cone, open or closed.
pub fn is_striped(kind: u32) -> bool
    ensures { result ≡ striped kind }
{
    if kind == 2 {
        return true;
    }
    if kind == 3 {
        return true;
    }
    if kind == 8 {
        return true;
    }
    kind == 9
}

// The stripe count of an entry, 0 where its kind has none.
pub fn stripe_count(m: Marks) -> u32
    ensures { result ≡ stripe_count m }
{
    if is_striped(m.kind) {
        return m.detail;
    }
    0
}

// A matrix by rows.
pub fn matrix_of(n: Numbers) -> Matrix
    ensures { result ≡ matrix_of n }
{
    Matrix {
        x00: n.x00,
        x01: n.x01,
        x02: n.x02,
        x03: n.x03,
        x10: n.x10,
        x11: n.x11,
        x12: n.x12,
        x13: n.x13,
        x20: n.x20,
        x21: n.x21,
        x22: n.x22,
        x23: n.x23,
        x30: n.x30,
        x31: n.x31,
        x32: n.x32,
        x33: n.x33,
    }
}

// Its numbers again.
pub fn matrix_numbers(m: Matrix) -> Numbers
    ensures { result ≡ matrix_numbers m }
{
    Numbers {
        x00: m.x00,
        x01: m.x01,
        x02: m.x02,
        x03: m.x03,
        x10: m.x10,
        x11: m.x11,
        x12: m.x12,
        x13: m.x13,
        x20: m.x20,
        x21: m.x21,
        x22: m.x22,
        x23: m.x23,
        x30: m.x30,
        x31: m.x31,
        x32: m.x32,
        x33: m.x33,
    }
}

// The operation of a cut: what its parts have in common, or the first less the second. The true ones answer
// the distance from a ray's first origin, the others the t of the last ray.
#[derive(Clone, Copy)]
pub enum Op {
    Intersection,
    Difference,
    TrueIntersection,
    TrueDifference,
}

// What an entry stands for: a simple solid, a placing (its matrix, the inverse, its part), or a cut (its
// operation and parts).
#[derive(Clone, Copy)]
pub enum Entry {
    Simple(Solid),
    Placed(Matrix, Matrix, usize),
    Cut(Op, usize, usize),
}

// Operations 0 to 3, in that order.
pub fn op_of(detail: u32) -> Op
    ensures { result ≡ op_of detail }
{
    if detail == 0 {
        return Op::Intersection;
    }
    if detail == 1 {
        return Op::Difference;
    }
    if detail == 2 {
        return Op::TrueIntersection;
    }
    Op::TrueDifference
}

// The parts that an entry names: that of a placing, kind 6, or the two of a cut, kind 7, by operations 0 to 3.
#[derive(Clone, Copy)]
pub enum Parts {
    Placed(usize),
    Cut(Op, usize, usize),
}

pub fn parts_of(m: Marks) -> Option<Parts>
    ensures { result ≡ parts_of m }
{
    if m.kind == 6 {
        return Some(Parts::Placed(m.first as usize));
    }
    if m.kind == 7 {
        if m.detail <= 3 {
            return Some(Parts::Cut(op_of(m.detail), m.first as usize, m.second as usize));
        }
    }
    None
}

// Kinds 6 and 7, by the marks, the numbers and the numbers of the inverse.
fn composite_of(m: Marks, n: Numbers, inverse: Numbers) -> Option<Entry>
    ensures { result ≡ composite_of m n inverse }
{
    let p = parts_of(m)?;
    match p {
        Parts::Placed(k) => Some(Entry::Placed(matrix_of(n), matrix_of(inverse), k)),
        Parts::Cut(op, a, b) => Some(Entry::Cut(op, a, b)),
    }
}

pub fn entry_of(m: Marks, n: Numbers, inverse: Numbers) -> Option<Entry>
    ensures { result ≡ entry_of m n inverse }
{
    let s = simple_of(m.kind, n);
    match s {
        Some(solid) => Some(Entry::Simple(solid)),
        None => composite_of(m, n, inverse),
    }
}

// Entry i of a scene with its inverses, nothing where a slice does not have it.
pub fn entry_at(numbers: &[f64], inverses: &[f64], marks: &[u32], i: usize) -> Option<Entry>
    ensures { result ≡ entry_at numbers.now inverses.now marks.now i }
{
    if i < numbers.len() / 16 {
        if i < inverses.len() / 16 {
            if i < marks.len() / 4 {
                return entry_of(
                    rows::read_marks(marks, i),
                    rows::read_numbers(numbers, i),
                    rows::read_numbers(inverses, i),
                );
            }
        }
    }
    None
}

// Whether each of the three slices has entry i.
pub fn is_there(numbers: &[f64], inverses: &[f64], marks: &[u32], i: usize) -> bool
    ensures { result ≡ is_there numbers.now inverses.now marks.now i }
{
    if i < numbers.len() / 16 {
        if i < inverses.len() / 16 {
            return i < marks.len() / 4;
        }
    }
    false
}

// The simple solid in row i, if it is one.
pub fn simple_at(numbers: &[f64], marks: &[u32], i: usize) -> Option<Solid>
    requires { (i * 16 + 16 ≤ length numbers.now) × (i * 4 + 4 ≤ length marks.now) }
    ensures { result ≡ simple_of (marks_at marks.now i).kind (numbers_at numbers.now i) }
{
    simple_of(
        rows::read_marks(marks, i).kind,
        rows::read_numbers(numbers, i),
    )
}

// The parts that row i names.
pub fn parts_at(marks: &[u32], i: usize) -> Option<Parts>
    requires { i * 4 + 4 ≤ length marks.now }
    ensures { result ≡ parts_of (marks_at marks.now i) }
{
    parts_of(rows::read_marks(marks, i))
}

// The matrix in row i: that of a placing, or its inverse.
pub fn matrix_at(xs: &[f64], i: usize) -> Matrix
    requires { i * 16 + 16 ≤ length xs.now }
    ensures { result ≡ matrix_of (numbers_at xs.now i) }
{
    matrix_of(rows::read_numbers(xs, i))
}
