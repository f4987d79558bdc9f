// The inverse of a matrix, with the determinant that it divides by (matrix.rs).
#![tactic(auto)]

ghost use Rattle.std.specs.Prelude.{◌≡◌};
ghost use Rattle.floats.specs.Arith.{◌⊕◌, ◌⊖◌, ◌⊗◌, ◌⊘◌};
ghost use Rattle.matrix_inverse.specs.Inverses as Inverses;

use matrix::Matrix;

// An inverse, and the determinant that it was divided by.
#[derive(Clone, Copy)]
pub struct Inverted {
    pub inverse: Matrix,
    pub determinant: f64,
}

pub fn determinant(m: Matrix) -> f64
    ensures { result ≡ Inverses.determinant m }
{
    let x00 = m.x00;
    let x01 = m.x01;
    let x02 = m.x02;
    let x03 = m.x03;
    let x10 = m.x10;
    let x11 = m.x11;
    let x12 = m.x12;
    let x13 = m.x13;
    let x20 = m.x20;
    let x21 = m.x21;
    let x22 = m.x22;
    let x23 = m.x23;
    let x30 = m.x30;
    let x31 = m.x31;
    let x32 = m.x32;
    let x33 = m.x33;
    x00 * x11 * x22 * x33 - x00 * x11 * x23 * x32 + x00 * x12 * x23 * x31 - x00 * x12 * x21 * x33
        + x00 * x13 * x21 * x32
        - x00 * x13 * x22 * x31
        - x01 * x12 * x23 * x30
        + x01 * x12 * x20 * x33
        - x01 * x13 * x20 * x32
        + x01 * x13 * x22 * x30
        - x01 * x10 * x22 * x33
        + x01 * x10 * x23 * x32
        + x02 * x13 * x20 * x31
        - x02 * x13 * x21 * x30
        + x02 * x10 * x21 * x33
        - x02 * x10 * x23 * x31
        + x02 * x11 * x23 * x30
        - x02 * x11 * x20 * x33
        - x03 * x10 * x21 * x32
        + x03 * x10 * x22 * x31
        - x03 * x11 * x22 * x30
        + x03 * x11 * x20 * x32
        - x03 * x12 * x20 * x31
        + x03 * x12 * x21 * x30
}

// A cofactor over d, of the nine numbers p to x that are left, row by row: where row and column are both even or both odd.
fn cofactor(p: f64, q: f64, r: f64, s: f64, t: f64, u: f64, v: f64, w: f64, x: f64, d: f64) -> f64
    ensures { result ≡ (q ⊗ u ⊗ v ⊖ r ⊗ t ⊗ v ⊕ r ⊗ s ⊗ w ⊖ p ⊗ u ⊗ w ⊖ q ⊗ s ⊗ x ⊕ p ⊗ t ⊗ x) ⊘ d }
{
    (q * u * v - r * t * v + r * s * w - p * u * w - q * s * x + p * t * x) / d
}

// The same elsewhere: the other sign, in the order in which the Rust writes it.
fn other_cofactor(
    p: f64,
    q: f64,
    r: f64,
    s: f64,
    t: f64,
    u: f64,
    v: f64,
    w: f64,
    x: f64,
    d: f64,
) -> f64
    ensures { result ≡ (r ⊗ t ⊗ v ⊖ q ⊗ u ⊗ v ⊖ r ⊗ s ⊗ w ⊕ p ⊗ u ⊗ w ⊕ q ⊗ s ⊗ x ⊖ p ⊗ t ⊗ x) ⊘ d }
{
    (r * t * v - q * u * v - r * s * w + p * u * w + q * s * x - p * t * x) / d
}

// The cofactors, transposed, each over d.
fn adjugate_over(m: Matrix, d: f64) -> Matrix
    ensures { result ≡ Inverses.adjugate_over m d }
{
    let x00 = m.x00;
    let x01 = m.x01;
    let x02 = m.x02;
    let x03 = m.x03;
    let x10 = m.x10;
    let x11 = m.x11;
    let x12 = m.x12;
    let x13 = m.x13;
    let x20 = m.x20;
    let x21 = m.x21;
    let x22 = m.x22;
    let x23 = m.x23;
    let x30 = m.x30;
    let x31 = m.x31;
    let x32 = m.x32;
    let x33 = m.x33;
    Matrix {
        x00: cofactor(x11, x12, x13, x21, x22, x23, x31, x32, x33, d),
        x01: other_cofactor(x01, x02, x03, x21, x22, x23, x31, x32, x33, d),
        x02: cofactor(x01, x02, x03, x11, x12, x13, x31, x32, x33, d),
        x03: other_cofactor(x01, x02, x03, x11, x12, x13, x21, x22, x23, d),
        x10: other_cofactor(x10, x12, x13, x20, x22, x23, x30, x32, x33, d),
        x11: cofactor(x00, x02, x03, x20, x22, x23, x30, x32, x33, d),
        x12: other_cofactor(x00, x02, x03, x10, x12, x13, x30, x32, x33, d),
        x13: cofactor(x00, x02, x03, x10, x12, x13, x20, x22, x23, d),
        x20: cofactor(x10, x11, x13, x20, x21, x23, x30, x31, x33, d),
        x21: other_cofactor(x00, x01, x03, x20, x21, x23, x30, x31, x33, d),
        x22: cofactor(x00, x01, x03, x10, x11, x13, x30, x31, x33, d),
        x23: other_cofactor(x00, x01, x03, x10, x11, x13, x20, x21, x23, d),
        x30: other_cofactor(x10, x11, x12, x20, x21, x22, x30, x31, x32, d),
        x31: cofactor(x00, x01, x02, x20, x21, x22, x30, x31, x32, d),
        x32: other_cofactor(x00, x01, x02, x10, x11, x12, x30, x31, x32, d),
        x33: cofactor(x00, x01, x02, x10, x11, x12, x20, x21, x22, d),
    }
}

// The inverse, with the determinant that it divides by: one call answers both.
pub fn inverse_with_determinant(m: Matrix) -> Inverted
    ensures { result ≡ Inverses.inverted m }
{
    let d = determinant(m);
    let inverse = adjugate_over(m, d);
    Inverted {
        inverse,
        determinant: d,
    }
}

pub fn inverse(m: Matrix) -> Matrix
    ensures { result ≡ (Inverses.inverted m).inverse }
{
    inverse_with_determinant(m).inverse
}
