// Matrices of 4 rows and 4 columns; their inverses stand in matrix_inverse.
#![tactic(auto)]

ghost use Rattle.std.specs.Prelude.{◌≡◌};
ghost use Rattle.matrix.specs.Matrices as Matrices;

use geometry::bounding_box::BBox;
use geometry::ray::Ray;
use geometry::vector::Vector;

#[derive(Clone, Copy)]
pub struct Matrix {
    pub x00: f64,
    pub x01: f64,
    pub x02: f64,
    pub x03: f64,
    pub x10: f64,
    pub x11: f64,
    pub x12: f64,
    pub x13: f64,
    pub x20: f64,
    pub x21: f64,
    pub x22: f64,
    pub x23: f64,
    pub x30: f64,
    pub x31: f64,
    pub x32: f64,
    pub x33: f64,
}

// Four numbers: a row of a matrix.
#[derive(Clone, Copy)]
pub struct Row {
    pub a: f64,
    pub b: f64,
    pub c: f64,
    pub d: f64,
}

// A ray in other coordinates, its direction over its length, and that length.
#[derive(Clone, Copy)]
pub struct Scaled {
    pub ray: Ray,
    pub scale: f64,
}

// A column times the two ends of an edge: the lesser and the greater components.
fn mul_edge(v: Vector, lo: f64, hi: f64) -> BBox
    ensures { result ≡ Matrices.mul_edge v lo hi }
{
    let a = v.mul_scalar(lo);
    let b = v.mul_scalar(hi);
    BBox {
        min: a.min(b),
        max: a.max(b),
    }
}

impl Row {
    fn new(a: f64, b: f64, c: f64, d: f64) -> Row
        ensures { result ≡ Matrices.row_of a b c d }
    {
        Row { a, b, c, d }
    }
}

impl Matrix {
    pub fn identity() -> Matrix
        ensures { result ≡ Matrices.identity_m }
    {
        Matrix {
            x00: 1.0,
            x01: 0.0,
            x02: 0.0,
            x03: 0.0,
            x10: 0.0,
            x11: 1.0,
            x12: 0.0,
            x13: 0.0,
            x20: 0.0,
            x21: 0.0,
            x22: 1.0,
            x23: 0.0,
            x30: 0.0,
            x31: 0.0,
            x32: 0.0,
            x33: 1.0,
        }
    }

    pub fn translate(v: Vector) -> Matrix
        ensures { result ≡ Matrices.translate_m v }
    {
        Matrix {
            x00: 1.0,
            x01: 0.0,
            x02: 0.0,
            x03: v.x,
            x10: 0.0,
            x11: 1.0,
            x12: 0.0,
            x13: v.y,
            x20: 0.0,
            x21: 0.0,
            x22: 1.0,
            x23: v.z,
            x30: 0.0,
            x31: 0.0,
            x32: 0.0,
            x33: 1.0,
        }
    }

    pub fn scale(v: Vector) -> Matrix
        ensures { result ≡ Matrices.scale_m v }
    {
        Matrix {
            x00: v.x,
            x01: 0.0,
            x02: 0.0,
            x03: 0.0,
            x10: 0.0,
            x11: v.y,
            x12: 0.0,
            x13: 0.0,
            x20: 0.0,
            x21: 0.0,
            x22: v.z,
            x23: 0.0,
            x30: 0.0,
            x31: 0.0,
            x32: 0.0,
            x33: 1.0,
        }
    }

    pub fn frustum(l: f64, r: f64, b: f64, t: f64, n: f64, f: f64) -> Matrix
        ensures { result ≡ Matrices.frustum_m l r b t n f }
    {
        let t1 = 2.0 * n;
        let t2 = r - l;
        let t3 = t - b;
        let t4 = f - n;
        Matrix {
            x00: t1 / t2,
            x01: 0.0,
            x02: (r + l) / t2,
            x03: 0.0,
            x10: 0.0,
            x11: t1 / t3,
            x12: (t + b) / t3,
            x13: 0.0,
            x20: 0.0,
            x21: 0.0,
            x22: (-f - n) / t4,
            x23: -t1 * f / t4,
            x30: 0.0,
            x31: 0.0,
            x32: -1.0,
            x33: 0.0,
        }
    }

    pub fn orthographic(l: f64, r: f64, b: f64, t: f64, n: f64, f: f64) -> Matrix
        ensures { result ≡ Matrices.orthographic_m l r b t n f }
    {
        Matrix {
            x00: 2.0 / (r - l),
            x01: 0.0,
            x02: 0.0,
            x03: -(r + l) / (r - l),
            x10: 0.0,
            x11: 2.0 / (t - b),
            x12: 0.0,
            x13: -(t + b) / (t - b),
            x20: 0.0,
            x21: 0.0,
            x22: -2.0 / (f - n),
            x23: -(f + n) / (f - n),
            x30: 0.0,
            x31: 0.0,
            x32: 0.0,
            x33: 1.0,
        }
    }

    pub fn translated(self, v: Vector) -> Matrix
        ensures { result ≡ Matrices.mul_m (Matrices.translate_m v) self }
    {
        Matrix::translate(v).mul(self)
    }

    pub fn scaled(self, v: Vector) -> Matrix
        ensures { result ≡ Matrices.mul_m (Matrices.scale_m v) self }
    {
        Matrix::scale(v).mul(self)
    }

    pub fn with_frustum(self, l: f64, r: f64, b: f64, t: f64, n: f64, f: f64) -> Matrix
        ensures { result ≡ Matrices.mul_m (Matrices.frustum_m l r b t n f) self }
    {
        Matrix::frustum(l, r, b, t, n, f).mul(self)
    }

    pub fn with_orthographic(self, l: f64, r: f64, b: f64, t: f64, n: f64, f: f64) -> Matrix
        ensures { result ≡ Matrices.mul_m (Matrices.orthographic_m l r b t n f) self }
    {
        Matrix::orthographic(l, r, b, t, n, f).mul(self)
    }

    pub fn of_rows(p: Row, q: Row, r: Row, s: Row) -> Matrix
        ensures { result ≡ Matrices.of_rows p q r s }
    {
        Matrix {
            x00: p.a,
            x01: p.b,
            x02: p.c,
            x03: p.d,
            x10: q.a,
            x11: q.b,
            x12: q.c,
            x13: q.d,
            x20: r.a,
            x21: r.b,
            x22: r.c,
            x23: r.d,
            x30: s.a,
            x31: s.b,
            x32: s.c,
            x33: s.d,
        }
    }

    // A row times a matrix.
    fn row_mul(r: Row, b: Matrix) -> Row
        ensures { result ≡ Matrices.row_mul r b }
    {
        Row {
            a: r.a * b.x00 + r.b * b.x10 + r.c * b.x20 + r.d * b.x30,
            b: r.a * b.x01 + r.b * b.x11 + r.c * b.x21 + r.d * b.x31,
            c: r.a * b.x02 + r.b * b.x12 + r.c * b.x22 + r.d * b.x32,
            d: r.a * b.x03 + r.b * b.x13 + r.c * b.x23 + r.d * b.x33,
        }
    }

    pub fn mul(self, b: Matrix) -> Matrix
        ensures { result ≡ Matrices.mul_m self b }
    {
        let a = self;
        Matrix::of_rows(
            Matrix::row_mul(Row::new(a.x00, a.x01, a.x02, a.x03), b),
            Matrix::row_mul(Row::new(a.x10, a.x11, a.x12, a.x13), b),
            Matrix::row_mul(Row::new(a.x20, a.x21, a.x22, a.x23), b),
            Matrix::row_mul(Row::new(a.x30, a.x31, a.x32, a.x33), b),
        )
    }

    pub fn mul_position(self, b: Vector) -> Vector
        ensures { result ≡ Matrices.mul_position self b }
    {
        Vector {
            x: self.x00 * b.x + self.x01 * b.y + self.x02 * b.z + self.x03,
            y: self.x10 * b.x + self.x11 * b.y + self.x12 * b.z + self.x13,
            z: self.x20 * b.x + self.x21 * b.y + self.x22 * b.z + self.x23,
        }
    }

    // The projection.
    pub fn mul_position_w(self, b: Vector) -> Vector
        ensures { result ≡ Matrices.mul_position_w self b }
    {
        let w = self.x30 * b.x + self.x31 * b.y + self.x32 * b.z + self.x33;
        self.mul_position(b).div_scalar(w)
    }

    pub fn mul_direction(self, b: Vector) -> Option<Vector>
        ensures { result ≡ Matrices.mul_direction self b }
    {
        self.mul_vector(b).normalize()
    }

    pub fn mul_vector(self, b: Vector) -> Vector
        ensures { result ≡ Matrices.mul_vector self b }
    {
        Vector {
            x: self.x00 * b.x + self.x01 * b.y + self.x02 * b.z,
            y: self.x10 * b.x + self.x11 * b.y + self.x12 * b.z,
            z: self.x20 * b.x + self.x21 * b.y + self.x22 * b.z,
        }
    }

    pub fn mul_ray(self, b: Ray) -> Scaled
        ensures { result ≡ Matrices.mul_ray self b }
    {
        let d = self.mul_vector(b.direction);
        let scale = d.norm_near();
        Scaled {
            ray: Ray::new(self.mul_position(b.origin), d.div_scalar(scale)),
            scale,
        }
    }

    pub fn mul_box(self, bx: BBox) -> BBox
        ensures { result ≡ Matrices.mul_box self bx }
    {
        let x = mul_edge(
            Vector::new(self.x00, self.x10, self.x20),
            bx.min.x,
            bx.max.x,
        );
        let y = mul_edge(
            Vector::new(self.x01, self.x11, self.x21),
            bx.min.y,
            bx.max.y,
        );
        let z = mul_edge(
            Vector::new(self.x02, self.x12, self.x22),
            bx.min.z,
            bx.max.z,
        );
        let t = Vector::new(self.x03, self.x13, self.x23);
        BBox {
            min: x.min.add(y.min).add(z.min).add(t),
            max: x.max.add(y.max).add(z.max).add(t),
        }
    }

    pub fn transpose(self) -> Matrix
        ensures { result ≡ Matrices.transpose_m self }
    {
        Matrix {
            x00: self.x00,
            x01: self.x10,
            x02: self.x20,
            x03: self.x30,
            x10: self.x01,
            x11: self.x11,
            x12: self.x21,
            x13: self.x31,
            x20: self.x02,
            x21: self.x12,
            x22: self.x22,
            x23: self.x32,
            x30: self.x03,
            x31: self.x13,
            x32: self.x23,
            x33: self.x33,
        }
    }
}
