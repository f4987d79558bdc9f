// Vectors of three f64.
ghost use Rattle.std.specs.Prelude.{◌≡◌};
ghost use Rattle.std.specs.Float.Ieee.{le, lt};
ghost use Rattle.geometry.specs.Vectors as Vectors;

use sqrt::Rooted;

#[derive(Clone, Copy)]
pub struct Vector {
    pub x: f64,
    pub y: f64,
    pub z: f64,
}

impl Vector {
    pub const EPS: f64 = 1e-9;

    pub fn new(x: f64, y: f64, z: f64) -> Vector
        ensures { result ≡ Vectors.vec x y z }
    {
        Vector { x, y, z }
    }

    // The length alone, for the callers inside.
    pub fn norm(self) -> f64
        ensures { result ≡ Vectors.length_of self }
    {
        sqrt::root(self.length_squared())
    }

    // The same for a vector that is mostly of length one, whose root is then next to no work.
    pub fn norm_near(self) -> f64
        ensures { result ≡ Vectors.length_of self }
    {
        sqrt::root_near(self.length_squared())
    }

    // Whether the length is at most l: mostly told by squares, without the root.
    pub fn norm_at_most(self, l: f64) -> bool
        ensures { result ≡ le (Vectors.length_of self) l }
    {
        sqrt::root_at_most(self.length_squared(), l)
    }

    // Whether it is above l, told in the same way.
    pub fn norm_above(self, l: f64) -> bool
        ensures { result ≡ lt l (Vectors.length_of self) }
    {
        sqrt::root_above(self.length_squared(), l)
    }

    // The length with the exact remainder of its root, of the computed sum of squares.
    pub fn length(self) -> Rooted
        ensures { (result.root ≡ Vectors.length_of self) × (result.rest ≡ Vectors.length_rest self) }
    {
        sqrt::sqrt(self.length_squared())
    }

    // The distance alone, for the callers inside.
    pub fn gap(self, other: Vector) -> f64
        ensures { result ≡ Vectors.distance_of self other }
    {
        self.sub(other).norm()
    }

    // The distance with the exact remainder of its root.
    pub fn distance(self, other: Vector) -> Rooted
        ensures { (result.root ≡ Vectors.distance_of self other) × (result.rest ≡ Vectors.distance_rest self other) }
    {
        self.sub(other).length()
    }

    pub fn length_squared(self) -> f64
        ensures { result ≡ Vectors.length_squared self }
    {
        self.x * self.x + self.y * self.y + self.z * self.z
    }

    pub fn distance_squared(self, other: Vector) -> f64
        ensures { result ≡ Vectors.distance_squared self other }
    {
        self.sub(other).length_squared()
    }

    pub fn dot(self, other: Vector) -> f64
        ensures { result ≡ Vectors.dot self other }
    {
        self.x * other.x + self.y * other.y + self.z * other.z
    }

    pub fn cross(self, other: Vector) -> Vector
        ensures { result ≡ Vectors.cross self other }
    {
        Vector {
            x: self.y * other.z - self.z * other.y,
            y: self.z * other.x - self.x * other.z,
            z: self.x * other.y - self.y * other.x,
        }
    }

    pub fn normalize(self) -> Option<Vector>
        ensures { result ≡ Vectors.normalize_of self }
    {
        let d = self.norm();
        if d == 0.0 {
            return None;
        }
        Some(self.div_scalar(d))
    }

    pub fn add(self, other: Vector) -> Vector
        ensures { result ≡ Vectors.add_v self other }
    {
        Vector {
            x: self.x + other.x,
            y: self.y + other.y,
            z: self.z + other.z,
        }
    }

    pub fn sub(self, other: Vector) -> Vector
        ensures { result ≡ Vectors.sub_v self other }
    {
        Vector {
            x: self.x - other.x,
            y: self.y - other.y,
            z: self.z - other.z,
        }
    }

    pub fn mul(self, other: Vector) -> Vector
        ensures { result ≡ Vectors.mul_v self other }
    {
        Vector {
            x: self.x * other.x,
            y: self.y * other.y,
            z: self.z * other.z,
        }
    }

    pub fn div(self, other: Vector) -> Vector
        ensures { result ≡ Vectors.div_v self other }
    {
        Vector {
            x: self.x / other.x,
            y: self.y / other.y,
            z: self.z / other.z,
        }
    }

    pub fn add_scalar(self, s: f64) -> Vector
        ensures { result ≡ Vectors.add_scalar self s }
    {
        Vector {
            x: self.x + s,
            y: self.y + s,
            z: self.z + s,
        }
    }

    pub fn sub_scalar(self, s: f64) -> Vector
        ensures { result ≡ Vectors.sub_scalar self s }
    {
        Vector {
            x: self.x - s,
            y: self.y - s,
            z: self.z - s,
        }
    }

    pub fn mul_scalar(self, s: f64) -> Vector
        ensures { result ≡ Vectors.mul_scalar self s }
    {
        Vector {
            x: self.x * s,
            y: self.y * s,
            z: self.z * s,
        }
    }

    pub fn div_scalar(self, s: f64) -> Vector
        ensures { result ≡ Vectors.div_scalar self s }
    {
        Vector {
            x: self.x / s,
            y: self.y / s,
            z: self.z / s,
        }
    }

    pub fn min(self, other: Vector) -> Vector
        ensures { result ≡ Vectors.min_v self other }
    {
        Vector {
            x: floats::min(self.x, other.x),
            y: floats::min(self.y, other.y),
            z: floats::min(self.z, other.z),
        }
    }

    pub fn max(self, other: Vector) -> Vector
        ensures { result ≡ Vectors.max_v self other }
    {
        Vector {
            x: floats::max(self.x, other.x),
            y: floats::max(self.y, other.y),
            z: floats::max(self.z, other.z),
        }
    }

    // The magnitude of each component.
    fn abs(self) -> Vector
        ensures { result ≡ Vectors.abs_v self }
    {
        Vector {
            x: floats::abs(self.x),
            y: floats::abs(self.y),
            z: floats::abs(self.z),
        }
    }

    pub fn min_axis(self) -> Vector
        ensures { result ≡ Vectors.min_axis self }
    {
        let m = self.abs();
        if at_most_both(m.x, m.y, m.z) {
            return Vector::new(1.0, 0.0, 0.0);
        }
        if at_most_both(m.y, m.x, m.z) {
            return Vector::new(0.0, 1.0, 0.0);
        }
        Vector::new(0.0, 0.0, 1.0)
    }

    pub fn min_component(self) -> f64
        ensures { result ≡ Vectors.min_component self }
    {
        floats::min(floats::min(self.x, self.y), self.z)
    }

    pub fn max_component(self) -> f64
        ensures { result ≡ Vectors.max_component self }
    {
        floats::max(floats::max(self.x, self.y), self.z)
    }

    pub fn all_close(self, other: Vector) -> bool
        ensures { result ≡ Vectors.all_close self other }
    {
        self.sub(other).abs().max_component() < Vector::EPS
    }

    pub fn segment_distance(self, v: Vector, w: Vector) -> f64
        ensures { result ≡ Vectors.segment_distance self v w }
    {
        sqrt::root(self.segment_square(v, w))
    }

    // The square of the distance from the segment, for callers that can do without most of the roots.
    pub fn segment_square(self, v: Vector, w: Vector) -> f64
        ensures { result ≡ Vectors.segment_square self v w }
    {
        let l2 = v.distance_squared(w);
        if l2 == 0.0 {
            return self.distance_squared(v);
        }
        self.foot_square(v, w, self.sub(v).dot(w.sub(v)) / l2)
    }

    // The same where the foot of the perpendicular lies at t, from 0 at v to 1 at w.
    fn foot_square(self, v: Vector, w: Vector, t: f64) -> f64
        ensures { result ≡ Vectors.foot_square self v w t }
    {
        if t < 0.0 {
            return self.distance_squared(v);
        }
        if t > 1.0 {
            return self.distance_squared(w);
        }
        v.add(w.sub(v).mul_scalar(t)).distance_squared(self)
    }
}

fn at_most_both(a: f64, b: f64, c: f64) -> bool
    ensures { result ≡ Vectors.at_most_both a b c }
{
    a <= b && a <= c
}
