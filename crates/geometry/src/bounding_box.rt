// An axis-aligned box, and where a ray crosses it.
ghost use Rattle.std.specs.Prelude.{◌≡◌};
ghost use Rattle.geometry.specs.Boxes as Boxes;

use crate::axis::Axis;
use crate::ray::Ray;
use crate::vector::Vector;

#[derive(Clone, Copy)]
pub struct BBox {
    pub min: Vector,
    pub max: Vector,
}

// Where a ray enters and leaves a box, or the room between two planes.
#[derive(Clone, Copy)]
pub struct Span {
    pub tmin: f64,
    pub tmax: f64,
}

// Whether a box reaches to the left and to the right of a plane.
#[derive(Clone, Copy)]
pub struct Sides {
    pub left: bool,
    pub right: bool,
}

fn between(low: f64, x: f64, high: f64) -> bool
    ensures { result ≡ Boxes.in_range low x high }
{
    low <= x && high >= x
}

// The ends of a slab, or two roots, swapped by the comparison: in the given order where one is a NaN.
pub fn ordered(a: f64, b: f64) -> Span
    ensures { result ≡ Boxes.ordered a b }
{
    if a > b {
        Span { tmin: b, tmax: a }
    } else {
        Span { tmin: a, tmax: b }
    }
}

fn slab(lo: f64, hi: f64, o: f64, d: f64) -> Span
    ensures { result ≡ Boxes.slab lo hi o d }
{
    ordered((lo - o) / d, (hi - o) / d)
}

impl BBox {
    pub const CLIP: BBox = BBox {
        min: Vector {
            x: -1.0,
            y: -1.0,
            z: -1.0,
        },
        max: Vector {
            x: 1.0,
            y: 1.0,
            z: 1.0,
        },
    };

    pub fn new(min: Vector, max: Vector) -> BBox
        ensures { result ≡ Boxes.box_of min max }
    {
        BBox { min, max }
    }

    pub fn anchor(self, anchor: Vector) -> Vector
        ensures { result ≡ Boxes.anchor_of self anchor }
    {
        self.min.add(self.size().mul(anchor))
    }

    pub fn center(self) -> Vector
        ensures { result ≡ Boxes.center_of self }
    {
        self.anchor(Vector::new(0.5, 0.5, 0.5))
    }

    pub fn size(self) -> Vector
        ensures { result ≡ Boxes.size_of self }
    {
        self.max.sub(self.min)
    }

    pub fn contains(self, v: Vector) -> bool
        ensures { result ≡ Boxes.contains self v }
    {
        if between(self.min.x, v.x, self.max.x) {
            if between(self.min.y, v.y, self.max.y) {
                return between(self.min.z, v.z, self.max.z);
            }
        }
        false
    }

    // Whether the clip box holds the point.
    pub fn clips(v: Vector) -> bool
        ensures { result ≡ Boxes.contains Boxes.clip_box v }
    {
        BBox::CLIP.contains(v)
    }

    pub fn extend(self, other: BBox) -> BBox
        ensures { result ≡ Boxes.extend_box self other }
    {
        BBox {
            min: self.min.min(other.min),
            max: self.max.max(other.max),
        }
    }

    // The box test.
    pub fn intersect(self, r: Ray) -> Span
        ensures { result ≡ Boxes.box_test self r }
    {
        let x = slab(self.min.x, self.max.x, r.origin.x, r.direction.x);
        let y = slab(self.min.y, self.max.y, r.origin.y, r.direction.y);
        let z = slab(self.min.z, self.max.z, r.origin.z, r.direction.z);
        Span {
            tmin: floats::max(floats::max(x.tmin, y.tmin), z.tmin),
            tmax: floats::min(floats::min(x.tmax, y.tmax), z.tmax),
        }
    }

    pub fn partition(self, axis: Option<Axis>, point: f64) -> Sides
        ensures { result ≡ Boxes.partition_of self axis point }
    {
        match axis {
            Some(Axis::X) => Sides {
                left: self.min.x <= point,
                right: self.max.x >= point,
            },
            Some(Axis::Y) => Sides {
                left: self.min.y <= point,
                right: self.max.y >= point,
            },
            Some(Axis::Z) => Sides {
                left: self.min.z <= point,
                right: self.max.z >= point,
            },
            None => Sides {
                left: false,
                right: false,
            },
        }
    }
}
