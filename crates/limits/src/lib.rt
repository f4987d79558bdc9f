// Limits on several numbers at once: finite, or finite and of magnitude at most 1,000,000.
#![tactic(auto)]

ghost use Rattle.std.specs.Prelude.{◌≡◌};
ghost use Rattle.limits.specs.Limits.{within_point, within_box, within_ray, within_four, within_matrix, finite_four, finite_matrix};

use geometry::bounding_box::BBox;
use geometry::ray::Ray;
use geometry::vector::Vector;
use matrix::Matrix;

// Whether each coordinate is within 1,000,000.
pub fn within_point(v: Vector) -> bool
    ensures { result ≡ within_point v }
{
    if floats::within(v.x) {
        if floats::within(v.y) {
            return floats::within(v.z);
        }
    }
    false
}

// Whether both corners are.
pub fn within_box(b: BBox) -> bool
    ensures { result ≡ within_box b }
{
    if within_point(b.min) {
        return within_point(b.max);
    }
    false
}

// Whether all six numbers of a ray are.
pub fn within_ray(r: Ray) -> bool
    ensures { result ≡ within_ray r }
{
    if within_point(r.origin) {
        return within_point(r.direction);
    }
    false
}

fn within_four(a: f64, b: f64, c: f64, d: f64) -> bool
    ensures { result ≡ within_four a b c d }
{
    if floats::within(a) {
        if floats::within(b) {
            if floats::within(c) {
                return floats::within(d);
            }
        }
    }
    false
}

// Whether each number is within 1,000,000.
pub fn within_matrix(m: Matrix) -> bool
    ensures { result ≡ within_matrix m }
{
    if within_four(m.x00, m.x01, m.x02, m.x03) {
        if within_four(m.x10, m.x11, m.x12, m.x13) {
            if within_four(m.x20, m.x21, m.x22, m.x23) {
                return within_four(m.x30, m.x31, m.x32, m.x33);
            }
        }
    }
    false
}

fn finite_four(a: f64, b: f64, c: f64, d: f64) -> bool
    ensures { result ≡ finite_four a b c d }
{
    if floats::is_finite(a) {
        if floats::is_finite(b) {
            if floats::is_finite(c) {
                return floats::is_finite(d);
            }
        }
    }
    false
}

// Whether each number is finite.
pub fn finite_matrix(m: Matrix) -> bool
    ensures { result ≡ finite_matrix m }
{
    if finite_four(m.x00, m.x01, m.x02, m.x03) {
        if finite_four(m.x10, m.x11, m.x12, m.x13) {
            if finite_four(m.x20, m.x21, m.x22, m.x23) {
                return finite_four(m.x30, m.x31, m.x32, m.x33);
            }
        }
    }
    false
}
