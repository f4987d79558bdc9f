// Number 5: the used numbers of an entry are within 1,000,000, and its measures make sense.
ghost use Rattle.std.specs.Prelude.{◌≡◌, ◌/◌, ◌*◌, ◌≤◌, length, ◌&&◌};
ghost use Rattle.scene.specs.Entries.{marks_at, numbers_at};
ghost use Rattle.lists.specs.Lists.{all_of};
ghost use Rattle.limits.specs.Limits.{within_point};
ghost use Rattle.check_measures.specs.Measures as Measures;

use geometry::vector::Vector;
use matrix::Matrix;
use rows::{Marks, Numbers};
use solids::solid::Solid;

fn is_radius(r: f64) -> bool
    ensures { result ≡ Measures.is_radius r }
{
    if floats::within(r) {
        return !(r < 0.0);
    }
    false
}

// Whether a coordinate of a exceeds that of b.
fn exceeds(a: Vector, b: Vector) -> bool
    ensures { result ≡ Measures.exceeds a b }
{
    if b.x < a.x {
        return true;
    }
    if b.y < a.y {
        return true;
    }
    b.z < a.z
}

fn sphere_measured(center: Vector, radius: f64) -> bool
    ensures { result ≡ (within_point center && Measures.is_radius radius) }
{
    if limits::within_point(center) {
        return is_radius(radius);
    }
    false
}

fn cylinder_measured(radius: f64, z0: f64, z1: f64) -> bool
    ensures { result ≡ Measures.cylinder_measured radius z0 z1 }
{
    if is_radius(radius) {
        if floats::within(z0) {
            if floats::within(z1) {
                return !(z1 < z0);
            }
        }
    }
    false
}

fn cone_measured(radius: f64, height: f64) -> bool
    ensures { result ≡ Measures.cone_measured radius height }
{
    if is_radius(radius) {
        if floats::within(height) {
            return 0.0 < height;
        }
    }
    false
}

fn cube_measured(a: Vector, b: Vector) -> bool
    ensures { result ≡ Measures.cube_measured a b }
{
    if limits::within_point(a) {
        if limits::within_point(b) {
            return !exceeds(a, b);
        }
    }
    false
}

fn triangle_measured(a: Vector, b: Vector, c: Vector) -> bool
    ensures { result ≡ Measures.triangle_measured a b c }
{
    if limits::within_point(a) {
        if limits::within_point(b) {
            return limits::within_point(c);
        }
    }
    false
}

pub fn solid_measured(s: Solid) -> bool
    ensures { result ≡ Measures.solid_measured s }
{
    match s {
        Solid::Sphere { center, radius } => sphere_measured(center, radius),
        Solid::Cylinder { radius, z0, z1 } => cylinder_measured(radius, z0, z1),
        Solid::Cone { radius, height } => cone_measured(radius, height),
        Solid::Cube { min, max } => cube_measured(min, max),
        Solid::Triangle { v1, v2, v3 } => triangle_measured(v1, v2, v3),
        Solid::ClosedCylinder { radius, z0, z1 } => cylinder_measured(radius, z0, z1),
        Solid::ClosedCone { radius, height } => cone_measured(radius, height),
    }
}

fn measured(m: Marks, n: Numbers) -> bool
    ensures { result ≡ Measures.measured m n }
{
    if m.kind == 6 {
        let placing: Matrix = scene::entry::matrix_of(n);
        return limits::within_matrix(placing);
    }
    let s = scene::entry::simple_of(m.kind, n);
    match s {
        Some(solid) => solid_measured(solid),
        None => true,
    }
}

// Whether each entry's measures pass.
pub fn all_measured(numbers: &[f64], marks: &[u32]) -> bool
    requires { length marks.now / 4 * 16 ≤ length numbers.now }
    ensures { result ≡ all_of (λ i. Measures.measured (marks_at marks.now i) (numbers_at numbers.now i)) (length marks.now / 4) }
{
    let n = marks.len() / 4;
    for i in 0..n {
        let m = rows::read_marks(marks, i);
        if !measured(m, rows::read_numbers(numbers, i)) {
            return false;
        }
    }
    true
}
