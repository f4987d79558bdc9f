// The roots of a quadratic, for the cylinder and the cone.
ghost use Rattle.std.specs.Prelude.{◌≡◌};
ghost use Rattle.solids.specs.Roots.{first_hit, roots_of};

use geometry::bounding_box::{Span, ordered};
use geometry::hit::Hit;

// The roots of a t^2 + b t + c whose discriminant is q, in order where both are numbers.
pub fn roots(a: f64, b: f64, q: f64) -> Span
    ensures { result ≡ roots_of a b q }
{
    let s = sqrt::root(q);
    let t0 = (-b + s) / (2.0 * a);
    let t1 = (-b - s) / (2.0 * a);
    ordered(t0, t1)
}

// The first of two roots that is on the solid, as near and far say of each.
pub fn first(t: Span, near: bool, far: bool) -> Hit
    ensures { result ≡ first_hit t near far }
{
    if near {
        return Hit::new(t.tmin);
    }
    if far {
        return Hit::new(t.tmax);
    }
    Hit::no_hit()
}
