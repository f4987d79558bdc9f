// A disc about the Z axis, by its radius and its height.
ghost use Rattle.std.specs.Prelude.{◌≡◌};
ghost use Rattle.solids_lids.specs.Discs.{disc_hit, lidded, on_disc};

use geometry::hit::Hit;
use geometry::ray::Ray;

// Whether t is ahead, and the ray there on the disc, whose rim belongs to it.
fn on_disc(radius: f64, ray: Ray, t: f64) -> bool
    ensures { result ≡ on_disc radius ray t }
{
    if t > 1e-6 {
        let p = ray.position(t);
        return p.x * p.x + p.y * p.y <= radius * radius;
    }
    false
}

// A disc is hit from either side.
pub fn intersect(radius: f64, z: f64, ray: Ray) -> Hit
    ensures { result ≡ disc_hit radius z ray }
{
    if ray.direction.z == 0.0 {
        return Hit::no_hit();
    }
    let t = (z - ray.origin.z) / ray.direction.z;
    if on_disc(radius, ray, t) {
        return Hit::new(t);
    }
    Hit::no_hit()
}

// What is answered of the nearest of wall and discs.
pub fn answer(nearest: Hit) -> Hit
    ensures { result ≡ lidded nearest }
{
    if nearest.t < Hit::INF {
        return nearest;
    }
    Hit::no_hit()
}
