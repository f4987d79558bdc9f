// A ray: an origin and a direction.
ghost use Rattle.std.specs.Prelude.{◌≡◌};
ghost use Rattle.geometry.specs.Rays as Rays;

use crate::vector::Vector;

#[derive(Clone, Copy)]
pub struct Ray {
    pub origin: Vector,
    pub direction: Vector,
}

impl Ray {
    pub fn new(origin: Vector, direction: Vector) -> Ray
        ensures { result ≡ Rays.ray_of origin direction }
    {
        Ray { origin, direction }
    }

    // The same ray, made of its two vectors. A ray that goes on to another function is handed over so: it is then read
    // back from memory in the pieces that were written.
    pub fn again(self) -> Ray
        ensures { result ≡ self }
    {
        let origin = self.origin;
        let direction = self.direction;
        Ray { origin, direction }
    }

    pub fn position(self, t: f64) -> Vector
        ensures { result ≡ Rays.position self t }
    {
        self.origin.add(self.direction.mul_scalar(t))
    }
}
