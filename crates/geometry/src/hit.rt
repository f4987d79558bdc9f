// Where a ray meets a solid: a distance along the ray, and whether there is a hit.
ghost use Rattle.std.specs.Prelude.{◌≡◌};
ghost use Rattle.geometry.specs.Hits as Hits;

#[derive(Clone, Copy)]
pub struct Hit {
    pub t: f64,
    pub ok: bool,
}

impl Hit {
    pub const INF: f64 = 1e9;

    pub fn new(t: f64) -> Hit
        ensures { result ≡ Hits.hit_at t }
    {
        Hit { t, ok: true }
    }

    pub fn no_hit() -> Hit
        ensures { result ≡ Hits.no_hit }
    {
        Hit {
            t: Hit::INF,
            ok: false,
        }
    }

    pub fn is_ok(self) -> bool
        ensures { result ≡ Hits.is_ok self }
    {
        self.t < Hit::INF
    }

    // By its fields: copied whole, a flag would be read as a word where a byte was written, which waits.
    pub fn min(self, other: Hit) -> Hit
        ensures { result ≡ Hits.min_hit self other }
    {
        if self.t <= other.t {
            Hit {
                t: self.t,
                ok: self.ok,
            }
        } else {
            Hit {
                t: other.t,
                ok: other.ok,
            }
        }
    }

    pub fn max(self, other: Hit) -> Hit
        ensures { result ≡ Hits.max_hit self other }
    {
        if self.t > other.t { self } else { other }
    }
}
