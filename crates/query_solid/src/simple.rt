// A simple solid by its kind and its 16 numbers. Its hit and its insides are asked for as those of a scene's one entry,
// whose inverse is not read: where every hit is asked for at one place, the compiler makes one choice of kind and case.
ghost use Rattle.std.specs.Prelude.{◌≡◌};
ghost use Rattle.rows.specs.Entries.{numbers_of};
ghost use Rattle.scene.specs.Entries.{simple_of};
ghost use Rattle.query_solid.specs.Simples.{simple_hit, simple_contains};

use geometry::hit::Hit;
use geometry::ray::Ray;
use geometry::vector::Vector;

// The hit of a solid of kinds 1 to 5, 8 or 9; any other is missed.
pub fn hit(kind: u32, n: &[f64; 16], r: Ray) -> Hit
    ensures { result ≡ simple_hit (simple_of kind (numbers_of n.now)) r }
{
    let s = scene::entry::simple_of(kind, rows::read_numbers(n, 0));
    match s {
        None => Hit::no_hit(),
        Some(_) => {
            let marks = [kind, 0, 0, 0];
            let a = scene_shape::entry_hit(n, n, &marks, 0, r, 1);
            match a {
                Ok(h) => h,
                Err(_) => Hit::no_hit(),
            }
        }
    }
}

// Whether such a solid, widened by f, contains p; any other contains nothing.
pub fn contains(kind: u32, n: &[f64; 16], p: Vector, f: f64) -> bool
    ensures { result ≡ simple_contains (simple_of kind (numbers_of n.now)) p f }
{
    let s = scene::entry::simple_of(kind, rows::read_numbers(n, 0));
    match s {
        None => false,
        Some(_) => {
            let marks = [kind, 0, 0, 0];
            scene_shape::entry_contains(n, n, &marks, 0, p, f, 1)
        }
    }
}
