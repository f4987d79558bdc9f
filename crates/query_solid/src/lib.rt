// What the solid at an entry of a scene answers by itself: its hit, and what it contains.
#![tactic(auto)]

pub mod answers;
pub mod simple;

ghost use Rattle.std.specs.Prelude.{◌≡◌};
ghost use Rattle.scene.specs.Scenes.{scene_of};
ghost use Rattle.query_solid.specs.Own.{own_hit, own_contains};

use geometry::hit::Hit;
use geometry::ray::Ray;
use geometry::vector::Vector;
use refusals::Refusal;

// The hit that the solid at entry i gives a ray, with no tree and no other solid.
pub fn own_hit(
    numbers: &[f64],
    marks: &[u32],
    points: &[f64],
    starts: &[usize],
    owners: &[u32],
    i: usize,
    r: Ray,
) -> Result<Hit, Refusal>
    ensures { result ≡ own_hit (scene_of numbers.now marks.now points.now starts.now owners.now) i r }
{
    let mut inverses = [0.0; 16384];
    let mut boxes = [0.0; 6144];
    let mut drawn = [0u32; 1024];
    check_scene::check(
        numbers,
        marks,
        points,
        starts,
        owners,
        &mut inverses,
        &mut boxes,
        &mut drawn,
    )?;
    if !limits::within_ray(r) {
        return Err(Refusal::View);
    }
    scene_shape::entry_hit(numbers, &inverses, marks, i, r, 8)
}

// Whether the solid at entry i, widened by f, contains p.
pub fn own_contains(
    numbers: &[f64],
    marks: &[u32],
    points: &[f64],
    starts: &[usize],
    owners: &[u32],
    i: usize,
    p: Vector,
    f: f64,
) -> Result<bool, Refusal>
    ensures { result ≡ own_contains (scene_of numbers.now marks.now points.now starts.now owners.now) i p f }
{
    let mut inverses = [0.0; 16384];
    let mut boxes = [0.0; 6144];
    let mut drawn = [0u32; 1024];
    check_scene::check(
        numbers,
        marks,
        points,
        starts,
        owners,
        &mut inverses,
        &mut boxes,
        &mut drawn,
    )?;
    let inside = scene_shape::entry_contains(numbers, &inverses, marks, i, p, f, 8);
    Ok(inside)
}
