// The eye test (scene.rs): whether a point is seen from the eye past the solids of a tree.
#![tactic(auto)]

ghost use Rattle.std.specs.Prelude.{◌≡◌};
ghost use Rattle.geometry.specs.declared.ray.Ray.{Ray};
ghost use Rattle.tree_walk.specs.Walks.{entry_hit, walk_rows};
ghost use Rattle.tree_sight.specs.Sights as Sights;

use geometry::ray::Ray;
use geometry::vector::Vector;
use refusals::Refusal;
use tree_walk::Nearest;

// Document 01's yes and no.
#[derive(Clone, Copy)]
pub enum Sight {
    Visible,
    Hidden,
}

fn judged(a: Result<Nearest, Refusal>, distance: f64) -> Result<Sight, Refusal>
    ensures { result ≡ Sights.by_distance a distance }
{
    let b = a?;
    if b.hit.t >= distance {
        return Ok(Sight::Visible);
    }
    Ok(Sight::Hidden)
}

pub fn visible(
    numbers: &[f64],
    inverses: &[f64],
    marks: &[u32],
    node_boxes: &[f64],
    node_marks: &[u32],
    order: &[u32],
    eye: Vector,
    point: Vector,
) -> Result<Sight, Refusal>
    ensures { result ≡ Sights.sees (λ (r : Ray). walk_rows (entry_hit numbers.now inverses.now marks.now r) r node_boxes.now node_marks.now order.now) eye point }
{
    let v = eye.sub(point);
    let distance = v.norm();
    if distance == 0.0 {
        return Ok(Sight::Visible);
    }
    let r = Ray::new(point, v.div_scalar(distance));
    let a = tree_walk::intersect(numbers, inverses, marks, node_boxes, node_marks, order, r);
    judged(a, distance)
}
