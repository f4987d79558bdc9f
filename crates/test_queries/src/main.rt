// Asks the public calls on a scene what is known of small scenes, and writes how many questions there
// are and how many of the answers are wrong.
#![tactic(auto)]

ghost use Rattle.std.specs.Prelude.{◌≡◌, ◌≤◌, length};
ghost use Rattle.tree_nodes.specs.Nodes.{places_of};
ghost use Rattle.query_scene.specs.Queries.{build_of, intersect_of, visible_of, occluder_of};
ghost use Rattle.test_queries.specs.Questions.{differ_built, differ_hit, differ_nearest, differ_found, sight_code, differ_sight, name_code, differ_named, solids_only, node_boxes_left, node_marks_left, order_left, without_places, eye_asked, one_solid, one_missed, one_short};

use geometry::hit::Hit;
use geometry::ray::Ray;
use geometry::vector::Vector;
use refusals::Refusal;
use std::io;
use tree_sight::Sight;
use tree_walk::Nearest;

// 1 if the two differ, else 0; so too the following.
fn differ_built(a: Result<usize, Refusal>, b: Result<usize, Refusal>) -> u64
    ensures { (result ≡ differ_built a b) × (result ≤ 1) }
{
    match a {
        Ok(m) => match b {
            Ok(n) => test_words::miss(m == n),
            Err(_) => 1,
        },
        Err(j) => match b {
            Ok(_) => 1,
            Err(k) => test_words::miss(j.number() == k.number()),
        },
    }
}

fn differ_hit(g: Hit, h: Hit) -> u64
    ensures { (result ≡ differ_hit g h) × (result ≤ 1) }
{
    if g.t == h.t {
        return test_words::miss(test_words::flag(g.ok) == test_words::flag(h.ok));
    }
    1
}

fn differ_nearest(a: Nearest, b: Nearest) -> u64
    ensures { (result ≡ differ_nearest a b) × (result ≤ 1) }
{
    if a.entry == b.entry {
        return differ_hit(a.hit, b.hit);
    }
    1
}

fn differ_found(a: Result<Nearest, Refusal>, b: Result<Nearest, Refusal>) -> u64
    ensures { (result ≡ differ_found a b) × (result ≤ 1) }
{
    match a {
        Ok(g) => match b {
            Ok(h) => differ_nearest(g, h),
            Err(_) => 1,
        },
        Err(j) => match b {
            Ok(_) => 1,
            Err(k) => test_words::miss(j.number() == k.number()),
        },
    }
}

// 0 for no, 1 for yes, or the refusal's number.
fn sight_code(s: Result<Sight, Refusal>) -> u32
    ensures { result ≡ sight_code s }
{
    match s {
        Ok(Sight::Hidden) => 0,
        Ok(Sight::Visible) => 1,
        Err(k) => k.number(),
    }
}

// 0 where nobody hides the point, the refusal's number, or 16 and the entry.
fn name_code(o: Result<Option<u32>, Refusal>) -> u64
    ensures { result ≡ name_code o }
{
    match o {
        Ok(None) => 0,
        Ok(Some(i)) => (i as u64) + 16,
        Err(k) => k.number() as u64,
    }
}

// Whether the tree of a scene without lines is not as expected; it is left behind.
fn ask_build(
    numbers: &[f64],
    marks: &[u32],
    node_boxes: &mut [f64],
    node_marks: &mut [u32],
    order: &mut [u32],
    expected: Result<usize, Refusal>,
) -> u64
    ensures value { (result ≡ differ_built (build_of (solids_only numbers.now marks.now) (places_of node_boxes.old node_marks.old) (length order.old)) expected) × (result ≤ 1) }
    ensures node_boxes_after { node_boxes.new ≡ node_boxes_left (solids_only numbers.now marks.now) (length node_boxes.old) (build_of (solids_only numbers.now marks.now) (places_of node_boxes.old node_marks.old) (length order.old)) }
    ensures node_marks_after { node_marks.new ≡ node_marks_left (solids_only numbers.now marks.now) (length node_marks.old) (build_of (solids_only numbers.now marks.now) (places_of node_boxes.old node_marks.old) (length order.old)) }
    ensures order_after { order.new ≡ order_left (solids_only numbers.now marks.now) (length order.old) (build_of (solids_only numbers.now marks.now) (places_of node_boxes.old node_marks.old) (length order.old)) }
{
    let points = [0.0; 0];
    let starts = [0usize; 0];
    let owners = [0u32; 0];
    let b = query_scene::build(
        numbers, marks, &points, &starts, &owners, node_boxes, node_marks, order,
    );
    differ_built(b, expected)
}

// Whether the nearest hit of r is not as expected.
fn ask_intersect(
    numbers: &[f64],
    marks: &[u32],
    node_boxes: &[f64],
    node_marks: &[u32],
    order: &[u32],
    r: Ray,
    expected: Result<Nearest, Refusal>,
) -> u64
    ensures { (result ≡ differ_found (intersect_of (solids_only numbers.now marks.now) node_boxes.now node_marks.now order.now r) expected) × (result ≤ 1) }
{
    let points = [0.0; 0];
    let starts = [0usize; 0];
    let owners = [0u32; 0];
    let h = query_scene::intersect(
        numbers, marks, &points, &starts, &owners, node_boxes, node_marks, order, r,
    );
    differ_found(h, expected)
}

// Whether the answer to "does the eye see the point" is not as expected.
fn ask_visible(
    numbers: &[f64],
    marks: &[u32],
    node_boxes: &[f64],
    node_marks: &[u32],
    order: &[u32],
    eye: Vector,
    point: Vector,
    expected: Result<Sight, Refusal>,
) -> u64
    ensures { (result ≡ differ_sight (visible_of (solids_only numbers.now marks.now) node_boxes.now node_marks.now order.now eye point) expected) × (result ≤ 1) }
{
    let points = [0.0; 0];
    let starts = [0usize; 0];
    let owners = [0u32; 0];
    let s = query_scene::visible(
        numbers, marks, &points, &starts, &owners, node_boxes, node_marks, order, eye, point,
    );
    test_words::miss(sight_code(s) == sight_code(expected))
}

// Whether the answer to "who hides the point from the eye" is not as expected.
fn ask_occluder(
    numbers: &[f64],
    marks: &[u32],
    node_boxes: &[f64],
    node_marks: &[u32],
    order: &[u32],
    eye: Vector,
    point: Vector,
    expected: Result<Option<u32>, Refusal>,
) -> u64
    ensures { (result ≡ differ_named (occluder_of (solids_only numbers.now marks.now) node_boxes.now node_marks.now order.now eye point) expected) × (result ≤ 1) }
{
    let points = [0.0; 0];
    let starts = [0usize; 0];
    let owners = [0u32; 0];
    let o = query_scene::occluder(
        numbers, marks, &points, &starts, &owners, node_boxes, node_marks, order, eye, point,
    );
    test_words::miss(name_code(o) == name_code(expected))
}

// How many of the four calls answer a scene wrongly over slices of length 0.
fn without_places(
    numbers: &[f64],
    marks: &[u32],
    r: Ray,
    point: Vector,
    built: Result<usize, Refusal>,
    found: Result<Nearest, Refusal>,
    sight: Result<Sight, Refusal>,
    named: Result<Option<u32>, Refusal>,
) -> u64
    ensures { (result ≡ without_places (solids_only numbers.now marks.now) r point built found sight named) × (result ≤ 4) }
{
    let mut node_boxes = [0.0; 0];
    let mut node_marks = [0u32; 0];
    let mut order = [0u32; 0];
    let b = ask_build(
        numbers,
        marks,
        &mut node_boxes,
        &mut node_marks,
        &mut order,
        built,
    );
    let no_boxes = [0.0; 0];
    let no_marks = [0u32; 0];
    let h = ask_intersect(numbers, marks, &no_boxes, &no_marks, &no_marks, r, found);
    let v = ask_visible(
        numbers, marks, &no_boxes, &no_marks, &no_marks, r.origin, point, sight,
    );
    let o = ask_occluder(
        numbers, marks, &no_boxes, &no_marks, &no_marks, r.origin, point, named,
    );
    b + h + v + o
}

// How many answers are wrong: the near point is seen from the eye, the far one is hidden by the entry.
fn ask_eye(
    numbers: &[f64],
    marks: &[u32],
    node_boxes: &[f64],
    node_marks: &[u32],
    order: &[u32],
    eye: Vector,
    near: Vector,
    far: Vector,
    entry: u32,
) -> u64
    ensures { (result ≡ eye_asked (solids_only numbers.now marks.now) node_boxes.now node_marks.now order.now eye near far entry) × (result ≤ 4) }
{
    let v = ask_visible(
        numbers,
        marks,
        node_boxes,
        node_marks,
        order,
        eye,
        near,
        Ok(Sight::Visible),
    );
    let w = ask_visible(
        numbers,
        marks,
        node_boxes,
        node_marks,
        order,
        eye,
        far,
        Ok(Sight::Hidden),
    );
    let x = ask_occluder(
        numbers,
        marks,
        node_boxes,
        node_marks,
        order,
        eye,
        near,
        Ok(None),
    );
    let y = ask_occluder(
        numbers,
        marks,
        node_boxes,
        node_marks,
        order,
        eye,
        far,
        Ok(Some(entry)),
    );
    v + w + x + y
}

// How many answers on a scene of one drawn entry are wrong: its tree has one node, the ray meets the entry at
// t, and the rest is as the eye at the ray's origin sees it.
fn one_solid(
    numbers: &[f64],
    marks: &[u32],
    r: Ray,
    near: Vector,
    far: Vector,
    entry: u32,
    t: f64,
) -> u64
    ensures { (result ≡ one_solid (solids_only numbers.now marks.now) r near far entry t) × (result ≤ 6) }
{
    let mut node_boxes = [0.0; 6];
    let mut node_marks = [0u32; 3];
    let mut order = [0u32; 1];
    let b = ask_build(
        numbers,
        marks,
        &mut node_boxes,
        &mut node_marks,
        &mut order,
        Ok(1),
    );
    let met = Nearest {
        hit: Hit::new(t),
        entry,
    };
    let h = ask_intersect(numbers, marks, &node_boxes, &node_marks, &order, r, Ok(met));
    let e = ask_eye(
        numbers,
        marks,
        &node_boxes,
        &node_marks,
        &order,
        r.origin,
        near,
        far,
        entry,
    );
    b + h + e
}

// The same of a ray that misses the entry: its tree has one node, and this is the nearest hit.
fn one_missed(numbers: &[f64], marks: &[u32], r: Ray, best: Nearest) -> u64
    ensures { (result ≡ one_missed (solids_only numbers.now marks.now) r best) × (result ≤ 2) }
{
    let mut node_boxes = [0.0; 6];
    let mut node_marks = [0u32; 3];
    let mut order = [0u32; 1];
    let b = ask_build(
        numbers,
        marks,
        &mut node_boxes,
        &mut node_marks,
        &mut order,
        Ok(1),
    );
    let h = ask_intersect(
        numbers,
        marks,
        &node_boxes,
        &node_marks,
        &order,
        r,
        Ok(best),
    );
    b + h
}

// How many builds of one solid with a place too few, for a node or in the order, do not meet 13.
fn one_short(numbers: &[f64], marks: &[u32]) -> u64
    ensures { (result ≡ one_short (solids_only numbers.now marks.now)) × (result ≤ 2) }
{
    let mut node_boxes = [0.0; 6];
    let mut node_marks = [0u32; 3];
    let mut order = [0u32; 1];
    let mut no_boxes = [0.0; 0];
    let mut no_marks = [0u32; 0];
    let mut no_order = [0u32; 0];
    let a = ask_build(
        numbers,
        marks,
        &mut no_boxes,
        &mut no_marks,
        &mut order,
        Err(Refusal::Room),
    );
    let b = ask_build(
        numbers,
        marks,
        &mut node_boxes,
        &mut node_marks,
        &mut no_order,
        Err(Refusal::Room),
    );
    a + b
}

fn main(rt: HostRuntime) -> io::Result<()> {
    let cube = [
        -1.0, -1.0, -1.0, 1.0, 1.0, 1.0, 0.0, 0.0, 0.0, 0.0, 0.0, 0.0, 0.0, 0.0, 0.0, 0.0,
    ];
    let marks = [4u32, 1, 0, 0];
    let unknown = [10u32, 1, 0, 0];
    let eye = Vector::new(0.0, 0.0, 5.0);
    let down = Ray::new(eye, Vector::new(0.0, 0.0, -1.0));
    let near = Vector::new(0.0, 0.0, 1.0);
    let far = Vector::new(0.0, 0.0, -1.0);
    let one = one_solid(&cube, &marks, down, near, far, 0, 4.0);
    // a sphere at half its size, and a ray past it through its box: its miss is at half of INF, and is the best
    let mut halved = [0.0; 32];
    halved[3] = 1.0;
    halved[16] = 0.5;
    halved[21] = 0.5;
    halved[26] = 0.5;
    halved[31] = 1.0;
    let placing = [1u32, 0, 0, 0, 6, 0, 0, 0];
    let aside = Ray::new(Vector::new(0.45, 0.45, 5.0), down.direction);
    let far_miss = Nearest {
        hit: Hit {
            t: 500000000.0,
            ok: false,
        },
        entry: 1,
    };
    let missed = one_missed(&halved, &placing, aside, far_miss);
    let nobody = Ok(Nearest {
        hit: Hit::no_hit(),
        entry: 0xffffffff,
    });
    let short = one_short(&cube, &marks);
    let unplaced = without_places(
        &cube,
        &marks,
        down,
        far,
        Err(Refusal::Room),
        nobody,
        Ok(Sight::Visible),
        Ok(None),
    );
    let nothing = without_places(
        &cube[..0],
        &marks[..0],
        down,
        far,
        Ok(0),
        nobody,
        Ok(Sight::Visible),
        Ok(None),
    );
    let lengths = without_places(
        &cube,
        &marks[..2],
        down,
        far,
        Err(Refusal::Lengths),
        Err(Refusal::Lengths),
        Err(Refusal::Lengths),
        Err(Refusal::Lengths),
    );
    let values = without_places(
        &cube,
        &unknown,
        down,
        far,
        Err(Refusal::Values),
        Err(Refusal::Values),
        Err(Refusal::Values),
        Err(Refusal::Values),
    );
    let wrong = one + missed + short + unplaced + nothing + lengths + values;
    println!(rt; "26 questions, {wrong} wrong")
}
