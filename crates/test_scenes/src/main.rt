// Reads records of 256 words of 8 bytes, and writes how many there are and how many are wrong. A record
// is a scene with what is asked of it, and the answers of the calls on it (specs/Records).
#![tactic(auto)]

ghost use Rattle.std.specs.Prelude.{◌≡◌, ◌+◌, ◌*◌, length};
ghost use Rattle.scene.specs.Scenes.{scene_of};
ghost use Rattle.test_scenes.specs.Records.{check_right, own_hit_right, own_contains_right, answers_right, slices_fit, scene_right, wrong_scenes};

use geometry::hit::Hit;
use geometry::ray::Ray;
use geometry::vector::Vector;
use refusals::Refusal;
use std::io;

fn wide(x: u32) -> u64
    ensures { result ≡ x }
{
    x as u64
}

// For each call on the scene, whether the answers of the record are right.
fn check_right(
    numbers: &[f64],
    marks: &[u32],
    points: &[f64],
    starts: &[usize],
    owners: &[u32],
    r: &[u8],
) -> bool
    requires { length r.now ≡ 2048 }
    ensures { result ≡ check_right (scene_of numbers.now marks.now points.now starts.now owners.now) r.now }
{
    let mut inverses = [0.0; 16384];
    let mut boxes = [0.0; 6144];
    let mut drawn = [0u32; 1024];
    let v = check_scene::check(
        numbers,
        marks,
        points,
        starts,
        owners,
        &mut inverses,
        &mut boxes,
        &mut drawn,
    );
    if !test_words::is(r, 216, wide(refusals::answer_number(v))) {
        return false;
    }
    if !test_words::is(r, 217, query_solid::answers::drawn_count(v) as u64) {
        return false;
    }
    let i = (test_words::word(r, 5) % 1024) as usize;
    let b = i * 6;
    if !test_words::all_same(&boxes[b..b + 6], r, 218) {
        return false;
    }
    let m = i * 16;
    if !test_words::all_same(&inverses[m..m + 16], r, 224) {
        return false;
    }
    test_words::is(r, 245, wide(drawn[i]))
}

fn own_hit_right(
    numbers: &[f64],
    marks: &[u32],
    points: &[f64],
    starts: &[usize],
    owners: &[u32],
    r: &[u8],
) -> bool
    requires { length r.now ≡ 2048 }
    ensures { result ≡ own_hit_right (scene_of numbers.now marks.now points.now starts.now owners.now) r.now }
{
    let i = test_words::word(r, 5) as usize;
    let ray: Ray = test_words::ray_at(r, 6);
    let h: Result<Hit, Refusal> = query_solid::own_hit(
        numbers, marks, points, starts, owners, i, ray,
    );
    if !test_words::is(r, 240, wide(refusals::answer_number(h))) {
        return false;
    }
    if !test_words::same(query_solid::answers::distance(h), test_words::word(r, 241)) {
        return false;
    }
    test_words::is(r, 242, test_words::flag(query_solid::answers::met(h)))
}

fn own_contains_right(
    numbers: &[f64],
    marks: &[u32],
    points: &[f64],
    starts: &[usize],
    owners: &[u32],
    r: &[u8],
) -> bool
    requires { length r.now ≡ 2048 }
    ensures { result ≡ own_contains_right (scene_of numbers.now marks.now points.now starts.now owners.now) r.now }
{
    let i = test_words::word(r, 5) as usize;
    let p: Vector = test_words::point_at(r, 12);
    let f = test_words::float_at(r, 15);
    let c = query_solid::own_contains(numbers, marks, points, starts, owners, i, p, f);
    if !test_words::is(r, 243, wide(refusals::answer_number(c))) {
        return false;
    }
    test_words::is(r, 244, test_words::flag(query_solid::answers::inside(c)))
}

fn answers_right(
    numbers: &[f64],
    marks: &[u32],
    points: &[f64],
    starts: &[usize],
    owners: &[u32],
    r: &[u8],
) -> bool
    requires { length r.now ≡ 2048 }
    ensures { result ≡ answers_right (scene_of numbers.now marks.now points.now starts.now owners.now) r.now }
{
    if !check_right(numbers, marks, points, starts, owners, r) {
        return false;
    }
    if !own_hit_right(numbers, marks, points, starts, owners, r) {
        return false;
    }
    own_contains_right(numbers, marks, points, starts, owners, r)
}

// Whether the slices of the record have room.
fn slices_fit(r: &[u8]) -> bool
    requires { length r.now ≡ 2048 }
    ensures { result ≡ slices_fit r.now }
{
    if test_words::word(r, 0) > 16416 {
        return false;
    }
    if test_words::word(r, 1) > 4104 {
        return false;
    }
    if test_words::word(r, 2) > 32 {
        return false;
    }
    if test_words::word(r, 3) > 8 {
        return false;
    }
    test_words::word(r, 4) <= 8
}

// Whether the record is right.
fn scene_right(r: &[u8]) -> bool
    requires { length r.now ≡ 2048 }
    ensures { result ≡ scene_right r.now }
{
    if !slices_fit(r) {
        return false;
    }
    let a = test_words::word(r, 0) as usize;
    let b = test_words::word(r, 1) as usize;
    let c = test_words::word(r, 2) as usize;
    let d = test_words::word(r, 3) as usize;
    let e = test_words::word(r, 4) as usize;
    let mut numbers = [0.0; 16416];
    let mut marks = [0u32; 4104];
    let mut points = [0.0; 32];
    let mut starts = [0usize; 8];
    let mut owners = [0u32; 8];
    test_words::fill_floats(&mut numbers, a, r, 16, 144);
    test_words::fill_marks(&mut marks, b, r, 160, 36);
    test_words::fill_floats(&mut points, c, r, 196, 12);
    test_words::fill_counts(&mut starts, d, r, 208, 4);
    test_words::fill_marks(&mut owners, e, r, 212, 4);
    answers_right(
        &numbers[..a],
        &marks[..b],
        &points[..c],
        &starts[..d],
        &owners[..e],
        r,
    )
}

// How many of the records are wrong.
fn wrong(s: &[u8]) -> u64
    ensures { result ≡ wrong_scenes s.now }
{
    let count = s.len() / 2048;
    let mut n: u64 = 0;
    for i in 0..count {
        let at = i * 2048;
        n += test_words::miss(scene_right(&s[at..at + 2048]));
    }
    n
}

fn main(rt: HostRuntime) -> io::Result<()> {
    let mut buffer = [0u8; 131072];
    let n = test_words::read_list(&mut rt.stdin(), &mut buffer);
    let count = n / 2048;
    let wrong = wrong(&buffer[..n]);
    println!(rt; "{count} scenes, {wrong} wrong")
}
