// Number 4 of a scene's entries: their parts and the owners of handed-in lines; and which are drawn.
#![tactic(auto)]

ghost use Rattle.std.specs.Prelude.{◌≡◌, true, ◌&&◌, cond, ◌+◌, ◌<◌, ◌≤◌, ◌/◌, length, get_or, set, take, drop, ltb, eqb};
ghost use Rattle.check_parts.specs.Parts as Parts;
ghost use Rattle.check_parts.specs.Owners as Owners;
ghost use Rattle.check_parts.specs.Drawn as Drawn;

fn larger(a: u32, b: u32) -> u32
    ensures { result ≡ Parts.larger a b }
{
    if a < b {
        return b;
    }
    a
}

// Marks p as named, if it is before i and not named yet.
fn take_part(named: &mut [u32], i: usize, p: usize) -> bool
    requires { i ≤ length named.old }
    ensures value { result ≡ (ltb p i && eqb (get_or named.old p 0) 0) }
    ensures named_after { named.new ≡ cond (ltb p i && eqb (get_or named.old p 0) 0) (set named.old p 1) named.old }
{
    if p < i {
        if named[p] == 0 {
            named[p] = 1;
            return true;
        }
    }
    false
}

// Stores one more than d as entry i's depth, if that is at most 8.
fn put_depth(depths: &mut [u32], i: usize, d: u32) -> bool
    requires { i < length depths.old }
    ensures value { result ≡ ltb d 8 }
    ensures depths_after { depths.new ≡ cond (ltb d 8) (set depths.old i (d + 1)) depths.old }
{
    if d < 8 {
        depths[i] = d + 1;
        return true;
    }
    false
}

// Looks at entry i: takes its parts and stores its depth.
fn enter(marks: &[u32], depths: &mut [u32], named: &mut [u32], i: usize) -> bool
    requires { Parts.Ready marks.now i depths.old named.old }
    ensures value { result ≡ Parts.entry_ok marks.now i }
    ensures known { result ≡ true → Parts.Known marks.now (i + 1) depths.new named.new }
{
    let m = rows::read_marks(marks, i);
    let a = m.first as usize;
    let b = m.second as usize;
    if m.kind == 6 {
        if take_part(named, i, a) {
            let d = depths[a];
            return put_depth(depths, i, d);
        }
        return false;
    }
    if m.kind == 7 {
        if take_part(named, i, a) {
            if take_part(named, i, b) {
                let d = larger(depths[a], depths[b]);
                return put_depth(depths, i, d);
            }
        }
        return false;
    }
    put_depth(depths, i, 0)
}

// Looks at each entry in order, until one is ill.
fn enter_all(marks: &[u32], depths: &mut [u32], named: &mut [u32]) -> bool
    requires { (length marks.now / 4 ≤ length depths.old) × ((length marks.now / 4 ≤ length named.old) × Parts.Known marks.now 0 depths.old named.old) }
    ensures value { result ≡ Parts.parts_ok marks.now (length marks.now / 4) }
    ensures flags { result ≡ true → Parts.Flags (Parts.named_before marks.now (length marks.now / 4)) named.new }
{
    let n = marks.len() / 4;
    for i in 0..n {
        if !enter(marks, depths, named, i) {
            return false;
        }
    }
    true
}

// Whether all parts are well named; then each named entry's flag is set, and no other.
pub fn well_named(marks: &[u32], named: &mut [u32]) -> bool
    requires { (length marks.now / 4 ≤ 1024) × (length marks.now / 4 ≤ length named.old) }
    ensures value { result ≡ Parts.parts_ok marks.now (length marks.now / 4) }
    ensures flags { result ≡ true → Parts.Flags (Parts.named_before marks.now (length marks.now / 4)) named.new }
{
    let mut depths = [0u32; 1024];
    rows::clear_marks(named, 0);
    enter_all(marks, &mut depths, named)
}

// The kinds whose lines are handed in: sphere, cylinder and cone, and the closed ones.
pub fn is_round(kind: u32) -> bool
    ensures { result ≡ Owners.is_round kind }
{
    if kind == 8 {
        return true;
    }
    if kind == 9 {
        return true;
    }
    if kind < 1 {
        return false;
    }
    kind <= 3
}

fn round_entry(marks: &[u32], owner: u32) -> bool
    ensures { result ≡ Owners.round_entry marks.now owner }
{
    let i = owner as usize;
    if i < marks.len() / 4 {
        return is_round(rows::read_marks(marks, i).kind);
    }
    false
}

// The owner after owner i, or that one itself if it is the last.
fn next_owner(owners: &[u32], i: usize) -> u32
    requires { i < length owners.now }
    ensures { result ≡ get_or (drop (i + 1) owners.now) 0 (get_or owners.now i 0) }
{
    let j = i + 1;
    if j < owners.len() {
        return owners[j];
    }
    owners[i]
}

// Whether each owner is an entry with handed-in lines, and owners never fall.
pub fn good_owners(marks: &[u32], owners: &[u32]) -> bool
    ensures { result ≡ Owners.owners_ok marks.now owners.now }
{
    for i in 0..owners.len() {
        if !round_entry(marks, owners[i]) {
            return false;
        }
        let next = next_owner(owners, i);
        if next < owners[i] {
            return false;
        }
    }
    true
}

// Writes the numbers below n whose flag is not set, in order, and answers how many they are.
pub fn list_unnamed(named: &[u32], n: usize, drawn: &mut [u32]) -> usize
    requires { (n ≤ length named.now) × ((n ≤ length drawn.old) × (n ≤ 1024)) }
    ensures value { result ≡ length (Drawn.unnamed (Drawn.flagged named.now) n) }
    ensures drawn_after { take result drawn.new ≡ Drawn.unnamed (Drawn.flagged named.now) n }
{
    let mut d = 0;
    for i in 0..n {
        if named[i] != 0 {
            continue;
        }
        drawn[d] = i as u32;
        d += 1;
    }
    d
}
