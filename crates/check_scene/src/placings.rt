// Number 6: a placing has an inverse.
ghost use Rattle.std.specs.Prelude.{◌≡◌, true, ◌+◌, ◌*◌, ◌/◌, ◌≤◌, length};
ghost use Rattle.rows.specs.Rows.{set_row, view};
ghost use Rattle.rows.specs.Entries.{numbers_of, numbers_row};
ghost use Rattle.scene.specs.Entries.{marks_at, numbers_at};
ghost use Rattle.lists.specs.Lists.{all_of, list_to};
ghost use Rattle.check_scene.specs.Placings as Placings;

use matrix_inverse::Inverted;
use rows::Numbers;

// Whether the determinant is not 0, and each number of the inverse is finite.
pub fn invertible(v: Inverted) -> bool
    ensures { result ≡ Placings.invertible v }
{
    if v.determinant == 0.0 {
        return false;
    }
    limits::finite_matrix(v.inverse)
}

fn zero_numbers() -> Numbers
    ensures { result ≡ Placings.zero_numbers }
{
    Numbers {
        x00: 0.0,
        x01: 0.0,
        x02: 0.0,
        x03: 0.0,
        x10: 0.0,
        x11: 0.0,
        x12: 0.0,
        x13: 0.0,
        x20: 0.0,
        x21: 0.0,
        x22: 0.0,
        x23: 0.0,
        x30: 0.0,
        x31: 0.0,
        x32: 0.0,
        x33: 0.0,
    }
}

// Stores what belongs to entry i, and answers whether it passes.
fn invert(numbers: &[f64], marks: &[u32], i: usize, inverses: &mut [f64]) -> bool
    requires { (i * 4 + 4 ≤ length marks.now) × ((i * 16 + 16 ≤ length numbers.now) × (i * 16 + 16 ≤ length inverses.old)) }
    ensures value { result ≡ Placings.placing_ok (marks_at marks.now i) (numbers_at numbers.now i) }
    ensures inverses_after { inverses.new ≡ set_row 16 i (numbers_row (Placings.inverse_at numbers.now marks.now i)) inverses.old }
{
    let m = rows::read_marks(marks, i);
    if m.kind != 6 {
        rows::write_numbers(inverses, i, zero_numbers());
        return true;
    }
    let n = rows::read_numbers(numbers, i);
    let v = matrix_inverse::inverse_with_determinant(scene::entry::matrix_of(n));
    rows::write_numbers(inverses, i, scene::entry::matrix_numbers(v.inverse));
    invertible(v)
}

// Stores the inverse of each placing, zeros of another entry, until one does not pass.
pub fn invert_all(numbers: &[f64], marks: &[u32], inverses: &mut [f64]) -> bool
    requires { (length marks.now / 4 * 16 ≤ length numbers.now) × (length marks.now / 4 * 16 ≤ length inverses.old) }
    ensures value { result ≡ all_of (λ i. Placings.placing_ok (marks_at marks.now i) (numbers_at numbers.now i)) (length marks.now / 4) }
    ensures inverses_after { result ≡ true → view 16 numbers_of (length marks.now / 4) inverses.new ≡ list_to (Placings.inverse_at numbers.now marks.now) (length marks.now / 4) }
{
    let n = marks.len() / 4;
    for i in 0..n {
        if !invert(numbers, marks, i, inverses) {
            return false;
        }
    }
    true
}
