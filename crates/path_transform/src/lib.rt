// Points moved by a matrix, in place.
#![tactic(auto)]

ghost use Rattle.std.specs.Prelude.{◌≡◌, ◌*◌, ◌≤◌, length};
ghost use Rattle.path_transform.specs.Transform.{transformed};

use matrix::Matrix;

// The first n points of a slice.
pub fn transform(matrix: Matrix, xs: &mut [f64], n: usize)
    requires { n * 3 ≤ length xs.old }
    ensures { xs.new ≡ transformed matrix n xs.old }
{
    for i in 0..n {
        let p = rows::read_point(xs, i);
        rows::write_point(xs, i, matrix.mul_position(p));
    }
}
