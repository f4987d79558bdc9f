// A view, and what the Rust's `render` makes of it.
#![tactic(auto)]

ghost use Rattle.std.specs.Prelude.{◌≡◌};
ghost use Rattle.view.specs.Views as Views;

use geometry::vector::Vector;
use matrix::Matrix;

// The clip matrix, the eye, the sheet's width and height, and the step of chopping.
#[derive(Clone, Copy)]
pub struct View {
    pub matrix: Matrix,
    pub eye: Vector,
    pub width: f64,
    pub height: f64,
    pub step: f64,
}

// The matrix to the sheet, with what else lines are made by.
#[derive(Clone, Copy)]
pub struct RenderArgs {
    pub screen: Matrix,
    pub eye: Vector,
    pub width: f64,
    pub height: f64,
    pub step: f64,
}

// A width or height: above 0 and up to 1,000,000.
fn extent_ok(x: f64) -> bool
    ensures { result ≡ Views.extent_ok x }
{
    0.0 < x && x <= 1000000.0
}

fn step_ok(x: f64) -> bool
    ensures { result ≡ Views.step_ok x }
{
    0.0 <= x && x <= 1000.0
}

// From the clip box to the sheet.
pub fn viewport(width: f64, height: f64) -> Matrix
    ensures { result ≡ Views.viewport width height }
{
    Matrix::translate(Vector::new(1.0, 1.0, 0.0)).scaled(Vector::new(
        width / 2.0,
        height / 2.0,
        1.0,
    ))
}

impl View {
    // Whether its numbers pass: all finite, the eye's up to 1,000,000 in magnitude, width and height
    // above 0, the step from 0 to 1,000.
    pub fn is_ok(self) -> bool
        ensures { result ≡ Views.view_ok self }
    {
        if !limits::finite_matrix(self.matrix) {
            return false;
        }
        if !limits::within_point(self.eye) {
            return false;
        }
        if !extent_ok(self.width) {
            return false;
        }
        if !extent_ok(self.height) {
            return false;
        }
        step_ok(self.step)
    }

    pub fn args(self) -> RenderArgs
        ensures { result ≡ Views.args_of self }
    {
        let matrix = self.matrix;
        let eye = self.eye;
        RenderArgs {
            screen: viewport(self.width, self.height).mul(matrix),
            eye,
            width: self.width,
            height: self.height,
            step: self.step,
        }
    }
}
