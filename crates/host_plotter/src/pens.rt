// The call that picks the path which the pen draws next.
ghost use Rattle.std.specs.Prelude.{◌≡◌};
ghost use Rattle.rows.specs.Points.{point_of};
ghost use Rattle.plotter_pens.specs.Pens.{lent_drawing};
ghost use Rattle.host_plotter.specs.PenCalls as PenCalls;

use geometry::vector::Vector;
use paths::Range;
use plotter_pens::Choice;
use refusals::Refusal;

// Whether the path is one of the dimension lines.
fn in_lines(c: Result<Option<Choice>, Refusal>) -> bool
    ensures { result ≡ PenCalls.in_lines c }
{
    match c {
        Ok(Some(Choice::Yard(_, _))) => false,
        Ok(Some(Choice::Lines(_, _))) => true,
        Ok(None) => false,
        Err(_) => false,
    }
}

// Its place among the paths of its drawing.
fn path_told(c: Result<Option<Choice>, Refusal>) -> usize
    ensures { result ≡ PenCalls.path_told c }
{
    match c {
        Ok(Some(Choice::Yard(k, _))) => k,
        Ok(Some(Choice::Lines(k, _))) => k,
        Ok(None) => 0,
        Err(_) => 0,
    }
}

// Where it lies among the points of its drawing.
fn range_told(c: Result<Option<Choice>, Refusal>) -> Range
    ensures { result ≡ PenCalls.range_told c }
{
    match c {
        Ok(Some(Choice::Yard(_, r))) => r,
        Ok(Some(Choice::Lines(_, r))) => r,
        Ok(None) => Range { from: 0, end: 0 },
        Err(_) => Range { from: 0, end: 0 },
    }
}

// The undrawn path nearest to the pen, over a yard and its dimension lines: whether it is one of the lines, its
// place there, and its first point and the one after its last, in points. Its mark becomes 1. Numbers 2, 4, 9
// and 15: the rest is then false and 0, and no mark changes.
pub fn larnt_pick(
    yard: &[f64],
    yard_starts: &[usize],
    lines: &[f64],
    line_starts: &[usize],
    pen: &[f64; 3],
    marks: &mut [u8],
    of_lines: &mut bool,
    path: &mut usize,
    from: &mut usize,
    end: &mut usize,
) -> u32
    ensures { PenCalls.PickTold (lent_drawing yard.now yard_starts.now) (lent_drawing lines.now line_starts.now) marks.old (point_of pen.now) result marks.new of_lines.new path.new from.new end.new }
{
    let p = Vector {
        x: pen[0],
        y: pen[1],
        z: pen[2],
    };
    let c = plotter_pens::pick_and_mark(yard, yard_starts, lines, line_starts, p, marks);
    let r = range_told(c);
    *of_lines = in_lines(c);
    *path = path_told(c);
    *from = r.from;
    *end = r.end;
    plotter_pens::pick_number(c)
}
