// The call that picks the path which the pen draws next.

ghost use Rattle.rows.specs.Points.{point_of};
ghost use Rattle.plotter_pens.specs.Pens.{lent_drawing};
ghost use Rattle.host_plotter.specs.PenCalls as PenCalls;

#[unsafe(no_mangle)]
pub extern "C" fn larnt_pick(
    yard: &[f64],
    yard_starts: &[usize],
    lines: &[f64],
    line_starts: &[usize],
    pen: &[f64; 3],
    marks: &mut [u8],
    of_lines: &mut bool,
    path: &mut usize,
    from: &mut usize,
    end: &mut usize,
) -> u32
    ensures { PenCalls.PickTold (lent_drawing yard.now yard_starts.now) (lent_drawing lines.now line_starts.now) marks.old (point_of pen.now) result marks.new of_lines.new path.new from.new end.new }
{
    host_plotter::pens::larnt_pick(
        yard,
        yard_starts,
        lines,
        line_starts,
        pen,
        marks,
        of_lines,
        path,
        from,
        end,
    )
}
