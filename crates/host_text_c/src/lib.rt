// The calls of `host_text` for a host program, exported from a static library by their names: each with the clauses of the one that it calls.
#![tactic(auto)]

ghost use Rattle.std.specs.Prelude.{◌≡◌, ◌≤◌, length, take};
ghost use Rattle.scene.specs.Scenes.{scene_of};
ghost use Rattle.host.specs.StageCalls.{view_of_row};
ghost use Rattle.text_drawing.specs.Drawings.{fitting, laid};
ghost use Rattle.text_writer.specs.Writer.{written_of};
ghost use Rattle.text_reply.specs.Reply.{shown};
ghost use Rattle.text_restate.specs.Restating.{restate_of};
ghost use Rattle.host_text.specs.TextCalls.{WriteTold};

use view::View;

#[unsafe(no_mangle)]
pub extern "C" fn larnt_write(
    numbers: &[f64],
    marks: &[u32],
    points: &[f64],
    starts: &[usize],
    owners: &[u32],
    view: &[f64; 22],
    text: &mut [u8],
    count: &mut usize,
) -> u32
    ensures { WriteTold (written_of (length text.old) (scene_of numbers.now marks.now points.now starts.now owners.now) (view_of_row view.now)) (length text.old) text.new result count.new }
{
    host_text::larnt_write(numbers, marks, points, starts, owners, view, text, count)
}

#[unsafe(no_mangle)]
pub extern "C" fn larnt_canonical(text: &[u8], out: &mut [u8]) -> usize
    ensures lent { out.new ≡ laid (fitting (length out.old) (restate_of (length out.old) text.now)) (length out.old) }
    ensures part { (result ≤ length out.new) × (take result out.new ≡ shown (fitting (length out.old) (restate_of (length out.old) text.now))) }
{
    host_text::larnt_canonical(text, out)
}
