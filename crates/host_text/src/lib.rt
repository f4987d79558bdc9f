// The calls on text for a host program, which `host_text_c` exports: each is thin over the proved one, and takes
// any numbers. host/larnt.h declares them, with what its pointers must be.
#![tactic(auto)]

ghost use Rattle.std.specs.Prelude.{◌≡◌, ◌≤◌, length, take};
ghost use Rattle.scene.specs.Scenes.{scene_of};
ghost use Rattle.host.specs.StageCalls.{view_of_row};
ghost use Rattle.text_drawing.specs.Drawings.{fitting, laid};
ghost use Rattle.text_writer.specs.Writer.{written_of};
ghost use Rattle.text_reply.specs.Reply.{shown};
ghost use Rattle.text_restate.specs.Restating.{restate_of};
ghost use Rattle.host_text.specs.TextCalls.{bytes_told, WriteTold};

use refusals::Refusal;

fn byte_count(c: Result<usize, Refusal>) -> usize
    ensures { result ≡ bytes_told c }
{
    match c {
        Ok(n) => n,
        Err(_) => 0,
    }
}

// The canonical text of a view (matrix by rows, eye, width, height, step) and a scene, then zeros; `count` is how
// many bytes it has. Numbers 2 to 7 and 14, then 8, then 13; the slice is then zeros throughout and `count` 0.
pub fn larnt_write(
    numbers: &[f64],
    marks: &[u32],
    points: &[f64],
    starts: &[usize],
    owners: &[u32],
    view: &[f64; 22],
    text: &mut [u8],
    count: &mut usize,
) -> u32
    ensures { WriteTold (written_of (length text.old) (scene_of numbers.now marks.now points.now starts.now owners.now) (view_of_row view.now)) (length text.old) text.new result count.new }
{
    let v = host::stages::view_from(view);
    let c = text_writer::write(numbers, marks, points, starts, owners, v, text);
    *count = byte_count(c);
    refusals::answer_number(c)
}

// What the program `canonical` answers a text, then zeros; answers how many bytes of `out` that is, 0 where
// `out` is too short for any answer.
pub fn larnt_canonical(text: &[u8], out: &mut [u8]) -> usize
    ensures lent { out.new ≡ laid (fitting (length out.old) (restate_of (length out.old) text.now)) (length out.old) }
    ensures part { (result ≤ length out.new) × (take result out.new ≡ shown (fitting (length out.old) (restate_of (length out.old) text.now))) }
{
    text_restate::answer(text, out)
}
