// What the program `canonical` answers a text: the same yard in canonical form, or why it is refused.
#![tactic(auto)]

ghost use Rattle.std.specs.Prelude.{◌≡◌, ◌≤◌, length, take};
ghost use Rattle.scene.specs.Scenes.{scene_of};
ghost use Rattle.text_drawing.specs.Drawings.{fitting, written, laid};
ghost use Rattle.text_writer.specs.Writer.{written_of};
ghost use Rattle.text_reply.specs.Reply.{shown};
ghost use Rattle.text_restate.specs.Restating.{writer_text, restate_of};

use refusals::Refusal;
use view::View;

// The canonical text of a view and a scene, or the text of its refusal.
fn restated(
    numbers: &[f64],
    marks: &[u32],
    points: &[f64],
    starts: &[usize],
    owners: &[u32],
    view: View,
    out: &mut [u8],
) -> Result<usize, Refusal>
    ensures answer { result ≡ written (fitting (length out.old) (writer_text (written_of (length out.old) (scene_of numbers.now marks.now points.now starts.now owners.now) view))) }
    ensures lent { out.new ≡ laid (fitting (length out.old) (writer_text (written_of (length out.old) (scene_of numbers.now marks.now points.now starts.now owners.now) view))) (length out.old) }
{
    let c = text_writer::write(numbers, marks, points, starts, owners, view, out);
    match c {
        Ok(n) => Ok(n),
        Err(k) => text_drawing::write_refused(k.number(), out),
    }
}

// Writes what `canonical` answers a text into `out`, then zeros, and answers how many bytes it has. A slice
// that is too short for the yard's text holds the refusal, and one too short for that zeros throughout.
pub fn restate(text: &[u8], out: &mut [u8]) -> Result<usize, Refusal>
    ensures answer { result ≡ written (fitting (length out.old) (restate_of (length out.old) text.now)) }
    ensures lent { out.new ≡ laid (fitting (length out.old) (restate_of (length out.old) text.now)) (length out.old) }
{
    let mut numbers = [0.0; 8192];
    let mut marks = [0u32; 2048];
    let mut points = [0.0; 6144];
    let mut starts = [0usize; 2048];
    let mut owners = [0u32; 2048];
    let r = text_scene::read(
        text,
        &mut numbers,
        &mut marks,
        &mut points,
        &mut starts,
        &mut owners,
    );
    match r {
        None => text_drawing::write_refused(1, out),
        Some((view, e, p, l)) => restated(
            &numbers[..e * 16],
            &marks[..e * 4],
            &points[..p * 3],
            &starts[..l],
            &owners[..l],
            view,
            out,
        ),
    }
}

// How many bytes of `out` are the answer to a text: all of it, or none where `out` is too short.
pub fn answer(text: &[u8], out: &mut [u8]) -> usize
    ensures lent { out.new ≡ laid (fitting (length out.old) (restate_of (length out.old) text.now)) (length out.old) }
    ensures part { (result ≤ length out.new) × (take result out.new ≡ shown (fitting (length out.old) (restate_of (length out.old) text.now))) }
{
    let r = restate(text, out);
    match r {
        Ok(n) => n,
        Err(_) => 0,
    }
}
