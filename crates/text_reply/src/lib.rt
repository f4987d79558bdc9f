// What the program `yard` answers a text.
#![tactic(auto)]

ghost use Rattle.std.specs.Prelude.{◌≡◌, ◌≤◌, length, take};
ghost use Rattle.scene.specs.Scenes.{scene_of};
ghost use Rattle.text_drawing.specs.Drawings.{fitting, written, laid};
ghost use Rattle.text_reply.specs.Reply.{enough, drawn_text, reply_of, shown};

use refusals::Refusal;
use view::View;

// Draws a scene in the places of `yard`, in fine detail, and writes the text of the drawing, or of its refusal.
fn drawn(
    numbers: &[f64],
    marks: &[u32],
    points: &[f64],
    starts: &[usize],
    owners: &[u32],
    view: View,
    text: &mut [u8],
) -> Result<usize, Refusal>
    ensures answer { result ≡ written (fitting (length text.old) (drawn_text (scene_of numbers.now marks.now points.now starts.now owners.now) view)) }
    ensures lent { text.new ≡ laid (fitting (length text.old) (drawn_text (scene_of numbers.now marks.now points.now starts.now owners.now) view)) (length text.old) }
{
    let mut out = [0.0; 6144];
    let mut begins = [0usize; 2048];
    let mut work = [0.0; 49152];
    let mut work_starts = [0usize; 16384];
    let mut chopped = [0.0; 6144];
    let mut chopped_starts = [0usize; 2048];
    let mut node_boxes = [0.0; 12288];
    let mut node_marks = [0u32; 6144];
    let mut order = [0u32; 2048];
    let c = draw::draw_with(
        1e-6,
        numbers,
        marks,
        points,
        starts,
        owners,
        view,
        &mut out,
        &mut begins,
        &mut work,
        &mut work_starts,
        &mut chopped,
        &mut chopped_starts,
        &mut node_boxes,
        &mut node_marks,
        &mut order,
    );
    text_drawing::write_drawing(&out, &begins, c, text)
}

// Writes what `yard` answers a text into `out`, then zeros, and answers how many bytes it has. A slice
// that is too short for it is zeros throughout, and the answer is that there is no room.
pub fn reply(text: &[u8], out: &mut [u8]) -> Result<usize, Refusal>
    ensures answer { result ≡ written (fitting (length out.old) (reply_of text.now)) }
    ensures lent { out.new ≡ laid (fitting (length out.old) (reply_of text.now)) (length out.old) }
{
    let mut numbers = [0.0; 8192];
    let mut marks = [0u32; 2048];
    let mut points = [0.0; 6144];
    let mut starts = [0usize; 2048];
    let mut owners = [0u32; 2048];
    let r = text_scene::read(
        text,
        &mut numbers,
        &mut marks,
        &mut points,
        &mut starts,
        &mut owners,
    );
    match r {
        None => text_drawing::write_refused(1, out),
        Some((view, e, p, l)) => drawn(
            &numbers[..e * 16],
            &marks[..e * 4],
            &points[..p * 3],
            &starts[..l],
            &owners[..l],
            view,
            out,
        ),
    }
}

// How many bytes of `out` are the answer to a text: all of it, or none where `out` is too short, which a
// slice of 129,039 bytes never is.
pub fn answer(text: &[u8], out: &mut [u8]) -> usize
    ensures whole { enough ≤ length out.old → take result out.new ≡ reply_of text.now }
    ensures lent { out.new ≡ laid (fitting (length out.old) (reply_of text.now)) (length out.old) }
    ensures part { (result ≤ length out.new) × (take result out.new ≡ shown (fitting (length out.old) (reply_of text.now))) }
{
    let r = reply(text, out);
    match r {
        Ok(n) => n,
        Err(_) => 0,
    }
}
