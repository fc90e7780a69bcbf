// Frames: a body is sealed by its MAC, which stands in the sixteen bytes after it, and a sealed body is judged by it.
#![tactic(auto)]

ghost use Rattle.std.specs.Prelude.{◌≡◌, ◌+◌, ◌≤◌, length, IfOk};
ghost use Rattle.checks.specs.Refusals.{answer_number};
ghost use Rattle.frame.specs.Frame as spec;

use checks::Refusal;
use mode::Mode;
use sponge::Record;

// A frame's tag has so many bytes.
pub const TAG_LENGTH: usize = 16;

// What judging answers of a frame that is not refused: whether its tag is its body's MAC, and the runs that were made.
#[derive(Clone, Copy, Debug, PartialEq, Eq)]
pub struct Verdict {
    pub passed: bool,
    pub runs: u64,
}

// Checks 2, 3; then a MAC's sponge that has been fed the body, ready to give the tag. It is under no ticket.
#[tactic(auto, unfolding(crate::specs::Frame::frame_refusal, crate::specs::Frame::frame_checks))]
fn ready(key: &[u8], frame: &[u8], body: usize) -> Result<Record, Refusal>
    ensures number { answer_number result ≡ spec.frame_refusal key.now frame.now body }
    ensures room { IfOk result (λ r. body + TAG_LENGTH ≤ length frame.now) }
    ensures fed { IfOk result (λ r. r ≡ spec.fed_body key.now frame.now body) }
{
    if key.len() != Mode::KEY_LENGTH {
        return Err(Refusal::KeyLength);
    }
    if checks::exceeds(frame.len() as u64, body as u64, TAG_LENGTH as u64) {
        return Err(Refusal::PastEnd);
    }
    let mac = Record::fresh(0, Mode::Mac(TAG_LENGTH as u8), key);
    Ok(mac.absorb(&frame[..body]).finish())
}

// Document 01's sealing: the tag goes into the sixteen bytes that begin at the end of the body. Refused, the frame stays as it is. The answer is the runs.
pub fn seal(key: &[u8], frame: &mut [u8], body: usize) -> Result<u64, Refusal>
    ensures answer { spec.sealed_of result ≡ spec.seal_answer key.now frame.old body }
    ensures after { frame.new ≡ spec.seal_after key.now frame.old body }
{
    let mac = ready(key, frame, body)?;
    let drawn = mac.squeeze(&mut frame[body..body + TAG_LENGTH]);
    Ok(drawn.runs())
}

// Document 01's judging: every byte of the tag is compared, whatever the others are.
pub fn verify(key: &[u8], frame: &[u8], body: usize) -> Result<Verdict, Refusal>
    ensures { spec.judged_of result ≡ spec.verify_answer key.now frame.now body }
{
    let mac = ready(key, frame, body)?;
    Ok(Verdict {
        passed: mac.tag_matches(&frame[body..body + TAG_LENGTH]),
        runs: mac.runs(),
    })
}
