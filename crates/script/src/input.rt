// Cutting input into lines.
ghost use Rattle.std.specs.Prelude.{◌≡◌, ◌-◌, length};
ghost use Rattle.std.proofs.lemmas.List.Edits.{sets};
ghost use Rattle.script.specs.Input.{piece};

use crate::text::cut;
use crate::writer::Writer;

// Puts what the chunk has of a line behind the bytes that the line holds already. Answers how many bytes that are. A buffer and a place, and no reader of both: it cuts
// a chunk into any lent line, and this crate knows no session.
#[tactic(auto, unfolding(crate::specs::Text::put, crate::specs::Input::piece))]
pub fn take_line(chunk: &[u8], line: &mut [u8], held: usize) -> usize
    ensures count { result ≡ length (piece chunk.now (length line.old - held)) }
    ensures line { line.new ≡ sets line.old held (piece chunk.now (length line.old - held)) }
{
    let room = line.len().saturating_sub(held);
    let (taken, _) = cut(&chunk[..room.min(chunk.len())], b'\n');
    Writer {
        out: line,
        at: held,
    }
    .put_bytes(taken);
    taken.len()
}
