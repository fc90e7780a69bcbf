// Input in chunks, and an output buffer that its answers fill.
ghost use Rattle.std.specs.Prelude.{◌≡◌, ◌<◌, ◌≤◌, length, replicate};
ghost use Rattle.checks.specs.Buffers.{written};
ghost use Rattle.script.specs.Line.{longest_line};
ghost use Rattle.interpreter.specs.Script.{answer_names};
ghost use Rattle.interpreter.specs.Session as spec;
ghost use Rattle.interpreter.specs.Promises.{Advancing};

use crate::{Progress, Reader, Session};
use script::Writer;

// How many bytes the output buffer has.
pub const OUTPUT_SIZE: usize = 65536;

impl Reader {
    // A script at its beginning. The line buffer holds nothing of a line yet.
    pub fn new() -> Reader
        ensures { result ≡ spec.reader_of spec.begun (replicate longest_line 0) }
    {
        Reader {
            session: Session::first(),
            // document 01's line buffer, as it is written there
            line: [0u8; 2100],
        }
    }

    // Takes a chunk's bytes up to the end of a line, or of the chunk, and answers how many.
    #[tactic(auto, using(crate::proofs::Advancing::advancing))]
    fn advance(&mut self, chunk: &[u8], out: &mut Writer) -> usize
        requires some { 0 < length chunk.now }
        requires room { out.old.at ≤ length out.old.out.now }
        ensures { Advancing self.old chunk.now result self.new out.old out.new }
    {
        if !self.session.going {
            return chunk.len();
        }
        let held = self.session.held;
        let n = script::take_line(chunk, &mut self.line, held);
        let size = held + n;
        if n == chunk.len() {
            self.session.held = size;
            return n;
        }
        if chunk[n] == b'\n' {
            let end = size.min(self.line.len());
            self.session.step(&self.line[..end], out);
        } else {
            self.session.stop(out);
        }
        n + 1
    }

    // Takes a chunk's bytes as long as the output buffer has room for one more answer, and puts what they print at its start.
    // (The answer has a size and no slice of the buffer, which would keep it lent; and the promise is of the whole buffer. So it is in `finish` and `begin`.)
    pub fn fill(&mut self, chunk: &[u8], out: &mut [u8; OUTPUT_SIZE]) -> Progress
        ensures progress { result ≡ spec.progress_of chunk.now (spec.filled_from self.old chunk.now) }
        ensures reader { self.new ≡ (spec.filled_from self.old chunk.now).reader }
        ensures out { out.new ≡ written out.old 0 (spec.filled_from self.old chunk.now).text }
    {
        let mut writer = Writer { out, at: 0 };
        let mut taken = 0;
        // How many bytes a turn takes, the line says: no iterator counts them.
        while taken < chunk.len() && Session::LONGEST_ANSWER <= writer.out.len() - writer.at {
            taken += self.advance(&chunk[taken..], &mut writer);
        }
        Progress {
            taken,
            size: writer.at,
        }
    }

    // Ends a script with its input: puts what is still printed at the start of the output buffer, and answers how much that is. A newline that is missing is
    // supplied; so is all of line 1, which is malformed then.
    #[tactic(auto, using(crate::proofs::Ending::filled_newline), unfolding(crate::specs::Session::finished, checks::specs::Buffers::written))]
    pub fn finish(&mut self, out: &mut [u8; OUTPUT_SIZE]) -> usize
        ensures size { result ≡ length (spec.finished self.old).text }
        ensures reader { self.new ≡ (spec.finished self.old).reader }
        ensures out { out.new ≡ written out.old 0 (spec.finished self.old).text }
    {
        if self.session.complete() {
            return 0;
        }
        self.fill(b"\n", out).size
    }
}

// Puts the line of names, which a script prints first, at the start of the output buffer, and answers how much that is.
pub fn begin(out: &mut [u8; OUTPUT_SIZE]) -> usize
    ensures size { result ≡ length answer_names }
    ensures out { out.new ≡ written out.old 0 answer_names }
{
    let mut writer = Writer { out, at: 0 };
    writer.put_bytes(b"answer number bytes\n");
    writer.at
}
