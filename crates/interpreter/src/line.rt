// One line of a script.
ghost use Rattle.std.specs.Prelude.{◌≤◌, length};
ghost use Rattle.interpreter.specs.Session.{stepped, stopped};
ghost use Rattle.interpreter.specs.Promises.{Stepping};

use crate::Session;
use crate::call::{call, write_line};
use script::{MOST_BYTES, Word, Writer};

impl Session {
    // A malformed line.
    pub(crate) fn stop(&mut self, out: &mut Writer)
        ensures { Stepping (stopped self.old) self.new out.old out.new }
    {
        out.put_answer(Word::Stop, u64::from(self.number), b"");
        self.halt();
    }

    // Runs a line on a session that is going, and writes what it prints. What does not fit is left out.
    #[tactic(auto, using(crate::proofs::Meaning::steps))]
    pub(crate) fn step(&mut self, line: &[u8], out: &mut Writer)
        requires { out.old.at ≤ length out.old.out.now }
        ensures { Stepping (stepped self.old line.now) self.new out.old out.new }
    {
        if self.number == 1 {
            if line != b"call number bytes".as_slice() {
                return self.stop(out);
            }
            return self.go_on(self.hub);
        }
        if Session::MOST_LINES < self.number {
            return self.stop(out);
        }
        let mut buffer = [0u8; MOST_BYTES];
        let Some(parsed) = script::parse_line(line, &mut buffer) else {
            return self.stop(out);
        };
        let bytes = &mut buffer[..parsed.size];
        let reply = call(self.hub, parsed.verb, parsed.number, bytes);
        write_line(parsed.verb, reply.answer, bytes, out);
        self.go_on(reply.hub);
    }
}
