// A script over the hub: one line's step, and input in chunks of any size, whose answers fill an output buffer. It reads and prints nothing itself.
#![tactic(auto)]

mod call;
mod chunk;
mod line;

ghost use Rattle.std.specs.Prelude.{◌≡◌, ◌<◌};
ghost use Rattle.interpreter.specs.Session as spec;

pub use chunk::{OUTPUT_SIZE, begin};
use hub::Hub;
use script::LONGEST_LINE;

// A script under way.
#[derive(Clone, Copy)]
pub struct Session {
    // the hub that its calls are made on
    pub hub: Hub,
    // the number of the line that is being read
    pub number: u32,
    // how many bytes of that line the line buffer holds. A number and no slice: the buffer of document 01 stands beside it, and is filled over several chunks.
    pub held: usize,
    // whether it has not stopped. A flag and no enum: a script that has stopped keeps its hub and its line's number, so that every field stands in both cases.
    pub going: bool,
}

// A script under way with its line buffer: what reads its input.
#[derive(Clone, Copy)]
pub struct Reader {
    pub session: Session,
    pub line: [u8; LONGEST_LINE],
}

// How far a chunk was taken: how many of its bytes, and how much of the output buffer is filled.
#[derive(Clone, Copy)]
pub struct Progress {
    pub taken: usize,
    pub size: usize,
}

impl Session {
    // A script has at most so many lines, that of the names among them.
    pub const MOST_LINES: u32 = 1_000_000;

    // No answer line has more bytes, whatever the hub holds: a word of 4, a number of 20 digits, 2,048 digits, two spaces and a newline. Of a script none has more than
    // 2,060.
    pub const LONGEST_ANSWER: usize = 2075;

    // Line 1 is to be read, on an empty hub.
    #[tactic(auto, unfolding(crate::specs::Session::begun))]
    fn first() -> Session
        ensures { result ≡ spec.begun }
    {
        Session {
            hub: Hub::empty(),
            number: 1,
            held: 0,
            going: true,
        }
    }

    // The next line is to be read.
    fn go_on(&mut self, after: Hub)
        requires { self.old.number < 4294967295 }
        ensures { self.new ≡ spec.go_on self.old after }
    {
        *self = Session {
            hub: after,
            number: self.number + 1,
            held: 0,
            going: true,
        };
    }

    // Nothing of a line was read, and this is not line 1.
    fn complete(&self) -> bool
        ensures { result ≡ spec.complete self.now }
    {
        self.held == 0 && self.number != 1
    }

    // The script has stopped.
    fn halt(&mut self)
        ensures { self.new ≡ spec.halted self.old }
    {
        self.held = 0;
        self.going = false;
    }
}
