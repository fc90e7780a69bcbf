// The record of a sponge that is not done yet: document 01's record of a ticket. Its parts are here; its children feed it, draw from it and judge a tag.
mod absorb;
mod squeeze;
mod tag;

ghost use Rattle.std.specs.Prelude.{◌≡◌};
ghost use Rattle.sponge.specs.Record as spec;

use mode::Mode;

// The wider fields first: so there is one gap, of one byte, and a record has 72.
#[derive(Clone, Copy)]
pub struct Record {
    // x0 to x4
    words: [u64; 5],
    // the runs made so far
    runs: u64,
    // bytes fed, and bytes drawn
    fed: u64,
    drawn: u64,
    // the ticket's number; 0 in a place that no ticket has
    ticket: u32,
    mode: Mode,
    // Whether feeding lasts. A field, and no enum with a record for each half: document 01 lists one record, whose other fields all count in both.
    feeding: bool,
}

impl Record {
    // A place that no ticket has. Nothing of a state is in it.
    #[tactic(auto, unfolding(crate::specs::Record::vacant))]
    pub fn vacant() -> Record
        ensures { result ≡ spec.vacant }
    {
        Record {
            words: [0; 5],
            runs: 0,
            fed: 0,
            drawn: 0,
            ticket: 0,
            mode: Mode::Prf,
            feeding: false,
        }
    }

    // The record of a ticket just opened: the start word, the key and zeros, and one run of the outer rounds. That the key has the mode's length, and
    // the MAC a tag length of 8 to 16, is the caller's to test.
    pub fn fresh(ticket: u32, mode: Mode, key: &[u8]) -> Record
        ensures { result ≡ spec.fresh ticket mode key.now }
    {
        let used = &key[..mode.key_length().min(key.len())];
        let initial = Record {
            words: [
                mode.start_word(),
                state::word_of_bytes(used, 0),
                state::word_of_bytes(used, 1),
                0,
                0,
            ],
            ticket,
            mode,
            feeding: true,
            ..Record::vacant()
        };
        initial.run(Mode::OUTER_ROUNDS)
    }

    // A run of so many rounds: the words after it, and the count one higher. Nothing else raises the count.
    #[tactic(auto, unfolding(crate::specs::Record::after_run, crate::specs::Record::sum64))]
    fn run(self, rounds: u64) -> Record
        ensures { result ≡ spec.after_run rounds self }
    {
        Record {
            words: permutation::permute(self.words, rounds),
            runs: self.runs.wrapping_add(1),
            ..self
        }
    }

    pub fn runs(self) -> u64
        ensures { result ≡ self.runs }
    {
        self.runs
    }

    pub fn ticket(self) -> u32
        ensures { result ≡ self.ticket }
    {
        self.ticket
    }

    pub fn mode(self) -> Mode
        ensures { result ≡ self.mode }
    {
        self.mode
    }

    pub fn fed(self) -> u64
        ensures { result ≡ self.fed }
    {
        self.fed
    }

    pub fn drawn(self) -> u64
        ensures { result ≡ self.drawn }
    {
        self.drawn
    }

    pub fn feeding(self) -> bool
        ensures { result ≡ self.feeding }
    {
        self.feeding
    }
}
