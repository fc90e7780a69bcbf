// Feeding: bytes are absorbed block by block, and the end of feeding pads the last block.
ghost use Rattle.std.specs.Prelude.{◌≡◌, ◌+◌, ◌%◌, ◌^◌, ◌<◌, ◌≤◌, length};
ghost use Rattle.word.specs.Bytes.{xor_from};
ghost use Rattle.mode.specs.Mode.{row};
ghost use Rattle.sponge.specs.Sponge.{flip_if};
ghost use Rattle.sponge.specs.Record as spec;
ghost use Rattle.sponge.specs.Parts.{filled, after_feed};

use super::Record;
use mode::Mode;

// The lowest bit of x4 flipped, where the mode does so.
#[tactic(auto, unfolding(crate::specs::Sponge::flip_if))]
fn flip(mode: Mode, words: [u64; 5]) -> [u64; 5]
    ensures { result ≡ flip_if (row mode).flips words }
{
    if mode.flips() {
        state::xor_word(words, 4, 1)
    } else {
        words
    }
}

// Bytes xored into the block from a place on. Whole blocks are apart, since long messages are made of them. The place is a usize, as `xor_bytes` would be called
// where it is a u32, and a seal of 0 to 63 bytes would take a twentieth more instructions.
fn xor_part(words: [u64; 5], place: usize, bytes: &[u8]) -> [u64; 5]
    requires { place < 2 ^ 32 }
    ensures { result ≡ xor_from place bytes.now words }
{
    if place == 0 && bytes.len() % 8 == 0 {
        state::xor_words(words, bytes)
    } else {
        state::xor_bytes(words, place as u32, bytes)
    }
}

// At most eight bytes xored into the block from a place on, as one word.
fn xor_few(words: [u64; 5], place: u32, bytes: &[u8]) -> [u64; 5]
    requires { length bytes.now ≤ 8 }
    ensures { result ≡ xor_from place bytes.now words }
{
    if bytes.is_empty() {
        // Only for time: no bytes make the word 0, which changes nothing.
        words
    } else {
        state::xor_word_at(words, place, state::word_of_bytes(bytes, 0))
    }
}

impl Record {
    // The place in its block of the next byte that is fed.
    fn place(self) -> usize
        ensures { result ≡ self.fed % (row self.mode).feed_rate }
    {
        (self.fed % self.mode.feed_rate() as u64) as usize
    }

    // Bytes are fed. That feeding lasts is the caller's to test.
    pub fn absorb(self, bytes: &[u8]) -> Record
        ensures { result ≡ spec.absorbed bytes.now self }
    {
        let rate = self.mode.feed_rate();
        let mut current = self;
        let mut place = self.place();
        let mut left = bytes;
        // One loop, and not `chunks` after the first part: with two calls `fill` is called, and a seal of 1 to 31 bytes takes 6 of 100 more instructions.
        while !left.is_empty() {
            let (part, after) = left.split_at((rate - place).min(left.len()));
            current = current.fill(place, part);
            // A part that does not fill its block is the last.
            place = 0;
            left = after;
        }
        self.after_feed(current.words, current.runs, bytes.len())
    }

    // The same, and fast for a few bytes, for a hub that stays in its memory. It has to have one caller in a program: docs/ARCHITECTURE.md, "What keeps records in
    // registers".
    pub fn absorb_small(self, bytes: &[u8]) -> Record
        ensures { result ≡ spec.absorbed bytes.now self }
    {
        let place = self.place();
        if bytes.len() < self.mode.feed_rate() - place && bytes.len() <= 8 {
            return self.after_feed(
                xor_few(self.words, place as u32, bytes),
                self.runs,
                bytes.len(),
            );
        }
        // A second record goes to `absorb` and back through memory, so that this one stays in registers.
        // Its words by a name of their own, since the check takes no array field in a literal.
        let words = self.words;
        let second = Record {
            words,
            runs: self.runs,
            fed: self.fed,
            mode: self.mode,
            ..Record::vacant()
        };
        let absorbed = second.absorb(bytes);
        self.after_feed(absorbed.words, absorbed.runs, bytes.len())
    }

    // The record with these words and runs, and so many more bytes fed.
    #[tactic(auto, unfolding(crate::specs::Parts::after_feed, crate::specs::Record::sum64))]
    fn after_feed(self, words: [u64; 5], runs: u64, count: usize) -> Record
        ensures { result ≡ after_feed words runs count self }
    {
        Record {
            words,
            runs,
            fed: self.fed.wrapping_add(count as u64),
            ..self
        }
    }

    // Bytes go to the block from a place on, and a run of the inner rounds follows where they fill it.
    #[tactic(auto, using(crate::proofs::Parts::filled_full), unfolding(crate::specs::Parts::filled, crate::specs::Record::run_if, crate::specs::Record::in_words))]
    fn fill(self, place: usize, bytes: &[u8]) -> Record
        requires { place + length bytes.now ≤ (row self.mode).feed_rate }
        ensures { result ≡ filled (row self.mode) place bytes.now self }
    {
        let current = Record {
            words: xor_part(self.words, place, bytes),
            ..self
        };
        if place + bytes.len() < self.mode.feed_rate() {
            return current;
        }
        match self.mode.inner_rounds() {
            // Only for time: a run of a literal number of rounds gets a loop of its own, which does not wait for the mode.
            Mode::INNER_ROUNDS => current.run(Mode::INNER_ROUNDS),
            rounds => current.run(rounds),
        }
    }

    // Feeding ends, if it lasts: hex 80, the flip in the modes that have it, and a run of the outer rounds.
    #[tactic(auto, unfolding(crate::specs::Record::finished))]
    pub fn finish(self) -> Record
        ensures { result ≡ spec.finished self }
    {
        if self.feeding {
            self.end_feeding()
        } else {
            self
        }
    }

    #[tactic(auto, unfolding(crate::specs::Record::end_feeding, crate::specs::Record::after_run, crate::specs::Record::in_words))]
    fn end_feeding(self) -> Record
        ensures { result ≡ spec.end_feeding (row self.mode) self.fed self }
    {
        let padded = state::xor_byte(self.words, self.place(), 0x80);
        let last = Record {
            words: flip(self.mode, padded),
            feeding: false,
            ..self
        };
        last.run(Mode::OUTER_ROUNDS)
    }
}
