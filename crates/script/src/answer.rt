// Writing an answer line.
ghost use Rattle.script.specs.Answer as spec;
ghost use Rattle.script.specs.Writing.{Puts};

use crate::writer::Writer;

// The first field of an answer.
#[derive(Clone, Copy, Debug, PartialEq, Eq)]
pub enum Word {
    Ok,
    Pass,
    Fail,
    No,
    Stop,
}

impl Writer<'_> {
    fn put_word(&mut self, word: Word)
        ensures { Puts (spec.word_text word) self.old self.new }
    {
        match word {
            Word::Ok => self.put_bytes(b"ok"),
            Word::Pass => self.put_bytes(b"pass"),
            Word::Fail => self.put_bytes(b"fail"),
            Word::No => self.put_bytes(b"no"),
            Word::Stop => self.put_bytes(b"stop"),
        }
    }

    #[tactic(auto, using(crate::proofs::Texts::parts), unfolding(crate::specs::Answer::answer_line))]
    pub fn put_answer(&mut self, word: Word, number: u64, bytes: &[u8])
        ensures { Puts (spec.answer_line word number bytes.now) self.old self.new }
    {
        self.put_word(word);
        self.put_byte(b' ');
        self.put_decimal(number);
        self.put_byte(b' ');
        self.put_field(bytes);
        self.put_byte(b'\n');
    }
}
