// Writing into a lent buffer: one text goes behind the other, and what does not fit is left out.
ghost use Rattle.std.specs.Prelude.{[], ◌∷◌};
ghost use Rattle.script.specs.Writing.{Puts};

// A lent buffer, and the place where the next byte goes. The buffer is full where that is its end, or past it. (Any place is taken: an invariant that it is in the
// buffer would refuse some.)
#[derive(Drop)]
pub struct Writer<'a> {
    pub out: &'a mut [u8],
    pub at: usize,
}

impl Writer<'_> {
    // Puts no byte: a place past the buffer becomes its end.
    #[tactic(auto, unfolding(crate::specs::Text::put, crate::specs::Text::past))]
    pub fn put_nothing(&mut self)
        ensures { Puts [] self.old self.new }
    {
        self.at = self.at.min(self.out.len());
    }

    #[tactic(auto, unfolding(crate::specs::Text::put, crate::specs::Text::past))]
    pub fn put_byte(&mut self, b: u8)
        ensures { Puts (b ∷ []) self.old self.new }
    {
        if self.at < self.out.len() {
            self.out[self.at] = b;
            self.at += 1;
        } else {
            self.at = self.out.len();
        }
    }

    #[tactic(auto, using(crate::proofs::Texts::fitting), unfolding(crate::specs::Text::past))]
    pub fn put_bytes(&mut self, bytes: &[u8])
        ensures { Puts bytes.now self.old self.new }
    {
        let start = self.at.min(self.out.len());
        let n = bytes.len().min(self.out.len() - start);
        self.out[start..start + n].copy_from_slice(&bytes[..n]);
        self.at = start + n;
    }
}
