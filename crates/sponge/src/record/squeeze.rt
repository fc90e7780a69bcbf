// Drawing: output is squeezed block by block into what the caller lends.
ghost use Rattle.std.specs.Prelude.{◌≡◌, length};
ghost use Rattle.mode.specs.Mode.{row};
ghost use Rattle.sponge.specs.Record as spec;
ghost use Rattle.sponge.specs.Parts.{used};

use super::Record;

impl Record {
    // How many bytes of the present block are drawn: all of them before a run is made for the next.
    #[tactic(auto, unfolding(crate::specs::Parts::used))]
    fn used_of_block(self) -> usize
        ensures { result ≡ used (row self.mode) self.drawn }
    {
        if self.drawn == 0 {
            0
        } else {
            ((self.drawn - 1) % self.mode.draw_rate() as u64) as usize + 1
        }
    }

    // The next output bytes fill all that is lent. That feeding has ended is the caller's to test.
    pub fn squeeze(self, out: &mut [u8]) -> Record
        ensures after { result ≡ spec.squeezed (length out.old) self }
        ensures written { out.new ≡ spec.next_bytes (length out.old) self }
    {
        let rate = self.mode.draw_rate();
        let rounds = self.mode.inner_rounds();
        let used = self.used_of_block();
        let mut done = (rate - used).min(out.len());
        state::copy_bytes(self.words, used as u32, &mut out[..done]);
        let mut current = self;
        // After `chunks_mut` a proof would not know what `out` holds.
        while done < out.len() {
            current = current.run(rounds);
            let end = done + rate.min(out.len() - done);
            state::copy_bytes(current.words, 0, &mut out[done..end]);
            done = end;
        }
        Record {
            drawn: self.drawn.wrapping_add(out.len() as u64),
            ..current
        }
    }
}
