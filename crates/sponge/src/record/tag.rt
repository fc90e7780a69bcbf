// Judging a tag.
ghost use Rattle.std.specs.Prelude.{◌≡◌, min};
ghost use Rattle.mode.specs.Mode.{row};
ghost use Rattle.sponge.specs.Record as spec;

use super::Record;
use mode::Mode;

// The length of the mode's tag: as many first bytes of the block as are drawn at most, or the whole block.
fn tag_length(mode: Mode) -> usize
    ensures { result ≡ min (row mode).most_drawn (row mode).draw_rate }
{
    mode.most_drawn().min(mode.draw_rate())
}

impl Record {
    // Whether a tag is the whole tag of the mode, as it stands in the block that is drawn from. Of a tag of that length every byte is looked at, whatever the
    // others are.
    pub fn tag_matches(self, tag: &[u8]) -> bool
        ensures { result ≡ spec.tag_matches tag.now self }
    {
        if tag.len() != tag_length(self.mode) {
            return false;
        }
        let mut difference = 0;
        for (i, b) in tag.iter().enumerate() {
            difference |= b ^ state::byte_at(self.words, i);
        }
        difference == 0
    }
}
