// Decimal numbers.
ghost use Rattle.std.specs.Prelude.{◌≡◌};
ghost use Rattle.script.specs.Number as spec;
ghost use Rattle.script.specs.Writing.{Puts};

use crate::writer::Writer;

// Not empty, and no zero in front of other digits.
#[tactic(auto, unfolding(crate::specs::Number::plain_start))]
fn plain_start(s: &[u8]) -> bool
    ensures { result ≡ spec.plain_start s.now }
{
    !matches!(s, [] | [b'0', _, ..])
}

// A field as a number. (The library's `parse` takes a plus sign, and zeros in front.)
#[tactic(auto, using(crate::proofs::Numbers::read))]
pub(crate) fn number_of(s: &[u8]) -> Option<u32>
    ensures { result ≡ spec.number_of s.now }
{
    if !plain_start(s) {
        return None;
    }
    let mut value = 0u32;
    for b in s {
        if !b.is_ascii_digit() {
            return None;
        }
        value = value.checked_mul(10)?.checked_add(u32::from(b - b'0'))?;
    }
    Some(value)
}

impl Writer<'_> {
    // A number's digits. (The library's formatter fails where the buffer is full; this cuts there.)
    #[tactic(auto, using(crate::proofs::Texts::parts, crate::proofs::Numbers::digits))]
    pub fn put_decimal(&mut self, n: u64)
        ensures { Puts (spec.decimal n) self.old self.new }
    {
        if 10 <= n {
            self.put_decimal(n / 10);
        }
        self.put_byte(b'0' + (n % 10) as u8);
    }
}
