// Bytes in hexadecimal. They may be a key: each loop goes over all of them, whatever they are, and no index depends on one.
ghost use Rattle.std.specs.Prelude.{◌≡◌, true, ◌*◌, ◌<◌, ◌≤◌, length};
ghost use Rattle.std.proofs.lemmas.List.Edits.{sets};
ghost use Rattle.script.specs.Hex as spec;
ghost use Rattle.script.specs.Writing.{Puts};

use crate::writer::Writer;

// The value of a digit, and 16 for any other byte: no `Option`, which would have to be opened at each digit. By differences, as ranges are compiled to branches on the
// digit, which may be a key's. (The library's `to_digit` takes capital letters too.)
#[tactic(auto, unfolding(crate::specs::Hex::nibble))]
fn nibble(b: u8) -> u8
    ensures { result ≡ spec.nibble b }
{
    let digit = b.wrapping_sub(b'0');
    let letter = b.wrapping_sub(b'a');
    if digit < 10 {
        digit
    } else if letter < 6 {
        letter + 10
    } else {
        16
    }
}

// All bytes are looked at, whatever they are.
#[tactic(auto, using(crate::proofs::HexTexts::looked))]
pub(crate) fn hex_pairs(s: &[u8]) -> bool
    ensures { result ≡ spec.hex_pairs s.now }
{
    let mut all = s.len() % 2 == 0;
    for b in s {
        all &= nibble(*b) < 16;
    }
    all
}

// The bytes that pairs of digits stand for go to the start of the buffer. (By its index: of `iter_mut` and another
// iterator, zipped, no proof tells what they leave in the buffer.)
#[tactic(auto, using(crate::proofs::HexTexts::decoding))]
pub(crate) fn decode(s: &[u8], buffer: &mut [u8]) -> usize
    requires { (spec.hex_pairs s.now ≡ true) × (length s.now ≤ 2 * length buffer.old) }
    ensures { (buffer.new ≡ sets buffer.old 0 (spec.decoded s.now)) × (result ≡ length (spec.decoded s.now)) }
{
    let (pairs, _) = s.as_chunks::<2>();
    for (i, [high, low]) in pairs.iter().enumerate() {
        buffer[i] = nibble(*high) * 16 + nibble(*low);
    }
    pairs.len()
}

// The digit of a value. (The library's `from_digit` gives a `char`.)
#[tactic(auto, unfolding(crate::specs::Hex::digit_of))]
fn digit_of(n: u8) -> u8
    requires { n < 16 }
    ensures { result ≡ spec.digit_of n }
{
    match n {
        0..=9 => b'0' + n,
        _ => b'a' + (n - 10),
    }
}

impl Writer<'_> {
    // Two digits for each byte. What does not fit is left out, be it half of a byte.
    #[tactic(auto, using(crate::proofs::Texts::parts, crate::proofs::HexTexts::written))]
    pub fn put_hex(&mut self, bytes: &[u8])
        ensures { Puts (spec.hex_of bytes.now) self.old self.new }
    {
        self.put_nothing();
        for b in bytes {
            self.put_byte(digit_of(b / 16));
            self.put_byte(digit_of(b % 16));
        }
    }

    // Bytes as a field: `-` for none.
    #[tactic(auto, unfolding(crate::specs::Hex::bytes_text))]
    pub fn put_field(&mut self, bytes: &[u8])
        ensures { Puts (spec.bytes_text bytes.now) self.old self.new }
    {
        if bytes.is_empty() {
            self.put_byte(b'-');
        } else {
            self.put_hex(bytes);
        }
    }
}
