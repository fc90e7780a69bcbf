// Reading a script line.
ghost use Rattle.std.specs.Prelude.{◌≡◌, length};
ghost use Rattle.script.specs.Line as spec;
ghost use Rattle.script.specs.Parsed.{line_in, parsed_of, buffer_after, size_read, buffer_with};

use crate::hex::{decode, hex_pairs};
use crate::number::number_of;
use crate::text::cut;

// A line has at most so many bytes, without its newline.
pub const LONGEST_LINE: usize = 2100;

// A field has at most so many bytes, and a draw counts no more.
pub const MOST_BYTES: usize = 1024;

// The first field, document 01's `call`.
#[derive(Clone, Copy, Debug, PartialEq, Eq)]
pub enum Verb {
    Open,
    Feed,
    Draw,
    Check,
    Close,
    Sum,
}

// A line that was read. size is how many bytes its third field has, or a draw's count. (The bytes stay in the buffer that is lent: there is no heap.)
#[derive(Clone, Copy, Debug, PartialEq, Eq)]
pub struct Parsed {
    pub verb: Verb,
    pub number: u32,
    pub size: usize,
}

// The verb of a field. No `TryFrom`, which would need an error for its one caller to drop.
#[tactic(auto, using(crate::proofs::Words::words), unfolding(crate::specs::Line::verb_of))]
fn verb_of(s: &[u8]) -> Option<Verb>
    ensures { result ≡ spec.verb_of s.now }
{
    match s {
        b"open" => Some(Verb::Open),
        b"feed" => Some(Verb::Feed),
        b"draw" => Some(Verb::Draw),
        b"check" => Some(Verb::Check),
        b"close" => Some(Verb::Close),
        b"sum" => Some(Verb::Sum),
        _ => None,
    }
}

#[tactic(auto, unfolding(crate::specs::Line::is_hex))]
fn is_hex(s: &[u8]) -> bool
    ensures { result ≡ spec.is_hex s.now }
{
    (1..=2 * MOST_BYTES).contains(&s.len()) && hex_pairs(s)
}

#[tactic(auto, using(crate::proofs::Words::words), unfolding(crate::specs::Line::is_dash, crate::specs::Line::no_bytes_of))]
fn empty_field(s: &[u8]) -> Option<usize>
    ensures { result ≡ size_read (spec.no_bytes_of s.now) }
{
    match s {
        b"-" => Some(0),
        _ => None,
    }
}

#[tactic(auto, using(crate::proofs::Lines::digits), unfolding(crate::specs::Line::bytes_of, crate::specs::Line::no_bytes_of))]
fn bytes_field(s: &[u8], buffer: &mut [u8]) -> Option<usize>
    requires { length buffer.old ≡ spec.most_bytes }
    ensures size { result ≡ size_read (spec.bytes_of s.now) }
    ensures buffer { buffer.new ≡ buffer_with buffer.old (spec.bytes_of s.now) }
{
    if is_hex(s) {
        Some(decode(s, buffer))
    } else {
        empty_field(s)
    }
}

#[tactic(auto, using(crate::proofs::Lines::counts), unfolding(crate::specs::Line::count_of, crate::specs::Line::is_count, crate::specs::Line::count_value))]
fn count_field(s: &[u8]) -> Option<usize>
    ensures { result ≡ size_read (spec.count_of s.now) }
{
    if s.len() != 4 || !hex_pairs(s) {
        return None;
    }
    let mut two = [0u8; 2];
    decode(s, &mut two);
    let size = usize::from(u16::from_be_bytes(two));
    (size <= MOST_BYTES).then_some(size)
}

#[tactic(auto, using(crate::proofs::Lines::keeps), unfolding(crate::specs::Line::field_of))]
fn third_field(verb: Verb, number: u32, s: &[u8], buffer: &mut [u8]) -> Option<usize>
    requires { length buffer.old ≡ spec.most_bytes }
    ensures size { result ≡ size_read (spec.field_of verb number s.now) }
    ensures buffer { buffer.new ≡ buffer_with buffer.old (spec.field_of verb number s.now) }
{
    match verb {
        Verb::Open | Verb::Feed | Verb::Check => bytes_field(s, buffer),
        Verb::Draw => count_field(s),
        Verb::Sum if number != 0 => None,
        Verb::Close | Verb::Sum => empty_field(s),
    }
}

// Reads a line. Where it is well-formed, the buffer then begins with its bytes; else the buffer is as it was.
#[tactic(auto, using(crate::proofs::Lines::lines))]
pub fn parse_line(line: &[u8], buffer: &mut [u8; MOST_BYTES]) -> Option<Parsed>
    ensures line { line_in result buffer.new ≡ spec.parse line.now }
    ensures answer { result ≡ parsed_of (spec.parse line.now) }
    ensures buffer { buffer.new ≡ buffer_after buffer.old (spec.parse line.now) }
{
    if LONGEST_LINE < line.len() {
        return None;
    }
    let (verb, rest) = cut(line, b' ');
    let (number, field) = cut(rest, b' ');
    let verb = verb_of(verb)?;
    let number = number_of(number)?;
    let size = third_field(verb, number, field, buffer)?;
    Some(Parsed { verb, number, size })
}
