// Prints the outputs of the six modes and of the short function, and MACs with tags of all lengths, for messages of many lengths, whose bytes count up from 0.
// The stored output, crates/vectors/stdout, is the outside vectors: known answers that were not made with this code. All of it is put into one buffer, which is
// written once.
#![tactic(auto)]

ghost use Rattle.std.specs.Prelude.{◌≡◌, ◌≤◌, length};
ghost use Rattle.mode.specs.Mode.{row};
ghost use Rattle.sponge.specs.Sponge.{one_shot};
ghost use Rattle.sponge.specs.Record.{absorbed};
ghost use Rattle.script.specs.Text.{Wrote};
ghost use Rattle.script.specs.Writing.{Puts};
ghost use Rattle.vectors.specs.Messages.{counting_from};
ghost use Rattle.vectors.specs.Lines.{line, mode_line, tag_line, short_line, mode_section, short_lines, short_section, tag_lines, tag_section, mode_sections, vectors};

use mode::Mode;
use script::Writer;
use sponge::Record;

// Standard output, as `io` numbers it. std's writers promise no more of a write than `io::write_all` does, and want the runtime.
const STDOUT: i32 = 1;

// The longest message.
const LONGEST: usize = 1024;

// The lengths of messages after 0 to 129: some on both sides of a block's end.
const LONGER: [usize; 9] = [255, 256, 257, 511, 512, 513, 1000, 1023, 1024];

// The lengths of the messages that tags of every length are given for.
const TAGGED: [usize; 15] = [0, 1, 7, 8, 15, 16, 17, 31, 32, 33, 63, 64, 65, 100, 1024];

// The bytes 0, 1, 2, .. and after 255 again 0.
fn counting() -> [u8; LONGEST]
    ensures { result ≡ counting_from 0 1024 }
{
    std::array::from_fn(|i| (i % 256) as u8)
}

// A message is fed in pieces of 1, 2, 3, .. bytes. (A `for` over the sizes would not end with the message: it would go on with empty pieces.)
fn absorb_in_pieces(s: Record, message: &[u8]) -> Record
    ensures { result ≡ absorbed message.now s }
{
    let mut fed = s;
    let mut rest = message;
    let mut size = 1;
    while !rest.is_empty() {
        let (piece, left) = rest.split_at(size.min(rest.len()));
        fed = fed.absorb(piece);
        rest = left;
        size += 1;
    }
    fed
}

// The output of a mode for a message.
fn output(mode: Mode, key: &[u8], message: &[u8], out: &mut [u8])
    ensures { out.new ≡ one_shot (row mode) key.now message.now (length out.old) }
{
    let fresh = Record::fresh(1, mode, key);
    let fed = absorb_in_pieces(fresh, message);
    let ended = fed.finish();
    let _ = ended.squeeze(out);
}

// ---- writing: each function writes behind what is written. The output and the bytes go from one to the other as two parameters: methods of a struct of both would
// promise besides, one by one, that they leave the bytes as they are. That a length is at most LONGEST is said where it is: a type for it would be made and opened
// at each call.

// A number, a space, the digits of an output, and the end of the line.
#[tactic(auto, using(script::proofs::Texts::parts), unfolding(crate::specs::Lines::line))]
fn put_line(out: &mut Writer, n: usize, output: &[u8])
    ensures { Puts (line n output.now) out.old out.new }
{
    out.put_decimal(n as u64);
    out.put_byte(b' ');
    out.put_hex(output);
    out.put_byte(b'\n');
}

// No mode is asked for more than 64 bytes.
#[tactic(auto, unfolding(crate::specs::Lines::mode_line))]
fn put_mode_line(
    out: &mut Writer,
    bytes: &[u8; LONGEST],
    mode: Mode,
    count: usize,
    n: usize,
    number: usize,
)
    requires { (n ≤ LONGEST) × (count ≤ 64) }
    ensures { Puts (mode_line bytes.now mode count n number) out.old out.new }
{
    let mut buffer = [0u8; 64];
    let made = &mut buffer[..count];
    output(mode, &bytes[..16], &bytes[..n], made);
    put_line(out, number, made);
}

// The MAC of a message, with tags of t bytes.
#[tactic(auto, using(script::proofs::Texts::parts), unfolding(crate::specs::Lines::tag_line))]
fn put_tag_line(out: &mut Writer, bytes: &[u8; LONGEST], n: usize, t: usize)
    requires { (n ≤ LONGEST) × (t ≤ 16) }
    ensures { Puts (tag_line bytes.now n t) out.old out.new }
{
    out.put_decimal(n as u64);
    out.put_byte(b' ');
    put_mode_line(out, bytes, Mode::Mac(t as u8), t, n, t);
}

// With m and t in these bounds the short function refuses nothing.
#[tactic(auto, using(script::proofs::Texts::parts), unfolding(crate::specs::Lines::short_line))]
fn put_short_line(out: &mut Writer, bytes: &[u8; LONGEST], m: usize, t: usize)
    requires { (m ≤ 16) × (1 ≤ t) × (t ≤ 16) }
    ensures { Puts (short_line bytes.now m t) out.old out.new }
{
    let mut buffer = [0u8; 16];
    let made = &mut buffer[..t];
    let _ = prf_short::prf_short(&bytes[..16], &bytes[..m], made, t);
    out.put_decimal(m as u64);
    out.put_byte(b' ');
    put_line(out, t, made);
}

// A line for each length of a message.
#[tactic(auto, using(crate::proofs::Lines::written), unfolding(crate::specs::Lines::mode_section))]
fn put_mode(out: &mut Writer, bytes: &[u8; LONGEST], heading: &[u8], mode: Mode, count: usize)
    requires { count ≤ 64 }
    ensures { Puts (mode_section bytes.now heading.now mode count) out.old out.new }
{
    out.put_bytes(heading);
    for n in (0..130).chain(LONGER.iter().copied()) {
        put_mode_line(out, bytes, mode, count, n, n);
    }
}

// A line for each length of an output, 1 to 16. `put_nothing` comes first, since a place past the buffer becomes its end even before the first line.
#[tactic(auto, using(crate::proofs::Lines::written), unfolding(crate::specs::Lines::short_lines))]
fn put_short_lines(out: &mut Writer, bytes: &[u8; LONGEST], m: usize)
    requires { m ≤ 16 }
    ensures { Puts (short_lines bytes.now m) out.old out.new }
{
    out.put_nothing();
    for t in 1..=16 {
        put_short_line(out, bytes, m, t);
    }
}

// The lines for each message of 0 to 16 bytes.
#[tactic(auto, using(crate::proofs::Lines::written), unfolding(crate::specs::Lines::short_section))]
fn put_short(out: &mut Writer, bytes: &[u8; LONGEST], heading: &[u8])
    ensures { Puts (short_section bytes.now heading.now) out.old out.new }
{
    out.put_bytes(heading);
    for m in 0..=16 {
        put_short_lines(out, bytes, m);
    }
}

// A line for each length of a tag, 8 to 16, likewise. (One function for both would be given the line and its bounds, which is all that each of them says.)
#[tactic(auto, using(crate::proofs::Lines::written), unfolding(crate::specs::Lines::tag_lines))]
fn put_tag_lines(out: &mut Writer, bytes: &[u8; LONGEST], n: usize)
    requires { n ≤ LONGEST }
    ensures { Puts (tag_lines bytes.now n) out.old out.new }
{
    out.put_nothing();
    for t in 8..=16 {
        put_tag_line(out, bytes, n, t);
    }
}

// The lines for each of fifteen messages.
#[tactic(auto, using(crate::proofs::Lines::written), unfolding(crate::specs::Lines::tag_section, crate::specs::Messages::tagged))]
fn put_tags(out: &mut Writer, bytes: &[u8; LONGEST], heading: &[u8])
    ensures { Puts (tag_section bytes.now heading.now) out.old out.new }
{
    out.put_bytes(heading);
    for n in TAGGED {
        put_tag_lines(out, bytes, n);
    }
}

// First the modes that take no key, then those that take one. (A table of heading, mode and count would have as many lines, and a loop besides.)
#[tactic(auto, using(script::proofs::Texts::parts), unfolding(crate::specs::Lines::mode_sections))]
fn put_modes(out: &mut Writer, bytes: &[u8; LONGEST])
    ensures { Puts (mode_sections bytes.now) out.old out.new }
{
    put_mode(out, bytes, b"hash\n", Mode::Hash, 32);
    put_mode(out, bytes, b"xof\n", Mode::Xof, 64);
    put_mode(out, bytes, b"hasha\n", Mode::HashA, 32);
    put_mode(out, bytes, b"xofa\n", Mode::XofA, 64);
    put_mode(out, bytes, b"prf\n", Mode::Prf, 64);
    put_mode(out, bytes, b"mac\n", Mode::Mac(16), 16);
}

// All of it.
#[tactic(auto, using(script::proofs::Texts::parts), unfolding(crate::specs::Lines::vectors_of, crate::specs::Lines::vectors))]
fn put_vectors(out: &mut Writer)
    ensures { Puts vectors out.old out.new }
{
    let bytes = counting();
    put_modes(out, &bytes);
    put_short(out, &bytes, b"prf_short\n");
    put_tags(out, &bytes, b"mac_lengths\n");
}

// The same from a buffer's start on. Answers the place behind it.
fn list_vectors(text: &mut [u8]) -> usize
    ensures { Wrote text.old 0 vectors text.new result }
{
    let mut out = Writer { out: text, at: 0 };
    put_vectors(&mut out);
    out.at
}

// The buffer is longer than the text, which has 89,555 bytes.
fn main() {
    let mut text = [0u8; 98304];
    let length = list_vectors(&mut text);
    io::write_all(STDOUT, &text[..length]);
}
