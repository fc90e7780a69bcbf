// The Ascon permutation: a state of five 64-bit words that goes by value through twelve rounds, or through the last n of them.
#![tactic(auto)]

ghost use Rattle.std.specs.Prelude.{◌≡◌, ◌<◌};
ghost use Rattle.checks.specs.Refusals.{answer_number};
ghost use Rattle.word.specs.Word.{rotr};
ghost use Rattle.permutation.specs.Permutation as spec;
ghost use Rattle.permutation.specs.Row.{row_answer, row_after};

use checks::Refusal;

// How many rounds there are.
pub const ROUNDS: u64 = 12;

// x rotated right by n places, 0 to 63, by shifts, as document 01 asks ("What each place should look like"). By 0 places the left shift would be by 64, which is
// undefined: it is by 0 instead.
fn rotate(x: u64, n: u64) -> u64
    requires { n < 64 }
    ensures { result ≡ rotr 64 n x }
{
    (x >> n) | (x << ((64 - n) % 64))
}

// x xored with two copies of itself, rotated right by m and by n places.
#[tactic(auto, unfolding(crate::specs::Permutation::mix))]
fn mix(x: u64, m: u64, n: u64) -> u64
    requires { (m < 64) × (n < 64) }
    ensures { result ≡ spec.mix m n x }
{
    x ^ rotate(x, m) ^ rotate(x, n)
}

// The linear layer.
#[tactic(auto, unfolding(crate::specs::Permutation::diffuse))]
fn diffuse(s: [u64; 5]) -> [u64; 5]
    ensures { result ≡ spec.diffuse s }
{
    [
        mix(s[0], 19, 28),
        mix(s[1], 61, 39),
        mix(s[2], 1, 6),
        mix(s[3], 10, 17),
        mix(s[4], 7, 41),
    ]
}

// The substitution layer: S at all 64 bit places at once.
fn substitute(s: [u64; 5]) -> [u64; 5]
    ensures { result ≡ spec.substitute s }
{
    let x0 = s[0] ^ s[4];
    let x1 = s[1];
    let x2 = s[2] ^ s[1];
    let x3 = s[3];
    let x4 = s[4] ^ s[3];
    let y0 = x0 ^ (!x1 & x2);
    let y1 = x1 ^ (!x2 & x3);
    let y2 = x2 ^ (!x3 & x4);
    let y3 = x3 ^ (!x4 & x0);
    let y4 = x4 ^ (!x0 & x1);
    [y0 ^ y4, y1 ^ y0, !y2, y3 ^ y2, y4]
}

// The constant of round i: table 3 of "Ascon PRF, MAC, and Short-Input MAC" (source document 003), a case for each row, in its order (the left half, then the
// right) and with its digits. Twelve rounds begin with row 0; eight (request K1) begin with row 4 and six with row 6, as the table of the slides "ASCON" (source
// document 001) shows beside these constants, which it prints with four zeros more. All end with row 11. Its case is `11..` since a match covers every number: i is
// below 12, so only 11 is left.
fn round_constant(i: u64) -> u64
    requires { i < 12 }
    ensures { result ≡ spec.round_constant i }
{
    match i {
        0 => 0x00000000000000f0,
        1 => 0x00000000000000e1,
        2 => 0x00000000000000d2,
        3 => 0x00000000000000c3,
        4 => 0x00000000000000b4,
        5 => 0x00000000000000a5,
        6 => 0x0000000000000096,
        7 => 0x0000000000000087,
        8 => 0x0000000000000078,
        9 => 0x0000000000000069,
        10 => 0x000000000000005a,
        11.. => 0x000000000000004b,
    }
}

// Round i of the twelve.
#[tactic(auto, unfolding(crate::specs::Permutation::round, crate::specs::Permutation::add_constant))]
fn round(s: [u64; 5], i: u64) -> [u64; 5]
    requires { i < 12 }
    ensures { result ≡ spec.round i s }
{
    let c = round_constant(i);
    diffuse(substitute([s[0], s[1], s[2] ^ c, s[3], s[4]]))
}

// n rounds, the last n of the twelve. More than twelve means all twelve.
pub fn permute(s: [u64; 5], n: u64) -> [u64; 5]
    ensures { result ≡ spec.permute n s }
{
    (ROUNDS.saturating_sub(n)..ROUNDS).fold(s, round)
}

// All twelve rounds over a lent row. A row that is not of five words is refused and stays as it is.
pub fn permute_row(row: &mut [u64]) -> Result<(), Refusal>
    ensures answer { answer_number result ≡ row_answer row.old }
    ensures after { row.new ≡ row_after (spec.permute 12) row.old }
{
    let [a, b, c, d, e] = *row else {
        return Err(Refusal::RowLength);
    };
    row.copy_from_slice(&permute([a, b, c, d, e], ROUNDS));
    Ok(())
}
