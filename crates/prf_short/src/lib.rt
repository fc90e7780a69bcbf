// Document 01's short function, ASCON-PRFSHORT of "Ascon PRF, MAC, and Short-Input MAC" (source document 003): an output of up to sixteen bytes for a message of
// up to sixteen, by one permutation.
#![tactic(auto)]

ghost use Rattle.std.specs.Prelude.{◌≡◌, ◌≤◌, length};
ghost use Rattle.checks.specs.Refusals.{answer_number};
ghost use Rattle.prf_short.specs.Short.{start_word, prf_short};
ghost use Rattle.prf_short.specs.Call.{short_answer, short_after};

use checks::Refusal;

const KEY_LENGTH: usize = 16;

const LONGEST_MESSAGE: usize = 16;

const LONGEST_OUTPUT: usize = 16;

// The start word but for both lengths: the key's bits and the rounds.
const START: u64 = 0x8000_4c00_0000_0000;

// The start word for a message of m bytes and an output of t: both in bits, in its second and its fourth byte.
#[tactic(auto, unfolding(word::specs::Bytes::from_bytes, crate::specs::Short::start_value))]
fn start_word(m: usize, t: usize) -> u64
    requires { (m ≤ 16) × (t ≤ 16) }
    ensures { result ≡ start_word m t }
{
    START + (m as u64) * 0x0008_0000_0000_0000 + (t as u64) * 0x0000_0008_0000_0000
}

// The output, as long as the buffer: the end of the state, into whose last two words the key is xored once more.
fn output(key: &[u8], message: &[u8], out: &mut [u8])
    requires { (length key.now ≡ 16) × (length message.now ≤ 16) × (length out.old ≤ 16) }
    ensures { out.new ≡ prf_short key.now message.now (length out.old) }
{
    let k0 = state::word_of_bytes(key, 0);
    let k1 = state::word_of_bytes(key, 1);
    let m0 = state::word_of_bytes(message, 0);
    let m1 = state::word_of_bytes(message, 1);
    let start = [start_word(message.len(), out.len()), k0, k1, m0, m1];
    let s = permutation::permute(start, permutation::ROUNDS);
    let masked = [s[0], s[1], s[2], s[3] ^ k0, s[4] ^ k1];
    state::copy_bytes(masked, (40 - out.len()) as u32, out);
}

// Checks 2, 5, 6. The buffer gets an output of its own length; it stays as it is where the call is refused.
#[tactic(auto, unfolding(crate::specs::Call::short_answer, crate::specs::Call::short_after, crate::specs::Call::short_checks))]
pub fn prf_short(key: &[u8], message: &[u8], out: &mut [u8], length: usize) -> Result<(), Refusal>
    ensures answer { answer_number result ≡ short_answer key.now message.now out.old length }
    ensures after { out.new ≡ short_after key.now message.now out.old length }
{
    if key.len() != KEY_LENGTH {
        return Err(Refusal::KeyLength);
    }
    if LONGEST_MESSAGE < message.len() {
        return Err(Refusal::MessageLength);
    }
    if !matches!(length, 1..=LONGEST_OUTPUT) || out.len() != length {
        return Err(Refusal::OutputLength);
    }
    output(key, message, out);
    Ok(())
}
