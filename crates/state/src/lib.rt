// The state as bytes: bytes are xored into its five words and copied out of them, whole words at a time where that can be.
// Every public function is total: a word past the end reads 0 and is not written. Where a slice goes from a place on, the place is a u32, so that the two
// together never pass 2 ^ 64.
#![tactic(auto)]

ghost use Rattle.std.specs.Prelude.{◌≡◌, ◌+◌, ◌^◌, ◌≤◌, ◌<◌, length, get_or, take, drop};
ghost use Rattle.word.specs.Bytes as spec;
ghost use Rattle.state.specs.State.{whole_words};

// x xored into word j. A case for each word, as a computed index would put all five into memory.
#[tactic(auto, using(crate::proofs::Words::xor_here, crate::proofs::Words::xor_nowhere))]
pub fn xor_word(words: [u64; 5], j: usize, x: u64) -> [u64; 5]
    ensures { result ≡ spec.xor_word j x words }
{
    let [a, b, c, d, e] = words;
    match j {
        0 => [a ^ x, b, c, d, e],
        1 => [a, b ^ x, c, d, e],
        2 => [a, b, c ^ x, d, e],
        3 => [a, b, c, d ^ x, e],
        4 => [a, b, c, d, e ^ x],
        _ => words,
    }
}

// Word j.
fn word_of(words: [u64; 5], j: usize) -> u64
    ensures { result ≡ get_or words j 0 }
{
    words.get(j).copied().unwrap_or(0)
}

// Byte k of the state.
pub fn byte_at(words: [u64; 5], k: usize) -> u8
    ensures { result ≡ spec.byte_at words k }
{
    // By a shift: an index of the word's bytes goes through memory and takes an instruction or two more a byte.
    let w = word_of(words, k / 8);
    ((w >> (8 * (7 - k % 8))) % 256) as u8
}

// b xored into byte k of the state.
pub fn xor_byte(words: [u64; 5], k: usize, b: u8) -> [u64; 5]
    ensures { result ≡ spec.xor_at k b words }
{
    xor_word(words, k / 8, u64::from(b) << (8 * (7 - k % 8)))
}

// The number that the eight bytes from i on make, the first on top.
fn word_at(bytes: &[u8], i: usize) -> u64
    requires { i + 8 ≤ length bytes.now }
    ensures { result ≡ spec.from_bytes (take 8 (drop i bytes.now)) }
{
    u64::from_be_bytes(bytes[i..i + 8].try_into().unwrap())
}

// The number that bytes make in word j, if the first of them stands at byte k: at once where all eight bytes of the word are there, and else byte by byte.
fn window(k: usize, bytes: &[u8], j: usize) -> u64
    requires { (k < 2 ^ 32) × (j < 2 ^ 60) }
    ensures { result ≡ spec.window k bytes.now j }
{
    let start = 8 * j;
    let end = start + 8;
    let last = k + bytes.len();
    if end <= k || last <= start {
        return 0;
    }
    if k <= start && end <= last {
        return word_at(bytes, start - k);
    }
    let part = &bytes[start.saturating_sub(k)..bytes.len().min(end - k)];
    let x = part.iter().fold(0, |x, b| x << 8 | u64::from(*b));
    x << (8 * end.saturating_sub(last))
}

// Word j of the words that bytes make, zeros standing after the last byte.
pub fn word_of_bytes(bytes: &[u8], j: usize) -> u64
    ensures { result ≡ spec.window 0 bytes.now j }
{
    if bytes.len() / 8 < j {
        return 0;
    }
    window(0, bytes, j)
}

// Bytes xored in from a place on, word by word.
#[tactic(auto, using(crate::proofs::Words::each_xored))]
pub fn xor_bytes(words: [u64; 5], place: u32, bytes: &[u8]) -> [u64; 5]
    ensures { result ≡ spec.xor_from place bytes.now words }
{
    let k = place as usize;
    std::array::from_fn(|j| words[j] ^ window(k, bytes, j))
}

// The eight bytes of x xored in from a place on: they stand in one word, or in two.
pub fn xor_word_at(words: [u64; 5], place: u32, x: u64) -> [u64; 5]
    ensures { result ≡ spec.xor_from place (spec.to_bytes 8 x) words }
{
    let k = place as usize;
    let shift = 8 * (k % 8);
    let first = xor_word(words, k / 8, x >> shift);
    // By 64 - shift places, in two steps, as a shift by 64 is undefined.
    xor_word(first, k / 8 + 1, (x << (56 - shift)) << 8)
}

// Word j of the bytes' whole words; 0 past the last.
fn whole_word_of(bytes: &[u8], j: usize) -> u64
    ensures { result ≡ spec.window 0 (whole_words bytes.now) j }
{
    match bytes.as_chunks::<8>().0.get(j) {
        Some(word) => u64::from_be_bytes(*word),
        None => 0,
    }
}

// The bytes' whole words xored in from the first word on. Bytes after the last whole word are left out. Long messages are made of such blocks.
#[tactic(auto, using(crate::proofs::Words::each_xored))]
pub fn xor_words(words: [u64; 5], bytes: &[u8]) -> [u64; 5]
    ensures { result ≡ spec.xor_from 0 (whole_words bytes.now) words }
{
    std::array::from_fn(|j| words[j] ^ whole_word_of(bytes, j))
}

// The bytes from a place on go to out, as many as it holds: a word at once where byte k + i begins one and all its bytes are asked for. No `for` has two strides,
// and one over single bytes takes four times as long for sixteen of them.
pub fn copy_bytes(words: [u64; 5], place: u32, out: &mut [u8])
    ensures { out.new ≡ spec.bytes_from place (length out.old) words }
{
    let k = place as usize;
    let mut i = 0;
    while i < out.len() {
        if (k + i) % 8 == 0 && 8 <= out.len() - i {
            out[i..i + 8].copy_from_slice(&word_of(words, (k + i) / 8).to_be_bytes());
            i += 8;
        } else {
            out[i] = byte_at(words, k + i);
            i += 1;
        }
    }
}
