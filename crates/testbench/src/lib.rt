// The permutation, the sponge and feeds through the hub, and the runs that frames report, as C calls them: for the test bench of document 01, the benchmarks under
// bench/ and the tests under tests/. C gets numbers: runs, an answer's number, 1 for a tag that passes.
#![tactic(auto)]

ghost use Rattle.std.specs.Prelude.{◌≡◌, [], ◌∷◌, length};
ghost use Rattle.permutation.specs.Permutation.{at, permute};
ghost use Rattle.permutation.specs.Row.{row_answer, row_after};
ghost use Rattle.mode.specs.Mode.{named};
ghost use Rattle.frame.specs.Frame.{seal_answer, seal_after, verify_answer};
ghost use Rattle.testbench.specs.Chain.{repeated};
ghost use Rattle.sponge.specs.Streaming.{absorbed_parts, next_parts, squeezed_parts};
ghost use Rattle.testbench.specs.Sponge.{parts_at, counts_at, sponge_runs, sponge_out, tag_answer};

mod feeds;

use mode::Mode;
use sponge::Record;

// One permutation of a lent row: 0, or 7 for a row that is not of five words, which stays as it is.
#[unsafe(no_mangle)]
pub extern "C" fn testbench_permute_row(row: &mut [u64]) -> u32
    ensures answer { result ≡ row_answer row.old }
    ensures after { row.new ≡ row_after (permute 12) row.old }
{
    checks::number_of(permutation::permute_row(row))
}

// x0 after the state x0, 0, 0, 0, 0 was permuted `times` times, by `rounds` rounds each. The state stays a value all the while: the cost is the permutation's own.
#[unsafe(no_mangle)]
pub extern "C" fn testbench_permute_chain(x0: u64, rounds: u64, times: u64) -> u64
    ensures { result ≡ at (repeated times (permute rounds) (x0 ∷ 0 ∷ 0 ∷ 0 ∷ 0 ∷ [])) 0 }
{
    let mut s = [x0, 0, 0, 0, 0];
    for _ in 0..times {
        s = permutation::permute(s, rounds);
    }
    s[0]
}

// A message is fed in two parts. A cut past its end is one at its end.
#[tactic(auto, unfolding(sponge::specs::Streaming::absorbed_parts))]
fn absorb_in_two(s: Record, message: &[u8], cut: usize) -> Record
    ensures { result ≡ absorbed_parts (parts_at cut message.now) s }
{
    let (begin, end) = message.split_at(cut.min(message.len()));
    s.absorb(begin).absorb(end)
}

// Output is drawn in two parts, the first of so many bytes, or of all. No one function with `absorb_in_two`: what is read is split there, what is written here, and
// each is two calls.
#[tactic(auto, unfolding(sponge::specs::Streaming::squeezed_parts, sponge::specs::Streaming::next_parts))]
fn squeeze_in_two(s: Record, out: &mut [u8], first: usize) -> Record
    ensures after { result ≡ squeezed_parts (counts_at first (length out.old)) s }
    ensures written { out.new ≡ next_parts (counts_at first (length out.old)) s }
{
    let (begin, end) = out.split_at_mut(first.min(out.len()));
    s.squeeze(begin).squeeze(end)
}

// The output of a mode for a message, as much as is lent, with no limit; the answer is how many runs were made. The message is fed and the output drawn in two
// parts, so that tests try splits; by the theorem on streaming the cuts make no difference, and the promise does not name them. A key of another length than
// the mode's is cut, or filled with zeros. A tag length counts in mode 2 alone, and any is taken. A number that is no mode is answered 0, and nothing is written.
#[unsafe(no_mangle)]
pub extern "C" fn testbench_sponge(
    key: &[u8],
    message: &[u8],
    out: &mut [u8],
    mode: u32,
    tag_length: u8,
    cut: usize,
    first: usize,
) -> u64
    ensures answer { result ≡ sponge_runs (named mode tag_length) (length message.now) (length out.old) }
    ensures after { out.new ≡ sponge_out (named mode tag_length) key.now message.now out.old }
{
    let Some(known) = Mode::of_number(mode, tag_length) else {
        return 0;
    };
    let fresh = Record::fresh(1, known, key);
    let fed = absorb_in_two(fresh, message, cut);
    let ended = fed.finish();
    let drawn = squeeze_in_two(ended, out, first);
    drawn.runs()
}

// Whether a tag is the MAC of a message, with tags of that length, whole: 1, or 0. A block has sixteen bytes, so that where tags are to be longer, one of
// sixteen passes.
#[unsafe(no_mangle)]
pub extern "C" fn testbench_tag(key: &[u8], message: &[u8], tag: &[u8], tag_length: u8) -> u32
    ensures { result ≡ tag_answer key.now message.now tag_length tag.now }
{
    let fed = Record::fresh(1, Mode::Mac(tag_length), key).absorb(message);
    u32::from(fed.finish().tag_matches(tag))
}

// Seals a frame, and gives the runs that sealing reports, which the functions of crate firmware do not tell; 0 where it is refused.
#[unsafe(no_mangle)]
pub extern "C" fn testbench_seal_runs(key: &[u8], frame: &mut [u8], body: usize) -> u64
    ensures answer { result ≡ (seal_answer key.now frame.old body).runs }
    ensures after { frame.new ≡ seal_after key.now frame.old body }
{
    frame::seal(key, frame, body).unwrap_or(0)
}

// Judges a frame, and gives the runs that judging reports; 0 where it is refused.
#[unsafe(no_mangle)]
pub extern "C" fn testbench_verify_runs(key: &[u8], frame: &[u8], body: usize) -> u64
    ensures { result ≡ (verify_answer key.now frame.now body).runs }
{
    frame::verify(key, frame, body).map_or(0, |verdict| verdict.runs)
}
