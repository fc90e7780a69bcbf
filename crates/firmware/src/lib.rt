// What sign firmware written in C calls: the short function, sealing and judging, each on numbers and byte slices, with one number for an answer.
// include/firmware.h declares them.
#![tactic(auto)]

ghost use Rattle.std.specs.Prelude.{◌≡◌};
ghost use Rattle.prf_short.specs.Call.{short_answer, short_after};
ghost use Rattle.frame.specs.Frame.{seal_answer, seal_after, verify_answer};
ghost use Rattle.firmware.specs.Firmware.{judged_number};

// The number of a verdict that fails.
pub const FAILED: u32 = 255;

// The short function. The answer is 0, or the refusal: 2, 5, 6.
#[unsafe(no_mangle)]
pub extern "C" fn ascon_prf_short(key: &[u8], message: &[u8], out: &mut [u8], length: usize) -> u32
    ensures answer { result ≡ short_answer key.now message.now out.old length }
    ensures after { out.new ≡ short_after key.now message.now out.old length }
{
    checks::number_of(prf_short::prf_short(key, message, out, length))
}

// Sealing. The answer is 0, or the refusal: 2, 3.
#[unsafe(no_mangle)]
pub extern "C" fn ascon_seal_frame(key: &[u8], frame: &mut [u8], body: usize) -> u32
    ensures answer { result ≡ (seal_answer key.now frame.old body).refusal }
    ensures after { frame.new ≡ seal_after key.now frame.old body }
{
    checks::number_of(frame::seal(key, frame, body))
}

// Judging. The answer is 0 where the frame passes, 255 where it fails, or the refusal: 2, 3.
#[unsafe(no_mangle)]
pub extern "C" fn ascon_verify_frame(key: &[u8], frame: &[u8], body: usize) -> u32
    ensures { result ≡ judged_number (verify_answer key.now frame.now body) }
{
    match frame::verify(key, frame, body) {
        Ok(verdict) if verdict.passed => 0,
        Ok(_) => FAILED,
        Err(refusal) => refusal.number(),
    }
}
