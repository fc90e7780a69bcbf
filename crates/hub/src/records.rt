// What a call on a ticket makes of the ticket's record, behind the call's own checks. A refused call makes nothing of it.
ghost use Rattle.std.specs.Prelude.{◌≡◌, IfOk, MatchResult};
ghost use Rattle.checks.specs.Refusals.{answer_number};
ghost use Rattle.checks.specs.Buffers.{written};
ghost use Rattle.sponge.specs.Record.{absorbed, finished, next_bytes, squeezed};
ghost use Rattle.hub.specs.Records.{feed_refusal, draw_refusal, check_refusal};

use super::Hub;
use checks::Refusal;
use mode::Mode;
use sponge::Record;

// Feed: 15, 16. FEW is fast for a few bytes, for a hub that stays in its memory. With it this has to have one caller in a program: docs/ARCHITECTURE.md, "What
// keeps records in registers".
#[tactic(auto, unfolding(crate::specs::Records::feed_refusal, calls::specs::Checks::feed_own))]
pub fn feed_record<const FEW: bool>(before: Record, bytes: &[u8]) -> Result<Record, Refusal>
    ensures number { answer_number result ≡ feed_refusal bytes.now before }
    ensures after { IfOk result (λ r. r ≡ absorbed bytes.now before) }
{
    if !before.feeding() {
        return Err(Refusal::FeedingEnded);
    }
    if checks::exceeds(Hub::MOST_FED, before.fed(), bytes.len() as u64) {
        return Err(Refusal::FeedLimit);
    }
    // Not `Ok(if ..)`, with which a feed by value gets 8 more instructions.
    if FEW {
        Ok(before.absorb_small(bytes))
    } else {
        Ok(before.absorb(bytes))
    }
}

// Draw: 3, 17.
#[tactic(auto, unfolding(crate::specs::Records::draw_refusal, calls::specs::Checks::draw_own))]
pub fn draw_record(
    before: Record,
    buffer: &mut [u8],
    place: usize,
    count: usize,
) -> Result<Record, Refusal>
    ensures number { answer_number result ≡ draw_refusal buffer.old place count before }
    ensures drawn { MatchResult result
        (λ r. (r ≡ squeezed count (finished before)) × (buffer.new ≡ written buffer.old place (next_bytes count (finished before))))
        (λ refusal. buffer.new ≡ buffer.old) }
{
    if checks::exceeds(buffer.len() as u64, place as u64, count as u64) {
        return Err(Refusal::PastEnd);
    }
    let most = before.mode().most_drawn() as u64;
    if checks::exceeds(most, before.drawn(), count as u64) {
        return Err(Refusal::DrawLimit);
    }
    Ok(before.finish().squeeze(&mut buffer[place..place + count]))
}

// Check: 18, 4. A tag has the length that the ticket's open named. Feeding is ended, and the tag is that of the record then.
#[tactic(auto, unfolding(crate::specs::Records::check_refusal, calls::specs::Checks::check_own))]
pub fn check_record(before: Record, tag: &[u8]) -> Result<Record, Refusal>
    ensures number { answer_number result ≡ check_refusal tag.now before }
    ensures ended { IfOk result (λ r. r ≡ finished before) }
{
    let Mode::Mac(length) = before.mode() else {
        return Err(Refusal::NoTags);
    };
    if tag.len() != usize::from(length) {
        return Err(Refusal::TagLength);
    }
    Ok(before.finish())
}
