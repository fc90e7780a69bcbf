// The calls on a hub that stays in its memory and is altered there. An accepted call writes one record, an open also how many were issued, a check or a close the
// runs of the closed tickets; a refused one writes nothing. `feed` and `close` are document 01's "For the controller's main loop"; the others are for the calls by
// value.
ghost use Rattle.std.specs.Prelude.{◌≡◌, IsTrue};
ghost use Rattle.calls.specs.Answer.{answer_of, of_open, of_count, of_check};
ghost use Rattle.hub.specs.Hub.{open_hub, feed_hub, draw_hub, check_hub, close_hub};

use super::places::{find, locate};
use super::records::{check_record, draw_record, feed_record};
use super::{Hub, wrong_tag_length};
use calls::{Accepted, Answer};
use checks::Refusal;
use mode::Mode;
use sponge::Record;

// Checks 1, 2, 21, 14, 13. The new ticket's record goes to the first free place. The mode comes as the call's number, which check 1 is about.
#[tactic(auto, using(crate::proofs::Calls::open_1, crate::proofs::Calls::open_2, crate::proofs::Calls::open_21, crate::proofs::Calls::open_14, crate::proofs::Calls::open_13, crate::proofs::Calls::open_done, crate::proofs::Locating::found_is))]
pub(super) fn open(hub: &mut Hub, mode: u32, key: &[u8], tag_length: u32) -> Answer
    ensures answer { answer_of result ≡ (open_hub mode key.now tag_length hub.old).response.answer }
    ensures kind { IsTrue (of_open result) }
    ensures after { hub.new ≡ (open_hub mode key.now tag_length hub.old).after }
{
    // A mode holds a length of one byte. One that needs more is wrong where it counts.
    let length = (tag_length % 256) as u8;
    let Some(named) = Mode::of_number(mode, length) else {
        return Err(Refusal::NoMode);
    };
    if key.len() != named.key_length() {
        return Err(Refusal::KeyLength);
    }
    if wrong_tag_length(named, tag_length) {
        return Err(Refusal::NamedTagLength);
    }
    if Hub::MOST_ISSUED <= hub.issued {
        return Err(Refusal::AllIssued);
    }
    let Some(place) = find(hub, 0) else {
        return Err(Refusal::NoPlace);
    };
    let ticket = hub.issued + 1;
    let fresh = Record::fresh(ticket, named, key);
    hub.records[place] = fresh;
    hub.issued = ticket;
    Ok(Accepted::Opened {
        ticket,
        runs: fresh.runs(),
    })
}

// Checks 11, 12, 15, 16.
pub fn feed(hub: &mut Hub, ticket: u32, bytes: &[u8]) -> Answer
    ensures answer { answer_of result ≡ (feed_hub ticket bytes.now hub.old).response.answer }
    ensures kind { IsTrue (of_count result) }
    ensures after { hub.new ≡ (feed_hub ticket bytes.now hub.old).after }
{
    feed_by::<true>(hub, ticket, bytes)
}

// The same, for the calls by value too. FEW is for a few bytes (`feed_record`).
#[tactic(auto, using(crate::proofs::Calls::feed_never, crate::proofs::Calls::feed_done))]
pub(super) fn feed_by<const FEW: bool>(hub: &mut Hub, ticket: u32, part: &[u8]) -> Answer
    ensures answer { answer_of result ≡ (feed_hub ticket part.now hub.old).response.answer }
    ensures kind { IsTrue (of_count result) }
    ensures after { hub.new ≡ (feed_hub ticket part.now hub.old).after }
{
    let place = locate(hub, ticket)?;
    let after = feed_record::<FEW>(hub.records[place], part)?;
    hub.records[place] = after;
    Ok(Accepted::Counted(after.runs()))
}

// Checks 11, 12, 3, 17. Ends feeding, and writes count bytes of output from place on.
#[tactic(auto, using(crate::proofs::Calls::draw_never, crate::proofs::Calls::draw_done))]
pub(super) fn draw(
    hub: &mut Hub,
    ticket: u32,
    buffer: &mut [u8],
    place: usize,
    count: usize,
) -> Answer
    ensures answer { answer_of result ≡ (draw_hub ticket buffer.old place count hub.old).response.answer }
    ensures kind { IsTrue (of_count result) }
    ensures after { hub.new ≡ (draw_hub ticket buffer.old place count hub.old).after }
    ensures written { buffer.new ≡ (draw_hub ticket buffer.old place count hub.old).response.buffer }
{
    let at = locate(hub, ticket)?;
    let after = draw_record(hub.records[at], buffer, place, count)?;
    hub.records[at] = after;
    Ok(Accepted::Counted(after.runs()))
}

// Checks 11, 12, 18, 4. Ends feeding, draws nothing, and closes the ticket, whether the tag passes or not.
#[tactic(auto, using(crate::proofs::Calls::check_never, crate::proofs::Calls::check_done))]
pub(super) fn check(hub: &mut Hub, ticket: u32, tag: &[u8]) -> Answer
    ensures answer { answer_of result ≡ (check_hub ticket tag.now hub.old).response.answer }
    ensures kind { IsTrue (of_check result) }
    ensures after { hub.new ≡ (check_hub ticket tag.now hub.old).after }
{
    let place = locate(hub, ticket)?;
    let ended = check_record(hub.records[place], tag)?;
    let passed = ended.tag_matches(tag);
    let runs = ended.runs();
    hub.release(place, runs);
    Ok(Accepted::Judged { passed, runs })
}

// Checks 11, 12. The place is free again and keeps nothing of the ticket's state.
#[tactic(auto, using(crate::proofs::Calls::close_never, crate::proofs::Calls::close_done))]
pub fn close(hub: &mut Hub, ticket: u32) -> Answer
    ensures answer { answer_of result ≡ (close_hub ticket hub.old).response.answer }
    ensures kind { IsTrue (of_count result) }
    ensures after { hub.new ≡ (close_hub ticket hub.old).after }
{
    let place = locate(hub, ticket)?;
    let runs = hub.records[place].runs();
    hub.release(place, runs);
    Ok(Accepted::Counted(runs))
}
