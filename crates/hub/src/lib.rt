// The hub: sixteen places for the records of open tickets, and the six calls of document 01's "Tickets". A call takes the hub by value and gives it back in its
// reply; `in_place` has all but the sum on a hub that stays in its memory. Nothing else writes the hub's fields.
// The calls are free functions: `hub::feed(hub, ..)` and the like are the names that may not change.
#![tactic(auto)]

pub mod in_place;
mod places;
mod records;

ghost use Rattle.std.specs.Prelude.{◌≡◌, ◌<◌, replicate, Some, IsTrue};
ghost use Rattle.std.specs.Fn.{FnOnceReturnsAtMut};
ghost use Rattle.calls.specs.Answer.{answer_of, of_open, of_count, of_check, of_sum};
ghost use Rattle.calls.specs.Call.{Feed, final};
ghost use Rattle.calls.specs.Checks.{wrong_tag_length, most_open};
ghost use Rattle.sponge.specs.Record.{sum64, vacant};
ghost use Rattle.hub.specs.Hub as spec;
ghost use Rattle.hub.specs.Records.{released_at};

use calls::{Accepted, Answer};
use mode::Mode;
use sponge::Record;

#[derive(Clone, Copy)]
pub struct Hub {
    // the records of open tickets, and vacant ones in free places: an array of sixteen records, as document 01 asks, and none of `Option<Record>`
    records: [Record; Hub::PLACES],
    // how many tickets were issued
    issued: u32,
    // the runs of the closed ones
    closed: u64,
}

// What a call gives back.
#[derive(Clone, Copy)]
pub struct Reply {
    pub hub: Hub,
    pub answer: Answer,
}

impl Hub {
    pub const PLACES: usize = 16;

    pub const MOST_ISSUED: u32 = u32::MAX;

    pub const MOST_FED: u64 = 16_777_216;

    pub const SHORTEST_TAG: u32 = 8;

    pub const LONGEST_TAG: u32 = 16;

    // The number of the mode that has tags, of a length that its open names, and whose tags are checked: for those who read the number.
    pub const TAG_MODE: u32 = 2;

    // No ticket issued, sum 0.
    #[tactic(auto, unfolding(crate::specs::Hub::empty_hub))]
    pub fn empty() -> Hub
        ensures { result ≡ spec.empty_hub }
    {
        Hub {
            records: [Record::vacant(); Hub::PLACES],
            issued: 0,
            closed: 0,
        }
    }

    // The ticket in a place is closed after so many runs. The place is an index: with the record taken by the search itself a feed took longer
    // (docs/DECISIONS.md).
    #[tactic(auto, unfolding(sponge::specs::Record::sum64))]
    fn release(&mut self, place: usize, runs: u64)
        requires { place < most_open }
        ensures { self.new ≡ released_at place runs self.old }
    {
        self.records[place] = Record::vacant();
        self.closed = self.closed.wrapping_add(runs);
    }
}

// Whether a tag length is wrong for a mode. Only one mode has tags.
fn wrong_tag_length(mode: Mode, length: u32) -> bool
    ensures { result ≡ wrong_tag_length (Some mode) length }
{
    matches!(mode, Mode::Mac(_)) && !(Hub::SHORTEST_TAG..=Hub::LONGEST_TAG).contains(&length)
}

// A call on a hub that is given, and given back.
fn by_value<F: FnOnce(&mut Hub) -> Answer>(mut hub: Hub, call: F) -> Reply
    requires { F.IsAlwaysCallable call }
    ensures { FnOnceReturnsAtMut F.FnOnce call hub result.answer result.hub }
{
    let answer = call(&mut hub);
    Reply { hub, answer }
}

// Checks 1, 2, 21, 14, 13. The new ticket's record goes to the first free place.
pub fn open(hub: Hub, mode: u32, key: &[u8], tag_length: u32) -> Reply
    ensures hub { result.hub ≡ (spec.open_hub mode key.now tag_length hub).after }
    ensures answer { answer_of result.answer ≡ (spec.open_hub mode key.now tag_length hub).response.answer }
    ensures kind { IsTrue (of_open result.answer) }
{
    by_value(hub, |hub| in_place::open(hub, mode, key, tag_length))
}

// Checks 11, 12, 15, 16.
pub fn feed(hub: Hub, ticket: u32, bytes: &[u8]) -> Reply
    ensures hub { result.hub ≡ (spec.feed_hub ticket bytes.now hub).after }
    ensures answer { answer_of result.answer ≡ (spec.feed_hub ticket bytes.now hub).response.answer }
    ensures kind { IsTrue (of_count result.answer) }
{
    by_value(hub, |hub| in_place::feed_by::<false>(hub, ticket, bytes))
}

// The same bytes fed so many times, by value; `controller::feed_often` does so in place, and benchmarks compare the two. The answers are not kept.
pub fn feed_often(mut hub: Hub, ticket: u32, bytes: &[u8], times: usize) -> Hub
    ensures { result ≡ final spec.on_hub hub (replicate times (Feed ticket bytes.now)) }
{
    for _ in 0..times {
        hub = feed(hub, ticket, bytes).hub;
    }
    hub
}

// Checks 11, 12, 3, 17. Ends feeding, and writes count bytes of output from place on.
pub fn draw(mut hub: Hub, ticket: u32, buffer: &mut [u8], place: usize, count: usize) -> Reply
    ensures hub { result.hub ≡ (spec.draw_hub ticket buffer.old place count hub).after }
    ensures answer { answer_of result.answer ≡ (spec.draw_hub ticket buffer.old place count hub).response.answer }
    ensures kind { IsTrue (of_count result.answer) }
    ensures written { buffer.new ≡ (spec.draw_hub ticket buffer.old place count hub).response.buffer }
{
    // Not `by_value`: of a closure that borrows the buffer, what it leaves there is not told.
    let answer = in_place::draw(&mut hub, ticket, buffer, place, count);
    Reply { hub, answer }
}

// Checks 11, 12, 18, 4. Ends feeding, draws nothing, and closes the ticket, whether the tag passes or not.
pub fn check(hub: Hub, ticket: u32, tag: &[u8]) -> Reply
    ensures hub { result.hub ≡ (spec.check_hub ticket tag.now hub).after }
    ensures answer { answer_of result.answer ≡ (spec.check_hub ticket tag.now hub).response.answer }
    ensures kind { IsTrue (of_check result.answer) }
{
    by_value(hub, |hub| in_place::check(hub, ticket, tag))
}

// Checks 11, 12. The place is free again and keeps nothing of the ticket's state.
pub fn close(hub: Hub, ticket: u32) -> Reply
    ensures hub { result.hub ≡ (spec.close_hub ticket hub).after }
    ensures answer { answer_of result.answer ≡ (spec.close_hub ticket hub).response.answer }
    ensures kind { IsTrue (of_count result.answer) }
{
    by_value(hub, |hub| in_place::close(hub, ticket))
}

// The runs of all tickets ever issued. Never refused.
pub fn sum(hub: Hub) -> Reply
    ensures hub { result.hub ≡ (spec.sum_hub hub).after }
    ensures answer { answer_of result.answer ≡ (spec.sum_hub hub).response.answer }
    ensures kind { IsTrue (of_sum result.answer) }
{
    let total = hub.records.iter().fold(
        hub.closed,
        |total, record| total.wrapping_add(record.runs()),
    );
    Reply {
        hub,
        answer: Ok(Accepted::Summed(total)),
    }
}
