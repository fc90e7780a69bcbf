// Feeds through the hub, as C calls them: the same bytes again and again, by value and in place, and a message in three parts, in place.
ghost use Rattle.std.specs.Prelude.{◌≡◌, []};
ghost use Rattle.calls.specs.Answer.{answer_of};
ghost use Rattle.calls.specs.Call.{final};
ghost use Rattle.hub.specs.Hub.{empty_hub, open_hub, feed_hub, on_hub};
ghost use Rattle.testbench.specs.Feeds as spec;

use calls::{Accepted, Answer};
use hub::Hub;

// Sixteen MAC tickets under a key of zeros, with tags of sixteen bytes.
fn sixteen() -> Hub
    ensures { result ≡ spec.sixteen }
{
    let mut hub = Hub::empty();
    for _ in 0..Hub::PLACES {
        hub = hub::open(hub, 2, &[0u8; 16], 16).hub;
    }
    hub
}

// The run count that an answer tells; 0 where it tells none.
fn runs_of(answer: Answer) -> u64
    ensures { result ≡ (answer_of answer).runs }
{
    answer.map_or(0, Accepted::runs)
}

// The count that a feed of no bytes is answered with.
fn runs(hub: Hub, ticket: u32) -> u64
    ensures { result ≡ (feed_hub ticket [] hub).response.answer.runs }
{
    runs_of(hub::feed(hub, ticket, b"").answer)
}

// A ticket's run count after so many feeds of the same bytes; 0 where it is refused. The hub goes by value.
#[unsafe(no_mangle)]
#[tactic(auto, unfolding(crate::specs::Feeds::feeds_runs))]
pub extern "C" fn testbench_feeds_by_value(ticket: u32, bytes: &[u8], times: usize) -> u64
    ensures { result ≡ spec.feeds_runs ticket bytes.now times }
{
    runs(hub::feed_often(sixteen(), ticket, bytes, times), ticket)
}

// The same. The hub stays in its memory.
#[unsafe(no_mangle)]
#[tactic(auto, unfolding(crate::specs::Feeds::feeds_runs))]
pub extern "C" fn testbench_feeds_in_place(ticket: u32, bytes: &[u8], times: usize) -> u64
    ensures { result ≡ spec.feeds_runs ticket bytes.now times }
{
    runs(
        controller::feed_often(sixteen(), ticket, bytes, times),
        ticket,
    )
}

// Ticket 1 is fed a message in three parts, in place. A cut past the end is one at the end.
fn feed_in_three(hub: Hub, message: &[u8], first: usize, second: usize) -> Hub
    ensures { result ≡ final on_hub hub (spec.feed_in_three first second message.now) }
{
    let (begin, rest) = message.split_at(first.min(message.len()));
    let (middle, end) = rest.split_at(second.min(rest.len()));
    // By `feed_often`: with a second call of `controller::feed` in the program, each would be a call and slower (docs/ARCHITECTURE.md, "What keeps records in
    // registers").
    let once = controller::feed_often(hub, 1, begin, 1);
    let twice = controller::feed_often(once, 1, middle, 1);
    controller::feed_often(twice, 1, end, 1)
}

// A hub with one ticket, of that mode, under that key and with that tag length, or with none where that is refused.
fn opened(mode: u32, key: &[u8], length: u32) -> Hub
    ensures { result ≡ (open_hub mode key.now length empty_hub).after }
{
    hub::open(Hub::empty(), mode, key, length).hub
}

// The output of a mode for a message, as much as is lent, and how many runs were made: by ticket 1 of an empty hub, which is fed the message in three parts, in
// place. Where the draw is refused, as it is where the open was, the answer is 0, and nothing is written.
#[unsafe(no_mangle)]
pub extern "C" fn testbench_parts_in_place(
    key: &[u8],
    message: &[u8],
    out: &mut [u8],
    mode: u32,
    tag_length: u32,
    first: usize,
    second: usize,
) -> u64
    ensures answer { result ≡ (spec.drawn_of_parts mode key.now tag_length message.now out.old first second).answer.runs }
    ensures after { out.new ≡ (spec.drawn_of_parts mode key.now tag_length message.now out.old first second).buffer }
{
    let fed = feed_in_three(opened(mode, key, tag_length), message, first, second);
    let count = out.len();
    runs_of(hub::draw(fed, 1, out, 0, count).answer)
}
