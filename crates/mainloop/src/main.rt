// The controller's main loop, made twice over the same calls: on a hub that is handed on by value, and on one that stays in its memory and is lent round after round.
// Both list every call with its answer, and what the hub's tickets give at the end. By the promises the two lists are the same; tests/ works every answer and byte
// out anew.
#![tactic(auto)]

ghost use Rattle.std.specs.Prelude.{◌≡◌, [], ◌∷◌, length, replicate, IsTrue};
ghost use Rattle.calls.specs.Answer.{answer_of, of_count};
ghost use Rattle.calls.specs.Call.{Open, Draw, events, final};
ghost use Rattle.hub.specs.Hub.{feed_hub, close_hub, on_hub};
ghost use Rattle.script.specs.Text.{Wrote};
ghost use Rattle.script.specs.Writing.{Puts};
ghost use Rattle.listing.specs.Listing.{Lists};
ghost use Rattle.mainloop.specs.Kept as kept;
ghost use Rattle.mainloop.specs.Rounds as spec;

use calls::{Accepted, Answer};
use hub::Hub;
use listing::Listing;
use script::Writer;

// Standard output, as `io` numbers it. std's writers promise no more of a write than `io::write_all` does, and want the runtime.
const STDOUT: i32 = 1;

const ROUNDS: usize = 150;

// ---- how a round calls its hub

// Feed and close. What they promise is the same for every way of calling.
trait Calling {
    fn feed(hub: &mut Hub, ticket: u32, bytes: &[u8]) -> Answer
        ensures answer { answer_of result ≡ (feed_hub ticket bytes.now hub.old).response.answer }
        ensures kind { IsTrue (of_count result) }
        ensures after { hub.new ≡ (feed_hub ticket bytes.now hub.old).after };

    fn close(hub: &mut Hub, ticket: u32) -> Answer
        ensures answer { answer_of result ≡ (close_hub ticket hub.old).response.answer }
        ensures kind { IsTrue (of_count result) }
        ensures after { hub.new ≡ (close_hub ticket hub.old).after };
}

// The hub is handed on by value, and the one that is given back takes its place.
struct ByValue;

impl Calling for ByValue {
    fn feed(hub: &mut Hub, ticket: u32, bytes: &[u8]) -> Answer {
        let fed = hub::feed(*hub, ticket, bytes);
        *hub = fed.hub;
        fed.answer
    }

    fn close(hub: &mut Hub, ticket: u32) -> Answer {
        let closed = hub::close(*hub, ticket);
        *hub = closed.hub;
        closed.answer
    }
}

// The hub stays where it is, and is lent.
struct InPlace;

impl Calling for InPlace {
    fn feed(hub: &mut Hub, ticket: u32, bytes: &[u8]) -> Answer {
        controller::feed(hub, ticket, bytes)
    }

    fn close(hub: &mut Hub, ticket: u32) -> Answer {
        controller::close(hub, ticket)
    }
}

// ---- the rounds: each feeds a message to one ticket and closes another. Some tickets are never issued, and some are closed before.

fn feed_ticket(i: usize) -> u32
    ensures { result ≡ spec.feed_ticket i }
{
    (i % 18) as u32
}

fn close_ticket(i: usize) -> u32
    ensures { result ≡ spec.close_ticket i }
{
    (i / 16 * 3 % 13) as u32
}

// What the two calls of a round were answered.
#[derive(Clone, Copy)]
struct Answered {
    fed: Answer,
    closed: Answer,
}

// A round for each place that its answers are kept in. The hub after them is given back.
#[tactic(auto, using(listing::proofs::Lists::got, crate::proofs::RoundList::rounds_made, crate::proofs::Kept::rounds_kept))]
fn serve<C: Calling>(mut hub: Hub, bytes: &[u8], answers: &mut [Answered]) -> Hub
    ensures hub { result ≡ final on_hub hub (spec.rounds_from 0 (length answers.old) bytes.now) }
    ensures answers { kept.events_kept 0 bytes.now answers.new ≡ events on_hub hub (spec.rounds_from 0 (length answers.old) bytes.now) }
    ensures kinds { IsTrue (kept.of_their_calls answers.new) }
{
    for (i, answered) in answers.iter_mut().enumerate() {
        let fed = C::feed(&mut hub, feed_ticket(i), bytes);
        let closed = C::close(&mut hub, close_ticket(i));
        *answered = Answered { fed, closed };
    }
    hub
}

// ---- the list of all calls

#[tactic(auto, using(script::proofs::Texts::parts), unfolding(crate::specs::Kept::round_text, listing::specs::Listing::line, listing::specs::Listing::call_text))]
fn put_round(out: &mut Writer, i: usize, bytes: &[u8], answered: Answered)
    ensures { Puts (kept.round_text i bytes.now (answer_of answered.fed) (answer_of answered.closed)) out.old out.new }
{
    listing::put_line(out, b"feed", feed_ticket(i), bytes, answered.fed);
    listing::put_line(out, b"close", close_ticket(i), b"", answered.closed);
}

#[tactic(auto, using(script::proofs::Texts::parts, crate::proofs::Kept::rounds_listed))]
fn put_rounds(out: &mut Writer, bytes: &[u8], answers: &[Answered])
    ensures { Puts (kept.rounds_text 0 bytes.now answers.now) out.old out.new }
{
    // From here on the place is in the buffer, before the first round too.
    out.put_nothing();
    for (i, answered) in answers.iter().enumerate() {
        put_round(out, i, bytes, *answered);
    }
}

// The rounds are made, and then listed by their answers.
fn rounds<C: Calling>(list: &mut Listing, bytes: &[u8])
    ensures { Lists (spec.rounds_from 0 spec.rounds bytes.now) list.old list.new }
{
    let none = Ok(Accepted::Counted(0));
    let mut answers = [Answered {
        fed: none,
        closed: none,
    }; ROUNDS];
    list.hub = serve::<C>(list.hub, bytes, &mut answers);
    put_rounds(list.out, bytes, &answers);
}

// Eight tickets of one mode, with tags of sixteen bytes where it has tags.
#[tactic(auto, using(script::proofs::Texts::parts, listing::proofs::Lists::lists, std::proofs::lemmas::Grind::replicate_next))]
fn open_eight(list: &mut Listing, mode: u32, key: &[u8])
    ensures { Lists (replicate 8 (Open mode key.now 16)) list.old list.new }
{
    // From here on the place is in the buffer, before the first call too.
    list.out.put_nothing();
    // By its type the invariant counts in natural numbers; of a bare 8, an i32, it would count in integers.
    for _ in 0..8usize {
        list.open(mode, key, 16);
    }
}

// So many bytes drawn from a ticket.
fn draw(list: &mut Listing, ticket: u32, count: usize)
    ensures { Lists (Draw ticket spec.lent_out 0 count ∷ []) list.old list.new }
{
    let mut buffer = [170u8; 16];
    list.draw(ticket, &mut buffer, 0, count);
}

// From every ticket, closed ones too, and from 25, which was never issued.
#[tactic(auto, using(script::proofs::Texts::parts, listing::proofs::Lists::lists, crate::proofs::RoundList::draws_made))]
fn draw_all(list: &mut Listing)
    ensures { Lists (spec.draws_from 1 25) list.old list.new }
{
    // From here on the place is in the buffer, before the first call too.
    list.out.put_nothing();
    for ticket in 1..26 {
        draw(list, ticket, 16);
    }
}

// Eight MAC tickets and eight of the hash, one of which takes no more bytes.
fn opening(list: &mut Listing, key: &[u8])
    ensures { Lists (spec.opening key.now) list.old list.new }
{
    open_eight(list, 2, key);
    open_eight(list, 3, b"");
    draw(list, 14, 3);
}

// Tickets come into places that are free again, every ticket is drawn from, and the sum is taken.
fn ending(list: &mut Listing, key: &[u8])
    ensures { Lists (spec.ending key.now) list.old list.new }
{
    open_eight(list, 1, key);
    draw_all(list);
    list.sum();
}

// All calls, on a hub that is lent or handed on by value: the text is the same. Between the rounds a wrong tag closes ticket 4, and later feeds to it are refused.
#[tactic(auto, using(script::proofs::Texts::parts, listing::proofs::Lists::lists), unfolding(crate::specs::Rounds::list_text, crate::specs::Rounds::all_calls))]
fn list<C: Calling>(key: &[u8], few: &[u8], message: &[u8], out: &mut Writer)
    ensures { Puts (spec.list_text key.now few.now message.now) out.old out.new }
{
    out.put_bytes(b"empty\n");
    let hub = Hub::empty();
    let mut list = Listing { hub, out };
    opening(&mut list, key);
    rounds::<C>(&mut list, few);
    list.check(4, key);
    rounds::<C>(&mut list, message);
    ending(&mut list, key);
}

// Both lists, each under its name, from the buffer's start on; answers the place behind them.
fn list_both(key: &[u8], few: &[u8], message: &[u8], text: &mut [u8]) -> usize
    ensures { Wrote text.old 0 (spec.both_texts key.now few.now message.now) text.new result }
{
    let mut out = Writer { out: text, at: 0 };
    out.put_bytes(b"by value\n");
    list::<ByValue>(key, few, message, &mut out);
    out.put_bytes(b"in place\n");
    list::<InPlace>(key, few, message, &mut out);
    out.at
}

const KEY: [u8; 16] = [0, 1, 2, 3, 4, 5, 6, 7, 8, 9, 10, 11, 12, 13, 14, 15];

// Fewer bytes than a word has. Fed again and again, they begin at each place of a block of the hash.
const FEW: [u8; 3] = [129, 66, 36];

const MESSAGE: [u8; 20] = [
    255, 0, 1, 128, 127, 64, 32, 16, 8, 4, 2, 1, 90, 165, 3, 7, 15, 31, 63, 127,
];

// The buffer is longer than the text, which has 90,378 bytes.
fn main() {
    let mut text = [0u8; 131072];
    let length = list_both(&KEY, &FEW, &MESSAGE, &mut text);
    io::write_all(STDOUT, &text[..length]);
}
