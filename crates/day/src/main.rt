// A day at the ramp, on the hub by value: sixteen lines interleaved, tags judged, tickets closed twice, and every refusal that a run can reach. It prints each call
// with all its arguments and what the call gave. tests/ reads that list and works every answer and every byte out anew, from document 01 alone.
#![tactic(auto)]

ghost use Rattle.std.specs.Prelude.{◌≡◌, [], ◌∷◌, ◌-◌, replicate};
ghost use Rattle.calls.specs.Call as call;
ghost use Rattle.hub.specs.Hub.{empty_hub, on_hub};
ghost use Rattle.script.specs.Text.{Wrote};
ghost use Rattle.script.specs.Writing.{Puts};
ghost use Rattle.listing.specs.Listing.{Listed, Lists};
ghost use Rattle.day.specs.Day as spec;

use hub::Hub;
use listing::Listing;
use script::Writer;

// Standard output, as `io` numbers it. std's writers promise no more of a write than `io::write_all` does, and want the runtime.
const STDOUT: i32 = 1;

// A call of the plan. Its bytes are so many of the sample from a place on: after the mode or the ticket stand the place and how many. An open also has a tag length;
// a draw has the length of the buffer that it is lent, the place and the count. Neither these fields nor a step's have names, which
// would stand in the plan a hundred times. The plan is a table and the program's only input.
#[derive(Clone, Copy)]
enum Planned {
    Open(u32, usize, usize, u32),
    Feed(u32, usize, usize),
    Draw(u32, usize, usize, usize),
    Check(u32, usize, usize),
    Close(u32),
    Sum,
}

// A step of the plan: an empty hub, a call, turns from one number to another, or the same feed of so many equal bytes so many times.
#[derive(Clone, Copy)]
enum Step {
    Begin,
    Make(Planned),
    Turns(usize, usize),
    FeedOften(u32, u8, usize, usize),
}

const DAY: [Step; 100] = [
    // No ticket is issued yet: every ticket is refused, and so are opens that name no mode, bring a wrong key or name a wrong
    // tag length.
    Step::Begin,
    Step::Make(Planned::Sum),
    Step::Make(Planned::Feed(1, 0, 3)),
    Step::Make(Planned::Draw(0, 8, 0, 1)),
    Step::Make(Planned::Check(u32::MAX, 0, 8)),
    Step::Make(Planned::Close(1)),
    Step::Make(Planned::Open(0, 0, 0, 0)),
    Step::Make(Planned::Open(7, 0, 16, 0)),
    Step::Make(Planned::Open(1, 0, 15, 0)),
    Step::Make(Planned::Open(2, 0, 17, 7)),
    Step::Make(Planned::Open(2, 0, 16, 7)),
    Step::Make(Planned::Open(2, 0, 16, 17)),
    Step::Make(Planned::Open(2, 0, 16, 264)),
    Step::Make(Planned::Open(3, 0, 16, 0)),
    Step::Make(Planned::Open(4, 0, 1, 0)),
    Step::Make(Planned::Open(5, 0, 16, 0)),
    Step::Make(Planned::Open(6, 0, 1, 0)),
    // Sixteen lines open, and there is no place for a seventeenth, neither after a refused check; a verdict makes room for one. All are fed, drawn from and closed
    // by turns. The sum keeps them all, and a place serves again.
    Step::Begin,
    Step::Turns(0, 16),
    Step::Make(Planned::Check(2, 0, 8)),
    Step::Make(Planned::Open(1, 0, 16, 0)),
    Step::Make(Planned::Check(2, 0, 9)),
    Step::Make(Planned::Open(1, 0, 16, 0)),
    Step::Make(Planned::Open(1, 0, 16, 0)),
    Step::Make(Planned::Close(18)),
    Step::Turns(16, 96),
    Step::Make(Planned::Sum),
    Step::Turns(96, 192),
    Step::Make(Planned::Sum),
    Step::Turns(192, 232),
    Step::Make(Planned::Sum),
    Step::Make(Planned::Open(3, 0, 0, 0)),
    Step::Make(Planned::Sum),
    // A check ends feeding and closes its ticket, and the sum has its last run; one that is refused does neither. A draw of nothing ends feeding. Parts of a buffer
    // end past what a usize holds.
    Step::Begin,
    Step::Make(Planned::Open(2, 0, 16, 16)),
    Step::Make(Planned::Open(3, 0, 0, 0)),
    Step::Make(Planned::Check(2, 0, 7)),
    Step::Make(Planned::Check(1, 0, 7)),
    Step::Make(Planned::Check(1, 0, 17)),
    Step::Make(Planned::Feed(1, 0, 4)),
    Step::Make(Planned::Sum),
    Step::Make(Planned::Check(1, 0, 16)),
    Step::Make(Planned::Sum),
    Step::Make(Planned::Feed(1, 0, 0)),
    Step::Make(Planned::Check(1, 0, 16)),
    Step::Make(Planned::Close(1)),
    Step::Make(Planned::Draw(2, 8, 9, 0)),
    Step::Make(Planned::Feed(2, 0, 1)),
    Step::Make(Planned::Draw(2, 8, 8, 0)),
    Step::Make(Planned::Feed(2, 0, 1)),
    Step::Make(Planned::Draw(2, 8, 1, 7)),
    Step::Make(Planned::Draw(2, 8, 1, 8)),
    Step::Make(Planned::Draw(2, 8, usize::MAX, 1)),
    Step::Make(Planned::Draw(2, 8, 1, usize::MAX)),
    // Two lines under one key: the tag that one gives the other takes, but not its first eight bytes. A damaged one fails, and closes its line as well. Two more,
    // with tags of eight bytes: the one takes its own, the other not those eight.
    Step::Begin,
    Step::Make(Planned::Open(2, 0, 16, 16)),
    Step::Make(Planned::Open(2, 0, 16, 16)),
    Step::Make(Planned::Feed(1, 0, 32)),
    Step::Make(Planned::Feed(2, 0, 5)),
    Step::Make(Planned::Feed(2, 5, 27)),
    Step::Make(Planned::Draw(1, 24, 4, 16)),
    Step::Make(Planned::Check(2, 48, 8)),
    Step::Make(Planned::Check(2, 48, 16)),
    Step::Make(Planned::Check(1, 64, 15)),
    Step::Make(Planned::Check(1, 64, 16)),
    Step::Make(Planned::Draw(1, 24, 0, 1)),
    Step::Make(Planned::Open(2, 0, 16, 8)),
    Step::Make(Planned::Open(2, 0, 16, 8)),
    Step::Make(Planned::Feed(3, 0, 32)),
    Step::Make(Planned::Feed(4, 0, 32)),
    Step::Make(Planned::Check(3, 48, 16)),
    Step::Make(Planned::Check(3, 80, 8)),
    Step::Make(Planned::Draw(3, 24, 4, 8)),
    Step::Make(Planned::Draw(4, 24, 4, 9)),
    Step::Make(Planned::Draw(4, 24, 4, 8)),
    Step::Make(Planned::Check(4, 48, 8)),
    Step::Make(Planned::Sum),
    // A ticket that was closed stays so, though another has its place.
    Step::Begin,
    Step::Make(Planned::Open(2, 0, 16, 16)),
    Step::Make(Planned::Open(4, 0, 0, 0)),
    Step::Make(Planned::Feed(1, 0, 40)),
    Step::Make(Planned::Close(1)),
    Step::Make(Planned::Close(1)),
    Step::Make(Planned::Open(2, 0, 16, 16)),
    Step::Make(Planned::Close(1)),
    Step::Make(Planned::Feed(1, 0, 9)),
    Step::Make(Planned::Draw(1, 8, 0, 8)),
    Step::Make(Planned::Check(1, 0, 8)),
    Step::Make(Planned::Draw(3, 16, 0, 16)),
    Step::Make(Planned::Sum),
    // A ticket is fed all that it may be, and one byte more.
    Step::Begin,
    Step::Make(Planned::Open(1, 0, 16, 0)),
    Step::FeedOften(1, 90, 4096, 4095),
    Step::Make(Planned::Feed(1, 0, 1)),
    Step::FeedOften(1, 165, 4095, 1),
    Step::Make(Planned::Feed(1, 0, 0)),
    Step::Make(Planned::Feed(1, 0, 1)),
    Step::Make(Planned::Draw(1, 40, 0, 40)),
    Step::Make(Planned::Feed(1, 0, 1)),
    Step::Make(Planned::Sum),
];

// What messages, keys and tags are cut from: the bytes 0 to 31 of the outside vectors, and some others; from place 48 on the MAC of the first 32 of them under the
// first 16, from the outside vectors; from place 64 on the same with a bit changed; and from place 80 on the MAC with tags of eight bytes.
const SAMPLE: [u8; 88] = [
    0, 1, 2, 3, 4, 5, 6, 7, 8, 9, 10, 11, 12, 13, 14, 15, 16, 17, 18, 19, 20, 21, 22, 23, 24, 25,
    26, 27, 28, 29, 30, 31, 255, 254, 128, 127, 85, 170, 51, 204, 1, 2, 4, 8, 16, 32, 64, 90, 137,
    37, 35, 214, 16, 40, 121, 156, 80, 125, 22, 68, 18, 111, 3, 239, 137, 37, 35, 214, 16, 40, 121,
    156, 80, 125, 22, 68, 18, 111, 3, 238, 194, 227, 137, 147, 135, 167, 100, 101,
];

// ---- calls

// The call is made and listed.
#[tactic(auto, using(std::proofs::lemmas::List::take_min), unfolding(crate::specs::Day::call_of))]
fn make(list: &mut Listing, planned: Planned, sample: &[u8])
    ensures { Lists (spec.call_of planned sample.now ∷ []) list.old list.new }
{
    match planned {
        Planned::Open(mode, start, n, length) => {
            list.open(mode, script::part(sample, start, n), length)
        }
        Planned::Feed(ticket, start, n) => list.feed(ticket, script::part(sample, start, n)),
        Planned::Draw(ticket, n, place, count) => {
            let mut buffer = [170u8; 48];
            let end = n.min(buffer.len());
            list.draw(ticket, &mut buffer[..end], place, count)
        }
        Planned::Check(ticket, start, n) => list.check(ticket, script::part(sample, start, n)),
        Planned::Close(ticket) => list.close(ticket),
        Planned::Sum => list.sum(),
    }
}

// Turn number i of those that go through the lines: sixteen opens, the modes in turn and with several tag lengths; eighty feeds, some of no byte at all;
// ninety-six draws, some past the limits of modes 2 and 3 and some past the buffer's end; and closes, each ticket's twice.
#[tactic(auto, using(std::proofs::lemmas::Bool::Decides::nat_tests), unfolding(crate::specs::Day::turn_at))]
fn turn(i: usize) -> Planned
    ensures { result ≡ spec.turn_at i }
{
    let ticket = (i % 16 + 1) as u32;
    match i {
        0..16 if i % 6 < 2 => Planned::Open((i % 6 + 1) as u32, i, 16, (i % 9 + 8) as u32),
        0..16 => Planned::Open((i % 6 + 1) as u32, i, 0, 0),
        16..96 => Planned::Feed(ticket, i % 12, i % 37 * 5 % 37),
        96..192 => Planned::Draw(ticket, 48, i % 41, i % 23 * 7 % 23),
        _ => Planned::Close((i / 2 % 20) as u32),
    }
}

#[tactic(auto, using(script::proofs::Texts::parts, listing::proofs::Lists::lists, crate::proofs::Plans::no_turn, crate::proofs::Plans::turn_next))]
fn turns(list: &mut Listing, first: usize, end: usize, sample: &[u8])
    ensures { Lists (spec.turns_from first (end - first) sample.now) list.old list.new }
{
    // From here on the place is in the buffer, even where no turn follows.
    list.out.put_nothing();
    for i in first..end {
        make(list, turn(i), sample);
    }
}

#[tactic(auto, using(script::proofs::Texts::parts), unfolding(crate::specs::Day::often_text))]
fn put_often(out: &mut Writer, ticket: u32, bytes: &[u8], times: usize)
    ensures { Puts (spec.often_text ticket bytes.now times) out.old out.new }
{
    listing::put_call(out, b"often", ticket, bytes);
    listing::put_number(out, times as u64);
    out.put_byte(b'\n');
}

// ---- steps

fn begin(list: &mut Listing)
    ensures { Listed spec.begin_text empty_hub list.old list.new }
{
    list.out.put_bytes(b"empty\n");
    list.hub = Hub::empty();
}

// So many equal bytes are fed so many times; the answers are not listed.
fn often(list: &mut Listing, ticket: u32, byte: u8, n: usize, times: usize)
    ensures { Listed (spec.often_text ticket (spec.alike byte n) times) (call.final on_hub list.old.hub (replicate times (call.Feed ticket (spec.alike byte n)))) list.old list.new }
{
    let alike = [byte; 4096];
    let bytes = script::part(&alike, 0, n);
    put_often(list.out, ticket, bytes, times);
    list.hub = hub::feed_often(list.hub, ticket, bytes, times);
}

#[tactic(auto, unfolding(crate::specs::Day::step_after, crate::specs::Day::step_text))]
fn make_step(list: &mut Listing, step: Step, sample: &[u8])
    ensures { Listed (spec.step_text step sample.now list.old.hub) (spec.step_after step sample.now list.old.hub) list.old list.new }
{
    match step {
        Step::Begin => begin(list),
        Step::Make(planned) => make(list, planned, sample),
        Step::Turns(first, end) => turns(list, first, end, sample),
        Step::FeedOften(ticket, byte, n, times) => often(list, ticket, byte, n, times),
    }
}

// The text of a whole plan.
#[tactic(auto, using(script::proofs::Texts::parts, crate::proofs::Plans::planned_steps))]
fn put_plan(list: &mut Listing, plan: &[Step], sample: &[u8])
    ensures same { list.new.out.ghost_name ≡ list.old.out.ghost_name }
    ensures text { Puts (spec.plan_text plan.now sample.now list.old.hub) list.old.out.now list.new.out.now }
{
    // From here on the place is in the buffer, even where no step follows.
    list.out.put_nothing();
    for step in plan {
        make_step(list, *step, sample);
    }
}

// The same text from a buffer's start on, beginning with an empty hub. Answers the place behind it.
fn list_plan(plan: &[Step], sample: &[u8], text: &mut [u8]) -> usize
    ensures { Wrote text.old 0 (spec.plan_text plan.now sample.now empty_hub) text.new result }
{
    let mut out = Writer { out: text, at: 0 };
    let hub = Hub::empty();
    put_plan(&mut Listing { hub, out: &mut out }, plan, sample);
    out.at
}

// The buffer is longer than the text, which has 58,245 bytes.
fn main() {
    let mut text = [0u8; 65536];
    let length = list_plan(&DAY, &SAMPLE, &mut text);
    io::write_all(STDOUT, &text[..length]);
}
