// Lists of calls on a hub, as `day` and `mainloop` print them: each call is made, and its line put into a lent buffer.
#![tactic(auto)]

ghost use Rattle.std.specs.Prelude.{◌≡◌, [], ◌∷◌, ◌++◌};
ghost use Rattle.calls.specs.Answer.{answer_of, Answer as spec_answer};
ghost use Rattle.calls.specs.Call as call;
ghost use Rattle.hub.specs.Hub.{draw_hub};
ghost use Rattle.script.specs.Writing.{Puts};
ghost use Rattle.listing.specs.Listing as spec;

use calls::{Accepted, Answer};
use hub::{Hub, Reply};
use script::Writer;

// ---- a line

#[tactic(auto, using(script::proofs::Texts::parts), unfolding(crate::specs::Listing::number_field))]
pub fn put_number(out: &mut Writer, n: u64)
    ensures { Puts (spec.number_field n) out.old out.new }
{
    out.put_byte(b' ');
    out.put_decimal(n);
}

#[tactic(auto, using(script::proofs::Texts::parts), unfolding(crate::specs::Listing::bytes_field))]
fn put_hex_field(out: &mut Writer, bytes: &[u8])
    ensures { Puts (spec.bytes_field bytes.now) out.old out.new }
{
    out.put_byte(b' ');
    out.put_field(bytes);
}

#[tactic(auto, using(script::proofs::Texts::parts), unfolding(crate::specs::Listing::numbered))]
fn put_numbered(out: &mut Writer, name: &[u8], n: u64)
    ensures { Puts (spec.numbered name.now n) out.old out.new }
{
    out.put_bytes(name);
    put_number(out, n);
}

// The fields that are listed of an answer: document 01's five, as numbers and a verdict, since they are only printed.
#[derive(Clone, Copy, Default)]
pub struct Fields {
    pub refusal: u32,
    pub ticket: u32,
    pub runs: u64,
    pub passed: bool,
    pub sum: u64,
}

// What a line lists as an answer: that of a call, or five fields of any values.
pub trait AnswerFields {
    ghost told: { Self → spec_answer };

    fn fields(self) -> Fields
        ensures { spec.answer_with result ≡ told self };
}

impl AnswerFields for Fields {
    ghost told = { spec.answer_with };

    fn fields(self) -> Fields {
        self
    }
}

// Those that the answer does not have are 0.
impl AnswerFields for Answer {
    ghost told = { answer_of };

    fn fields(self) -> Fields {
        let none = Fields::default();
        match self {
            Ok(Accepted::Opened { ticket, runs }) => Fields {
                ticket,
                runs,
                ..none
            },
            Ok(Accepted::Counted(runs)) => Fields { runs, ..none },
            Ok(Accepted::Judged { passed, runs }) => Fields {
                runs,
                passed,
                ..none
            },
            Ok(Accepted::Summed(sum)) => Fields { sum, ..none },
            Err(refusal) => Fields {
                refusal: refusal.number(),
                ..none
            },
        }
    }
}

#[tactic(auto, using(script::proofs::Texts::parts), unfolding(crate::specs::Listing::answer_text))]
fn put_fields(out: &mut Writer, fields: Fields)
    ensures { Puts (spec.answer_text (spec.answer_with fields)) out.old out.new }
{
    put_numbered(out, b" refusal", u64::from(fields.refusal));
    put_numbered(out, b" ticket", u64::from(fields.ticket));
    put_numbered(out, b" runs", fields.runs);
    put_numbered(out, b" passed", u64::from(fields.passed));
    put_numbered(out, b" sum", fields.sum);
}

// The answer, the buffer as the call leaves it, and the line's end.
#[tactic(auto, using(script::proofs::Texts::parts), unfolding(crate::specs::Listing::response_text))]
fn put_response(out: &mut Writer, fields: Fields, buffer: &[u8])
    ensures { Puts (spec.response_text (record { answer = spec.answer_with fields; buffer = buffer.now })) out.old out.new }
{
    out.put_bytes(b" =");
    put_fields(out, fields);
    put_hex_field(out, buffer);
    out.put_byte(b'\n');
}

// The name of a call, its number and its bytes.
#[tactic(auto, using(script::proofs::Texts::parts), unfolding(crate::specs::Listing::three_fields))]
pub fn put_call(out: &mut Writer, name: &[u8], number: u32, bytes: &[u8])
    ensures { Puts (spec.three_fields name.now number bytes.now) out.old out.new }
{
    put_numbered(out, name, u64::from(number));
    put_hex_field(out, bytes);
}

// The line of a call to which no buffer is lent.
#[tactic(auto, using(script::proofs::Texts::parts))]
pub fn put_line<A: AnswerFields>(
    out: &mut Writer,
    name: &[u8],
    number: u32,
    bytes: &[u8],
    answer: A,
)
    ensures { Puts (spec.three_fields name.now number bytes.now ++ spec.response_text (record { answer = A.told answer; buffer = [] })) out.old out.new }
{
    put_call(out, name, number, bytes);
    put_response(out, answer.fields(), b"");
}

// ---- the calls

// A hub, and the list of the calls that are made on it. The hub goes from call to call by value.
// The writer is lent: of a writer that stood here by value, whoever lent it its buffer would not learn what the buffer is left with.
#[derive(Drop)]
pub struct Listing<'a, 'b> {
    pub hub: Hub,
    pub out: &'a mut Writer<'b>,
}

// There is a method for each call, with the name and the arguments of the hub's function: a value that named the call would bring its bytes and its lent buffer
// with it. What the methods share is in `put_call` and `took`; what is left of a call is its name and the call itself.
impl Listing<'_, '_> {
    // The rest of a call's line: what the call gave.
    fn took(&mut self, reply: Reply, buffer: &[u8])
        ensures { spec.Listed (spec.response_text (record { answer = answer_of reply.answer; buffer = buffer.now })) reply.hub self.old self.new }
    {
        put_response(self.out, reply.answer.fields(), buffer);
        self.hub = reply.hub;
    }

    #[tactic(auto, using(script::proofs::Texts::parts, crate::proofs::Lists::calls), unfolding(hub::specs::Hub::on_hub, crate::specs::Listing::call_text))]
    pub fn open(&mut self, mode: u32, key: &[u8], length: u32)
        ensures { spec.Lists (call.Open mode key.now length ∷ []) self.old self.new }
    {
        put_call(self.out, b"open", mode, key);
        put_number(self.out, u64::from(length));
        self.took(hub::open(self.hub, mode, key, length), b"");
    }

    #[tactic(auto, using(script::proofs::Texts::parts, crate::proofs::Lists::calls), unfolding(hub::specs::Hub::on_hub, crate::specs::Listing::call_text))]
    pub fn feed(&mut self, ticket: u32, bytes: &[u8])
        ensures { spec.Lists (call.Feed ticket bytes.now ∷ []) self.old self.new }
    {
        put_call(self.out, b"feed", ticket, bytes);
        self.took(hub::feed(self.hub, ticket, bytes), b"");
    }

    // The buffer is listed as it is lent, and as the draw leaves it.
    #[tactic(auto, using(script::proofs::Texts::parts, crate::proofs::Lists::calls), unfolding(hub::specs::Hub::on_hub, crate::specs::Listing::call_text))]
    pub fn draw(&mut self, ticket: u32, buffer: &mut [u8], place: usize, count: usize)
        ensures lists { spec.Lists (call.Draw ticket buffer.old place count ∷ []) self.old self.new }
        ensures written { buffer.new ≡ (draw_hub ticket buffer.old place count self.old.hub).response.buffer }
    {
        put_call(self.out, b"draw", ticket, buffer);
        put_number(self.out, place as u64);
        put_number(self.out, count as u64);
        let reply = hub::draw(self.hub, ticket, buffer, place, count);
        self.took(reply, buffer);
    }

    #[tactic(auto, using(script::proofs::Texts::parts, crate::proofs::Lists::calls), unfolding(hub::specs::Hub::on_hub, crate::specs::Listing::call_text))]
    pub fn check(&mut self, ticket: u32, tag: &[u8])
        ensures { spec.Lists (call.Check ticket tag.now ∷ []) self.old self.new }
    {
        put_call(self.out, b"check", ticket, tag);
        self.took(hub::check(self.hub, ticket, tag), b"");
    }

    #[tactic(auto, using(script::proofs::Texts::parts, crate::proofs::Lists::calls), unfolding(hub::specs::Hub::on_hub, crate::specs::Listing::call_text))]
    pub fn close(&mut self, ticket: u32)
        ensures { spec.Lists (call.Close ticket ∷ []) self.old self.new }
    {
        put_call(self.out, b"close", ticket, b"");
        self.took(hub::close(self.hub, ticket), b"");
    }

    #[tactic(auto, using(script::proofs::Texts::parts, crate::proofs::Lists::calls), unfolding(hub::specs::Hub::on_hub, crate::specs::Listing::call_text))]
    pub fn sum(&mut self)
        ensures { spec.Lists (call.Sum ∷ []) self.old self.new }
    {
        put_call(self.out, b"sum", 0, b"");
        self.took(hub::sum(self.hub), b"");
    }
}
