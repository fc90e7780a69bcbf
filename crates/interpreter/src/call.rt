// A call on the hub as a line says it, and what is printed of its answer.
ghost use Rattle.std.specs.Prelude.{◌≡◌, IsTrue, length};
ghost use Rattle.calls.specs.Answer.{answer_of, of_open, of_count};
ghost use Rattle.hub.specs.Hub.{on_hub};
ghost use Rattle.script.specs.Writing.{Puts};
ghost use Rattle.script.specs.Parsed.{line_with};
ghost use Rattle.interpreter.specs.Promises.{Replying, of_verb, bytes_after};
ghost use Rattle.interpreter.specs.Script as spec;

use calls::{Accepted, Answer};
use hub::{Hub, Reply};
use script::{Verb, Word, Writer};

// Draws as many bytes as the buffer has, which is lent as zeros.
#[tactic(auto, unfolding(hub::specs::Hub::on_hub))]
fn draw(before: Hub, ticket: u32, buffer: &mut [u8]) -> Reply
    ensures reply { Replying (on_hub (spec.draw_of ticket (length buffer.old)) before) result }
    ensures kind { IsTrue (of_count result.answer) }
    ensures buffer { buffer.new ≡ (on_hub (spec.draw_of ticket (length buffer.old)) before).response.buffer }
{
    let count = buffer.len();
    buffer.fill(0);
    hub::draw(before, ticket, buffer, 0, count)
}

// Opens. In mode 2 the last byte is the tag length, and those before it are the key.
#[tactic(auto, using(crate::proofs::Calling::opening), unfolding(hub::specs::Hub::on_hub))]
fn open(before: Hub, mode: u32, bytes: &[u8]) -> Reply
    ensures reply { Replying (on_hub (spec.open_of mode bytes.now) before) result }
    ensures kind { IsTrue (of_open result.answer) }
{
    match bytes {
        [key @ .., last] if mode == Hub::TAG_MODE => hub::open(before, mode, key, u32::from(*last)),
        _ => hub::open(before, mode, bytes, 0),
    }
}

// Makes the call. The bytes are the line's; for a draw they are as many as it draws, and then those drawn.
#[tactic(auto, using(crate::proofs::Calling::all_bytes), unfolding(hub::specs::Hub::on_hub, crate::specs::Script::call_of))]
pub(crate) fn call(before: Hub, verb: Verb, number: u32, bytes: &mut [u8]) -> Reply
    ensures reply { Replying (on_hub (spec.call_of (line_with verb number (length bytes.old) bytes.old)) before) result }
    ensures kind { IsTrue (of_verb verb result.answer) }
    ensures bytes { bytes.new ≡ bytes_after verb bytes.old (on_hub (spec.call_of (line_with verb number (length bytes.old) bytes.old)) before).response.buffer }
{
    match verb {
        Verb::Open => open(before, number, bytes),
        Verb::Feed => hub::feed(before, number, bytes),
        Verb::Draw => draw(before, number, bytes),
        Verb::Check => hub::check(before, number, bytes),
        Verb::Close => hub::close(before, number),
        Verb::Sum => hub::sum(before),
    }
}

// What a line shows of its bytes: those that it drew.
fn bytes_for(verb: Verb, bytes: &[u8]) -> &[u8]
    ensures { result.now ≡ spec.accepted_bytes verb bytes.now }
{
    match verb {
        Verb::Draw => bytes,
        _ => b"",
    }
}

// Writes the line of a verb's answer: of a refused call `no` and the refusal's number.
#[tactic(auto, unfolding(crate::specs::Script::answered, crate::specs::Script::word_for, crate::specs::Script::number_for, crate::specs::Script::bytes_for))]
pub(crate) fn write_line(verb: Verb, answer: Answer, bytes: &[u8], out: &mut Writer)
    requires { IsTrue (of_verb verb answer) }
    ensures { Puts (spec.answered verb (answer_of answer) bytes.now) out.old out.new }
{
    match answer {
        Ok(Accepted::Opened { ticket, .. }) => out.put_answer(Word::Ok, u64::from(ticket), b""),
        Ok(Accepted::Counted(runs)) => out.put_answer(Word::Ok, runs, bytes_for(verb, bytes)),
        Ok(Accepted::Judged { passed: true, runs }) => out.put_answer(Word::Pass, runs, b""),
        Ok(Accepted::Judged { runs, .. }) => out.put_answer(Word::Fail, runs, b""),
        Ok(Accepted::Summed(sum)) => out.put_answer(Word::Ok, sum, b""),
        Err(refusal) => out.put_answer(Word::No, u64::from(refusal.number()), b""),
    }
}
