// Reads a script from standard input and prints its answers: the loop over the interpreter, and nothing else. A read or a write that fails ends it: after a
// failed read all answers to what was read before have been written, and after a failed write nothing more is.
#![tactic(auto)]

ghost use Rattle.std.specs.Prelude.{◌≢◌, ◌≡◌, ◌≤◌, ℕ, IfOk, IsErr, length};
ghost use Rattle.interpreter.specs.Session.{begun, finished};
ghost use Rattle.rampscript.specs.Program.{Answering, Turning, Running, Ending};

use interpreter::Reader;
use std::io::Read;

// Standard output, as `io` numbers it. std's writers promise no more of a write than `io::write_all` does, and want the runtime in each function.
const STDOUT: i32 = 1;

// What ends a script before its input does. (One type for all steps: a step's promise says which of the two it has not, and `?` needs no conversion.)
#[derive(Clone, Copy, Debug, PartialEq, Eq)]
enum Failure {
    Read,
    Write,
}

fn write(text: &[u8]) -> Result<(), Failure>
    ensures { result ≢ Err Failure.Read }
{
    if io::write_all(STDOUT, text) {
        Ok(())
    } else {
        Err(Failure::Write)
    }
}

// Writes the line of names.
fn start() -> Result<(), Failure>
    ensures { result ≢ Err Failure.Read }
{
    let mut out = io::large_buffer();
    let size = interpreter::begin(&mut out);
    write(&out[..size])
}

// Answers a chunk, in as many parts as its answers need buffers. No iterator cuts it: how far each part goes, `fill` says.
fn answer(reader: &mut Reader, chunk: &[u8]) -> Result<(), Failure>
    ensures { Answering reader.old chunk.now result reader.new }
{
    let mut out = io::large_buffer();
    let mut rest = chunk;
    while !rest.is_empty() {
        let progress = reader.fill(rest, &mut out);
        rest = &rest[progress.taken..];
        write(&out[..progress.size])?;
    }
    Ok(())
}

// What a read gave: how many bytes, none at the end of the input, or that it failed.
fn count_of(got: std::io::Result<usize>) -> Result<usize, Failure>
    ensures count { (n : ℕ) → got ≡ Ok n → result ≡ Ok n }
    ensures failed { IsErr got → result ≡ Err Failure.Read }
{
    got.map_err(|_| Failure::Read)
}

// Reads what there is to read.
fn read(rt: &HostRuntime, chunk: &mut [u8]) -> Result<usize, Failure>
    ensures count { IfOk result (λ n. n ≤ length chunk.new) }
    ensures failed { result ≢ Err Failure.Write }
{
    count_of(rt.stdin().read(chunk))
}

// Reads a chunk and answers it: how many bytes it has.
fn make_turn(rt: &HostRuntime, reader: &mut Reader) -> Result<usize, Failure>
    ensures { Turning reader.old result reader.new }
{
    let mut chunk = io::large_buffer();
    let count = read(rt, &mut chunk)?;
    answer(reader, &chunk[..count])?;
    Ok(count)
}

// Makes turns until the input has ended or the script has stopped. No iterator gives them: how many there are, the input says.
fn run(rt: &HostRuntime, reader: &mut Reader) -> Result<(), Failure>
    ensures { Running reader.old result reader.new }
{
    loop {
        let count = make_turn(rt, reader)?;
        if count == 0 || !reader.session.going {
            return Ok(());
        }
    }
}

// The input has ended.
fn end(reader: &mut Reader) -> Result<(), Failure>
    ensures failed { result ≢ Err Failure.Read }
    ensures reader { reader.new ≡ (finished reader.old).reader }
{
    let mut out = io::large_buffer();
    let size = reader.finish(&mut out);
    write(&out[..size])
}

// The whole script, from its first line on. Where a write or a read fails nothing more is read or written.
fn run_script(rt: &HostRuntime, reader: &mut Reader) -> Result<(), Failure>
    requires { reader.old.session ≡ begun }
    ensures { Ending reader.old result reader.new }
{
    start()?;
    run(rt, reader)?;
    end(reader)
}

// However it ends, the exit status is 0.
fn main(rt: HostRuntime) {
    let mut reader = Reader::new();
    let _ = run_script(&rt, &mut reader);
}
