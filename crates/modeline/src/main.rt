// Document 01, "The text program": reads standard input, writes the answer, and for a refusal the reason on standard
// error.
#![tactic(auto)]

mod words;

ghost use Rattle.std.specs.Prelude.{◌≡◌, ◌+◌, ◌≤◌, length, take};

use lines::{MAX_INPUT, MAX_OUTPUT};
use std::io;
use std::io::{Read, Stderr, Stdin, Stdout, Write};

// One read, after the `done` bytes that are there: how many it gave, 0 at the input's end, which a read that fails is
// taken for.
fn read_on(mut from: Stdin, input: &mut [u8], done: usize) -> usize
    requires { done ≤ length input.old }
    ensures { done + result ≤ length input.new }
{
    from.read(&mut input[done..]).unwrap_or(0)
}

// Reads until the bytes that are there decide the answer (`EndDecides` of `lines`), the input ends or `input` is full.
fn read_text(from: Stdin, input: &mut [u8]) -> usize
    ensures within { result ≤ length input.new }
    ensures whole { result ≡ length (take result input.new) }
{
    // A turn adds as many bytes as one read gives, so no `for` can count the turns.
    let mut done = 0;
    while done < input.len() {
        let more = read_on(from, input, done);
        if more == 0 {
            return done;
        }
        done += more;
        if grammar::reading_ends(&input[..done]) {
            return done;
        }
    }
    done
}

// The answer, and why it is a refusal.
fn print(mut to: Stdout, errors: Stderr, input: &[u8], line: &[u8]) -> io::Result<()> {
    to.write_all(line)?;
    // Where standard error takes no words, the answer stands.
    words::say_reason(errors, reasons::reason(input)).ok();
    words::say_number(errors, line).ok();
    Ok(())
}

fn main(rt: HostRuntime) -> io::Result<()> {
    // A byte more than the longest text of the form: these bytes decide the answer (`FrontDecides` of `lines`).
    let mut input = [0u8; MAX_INPUT + 1];
    let n = read_text(rt.stdin(), &mut input);
    let mut out = [0u8; MAX_OUTPUT];
    let r = lines::answer(&input[..n], &mut out);
    print(rt.stdout(), rt.stderr(), &input[..n], &out[..r])
}
