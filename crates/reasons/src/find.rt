// The first fault of a text, line by line.
ghost use Rattle.std.specs.Prelude.{◌≡◌, ◌≤◌, IfErr};

use crate::fault::{Fault, Reason};
use digits::cut;
use grammar::{MAX_DATA_DIGITS, MAX_KEY_DIGITS};
use header::{direction_word, mode_word};

// What stands before the first `stop`, or all, and what follows it where it is there.
fn split(s: &[u8], stop: u8) -> (&[u8], Option<&[u8]>) {
    match cut(s, stop) {
        Some((before, behind)) => (before, Some(behind)),
        None => (s, None),
    }
}

// The word for n: one to three decimal digits.
fn segment(word: &[u8]) -> Result<(), Fault> {
    if word.is_empty() {
        return Err(Fault::Spaces);
    }
    if word.len() > 3 || !word.iter().all(|b| b.is_ascii_digit()) {
        return Err(Fault::Segment);
    }
    Ok(())
}

// The first line, without its line feed.
fn words(line: &[u8]) -> Result<(), Fault> {
    if line.contains(&b'\r') {
        return Err(Fault::CarriageReturn);
    }
    let (mode, words) = split(line, b' ');
    mode_word(mode).ok_or(Fault::Mode)?;
    let (n, direction) = split(words.ok_or(Fault::Spaces)?, b' ');
    segment(n)?;
    direction_word(direction.ok_or(Fault::Spaces)?).ok_or(Fault::Direction)?;
    Ok(())
}

fn digit(b: u8) -> Result<(), Fault> {
    match b {
        b'0'..=b'9' | b'a'..=b'f' => Ok(()),
        b'A'..=b'F' => Err(Fault::UpperCase),
        b'\r' => Err(Fault::CarriageReturn),
        _ => Err(Fault::NoDigit),
    }
}

// A line of digits, without its line feed.
fn digits(line: &[u8], limit: usize) -> Result<(), Fault> {
    for b in line {
        digit(*b)?;
    }
    if limit < line.len() {
        return Err(Fault::TooLong);
    }
    if line.len() % 2 == 1 {
        return Err(Fault::OddCount);
    }
    Ok(())
}

// The line that a text begins with, counted from 1, and what follows it. A fault inside the line counts before a
// missing line feed at its end.
fn line<F: Fn(&[u8]) -> Result<(), Fault>>(
    number: u8,
    text: &[u8],
    form: F,
) -> Result<&[u8], Reason>
    requires { F.IsAlwaysCallable form }
    ensures { IfErr result (λ reason. reason.line ≡ number) }
{
    let (line, rest) = split(text, b'\n');
    form(line).map_err(|fault| Reason {
        line: number,
        fault,
    })?;
    rest.ok_or(Reason {
        line: number,
        fault: Fault::NoLineFeed,
    })
}

// The four lines, and what follows them.
pub fn lines(input: &[u8]) -> Result<&[u8], Reason>
    ensures { IfErr result (λ reason. (1 ≤ reason.line) × (reason.line ≤ 5)) }
{
    let rest = line(1, input, words)?;
    let rest = line(2, rest, |key| digits(key, MAX_KEY_DIGITS))?;
    let rest = line(3, rest, |iv| digits(iv, MAX_KEY_DIGITS))?;
    line(4, rest, |data| digits(data, MAX_DATA_DIGITS))
}
