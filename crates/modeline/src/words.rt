// What was wrong with a text that is refused, in words on standard error, with the line.
use questions::Refusal;
use reasons::Reason;
use std::fmt::Display;
use std::io;
use std::io::{Stderr, Write};

fn say(mut to: Stderr, line: u8, words: impl Display + Drop) -> io::Result<()> {
    writeln!(to, "modeline: line {line}: {words}")
}

// The reason for a 12.
pub fn say_reason(to: Stderr, reason: Option<Reason>) -> io::Result<()> {
    match reason {
        Some(Reason { line, fault }) => say(to, line, fault),
        None => Ok(()),
    }
}

// The other refusals, by the line that is printed for them.
pub fn say_number(to: Stderr, answer: &[u8]) -> io::Result<()> {
    match answer {
        b"1\n" => say(to, 2, Refusal::KeyLength),
        b"2\n" => say(to, 3, Refusal::IvLength),
        b"3\n" => say(to, 1, Refusal::UnitLength),
        b"7\n" => say(to, 4, Refusal::PartUnit),
        _ => Ok(()),
    }
}
