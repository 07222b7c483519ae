// Document 01: "a line that isn't of this form ends the program's reading".
ghost use Rattle.std.specs.Prelude.{◌≡◌};
ghost use Rattle.grammar.specs.Reading.{reading_ends};
ghost use Rattle.grammar.specs.Answers.{form_of};

use crate::form::{MAX_DATA_DIGITS, MAX_KEY_DIGITS};
use digits::{cut, digits_fit};
use header::first_line;

// The form of a line; of a line of digits the most that it has.
#[derive(Clone, Copy, PartialEq, Eq, Debug)]
enum Line {
    First,
    Digits(usize),
}

// The first line, the key, the IV and the data.
const LINES: [Line; 4] = [
    Line::First,
    Line::Digits(MAX_KEY_DIGITS),
    Line::Digits(MAX_KEY_DIGITS),
    Line::Digits(MAX_DATA_DIGITS),
];

impl Line {
    // The most bytes that it has, without its line feed.
    fn most(self) -> usize
        ensures { result ≡ (form_of self).most }
    {
        match self {
            Line::First => 9,
            Line::Digits(limit) => limit,
        }
    }

    // Is the text, without its line feed, of the form?
    fn good(self, text: &[u8]) -> bool
        ensures { result ≡ (form_of self).good text.now }
    {
        match self {
            Line::First => first_line(text).is_some(),
            Line::Digits(limit) => digits_fit(text, limit),
        }
    }
}

// Has a line ended the reading? Then no text that begins this way is of the form, whatever follows.
pub fn reading_ends(front: &[u8]) -> bool
    ensures { result ≡ reading_ends front.now }
{
    let mut rest = front;
    for line in LINES {
        let Some((text, behind)) = cut(rest, b'\n') else {
            return line.most() < rest.len();
        };
        if !line.good(text) {
            return true;
        }
        rest = behind;
    }
    !rest.is_empty()
}
