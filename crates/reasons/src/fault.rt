// What is wrong with a line.
ghost use Rattle.std.specs.Prelude.{◌<◌, length};

use std::fmt;
use std::fmt::Display;

#[derive(Clone, Copy, PartialEq, Eq, Debug)]
pub enum Fault {
    NoLineFeed,
    CarriageReturn,
    Mode,
    Segment,
    Direction,
    Spaces,
    UpperCase,
    NoDigit,
    OddCount,
    TooLong,
    MoreLines,
}

impl Fault {
    fn words(self) -> &'static str
        ensures { 0 < length result.now }
    {
        match self {
            Fault::NoLineFeed => "no line feed ends it",
            Fault::CarriageReturn => "a carriage return: a line feed alone ends a line",
            Fault::Mode => "the mode is not ECB, CBC, CFB, OFB or CTR",
            Fault::Segment => "n is not one to three decimal digits",
            Fault::Direction => "the direction is not E or D",
            Fault::Spaces => "it is not a mode, n and a direction with one space between them",
            Fault::UpperCase => "an upper-case digit: digits are 0 to 9 and a to f",
            Fault::NoDigit => "a byte that is no hexadecimal digit",
            Fault::OddCount => "an odd number of digits",
            Fault::TooLong => "too many digits: key and IV have at most 128, the data 8192",
            Fault::MoreLines => "nothing may follow the fourth line",
        }
    }
}

// For a person to read.
impl Display for Fault {
    fn fmt<W: fmt::Write>(&self, f: &mut fmt::Formatter<W>) -> fmt::Result {
        f.write_str(self.words())
    }
}

// The line, counted from 1, and what is wrong there. Line 5 is what follows the fourth.
#[derive(Clone, Copy, PartialEq, Eq, Debug)]
pub struct Reason {
    pub line: u8,
    pub fault: Fault,
}
