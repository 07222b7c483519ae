// The first line: mode, n and direction, separated by one space.
ghost use Rattle.std.specs.Prelude.{◌≡◌};
ghost use Rattle.header.specs.Header.{first_of};

use crate::words::{direction_word, mode_word, number};
use digits::cut;
use rules::{Direction, Mode};

#[derive(Clone, Copy, PartialEq, Eq, Debug)]
pub struct Header {
    pub mode: Mode,
    pub n: usize,
    pub direction: Direction,
}

// The line is handed over without its line feed.
#[tactic(auto, unfolding(crate::specs::Header::first_of, crate::specs::Header::behind_mode))]
pub fn first_line(line: &[u8]) -> Option<Header>
    ensures { result ≡ first_of line.now }
{
    let (mode, words) = cut(line, b' ')?;
    let mode = mode_word(mode)?;
    let (n, direction) = cut(words, b' ')?;
    Some(Header {
        mode,
        n: number(n)?,
        direction: direction_word(direction)?,
    })
}
