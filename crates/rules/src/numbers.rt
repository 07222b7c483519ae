// Modes as numbers, and directions as flags: for callers that hold, read or compare them so.
ghost use Rattle.std.specs.Prelude.{◌≡◌};
ghost use Rattle.rules.specs.Numbers.{mode_number, mode_of, is_decrypt, direction_of, ReadsMode};

use crate::{Direction, Mode};
use std::error::Error;
use std::fmt;

// How many modes there are: their numbers are those below it.
pub const MODES: usize = 5;

// A number that is no mode's.
#[derive(Clone, Copy, Debug, PartialEq, Eq)]
pub struct NoMode;

impl fmt::Display for NoMode {
    fn fmt<W: fmt::Write>(&self, f: &mut fmt::Formatter<W>) -> fmt::Result {
        f.write_str("the number is no mode's")
    }
}

impl Error for NoMode {}

impl From<Mode> for usize {
    ghost from_gives = { λ mode number. number ≡ mode_number mode };

    #[tactic(auto, unfolding(crate::specs::Numbers::mode_number))]
    fn from(mode: Mode) -> usize {
        match mode {
            Mode::Ecb => 0,
            Mode::Cbc => 1,
            Mode::Cfb => 2,
            Mode::Ofb => 3,
            Mode::Ctr => 4,
        }
    }
}

impl TryFrom<usize> for Mode {
    type Error = NoMode;

    ghost try_from_gives = { ReadsMode };

    #[tactic(auto, unfolding(crate::specs::Numbers::mode_of))]
    fn try_from(number: usize) -> Result<Mode, NoMode> {
        match number {
            0 => Ok(Mode::Ecb),
            1 => Ok(Mode::Cbc),
            2 => Ok(Mode::Cfb),
            3 => Ok(Mode::Ofb),
            4 => Ok(Mode::Ctr),
            _ => Err(NoMode),
        }
    }
}

// The mode of a number below `MODES`. Of any other number it gives CTR.
#[tactic(auto, unfolding(crate::specs::Numbers::mode_of))]
pub fn mode_of(number: usize) -> Mode
    ensures { result ≡ mode_of number }
{
    Mode::try_from(number).unwrap_or(Mode::Ctr)
}

#[tactic(auto, unfolding(crate::specs::Numbers::is_decrypt))]
pub fn decrypts(direction: Direction) -> bool
    ensures { result ≡ is_decrypt direction }
{
    direction == Direction::Decrypt
}

// No `From<bool>`, which would not say which of the two `true` is.
#[tactic(auto, unfolding(crate::specs::Numbers::direction_of))]
pub fn direction_of(decrypting: bool) -> Direction
    ensures { result ≡ direction_of decrypting }
{
    if decrypting {
        Direction::Decrypt
    } else {
        Direction::Encrypt
    }
}
