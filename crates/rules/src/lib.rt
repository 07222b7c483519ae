// The modes' vocabulary. What each mode does to a unit stands in specs/, over any two block functions.
#![tactic(auto)]

mod numbers;

ghost use Rattle.std.specs.Prelude.{◌≡◌, ◌&&◌, leb, eqb};
ghost use Rattle.rules.specs.Lengths.{unit_length_ok, counter_length_ok};

pub use numbers::{MODES, NoMode, decrypts, direction_of, mode_of};
use std::fmt;

#[derive(Clone, Copy, Debug, PartialEq, Eq)]
pub enum Mode {
    Ecb,
    Cbc,
    Cfb,
    Ofb,
    Ctr,
}

#[derive(Clone, Copy, Debug, PartialEq, Eq)]
pub enum Direction {
    Encrypt,
    Decrypt,
}

impl fmt::Display for Mode {
    fn fmt<W: fmt::Write>(&self, f: &mut fmt::Formatter<W>) -> fmt::Result {
        f.write_str(match self {
            Mode::Ecb => "ECB",
            Mode::Cbc => "CBC",
            Mode::Cfb => "CFB",
            Mode::Ofb => "OFB",
            Mode::Ctr => "CTR",
        })
    }
}

impl fmt::Display for Direction {
    fn fmt<W: fmt::Write>(&self, f: &mut fmt::Formatter<W>) -> fmt::Result {
        f.write_str(match self {
            Direction::Encrypt => "E",
            Direction::Decrypt => "D",
        })
    }
}

// From 1 to 128 in the mode that may choose the length, and 128 elsewhere.
fn length_ok(own: Mode, mode: Mode, bits: usize) -> bool
    ensures own { mode ≡ own → result ≡ (leb 1 bits && leb bits 128) }
    ensures elsewhere { (mode ≡ own → ⊥) → result ≡ eqb bits 128 }
{
    if mode == own {
        1 <= bits && bits <= 128
    } else {
        bits == 128
    }
}

// Question 3: is n from 1 to 128 in CFB, and 128 elsewhere?
#[tactic(auto, unfolding(crate::specs::Lengths::unit_length_ok))]
pub fn unit_length_ok(mode: Mode, n: usize) -> bool
    ensures { result ≡ unit_length_ok mode n }
{
    length_ok(Mode::Cfb, mode, n)
}

// Question 14: is m from 1 to 128 in CTR, and 128 elsewhere?
#[tactic(auto, unfolding(crate::specs::Lengths::counter_length_ok))]
pub fn counter_length_ok(mode: Mode, m: usize) -> bool
    ensures { result ≡ counter_length_ok mode m }
{
    length_ok(Mode::Ctr, mode, m)
}
