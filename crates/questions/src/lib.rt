// Document 01, "Questions before work": each function here answers one question; `numbers` has the calls' lists.
#![tactic(auto)]

mod numbers;
mod refusal;

ghost use Rattle.std.specs.Prelude.{◌≡◌};
ghost use Rattle.bits.specs.Texts.{bytes_for};
ghost use Rattle.rules.specs.Lengths.{whole_units};
ghost use Rattle.rules.specs.Rules.{units_in};
ghost use Rattle.questions.specs.Questions.{iv_bytes, session_ok, bits_ok, room_ok};

pub use numbers::{Lent, ask_feed, ask_open};
pub use refusal::{Refusal, number};
use rules::Mode;

// The block, in bytes.
pub const BLOCK: usize = 16;

// The same in bits.
pub const BLOCK_BITS: usize = 8 * BLOCK;

// The largest feed, in bits.
pub const MAX_BITS: usize = 524288;

// The most units that a session does.
pub const MAX_UNITS: u64 = u64::MAX;

// The IV's length, of question 2.
#[tactic(auto, unfolding(crate::specs::Questions::iv_bytes))]
fn iv_bytes(mode: Mode) -> usize
    ensures { result ≡ iv_bytes mode }
{
    match mode {
        Mode::Ecb => 0,
        Mode::Cbc | Mode::Cfb | Mode::Ofb | Mode::Ctr => BLOCK,
    }
}

// Question 4.
#[tactic(auto, unfolding(crate::specs::Questions::session_ok))]
fn session_ok(mode: Mode, rounds: usize, n: usize, m: usize) -> bool
    ensures { result ≡ session_ok mode rounds n m }
{
    cipher::rounds_ok(rounds) && rules::unit_length_ok(mode, n) && rules::counter_length_ok(mode, m)
}

// Question 6. The bits are there where their whole bytes are, and one byte more for spare bits.
#[tactic(auto, unfolding(crate::specs::Questions::bits_ok, bits::specs::Texts::bytes_for))]
pub fn bits_ok(limit: usize, bytes: usize, bits: usize) -> bool
    ensures { result ≡ bits_ok limit bytes bits }
{
    bytes_for(bits) <= bytes && bits <= limit
}

// Question 7.
#[tactic(auto, unfolding(rules::specs::Lengths::whole_units))]
pub fn whole_units(mode: Mode, n: usize, bits: usize) -> bool
    ensures { result ≡ whole_units mode n bits }
{
    match mode {
        Mode::Ecb | Mode::Cbc | Mode::Cfb => bits.is_multiple_of(n),
        Mode::Ofb | Mode::Ctr => true,
    }
}

// Question 8.
#[tactic(auto, unfolding(crate::specs::Questions::room_ok))]
pub fn room_ok(size: usize, place: usize, bytes: usize) -> bool
    ensures { result ≡ room_ok size place bytes }
{
    place <= size && bytes <= size - place
}

// How many units this many bits have, a short last one included.
#[tactic(auto, unfolding(rules::specs::Rules::units_in))]
pub fn units_in(n: usize, bits: usize) -> usize
    ensures { result ≡ units_in n bits }
{
    if n == 0 { 0 } else { bits.div_ceil(n) }
}

// How many bytes this many bits need, rounded up.
#[tactic(auto, unfolding(bits::specs::Texts::bytes_for))]
pub fn bytes_for(bits: usize) -> usize
    ensures { result ≡ bytes_for bits }
{
    bits.div_ceil(8)
}
