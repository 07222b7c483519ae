// The calls' lists of questions: the first that is answered 'no' refuses the call.
ghost use Rattle.std.specs.Prelude.{◌≡◌};
ghost use Rattle.questions.specs.Questions.{ask, max_units, open_questions, text_questions, unit_questions, feed_questions};
ghost use Rattle.questions.specs.Refusals.{number_in};

use crate::{MAX_BITS, MAX_UNITS, Refusal};
use rules::Mode;

// What a caller lends: an input of `bytes` bytes, of which the first `bits` bits are the text, and an output of `size`
// bytes, to be written from `place` on.
#[derive(Clone, Copy, Debug, PartialEq, Eq)]
pub struct Lent {
    pub bytes: usize,
    pub bits: usize,
    pub size: usize,
    pub place: usize,
}

// An opening's: questions 1, 2, 3 and 14.
#[tactic(auto, unfolding(crate::specs::Questions::ask, crate::specs::Questions::open_questions, crate::specs::Questions::iv_ok))]
pub fn ask_open(mode: Mode, n: usize, m: usize, key: &[u8], iv: &[u8]) -> Result<(), Refusal>
    ensures { number_in result ≡ ask (open_questions mode n m key.now iv.now) }
{
    if !aes::key_ok(key) {
        return Err(Refusal::KeyLength);
    }
    if iv.len() != crate::iv_bytes(mode) {
        return Err(Refusal::IvLength);
    }
    if !rules::unit_length_ok(mode, n) {
        return Err(Refusal::UnitLength);
    }
    if !rules::counter_length_ok(mode, m) {
        return Err(Refusal::CounterLength);
    }
    Ok(())
}

// Of a feed's text: questions 6, 7 and 8.
#[tactic(auto, unfolding(crate::specs::Questions::ask))]
fn ask_text(mode: Mode, n: usize, lent: Lent) -> Result<(), Refusal>
    ensures { number_in result ≡ ask (text_questions mode n lent.bytes lent.bits lent.size lent.place) }
{
    if !crate::bits_ok(MAX_BITS, lent.bytes, lent.bits) {
        return Err(Refusal::Bits);
    }
    if !crate::whole_units(mode, n, lent.bits) {
        return Err(Refusal::PartUnit);
    }
    if !crate::room_ok(lent.size, lent.place, crate::bytes_for(lent.bits)) {
        return Err(Refusal::Room);
    }
    Ok(())
}

// Of a feed's units: questions 9 and 15. Those that 9 lets pass are fewer than 2^64, so 2^m is needed only where it is
// less.
#[tactic(auto, unfolding(crate::specs::Questions::ask, crate::specs::Questions::units_ok, crate::specs::Questions::counters_ok))]
fn ask_units(m: usize, done: u64, new: usize) -> Result<(), Refusal>
    ensures { number_in result ≡ ask (unit_questions max_units m done new) }
{
    let left = MAX_UNITS - done;
    if new as u64 > left {
        return Err(Refusal::UnitLimit);
    }
    if m < 64 && done + new as u64 > 1 << m {
        return Err(Refusal::CounterLimit);
    }
    Ok(())
}

// A feed's: questions 4 and 5, and those of its text and its units.
#[tactic(auto, unfolding(crate::specs::Questions::ask, crate::specs::Questions::feed_questions))]
pub fn ask_feed(
    mode: Mode,
    rounds: usize,
    n: usize,
    m: usize,
    closed: bool,
    units: u64,
    lent: Lent,
) -> Result<(), Refusal>
    ensures { number_in result ≡ ask (feed_questions max_units mode rounds n m closed units lent.bytes lent.bits lent.size lent.place) }
{
    if !crate::session_ok(mode, rounds, n, m) {
        return Err(Refusal::NotOpened);
    }
    if closed {
        return Err(Refusal::Closed);
    }
    ask_text(mode, n, lent)?;
    ask_units(m, units, crate::units_in(n, lent.bits))
}
