// Whole messages, in either direction.
ghost use Rattle.std.specs.Prelude.{◌≡◌, ◌++◌, drop};
ghost use Rattle.bits.specs.Texts.{bytes_for, pack};
ghost use Rattle.cipher.specs.Cipher.{Enc, Dec};
ghost use Rattle.questions.specs.Questions.{ask};
ghost use Rattle.questions.specs.Refusals.{number_in};
ghost use Rattle.modes.specs.Sessions.{fed_text};
ghost use Rattle.stolen.specs.Stealing.{stolen_text};
ghost use Rattle.stealing.specs.Inner.Messages.{Begins};
ghost use Rattle.stealing.specs.Calls.{message_ok, message_questions, StolenBy};

use modes::Session;
use questions::{BLOCK_BITS, Lent, Refusal};
use rules::{Direction, Mode};

// Question 13.
#[tactic(auto, unfolding(crate::specs::Calls::message_ok))]
fn message_ok(bits: usize) -> bool
    ensures { result ≡ message_ok bits }
{
    bits.is_multiple_of(8) && bits > BLOCK_BITS
}

// Questions 6, 13 and 8.
#[tactic(auto, unfolding(crate::specs::Calls::message_questions, questions::specs::Questions::ask))]
fn ask_message(lent: Lent) -> Result<(), Refusal>
    ensures { number_in result ≡ ask (message_questions lent.bytes lent.bits lent.size lent.place) }
{
    if !questions::bits_ok(Session::MAX_BITS, lent.bytes, lent.bits) {
        return Err(Refusal::Bits);
    }
    if !message_ok(lent.bits) {
        return Err(Refusal::MessageLength);
    }
    if !questions::room_ok(lent.size, lent.place, questions::bytes_for(lent.bits)) {
        return Err(Refusal::Room);
    }
    Ok(())
}

// The blocks before the last two are plain CBC, and the session's register is then what the last two begin with.
fn put_message(session: Session, input: &[u8], bits: usize, out: &mut [u8])
    requires { Begins session input.now bits out.old }
    ensures { out.new ≡ pack (stolen_text (Enc session.rounds session.keys) (Dec session.rounds session.keys) session.direction session.register (fed_text input.now bits)) ++ drop (bytes_for bits) out.old }
{
    let full = (bits - 1) / BLOCK_BITS;
    let front = (full - 1) * BLOCK_BITS;
    let size = bits - full * BLOCK_BITS;
    let fed = session.feed(input, front, out, 0);
    let last = ending::finish(fed.session, &input[front / 8..], size);
    bits::put_bits(out, front, last.block, BLOCK_BITS);
    bits::put_bits(out, front + BLOCK_BITS, last.end, size);
}

// Encrypts or decrypts the first `bits` bits of `input`, and writes as many from out[place] on. Questions 1 and 2 are
// those of a CBC opening, which never answers 3 or 14 here.
#[tactic(auto, unfolding(crate::specs::Calls::steal_number, crate::specs::Calls::steal_questions, questions::specs::Questions::ask, questions::specs::Questions::open_questions, rules::specs::Lengths::unit_length_ok, rules::specs::Lengths::counter_length_ok))]
pub fn process(
    direction: Direction,
    key: &[u8],
    iv: &[u8],
    input: &[u8],
    bits: usize,
    out: &mut [u8],
    place: usize,
) -> Result<(), Refusal>
    ensures { StolenBy direction key.now iv.now input.now bits out.old place (number_in result) out.new }
{
    questions::ask_open(Mode::Cbc, BLOCK_BITS, BLOCK_BITS, key, iv)?;
    ask_message(Lent {
        bytes: input.len(),
        bits,
        size: out.len(),
        place,
    })?;
    let session = Session::open(Mode::Cbc, direction, BLOCK_BITS, key, iv).session;
    put_message(session, input, bits, &mut out[place..]);
    Ok(())
}
