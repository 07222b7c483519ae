// Pad: one 1 bit after the text, then the fewest 0 bits that reach a multiple of 128.
ghost use Rattle.std.specs.Prelude.{◌≡◌, ◌++◌, ◌∷◌, true, false, ◌*◌, ◌-◌, ◌≤◌, ◌<◌, length, take, drop, replicate};
ghost use Rattle.bits.specs.Texts.{byte_bits, byte_of, bytes_for, pack};
ghost use Rattle.modes.specs.Sessions.{fed_text};
ghost use Rattle.questions.specs.Refusals.{number_in};
ghost use Rattle.padding.specs.Padding.{padded, padded_length, max_pad_bits, pad_number, answered, PaddedBy};

use modes::Session;
use questions::{BLOCK_BITS, Lent, Refusal};

#[tactic(auto, unfolding(crate::specs::Padding::padded_length, crate::specs::Padding::zeros_for))]
fn padded_bits(bits: usize) -> usize
    requires { bits ≤ max_pad_bits }
    ensures { result ≡ padded_length bits }
{
    (bits + 1).next_multiple_of(BLOCK_BITS)
}

// Questions 6 and 8.
#[tactic(auto, using(questions::proofs::QuestionLaws::bits_small), unfolding(crate::specs::Padding::pad_number, crate::specs::Padding::pad_questions, questions::specs::Questions::ask))]
fn ask_pad(lent: Lent) -> Result<(), Refusal>
    ensures { number_in result ≡ pad_number lent.bytes lent.bits lent.size lent.place }
{
    if !questions::bits_ok(Session::MAX_BITS - 1, lent.bytes, lent.bits) {
        return Err(Refusal::Bits);
    }
    if !questions::room_ok(
        lent.size,
        lent.place,
        questions::bytes_for(padded_bits(lent.bits)),
    ) {
        return Err(Refusal::Room);
    }
    Ok(())
}

// The text's bytes, then from its last bit on a 1 bit and 0 bits up to the block's end. That block is cleared first.
#[tactic(auto, unfolding(bits::specs::Texts::bytes_for, crate::specs::Padding::padded_length, crate::specs::Padding::zeros_for))]
fn put_padded(input: &[u8], bits: usize, out: &mut [u8])
    requires { (bits ≤ 8 * length input.now) × (bits ≤ max_pad_bits) × (bytes_for (padded_length bits) ≤ length out.old) }
    ensures { out.new ≡ pack (padded (fed_text input.now bits)) ++ drop (bytes_for (padded_length bits)) out.old }
{
    let last = bits / BLOCK_BITS * Session::BLOCK;
    out[last..last + Session::BLOCK].copy_from_slice(&[0; Session::BLOCK]);
    // By index: `copy_from_slice` of a length that is not known is a call of C's memmove.
    for i in 0..questions::bytes_for(bits) {
        out[i] = input[i];
    }
    let mark = bits / 8;
    out[mark] = marked(out[mark], bits % 8);
}

// A byte's first r bits, then a 1 bit, then 0 bits.
#[tactic(auto, using(crate::proofs::PadLaws::marked_byte))]
fn marked(byte: u8, r: usize) -> u8
    requires { r < 8 }
    ensures { result ≡ byte_of (take r (byte_bits byte) ++ true ∷ replicate (7 - r) false) }
{
    let zeros = 7 - r;
    ((byte >> zeros) | 1) << zeros
}

// Pads the first `bits` bits of `input`, and writes the padded text from out[place] on. The answer is its length in
// bits.
pub fn pad(input: &[u8], bits: usize, out: &mut [u8], place: usize) -> Result<usize, Refusal>
    ensures { PaddedBy input.now bits out.old place (answered result) out.new }
{
    ask_pad(Lent {
        bytes: input.len(),
        bits,
        size: out.len(),
        place,
    })?;
    put_padded(input, bits, &mut out[place..]);
    Ok(padded_bits(bits))
}
