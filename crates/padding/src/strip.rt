// Unpad: from the end of the last block, pass 0 bits up to the first 1 bit.
ghost use Rattle.std.specs.Prelude.{◌≡◌, ◌-◌, pred};
ghost use Rattle.bits.specs.Texts.{bits};
ghost use Rattle.questions.specs.Refusals.{number_in};
ghost use Rattle.padding.specs.Padding.{up_to_last_one, unpad_number, answered, UnpaddedBy};

use modes::Session;
use questions::{BLOCK_BITS, Refusal};

// How many bits at a block's end are padding: its last 1 and the 0 bits after that. A block of 0 bits is padding whole,
// as 80 and fifteen 00 are.
fn padding_bits(block: [u8; 16]) -> usize
    ensures { result ≡ 128 - pred (up_to_last_one (bits block) 128) }
{
    for n in 0..Session::BLOCK {
        let byte = block[Session::BLOCK - 1 - n];
        if byte != 0 {
            return n * 8 + byte.trailing_zeros() as usize + 1;
        }
    }
    BLOCK_BITS
}

// Questions 6 and 7.
#[tactic(auto, unfolding(crate::specs::Padding::unpad_number, crate::specs::Padding::unpad_questions, crate::specs::Padding::whole_blocks, questions::specs::Questions::ask))]
fn ask_unpad(bytes: usize, bits: usize) -> Result<(), Refusal>
    ensures { number_in result ≡ unpad_number bytes bits }
{
    if !questions::bits_ok(Session::MAX_BITS, bytes, bits) {
        return Err(Refusal::Bits);
    }
    if bits == 0 || !bits.is_multiple_of(BLOCK_BITS) {
        return Err(Refusal::PartUnit);
    }
    Ok(())
}

// How many bits of a padded text, the first `bits` bits of `input`, stand before its padding. The last 128 of them are
// read, and nothing else.
pub fn unpad(input: &[u8], bits: usize) -> Result<usize, Refusal>
    ensures { UnpaddedBy input.now bits (answered result) }
{
    ask_unpad(input.len(), bits)?;
    let block = bits::window(input, bits - BLOCK_BITS, BLOCK_BITS);
    Ok(bits - padding_bits(block))
}
