// From a counter block back to its number in the message: how many increments of the IV, in its lowest m bits, give the
// block.
#![tactic(auto)]

ghost use Rattle.std.specs.Prelude.{◌≡◌, ◌≤◌};
ghost use Rattle.bits.specs.Counter.{number_bytes};
ghost use Rattle.questions.specs.Refusals.{number_in};
ghost use Rattle.places.specs.Answers.{upper_same, of_block_number, increments_between, answered, ToldBy};

use questions::Refusal;
use rules::Mode;

// Question 16: are the bits above the lowest m the same?
fn upper_same(iv: [u8; 16], block: [u8; 16], m: usize) -> bool
    ensures { result ≡ upper_same m iv block }
{
    m >= 128 || u128::from_be_bytes(iv) >> m == u128::from_be_bytes(block) >> m
}

// Questions 14 and 16 in order.
#[tactic(auto, unfolding(crate::specs::Answers::of_block_number, crate::specs::Answers::of_block_questions, questions::specs::Questions::ask))]
fn ask(iv: [u8; 16], block: [u8; 16], m: usize) -> Result<(), Refusal>
    ensures { number_in result ≡ of_block_number iv block m }
{
    if !rules::counter_length_ok(Mode::Ctr, m) {
        return Err(Refusal::CounterLength);
    }
    if !upper_same(iv, block, m) {
        return Err(Refusal::OtherMessage);
    }
    Ok(())
}

// From the IV up to the block in their lowest m bits, modulo 2^m.
fn difference(iv: [u8; 16], block: [u8; 16], m: usize) -> [u8; 16]
    requires { (1 ≤ m) × (m ≤ 128) }
    ensures { result ≡ number_bytes 16 (increments_between m iv block) }
{
    let whole = u128::from_be_bytes(block).wrapping_sub(u128::from_be_bytes(iv));
    let above = 128 - m;
    (whole << above >> above).to_be_bytes()
}

// The answer is a number of 16 bytes, highest first.
#[tactic(auto, using(crate::proofs::AnswerLaws::accepted_length))]
pub fn of_block(iv: [u8; 16], block: [u8; 16], m: usize) -> Result<[u8; 16], Refusal>
    ensures { ToldBy iv block m (answered result) }
{
    ask(iv, block, m)?;
    Ok(difference(iv, block, m))
}
