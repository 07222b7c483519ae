// One block of a CBC ciphertext: its neighbour, and its plaintext.
#![tactic(auto)]

ghost use Rattle.std.specs.Prelude.{◌≡◌};
ghost use Rattle.bits.specs.Xor.{xor_bytes};
ghost use Rattle.cipher.specs.Cipher.{Dec};
ghost use Rattle.questions.specs.Questions.{ask};
ghost use Rattle.questions.specs.Refusals.{number_in};
ghost use Rattle.single.specs.Single.{block_at, block_ok, neighbour_of, neighbour_questions, neighbour_answer, SingleBy};

use aes::Schedule;
use modes::Session;
use questions::{BLOCK_BITS, Refusal};

// Question 11.
#[tactic(auto, unfolding(crate::specs::Single::block_ok))]
fn block_ok(bytes: usize, j: usize) -> bool
    ensures { result ≡ block_ok bytes j }
{
    bytes.is_multiple_of(Session::BLOCK) && j < bytes / Session::BLOCK
}

// Questions 2 and 11: the neighbour is an empty part where one of them is answered 'no'.
#[tactic(auto, unfolding(crate::specs::Single::neighbour_questions, questions::specs::Questions::ask, questions::specs::Questions::iv_ok))]
pub fn ask_neighbour(iv: &[u8], text: &[u8], j: usize) -> Result<(), Refusal>
    ensures { number_in result ≡ ask (neighbour_questions iv.now text.now j) }
{
    if iv.len() != Session::BLOCK {
        return Err(Refusal::IvLength);
    }
    if !block_ok(text.len(), j) {
        return Err(Refusal::NoBlock);
    }
    Ok(())
}

// What stands before block j of the ciphertext: the IV for j = 0, else block j - 1. An empty part where it is refused.
#[tactic(auto, using(crate::proofs::NumberLaws::there), unfolding(crate::specs::Single::neighbour_answer, crate::specs::Single::neighbour_of, crate::specs::Single::block_at))]
pub fn neighbour<'a>(iv: &'a [u8], text: &'a [u8], j: usize) -> &'a [u8]
    ensures { result.now ≡ neighbour_answer iv.now text.now j }
{
    if ask_neighbour(iv, text, j).is_err() {
        return &iv[iv.len()..];
    }
    if j == 0 {
        return iv;
    }
    &text[(j - 1) * Session::BLOCK..j * Session::BLOCK]
}

#[tactic(auto, using(crate::proofs::NumberLaws::there))]
fn plain_block(schedule: &Schedule, iv: &[u8], text: &[u8], j: usize) -> [u8; 16]
    requires { ask (neighbour_questions iv.now text.now j) ≡ 0 }
    ensures { result ≡ xor_bytes (Dec schedule.now.rounds schedule.now.keys (block_at text.now j)) (neighbour_of iv.now text.now j) }
{
    let block = bits::window(&text[j * Session::BLOCK..], 0, BLOCK_BITS);
    let before = bits::window(neighbour(iv, text, j), 0, BLOCK_BITS);
    bits::xor_block(schedule.decrypt(block), before)
}

// Decrypts block j of the ciphertext `text` with its neighbour, and writes its 16 bytes from out[place] on.
#[tactic(auto, unfolding(crate::specs::Single::single_number, crate::specs::Single::single_questions, crate::specs::Single::neighbour_questions, questions::specs::Questions::ask, questions::specs::Questions::room_ok, aes::specs::Calls::key_number))]
pub fn decrypt_block(
    key: &[u8],
    iv: &[u8],
    text: &[u8],
    j: usize,
    out: &mut [u8],
    place: usize,
) -> Result<(), Refusal>
    ensures { SingleBy key.now iv.now text.now j out.old place (number_in result) out.new }
{
    let schedule = aes::expand(key)?;
    ask_neighbour(iv, text, j)?;
    if !questions::room_ok(out.len(), place, Session::BLOCK) {
        return Err(Refusal::Room);
    }
    let plain = plain_block(&schedule, iv, text, j);
    out[place..place + Session::BLOCK].copy_from_slice(&plain);
    Ok(())
}
