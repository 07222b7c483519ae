// Ciphertext stealing (request 03): the last two blocks of a message.
#![tactic(auto)]

ghost use Rattle.std.specs.Prelude.{◌≡◌, ◌++◌, ◌+◌, ◌≤◌, take};
ghost use Rattle.bits.specs.Texts.{bits};
ghost use Rattle.cipher.specs.Cipher.{Enc, Dec};
ghost use Rattle.stolen.specs.Stealing.{stolen_text};
ghost use Rattle.ending.specs.Inner.Endings.{restored_bytes, EncryptedBytes, DecryptedBytes, Ends};

use aes::Schedule;
use modes::Session;
use questions::BLOCK_BITS;
use rules::Direction;

// The block before the end, and the end, whose bits stand first in its 16 bytes.
#[derive(Clone, Copy)]
pub struct Ending {
    pub block: [u8; 16],
    pub end: [u8; 16],
}

// From the last full block of a plaintext and the tail, filled with 00.
fn encrypt_ending(schedule: &Schedule, register: [u8; 16], full: [u8; 16], tail: [u8; 16]) -> Ending
    ensures { EncryptedBytes (Enc schedule.now.rounds schedule.now.keys) register full tail result }
{
    let end = schedule.encrypt(bits::xor_block(full, register));
    let block = schedule.encrypt(bits::xor_block(tail, end));
    Ending { block, end }
}

// The end's first bytes, and after them those of the block before it, decrypted.
fn restore(end: [u8; 16], opened: [u8; 16], size: usize) -> [u8; 16]
    requires { size ≤ 128 }
    ensures { result ≡ restored_bytes end opened size }
{
    let mut stolen = opened;
    bits::put_bits(&mut stolen, 0, end, size);
    stolen
}

// From the block before the end of a ciphertext, which is decrypted first, and the end.
fn decrypt_ending(
    schedule: &Schedule,
    register: [u8; 16],
    block: [u8; 16],
    end: [u8; 16],
    size: usize,
) -> Ending
    requires { size ≤ 128 }
    ensures { DecryptedBytes (Dec schedule.now.rounds schedule.now.keys) register block end size result }
{
    let opened = schedule.decrypt(block);
    let stolen = restore(end, opened, size);
    Ending {
        block: bits::xor_block(schedule.decrypt(stolen), register),
        end: bits::xor_block(opened, stolen),
    }
}

// The last two blocks of a message, which are a message of their own with the session's register for an IV. The part
// begins at the first of them, and the end has `size` bits.
pub fn finish(session: Session, part: &[u8], size: usize) -> Ending
    requires { Ends session.rounds size part.now }
    ensures { bits result.block ++ take size (bits result.end) ≡ stolen_text (Enc session.rounds session.keys) (Dec session.rounds session.keys) session.direction session.register (take (128 + size) (bits part.now)) }
{
    let keys = session.keys;
    let schedule = Schedule {
        rounds: session.rounds,
        keys,
    };
    let block = bits::window(part, 0, BLOCK_BITS);
    let end = bits::window(part, BLOCK_BITS, size);
    match session.direction {
        Direction::Encrypt => encrypt_ending(&schedule, session.register, block, end),
        Direction::Decrypt => decrypt_ending(&schedule, session.register, block, end, size),
    }
}
