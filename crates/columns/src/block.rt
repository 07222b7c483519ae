// A block by what was prepared.
ghost use Rattle.std.specs.Prelude.{◌≡◌, true};
ghost use Rattle.steps.specs.State.{from_block, to_block};
ghost use Rattle.cipher.specs.Cipher.{rounds_ok};
ghost use Rattle.columns.specs.Inner.Words.{of_words};
ghost use Rattle.columns.specs.Inner.Rounds.{arranged, rounds_in, decrypts_by, block_by_rounds};
ghost use Rattle.columns.specs.Block.{prepared_block};

use crate::layout::Prepared;
use crate::{layout, rounds};
use std::array;

fn load(block: [u8; 16]) -> [u32; 4]
    ensures { of_words result ≡ from_block block }
{
    array::from_fn(|c| {
        let at = 4 * c;
        u32::from_le_bytes([block[at], block[at + 1], block[at + 2], block[at + 3]])
    })
}

// To decrypt, the columns stand in the order 0, 3, 2, 1.
fn arrange(decrypting: bool, s: [u32; 4]) -> [u32; 4]
    ensures { of_words result ≡ arranged decrypting (of_words s) }
{
    if decrypting {
        [s[0], s[3], s[2], s[1]]
    } else {
        s
    }
}

fn store(s: [u32; 4]) -> [u8; 16]
    ensures { result ≡ to_block (of_words s) }
{
    array::from_fn(|i| s[i / 4].to_le_bytes()[i % 4])
}

// What is said of a word is said of its bytes, so a number is read by the lowest.
fn decrypts(prepared: &Prepared) -> bool
    ensures { result ≡ decrypts_by prepared.now }
{
    0 < prepared[layout::DIRECTION] % 256
}

fn rounds_of(prepared: &Prepared) -> usize
    ensures { result ≡ rounds_in prepared.now }
{
    (prepared[layout::ROUNDS] % 256) as usize
}

fn by_rounds(prepared: &Prepared, rounds: usize, block: [u8; 16]) -> [u8; 16]
    requires { rounds_ok rounds ≡ true }
    ensures { result ≡ block_by_rounds prepared.now rounds block }
{
    let decrypting = decrypts(prepared);
    let mut s = rounds::add_words(prepared, 0, arrange(decrypting, load(block)));
    for round in 1..rounds {
        s = rounds::add_words(prepared, round, rounds::table_round(prepared, s));
    }
    let last = rounds::add_words(prepared, rounds, rounds::last_round(prepared, s));
    store(arrange(decrypting, last))
}

// Zero bytes under rounds other than 10, 12 and 14.
pub fn by_prepared(prepared: &Prepared, block: [u8; 16]) -> [u8; 16]
    ensures { result ≡ prepared_block prepared.now block }
{
    let rounds = rounds_of(prepared);
    if cipher::rounds_ok(rounds) {
        by_rounds(prepared, rounds, block)
    } else {
        [0; 16]
    }
}
