// The words of the round keys, in the order of their use.
ghost use Rattle.std.specs.Prelude.{◌≡◌, true, ◌+◌, ◌-◌, ◌*◌, ◌≤◌, ◌<◌};
ghost use Rattle.field.specs.Rows.{word_at};
ghost use Rattle.columns.specs.Inner.Words.{word_bytes};
ghost use Rattle.prepared.specs.Inner.Parts.{Holds, Filled, reversed_rule, zero_from, word_rule, Unmixed};

use crate::fill::fill;
use crate::layout::Prepared;
use crate::words;
use columns::{KEYS, ROUNDS};

// Word i of the round keys.
fn key_word(keys: &[u8; 240], i: usize) -> u32
    requires { i < 60 }
    ensures { word_bytes result ≡ word_at keys.now i }
{
    let at = 4 * i;
    u32::from_le_bytes([keys[at], keys[at + 1], keys[at + 2], keys[at + 3]])
}

// From the last round key to the first, and the columns of each in the order 0, 3, 2, 1.
fn reversed_words(rounds: usize, keys: &[u8; 240]) -> [u32; 60]
    requires { rounds ≤ 14 }
    ensures { Holds 60 (zero_from (4 * rounds + 4) (reversed_rule rounds keys.now)) result }
{
    let mut reversed = [0; 60];
    for i in 0..4 * rounds + 4 {
        reversed[i] = key_word(keys, 4 * (rounds - i / 4) + (4 - i % 4) % 4);
    }
    reversed
}

fn unmix_middle(rounds: usize, reversed: [u32; 60]) -> [u32; 60]
    requires { (0 < rounds) × (rounds ≤ 14) }
    ensures { Unmixed (4 * rounds) reversed result }
{
    let mut words = reversed;
    for i in 4..4 * rounds {
        words[i] = words::unmix(words[i]);
    }
    words
}

// None under rounds other than 10, 12 and 14.
fn backward_words(rounds: usize, keys: &[u8; 240]) -> [u32; 60]
    ensures { Holds 60 (word_rule true rounds keys.now) result }
{
    if cipher::rounds_ok(rounds) {
        unmix_middle(rounds, reversed_words(rounds, keys))
    } else {
        [0; 60]
    }
}

// The words after the tables.
pub fn fill_words(decrypting: bool, rounds: usize, keys: &[u8; 240], prepared: &mut Prepared)
    ensures { Filled 1280 1340 (λ i. word_rule decrypting rounds keys.now (i - 1280)) prepared.old prepared.new }
{
    if decrypting {
        let words = backward_words(rounds, keys);
        fill(prepared, KEYS, ROUNDS, |i| words[i - KEYS]);
    } else {
        fill(prepared, KEYS, ROUNDS, |i| key_word(keys, i - KEYS));
    }
}
