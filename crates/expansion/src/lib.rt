// Key expansion (FIPS 197 section 5.2).
#![tactic(auto)]

ghost use Rattle.std.specs.Prelude.{◌≡◌, ◌+◌, ◌-◌, ◌*◌, ◌/◌, ◌≤◌, ◌<◌, true, ◌++◌, length, take, drop, replicate};
ghost use Rattle.bits.specs.Xor.{xor_bytes};
ghost use Rattle.field.specs.Rows.{word_at};
ghost use Rattle.expansion.specs.KeyExpansion.{power, temp, next_word, round_keys, key_ok};

use std::array;

// x^j in the field.
fn power_of_x(j: usize) -> u8
    ensures { result ≡ power j }
{
    let mut value = 1;
    for _ in 0..j {
        value = field::double(value);
    }
    value
}

fn word_at(w: &[u8; 240], i: usize) -> [u8; 4]
    requires { i < 60 }
    ensures { result ≡ word_at w.now i }
{
    array::from_fn(|j| w[4 * i + j])
}

fn xor_word(a: [u8; 4], b: [u8; 4]) -> [u8; 4]
    ensures { result ≡ xor_bytes a b }
{
    array::from_fn(|i| a[i] ^ b[i])
}

// What is added to word i - nk, from the word before i.
fn temp_word(nk: usize, i: usize, t: [u8; 4]) -> [u8; 4]
    requires { (0 < nk) × (nk ≤ i) }
    ensures { result ≡ temp nk i t }
{
    let table = boxes::sbox();
    match i % nk {
        0 => {
            let [a, b, c, d] = t;
            let constant = [power_of_x(i / nk - 1), 0, 0, 0];
            xor_word(boxes::substitute_row(&table, [b, c, d, a]), constant)
        }
        4 if 6 < nk => boxes::substitute_row(&table, t),
        _ => t,
    }
}

// Word i, from the words before it.
fn next_word(w: &[u8; 240], nk: usize, i: usize) -> [u8; 4]
    requires { (0 < nk) × (nk ≤ i) × (i < 60) }
    ensures { result ≡ next_word nk w.now i }
{
    xor_word(word_at(w, i - nk), temp_word(nk, i, word_at(w, i - 1)))
}

fn put_word(w: &mut [u8; 240], at: usize, word: [u8; 4])
    requires { at < 237 }
    ensures { w.new ≡ take at w.old ++ word ++ drop (at + 4) w.old }
{
    w[at..at + 4].copy_from_slice(&word);
}

// The key's bytes, then 0.
fn with_key(key: &[u8]) -> [u8; 240]
    requires { length key.now ≤ 240 }
    ensures { result ≡ key.now ++ replicate (240 - length key.now) 0 }
{
    let mut w = [0; 240];
    w[..key.len()].copy_from_slice(key);
    w
}

// The round keys of a key of 16, 24 or 32 bytes.
pub fn round_keys(key: &[u8]) -> [u8; 240]
    requires { key_ok key.now ≡ true }
    ensures { result ≡ round_keys key.now }
{
    let nk = key.len() / 4;
    let mut w = with_key(key);
    for i in nk..4 * (nk + 7) {
        let word = next_word(&w, nk, i);
        put_word(&mut w, 4 * i, word);
    }
    w
}
