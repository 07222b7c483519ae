// The block functions Enc and Dec, under given rounds and round keys. These are two arguments and no struct: a session
// holds them as fields of its own, with any rounds.
ghost use Rattle.std.specs.Prelude.{◌≡◌, true};
ghost use Rattle.cipher.specs.Cipher.{cipher, inv_cipher, rounds_ok, Enc, Dec};

pub fn rounds_ok(rounds: usize) -> bool
    ensures { result ≡ rounds_ok rounds }
{
    matches!(rounds, 10 | 12 | 14)
}

// Section 5.1. The table is held in a local, once a block.
fn cipher_block(rounds: usize, keys: &[u8; 240], block: [u8; 16]) -> [u8; 16]
    requires { rounds_ok rounds ≡ true }
    ensures { result ≡ cipher rounds keys.now block }
{
    let table = boxes::sbox();
    let mut s = steps::add_round_key(keys, 0, steps::load(block));
    for round in 1..rounds {
        let mixed = steps::mix_columns(steps::shift_rows(steps::sub_bytes(&table, s)));
        s = steps::add_round_key(keys, round, mixed);
    }
    let shifted = steps::shift_rows(steps::sub_bytes(&table, s));
    steps::store(steps::add_round_key(keys, rounds, shifted))
}

// Section 5.3.
fn inv_cipher_block(rounds: usize, keys: &[u8; 240], block: [u8; 16]) -> [u8; 16]
    requires { rounds_ok rounds ≡ true }
    ensures { result ≡ inv_cipher rounds keys.now block }
{
    let table = boxes::inv_sbox();
    let mut s = steps::add_round_key(keys, rounds, steps::load(block));
    for round in (1..rounds).rev() {
        let subbed = steps::sub_bytes(&table, steps::inv_shift_rows(s));
        s = steps::inv_mix_columns(steps::add_round_key(keys, round, subbed));
    }
    let subbed = steps::sub_bytes(&table, steps::inv_shift_rows(s));
    steps::store(steps::add_round_key(keys, 0, subbed))
}

// Enc. Zero bytes under rounds other than 10, 12 and 14.
pub fn encrypt_block(rounds: usize, keys: &[u8; 240], block: [u8; 16]) -> [u8; 16]
    ensures { result ≡ Enc rounds keys.now block }
{
    if rounds_ok(rounds) {
        cipher_block(rounds, keys, block)
    } else {
        [0; 16]
    }
}

// Dec. Zero bytes under rounds other than 10, 12 and 14.
pub fn decrypt_block(rounds: usize, keys: &[u8; 240], block: [u8; 16]) -> [u8; 16]
    ensures { result ≡ Dec rounds keys.now block }
{
    if rounds_ok(rounds) {
        inv_cipher_block(rounds, keys, block)
    } else {
        [0; 16]
    }
}
