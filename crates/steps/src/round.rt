// The steps of a round, row by row. The rows of a state are written out, with no `map` or `array::from_fn`: a proof
// learns nothing of an array that a closure gives.
ghost use Rattle.std.specs.Prelude.{◌≡◌, ◌+◌, ◌*◌, ◌%◌, ◌<◌, get_or};
ghost use Rattle.bits.specs.Xor.{xor};
ghost use Rattle.field.specs.Field.{double};
ghost use Rattle.field.specs.Rows.{four};
ghost use Rattle.steps.specs.Steps.{bytewise, shift_rows, inv_shift_rows, mix_columns, inv_mix_columns, add_round_key};

use std::array;

// SubBytes or InvSubBytes, by the table that is lent.
pub fn sub_bytes(table: &[u8; 256], s: [[u8; 4]; 4]) -> [[u8; 4]; 4]
    ensures { result ≡ bytewise (λ b. get_or table.now b 0) s }
{
    let [a, b, c, d] = s;
    [
        boxes::substitute_row(table, a),
        boxes::substitute_row(table, b),
        boxes::substitute_row(table, c),
        boxes::substitute_row(table, d),
    ]
}

// A row turned left by this many bytes.
fn turned(row: [u8; 4], by: usize) -> [u8; 4]
    requires { by < 4 }
    ensures { result ≡ four (λ i. get_or row ((by + i) % 4) 0) }
{
    array::from_fn(|i| row[(by + i) % 4])
}

pub fn shift_rows(s: [[u8; 4]; 4]) -> [[u8; 4]; 4]
    ensures { result ≡ shift_rows s }
{
    let [a, b, c, d] = s;
    [turned(a, 0), turned(b, 1), turned(c, 2), turned(d, 3)]
}

pub fn inv_shift_rows(s: [[u8; 4]; 4]) -> [[u8; 4]; 4]
    ensures { result ≡ inv_shift_rows s }
{
    let [a, b, c, d] = s;
    [turned(a, 0), turned(b, 3), turned(c, 2), turned(d, 1)]
}

// 02 a + 03 b + c + d, at each byte of four rows.
fn mix_row(a: [u8; 4], b: [u8; 4], c: [u8; 4], d: [u8; 4]) -> [u8; 4]
    ensures { result ≡ four (λ i. xor (xor (xor (double (xor (get_or a i 0) (get_or b i 0))) (get_or b i 0)) (get_or c i 0)) (get_or d i 0)) }
{
    let second = field::join_row(b);
    let doubled = field::double_row(field::join_row(a) ^ second);
    field::split_row(doubled ^ second ^ field::join_row(c) ^ field::join_row(d))
}

pub fn mix_columns(s: [[u8; 4]; 4]) -> [[u8; 4]; 4]
    ensures { result ≡ mix_columns s }
{
    let [a, b, c, d] = s;
    [
        mix_row(a, b, c, d),
        mix_row(b, c, d, a),
        mix_row(c, d, a, b),
        mix_row(d, a, b, c),
    ]
}

// a + 04 (a + c), at each byte of two rows.
fn unmix_row(a: [u8; 4], c: [u8; 4]) -> [u8; 4]
    ensures { result ≡ four (λ i. xor (get_or a i 0) (double (double (xor (get_or a i 0) (get_or c i 0))))) }
{
    let first = field::join_row(a);
    let sum = first ^ field::join_row(c);
    field::split_row(first ^ field::double_row(field::double_row(sum)))
}

// The inverse matrix is that of MixColumns times the one with the first row 05 00 04 00.
pub fn inv_mix_columns(s: [[u8; 4]; 4]) -> [[u8; 4]; 4]
    ensures { result ≡ inv_mix_columns s }
{
    let [a, b, c, d] = s;
    mix_columns([
        unmix_row(a, c),
        unmix_row(b, d),
        unmix_row(c, a),
        unmix_row(d, b),
    ])
}

// A row, with every fourth key byte from `at` on.
pub fn key_row(keys: &[u8; 240], at: usize, row: [u8; 4]) -> [u8; 4]
    requires { at < 228 }
    ensures { result ≡ four (λ i. xor (get_or row i 0) (get_or keys.now (at + 4 * i) 0)) }
{
    array::from_fn(|i| row[i] ^ keys[at + 4 * i])
}

// Put in line: the compiler keeps the rows in registers then.
#[inline(always)]
pub fn add_round_key(keys: &[u8; 240], round: usize, s: [[u8; 4]; 4]) -> [[u8; 4]; 4]
    requires { round < 15 }
    ensures { result ≡ add_round_key keys.now round s }
{
    let at = 16 * round;
    let [a, b, c, d] = s;
    [
        key_row(keys, at, a),
        key_row(keys, at + 1, b),
        key_row(keys, at + 2, c),
        key_row(keys, at + 3, d),
    ]
}
