// The rounds, column by column. A state is four words, its columns.
ghost use Rattle.std.specs.Prelude.{◌≡◌, ◌<◌};
ghost use Rattle.field.specs.Rows.{four};
ghost use Rattle.columns.specs.Inner.Words.{word_bytes, of_words};
ghost use Rattle.columns.specs.Inner.Rounds.{drawn, round_column, last_column, table_round, last_round, add_words};

use crate::layout;
use crate::layout::Prepared;
use std::array;

// The bytes that ShiftRows brings into column c.
fn drawn(s: [u32; 4], c: usize) -> [u8; 4]
    requires { c < 4 }
    ensures { result ≡ four (drawn (of_words s) c) }
{
    array::from_fn(|k| s[(c + k) % 4].to_le_bytes()[k])
}

// Row k reads part k of the table.
fn round_word(prepared: &Prepared, x: [u8; 4]) -> u32
    ensures { word_bytes result ≡ round_column prepared.now x }
{
    prepared[x[0] as usize]
        ^ prepared[256 + x[1] as usize]
        ^ prepared[512 + x[2] as usize]
        ^ prepared[768 + x[3] as usize]
}

fn last_word(prepared: &Prepared, x: [u8; 4]) -> u32
    ensures { word_bytes result ≡ last_column prepared.now x }
{
    u32::from_le_bytes(array::from_fn(|k| (prepared[layout::LAST + x[k] as usize] % 256) as u8))
}

pub fn table_round(prepared: &Prepared, s: [u32; 4]) -> [u32; 4]
    ensures { of_words result ≡ table_round prepared.now (of_words s) }
{
    array::from_fn(|c| round_word(prepared, drawn(s, c)))
}

// The last round has no MixColumns.
pub fn last_round(prepared: &Prepared, s: [u32; 4]) -> [u32; 4]
    ensures { of_words result ≡ last_round prepared.now (of_words s) }
{
    array::from_fn(|c| last_word(prepared, drawn(s, c)))
}

pub fn add_words(prepared: &Prepared, round: usize, s: [u32; 4]) -> [u32; 4]
    requires { round < 15 }
    ensures { of_words result ≡ add_words prepared.now round (of_words s) }
{
    array::from_fn(|c| s[c] ^ prepared[layout::KEYS + 4 * round + c])
}
