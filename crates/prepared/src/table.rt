// The two tables of a block function, of words: that of the rounds, and that of the last round, a byte to a word.
ghost use Rattle.std.specs.Prelude.{◌≡◌};
ghost use Rattle.boxes.specs.Boxes.{Tabulates};
ghost use Rattle.columns.specs.Inner.Words.{word_bytes};
ghost use Rattle.prepared.specs.Inner.Parts.{substituted, column_times, Holds, entry_rule, table_rule};

use crate::fill::fill;
use crate::layout::Prepared;
use columns::{KEYS, LAST};

// A byte times column 0 of the matrix: 02 01 01 03, or 0e 09 0d 0b.
fn entry(decrypting: bool, b: u8) -> u32
    ensures { word_bytes result ≡ column_times decrypting 0 b }
{
    let twice = field::double(b);
    if decrypting {
        let fourfold = field::double(twice);
        let eightfold = field::double(fourfold);
        u32::from_le_bytes([
            eightfold ^ fourfold ^ twice,
            eightfold ^ b,
            eightfold ^ fourfold ^ b,
            eightfold ^ twice ^ b,
        ])
    } else {
        u32::from_le_bytes([twice, b, b, twice ^ b])
    }
}

// Four parts of 256 entries. Each column of the matrix is the one before it turned by one byte, and so each part is.
fn fill_table(decrypting: bool, last: &[u8; 256], prepared: &mut Prepared)
    ensures { Holds 1024 (entry_rule decrypting last.now) prepared.new }
{
    fill(prepared, 0, 256, |i| entry(decrypting, last[i]));
    for i in 256..LAST {
        prepared[i] = prepared[i - 256].rotate_left(8);
    }
}

// And after that table the one of the last round.
fn fill_both(decrypting: bool, last: &[u8; 256], prepared: &mut Prepared)
    requires { Tabulates (substituted decrypting) last.now }
    ensures { Holds 1280 (table_rule decrypting) prepared.new }
{
    fill_table(decrypting, last, prepared);
    fill(prepared, LAST, KEYS, |i| u32::from(last[i - LAST]));
}

// A box of its own in each branch: of one that comes out of both the compiler makes two copies.
pub fn fill_tables(decrypting: bool, prepared: &mut Prepared)
    ensures { Holds 1280 (table_rule decrypting) prepared.new }
{
    if decrypting {
        fill_both(decrypting, &boxes::inv_sbox(), prepared);
    } else {
        fill_both(decrypting, &boxes::sbox(), prepared);
    }
}
