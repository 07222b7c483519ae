// What is prepared once for many blocks.
ghost use Rattle.std.specs.Prelude.{◌≡◌, cond};
ghost use Rattle.cipher.specs.Cipher.{rounds_ok};
ghost use Rattle.prepared.specs.Inner.Parts.{Filled, end_rule};
ghost use Rattle.prepared.specs.Prepared.{PreparedBy};

use crate::layout::Prepared;
use crate::{keys, table};

// 0 where there is no cipher of this many rounds.
fn rounds_word(rounds: usize) -> u32
    ensures { result ≡ cond (rounds_ok rounds) rounds 0 }
{
    if cipher::rounds_ok(rounds) {
        rounds as u32
    } else {
        0
    }
}

// The last two words.
fn fill_ends(decrypting: bool, rounds: usize, prepared: &mut Prepared)
    ensures { Filled 1340 1342 (end_rule decrypting rounds) prepared.old prepared.new }
{
    prepared[columns::ROUNDS] = rounds_word(rounds);
    prepared[columns::DIRECTION] = u32::from(decrypting);
}

// Fills `prepared` for Enc, or for Dec where `decrypting` holds. Nothing is left of what stood there.
pub fn prepare(decrypting: bool, rounds: usize, keys: &[u8; 240], prepared: &mut Prepared)
    ensures { PreparedBy decrypting rounds keys.now prepared.new }
{
    table::fill_tables(decrypting, prepared);
    keys::fill_words(decrypting, rounds, keys, prepared);
    fill_ends(decrypting, rounds, prepared);
}
