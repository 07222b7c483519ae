// Key expansion and the one-block calls, as the crate aes answers them.
ghost use Rattle.std.specs.Prelude.{◌≡◌};
ghost use Rattle.aes.specs.Calls.{number_in, block_in, encrypted, decrypted, Expanded, BlockAnswer};

use aes::KeyLength;
use questions::Refusal;

// Writes the rounds and the 240 round key bytes, zeros where the key is refused, and gives the number.
#[unsafe(no_mangle)]
pub extern "C" fn conguraha1_aes_expand(key: &[u8], rounds: &mut usize, keys: &mut [u8; 240]) -> u8
    ensures { Expanded key.now result rounds.new keys.new }
{
    match aes::expand(key) {
        Ok(schedule) => {
            let expanded = schedule.keys;
            *rounds = schedule.rounds;
            *keys = expanded;
            0
        }
        Err(refused) => {
            *rounds = 0;
            *keys = [0; 240];
            Refusal::from(refused).into()
        }
    }
}

// Writes the block, zero bytes where the key is refused, and gives the number.
fn put_block(answer: Result<[u8; 16], KeyLength>, out: &mut [u8; 16]) -> u8
    ensures { (result ≡ number_in answer) × (out.new ≡ block_in answer) }
{
    match answer {
        Ok(block) => {
            *out = block;
            0
        }
        Err(error) => {
            *out = [0; 16];
            Refusal::from(error).into()
        }
    }
}

// Writes the encrypted block to `out` and gives the number.
#[unsafe(no_mangle)]
pub extern "C" fn conguraha1_aes_encrypt(key: &[u8], block: &[u8; 16], out: &mut [u8; 16]) -> u8
    ensures { BlockAnswer key.now (encrypted key.now block.now) result out.new }
{
    put_block(aes::encrypt(key, *block), out)
}

// Writes the decrypted block to `out` and gives the number.
#[unsafe(no_mangle)]
pub extern "C" fn conguraha1_aes_decrypt(key: &[u8], block: &[u8; 16], out: &mut [u8; 16]) -> u8
    ensures { BlockAnswer key.now (decrypted key.now block.now) result out.new }
{
    put_block(aes::decrypt(key, *block), out)
}
