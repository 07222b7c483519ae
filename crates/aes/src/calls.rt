// The public calls: expand a key, and encrypt or decrypt one block under a key, or under a key that is expanded.
ghost use Rattle.std.specs.Prelude.{◌≡◌};
ghost use Rattle.cipher.specs.Cipher.{Enc, Dec};
ghost use Rattle.aes.specs.Calls.{key_ok, encrypted, decrypted, Expanded, BlockAnswer, number_in, rounds_in, keys_in, block_in};

use std::error::Error;
use std::fmt;

// Number 1 of the paper: a key that is not 16, 24 or 32 bytes long.
#[derive(Clone, Copy, PartialEq, Eq, Debug)]
pub struct KeyLength;

impl fmt::Display for KeyLength {
    fn fmt<W: fmt::Write>(&self, f: &mut fmt::Formatter<W>) -> fmt::Result {
        write!(f, "the key is not 16, 24 or 32 bytes long")
    }
}

impl Error for KeyLength {}

// An expanded key.
#[derive(Clone, Copy)]
pub struct Schedule {
    pub rounds: usize,
    pub keys: [u8; 240],
}

impl Schedule {
    pub fn encrypt(&self, block: [u8; 16]) -> [u8; 16]
        ensures { result ≡ Enc self.now.rounds self.now.keys block }
    {
        cipher::encrypt_block(self.rounds, &self.keys, block)
    }

    pub fn decrypt(&self, block: [u8; 16]) -> [u8; 16]
        ensures { result ≡ Dec self.now.rounds self.now.keys block }
    {
        cipher::decrypt_block(self.rounds, &self.keys, block)
    }
}

// Question 1.
pub fn key_ok(key: &[u8]) -> bool
    ensures { result ≡ key_ok key.now }
{
    matches!(key.len(), 16 | 24 | 32)
}

pub fn expand(key: &[u8]) -> Result<Schedule, KeyLength>
    ensures { Expanded key.now (number_in result) (rounds_in result) (keys_in result) }
{
    if !key_ok(key) {
        return Err(KeyLength);
    }
    Ok(Schedule {
        rounds: key.len() / 4 + 6,
        keys: expansion::round_keys(key),
    })
}

pub fn encrypt(key: &[u8], block: [u8; 16]) -> Result<[u8; 16], KeyLength>
    ensures { BlockAnswer key.now (encrypted key.now block) (number_in result) (block_in result) }
{
    Ok(expand(key)?.encrypt(block))
}

pub fn decrypt(key: &[u8], block: [u8; 16]) -> Result<[u8; 16], KeyLength>
    ensures { BlockAnswer key.now (decrypted key.now block) (number_in result) (block_in result) }
{
    Ok(expand(key)?.decrypt(block))
}
