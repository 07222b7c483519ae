// The calls of `aes`: round keys, and one block under a key.
use crate::state::State;
use aes::KeyLength;
use script::{Hex, Space, Words};
use std::io;
use std::io::Write;

impl State {
    // expand KEY
    pub fn expand(
        &mut self,
        mut words: Words<'_>,
        space: &mut Space<'_>,
    ) -> Option<io::Result<()>> {
        let key = words.bytes(space)?;
        words.end()?;
        Some(match aes::expand(key) {
            Ok(schedule) => writeln!(
                self.answers,
                "0 {} {}",
                schedule.rounds,
                Hex(&schedule.keys)
            ),
            Err(KeyLength) => writeln!(self.answers, "1 0 {}", Hex(&[0; 240])),
        })
    }

    // encrypt KEY BLOCK
    pub fn encrypt(
        &mut self,
        mut words: Words<'_>,
        space: &mut Space<'_>,
    ) -> Option<io::Result<()>> {
        let key = words.bytes(space)?;
        let block = words.block()?;
        words.end()?;
        Some(self.answer_block(aes::encrypt(key, block)))
    }

    // decrypt KEY BLOCK. One function for both would be given the call, for two lines in each.
    pub fn decrypt(
        &mut self,
        mut words: Words<'_>,
        space: &mut Space<'_>,
    ) -> Option<io::Result<()>> {
        let key = words.bytes(space)?;
        let block = words.block()?;
        words.end()?;
        Some(self.answer_block(aes::decrypt(key, block)))
    }
}
