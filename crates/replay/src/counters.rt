// Counter blocks.
use crate::state::State;
use script::Words;
use std::io;

impl State {
    // place M IV BLOCK
    pub fn place(&mut self, mut words: Words<'_>) -> Option<io::Result<()>> {
        let m = words.number()?;
        let iv = words.block()?;
        let block = words.block()?;
        words.end()?;
        Some(self.answer_block(places::of_block(iv, block, m)))
    }
}
